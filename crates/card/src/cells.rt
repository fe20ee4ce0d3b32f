// How many cells are in use, and how many flip-flops there are.
ghost use Rattle.std.specs.Prelude.{◌≡◌, ◌*◌, ◌/◌, ◌≤◌, length, count_by};
ghost use Rattle.std.specs.List.{range_with_len};
ghost use Rattle.ports.specs.Lengths.{settings_length};
ghost use Rattle.equations.specs.Tiles.{TileInside};
ghost use Rattle.card.specs.Cells.{used_cell, flop_cell};

use codec::cells::CELLS_FROM;
use equations::tiles::{cell_at, tile_setting};
use ports::lengths::CELLS_PER_TILE;

// Whether cell c of a block is not all zero.
fn is_used(st: &[u16], c: usize) -> bool
    requires { TileInside st.now (c / 8) }
    ensures { result ≡ used_cell st.now c }
{
    let tile = c / CELLS_PER_TILE;
    let n = CELLS_FROM + 2 * (c % CELLS_PER_TILE);
    tile_setting(st, tile, n) != 0 || tile_setting(st, tile, n + 1) != 0
}

// Whether cell c of a block has its flip-flop enabled.
pub fn is_flop(st: &[u16], c: usize) -> bool
    requires { TileInside st.now (c / 8) }
    ensures { result ≡ flop_cell st.now c }
{
    cell_at(st, c / CELLS_PER_TILE, c % CELLS_PER_TILE).flipflop
}

// How many of the cells of n tiles are not all zero.
pub fn count_used(st: &[u16], n: usize) -> usize
    requires { (n ≤ 64) × (length st.now ≡ settings_length * n) }
    ensures { result ≡ count_by (used_cell st.now) (range_with_len 0 (8 * n)) }
{
    (0..CELLS_PER_TILE * n).filter(|c| is_used(st, *c)).count()
}

// How many of the cells of n tiles are flip-flops.
pub fn count_flops(st: &[u16], n: usize) -> usize
    requires { (n ≤ 64) × (length st.now ≡ settings_length * n) }
    ensures { result ≡ count_by (flop_cell st.now) (range_with_len 0 (8 * n)) }
{
    (0..CELLS_PER_TILE * n).filter(|c| is_flop(st, *c)).count()
}
