// Where the bits of a logic tile's cells stand (document 01, 'Cells').
ghost use Rattle.std.specs.Prelude.{◌≡◌, ◌<◌, get_or};
ghost use Rattle.routing.specs.TileKind.{bits_per_cell};
ghost use Rattle.routing.specs.LogicTile.{lc_bits, cell_position};

use ports::lengths::COLUMNS;

pub const BITS_PER_CELL: usize = 20;

// The logic cell bits of LUT_INIT 0 to 11, then of LUT_INIT 12 to 15, carry, flip-flop, set and asynchronous, five binary digits each, the first
// lowest. Two numbers, for an array would be laid out anew at each look.
const FIRST_LC_BITS: u64 = 86029347607199172;

const LAST_LC_BITS: u64 = 672472770913;

const FIRST: usize = 12;

// The logic cell bit that a cell's bit j is.
pub fn lc_bit(j: usize) -> usize
    requires { j < bits_per_cell }
    ensures { result ≡ get_or lc_bits j 0 }
{
    if j < FIRST {
        ((FIRST_LC_BITS >> (5 * j)) & 31) as usize
    } else {
        ((LAST_LC_BITS >> (5 * (j - FIRST))) & 31) as usize
    }
}

// The position of bit j of cell i.
#[tactic(auto, unfolding(crate::specs::LogicTile::cell_position))]
pub fn cell_position(i: usize, j: usize) -> usize
    requires { (i < 8) × (j < bits_per_cell) }
    ensures { result ≡ cell_position i j }
{
    let k = lc_bit(j);
    if k < 10 {
        COLUMNS * (2 * i) + (36 + k)
    } else {
        COLUMNS * (2 * i + 1) + (26 + k)
    }
}
