// The clock check (document 01, ground 8): no clk of a tile with a flip-flop, and no s_r of one with an asynchronous flip-flop, comes from a cell.
ghost use Rattle.std.specs.Prelude.{◌≡◌, not, ◌&&◌, ◌<◌, length};
ghost use Rattle.lists.specs.Search.{below};
ghost use Rattle.lists.specs.Tables.{zeros};
ghost use Rattle.ports.specs.Block.{tiles};
ghost use Rattle.ports.specs.Lengths.{ports, ports_per_tile};
ghost use Rattle.equations.specs.Tiles.{TileInside, flop_on};
ghost use Rattle.equations.specs.Routed.{Mapped};
ghost use Rattle.drivers.specs.Following.{Bounded};
ghost use Rattle.drivers.specs.Clocks.{async_flop_on, is_outside, any_cell, driven_outside, clocked_at, clocked_tile};

use crate::follow::{Driver, clear_driver};
use equations::tiles::{cell_at, tile_wire};
use ports::lengths::CELLS_PER_TILE;
use ports::size::Block;

// Whether a driver is no cell. It goes on only for an open wire or a constant.
// Rules out: a ring or a carry_in_mux that passes.
pub fn clock_ok(d: Driver) -> bool
    ensures { result ≡ is_outside d }
{
    // let else, as document 01 asks for it by name
    let (Driver::Open(_) | Driver::Constant(_, _)) = d else {
        return false;
    };
    true
}

// Whether a cell of the tile has a flip-flop.
fn has_flop(st: &[u16], tile: usize) -> bool
    requires { TileInside st.now tile }
    ensures { result ≡ any_cell (flop_on st.now tile) }
{
    (0..CELLS_PER_TILE).any(|i| cell_at(st, tile, i).flipflop)
}

// Whether a cell of the tile has an asynchronous one.
fn has_async_flop(st: &[u16], tile: usize) -> bool
    requires { TileInside st.now tile }
    ensures { result ≡ any_cell (async_flop_on st.now tile) }
{
    (0..CELLS_PER_TILE).any(|i| {
        let cell = cell_at(st, tile, i);
        cell.flipflop && cell.asynchronous
    })
}

// Whether port q of a tile comes from a cell, where that is asked.
fn is_from_cell(
    b: Block,
    st: &[u16],
    wires: &[u16],
    sources: &[u16],
    tile: usize,
    q: u32,
    asked: bool,
    marks: &mut [u16],
) -> bool
    requires { Mapped b st.now wires.now × (length sources.now ≡ ports b) × Bounded sources.now × (tile < tiles b) ×
        (q < ports_per_tile) × (marks.old ≡ zeros (ports b)) }
    ensures answer { result ≡ asked && not (driven_outside b st.now sources.now tile q) }
    ensures marks { marks.new ≡ zeros (ports b) }
{
    asked && !clock_ok(clear_driver(b, sources, usize::from(tile_wire(b, wires, tile, q)), marks))
}

// Whether the clock or the reset of a tile comes from a cell.
#[tactic(auto, unfolding(crate::specs::Clocks::clocked_at))]
fn is_clocked(
    b: Block,
    st: &[u16],
    wires: &[u16],
    sources: &[u16],
    tile: usize,
    marks: &mut [u16],
) -> bool
    requires { Mapped b st.now wires.now × (length sources.now ≡ ports b) × Bounded sources.now × (tile < tiles b) ×
        (marks.old ≡ zeros (ports b)) }
    ensures answer { result ≡ clocked_at b st.now sources.now tile }
    ensures marks { marks.new ≡ zeros (ports b) }
{
    let flop = has_flop(st, tile);
    let async_flop = has_async_flop(st, tile);
    is_from_cell(b, st, wires, sources, tile, ports::CLK, flop, marks)
        || is_from_cell(b, st, wires, sources, tile, ports::S_R, async_flop, marks)
}

// The lowest tile whose clock or reset comes from a cell. `marks` is work room, and is left clear.
// Rules out: asking for a clock where no cell has a flip-flop; bit 19 without bit 9 taken as a flip-flop.
pub fn clocked_tile(
    b: Block,
    st: &[u16],
    wires: &[u16],
    sources: &[u16],
    marks: &mut [u16],
) -> Option<usize>
    requires { Mapped b st.now wires.now × (length sources.now ≡ ports b) × Bounded sources.now × (length marks.old ≡ ports b) }
    ensures answer { result ≡ below (tiles b) (clocked_tile b st.now sources.now) }
    ensures marks { marks.new ≡ zeros (ports b) }
{
    let tiles = (b.h * b.w) as usize;
    marks.fill(0);
    for tile in 0..tiles {
        if is_clocked(b, st, wires, sources, tile, marks) {
            return Some(tile);
        }
    }
    None
}
