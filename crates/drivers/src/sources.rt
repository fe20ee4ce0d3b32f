// The pass over the enabled switches, in order of tile and group: where each wire's switch comes from, and contention (ground 5).
ghost use Rattle.std.specs.Prelude.{◌≡◌, ◌+◌, ◌*◌, ◌<◌, length};
ghost use Rattle.lists.specs.Search.{below};
ghost use Rattle.ports.specs.Block.{tiles};
ghost use Rattle.ports.specs.Lengths.{ports, max_groups};
ghost use Rattle.fabric.specs.Wire.{wires_of};
ghost use Rattle.routing.specs.LogicTile.{logic_tile};
ghost use Rattle.routing.specs.Table.{group_count};
ghost use Rattle.equations.specs.Routed.{Routed};
ghost use Rattle.equations.specs.Sources.{sources_of, contended_wire, Sourced};

use equations::tiles::{group_at, tile_wire};
use ports::size::Block;
use routing::table;

// One switch more: that of group g of a tile. The answer is the lowest wire on which two end so far.
fn take_switch(
    b: Block,
    table: &[u16],
    st: &[u16],
    wires: &[u16],
    tile: usize,
    g: usize,
    low: usize,
    sources: &mut [u16],
) -> usize
    requires routed { Routed b table.now st.now × (wires.now ≡ wires_of b) × (tile < tiles b) × (g < group_count logic_tile table.now) }
    requires sourced { Sourced b table.now st.now (max_groups * tile + g) sources.old low }
    ensures { Sourced b table.now st.now (max_groups * tile + (g + 1)) sources.new result }
{
    let Some(entry) = group_at(st, tile, g).checked_sub(1) else {
        return low;
    };
    let destination = u32::from(table::destination(table, g));
    let u = usize::from(tile_wire(b, wires, tile, destination));
    let source = tile_wire(b, wires, tile, u32::from(table::source(table, g, entry))) + 1;
    let old = sources[u];
    if old == 0 {
        sources[u] = source;
        low
    } else {
        low.min(u)
    }
}

// The switches of a tile more.
fn take_tile(
    b: Block,
    table: &[u16],
    st: &[u16],
    wires: &[u16],
    tile: usize,
    low: usize,
    sources: &mut [u16],
) -> usize
    requires routed { Routed b table.now st.now × (wires.now ≡ wires_of b) × (tile < tiles b) }
    requires sourced { Sourced b table.now st.now (max_groups * tile) sources.old low }
    ensures { Sourced b table.now st.now (max_groups * (tile + 1)) sources.new result }
{
    let groups = table::group_count(table);
    let mut lowest = low;
    for g in 0..groups {
        lowest = take_switch(b, table, st, wires, tile, g, lowest, sources);
    }
    lowest
}

// For each wire one more than the wire that its switch comes from, or 0. The answer is the lowest wire on which two switches end.
// Rules out: two switches from one source counted as no contention; the first contended wire in the order of switches, which need not be
// the lowest.
pub fn find_sources(
    b: Block,
    table: &[u16],
    st: &[u16],
    wires: &[u16],
    sources: &mut [u16],
) -> Option<usize>
    requires { Routed b table.now st.now × (wires.now ≡ wires_of b) × (length sources.old ≡ ports b) }
    ensures answer { result ≡ below (ports b) (contended_wire b table.now st.now) }
    ensures sources { sources.new ≡ sources_of b table.now st.now }
{
    let tiles = (b.h * b.w) as usize;
    let mut low = sources.len();
    sources.fill(0);
    for tile in 0..tiles {
        low = take_tile(b, table, st, wires, tile, low, sources);
    }
    if low < sources.len() { Some(low) } else { None }
}
