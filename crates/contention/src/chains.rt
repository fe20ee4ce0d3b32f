// The enabled switches of each wire as a chain: `heads` has the first link of each wire, `nexts` the next link of each switch. A link is one more than a
// switch, or 0 where the chain ends. Switches go in from the last one down, so that a chain rises, and the rows are counted as they go in. The two slices
// are no struct of their own: here they are lent to be written, in `rows` to be read, which would take two.
ghost use Rattle.std.specs.Prelude.{◌≡◌, suc, ◌+◌, ◌*◌, ◌<◌, length};
ghost use Rattle.ports.specs.Block.{Sized, tiles};
ghost use Rattle.ports.specs.Lengths.{ports, max_groups};
ghost use Rattle.fabric.specs.Wire.{wires_of};
ghost use Rattle.routing.specs.LogicTile.{logic_tile};
ghost use Rattle.routing.specs.Table.{group_count};
ghost use Rattle.equations.specs.Switches.{switches};
ghost use Rattle.equations.specs.Routed.{Routed};
ghost use Rattle.contention.specs.Contentions.{contention_count};
ghost use Rattle.contention.specs.Chains.{Chained, Tallied, up_to_two, rows_of, on_from};

use equations::tiles::{group_at, tile_wire};
use ports::lengths::MAX_GROUPS;
use ports::size::Block;
use routing::table;

// How many switches from m on end on a wire, 2 where they are more: the first two links of its chain.
pub fn first_links(
    b: Block,
    table: &[u16],
    st: &[u16],
    heads: &[u16],
    nexts: &[u16],
    m: usize,
    w: usize,
) -> usize
    requires { Sized b × Chained b table.now st.now m heads.now nexts.now × (w < ports b) }
    ensures { result ≡ up_to_two (on_from b table.now st.now w m) }
{
    let first = usize::from(heads[w]);
    if first == 0 {
        0
    } else if nexts[first - 1] == 0 {
        1
    } else {
        2
    }
}

// The rows that one switch more brings to a wire with n switches: none, two at once, or one.
fn added_rows(n: usize) -> usize
    ensures { rows_of (suc n) ≡ rows_of n + result }
{
    match n {
        0 => 0,
        1 => 2,
        _ => 1,
    }
}

// One switch more, that of group g of a tile, in front of its wire's chain; the answer is the rows with it.
fn chain_switch(
    b: Block,
    table: &[u16],
    st: &[u16],
    wires: &[u16],
    tile: usize,
    g: usize,
    heads: &mut [u16],
    nexts: &mut [u16],
    rows: usize,
) -> usize
    requires routed { Routed b table.now st.now × (wires.now ≡ wires_of b) × (tile < tiles b) × (g < group_count logic_tile table.now) }
    requires tallied { Tallied b table.now st.now (max_groups * tile + (g + 1)) heads.old nexts.old rows }
    ensures { Tallied b table.now st.now (max_groups * tile + g) heads.new nexts.new result }
{
    let e = group_at(st, tile, g);
    if e == 0 {
        return rows;
    }
    let w = usize::from(tile_wire(b, wires, tile, table::destination(table, g) as u32));
    let s = MAX_GROUPS * tile + g;
    let n = first_links(b, table, st, heads, nexts, s + 1, w);
    nexts[s] = heads[w];
    heads[w] = s as u16 + 1;
    rows + added_rows(n)
}

// All switches of a tile more, the last group first; the answer is the rows with them.
fn chain_tile(
    b: Block,
    table: &[u16],
    st: &[u16],
    wires: &[u16],
    tile: usize,
    heads: &mut [u16],
    nexts: &mut [u16],
    rows: usize,
) -> usize
    requires routed { Routed b table.now st.now × (wires.now ≡ wires_of b) × (tile < tiles b) }
    requires tallied { Tallied b table.now st.now (max_groups * (tile + 1)) heads.old nexts.old rows }
    ensures { Tallied b table.now st.now (max_groups * tile) heads.new nexts.new result }
{
    let groups = table::group_count(table);
    let mut n = rows;
    for g in (0..groups).rev() {
        n = chain_switch(b, table, st, wires, tile, g, heads, nexts, n);
    }
    n
}

// The chains of a block; the answer is how many rows they have.
// Rules out: a chain of two with one switch left out; chains that fall.
pub fn chain_block(
    b: Block,
    table: &[u16],
    st: &[u16],
    wires: &[u16],
    heads: &mut [u16],
    nexts: &mut [u16],
) -> usize
    requires { Routed b table.now st.now × (wires.now ≡ wires_of b) × (length heads.old ≡ ports b) × (length nexts.old ≡ switches b) }
    ensures chains { Chained b table.now st.now 0 heads.new nexts.new }
    ensures rows { result ≡ contention_count b table.now st.now }
{
    heads.fill(0);
    let tiles = (b.h * b.w) as usize;
    let mut n = 0;
    for tile in (0..tiles).rev() {
        n = chain_tile(b, table, st, wires, tile, heads, nexts, n);
    }
    n
}
