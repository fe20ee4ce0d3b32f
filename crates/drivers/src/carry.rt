// Disabled carries that are read (document 01, ground 6), off the rows of a block by wire.
ghost use Rattle.std.specs.Prelude.{◌≡◌, ◌*◌, ◌<◌, length};
ghost use Rattle.lists.specs.Search.{below};
ghost use Rattle.ports.specs.Block.{Sized, tiles};
ghost use Rattle.ports.specs.Lengths.{ports, settings_length};
ghost use Rattle.routing.specs.LogicTile.{logic_tile};
ghost use Rattle.netlist.specs.Rows.{arity_of};
ghost use Rattle.equations.specs.Routed.{Routed, Driven};
ghost use Rattle.equations.specs.WireRows.{wire_rows};
ghost use Rattle.drivers.specs.CarryReads.{is_disabled_carry, OperandsWithin, lower_carry, lower_carries, carry_read_wire};

use equations::drives::{Drive, drive_of};
use equations::tiles::{PORTS_PER_TILE, cell_at};
use netlist::row;
use netlist::row::Row;
use ports::size::Block;

const PORTS: u16 = ports::lengths::PORTS_PER_TILE as u16;

const CARRY_IN: u16 = ports::CARRY_IN as u16;

// Whether what drives a wire is the cout of a cell whose carry is disabled.
fn is_disabled_carry(b: Block, st: &[u16], d: Drive) -> bool
    requires { (length st.now ≡ settings_length * tiles b) × Driven b d }
    ensures { result ≡ is_disabled_carry st.now d }
{
    match d {
        Drive::CellCout(tile, i) => !cell_at(st, tile as usize, i as usize).carry,
        _ => false,
    }
}

// The lowest so far, and wire w. No port before carry_in has a cout's wire.
fn lower_carry(b: Block, st: &[u16], low: usize, w: u16) -> usize
    requires { Sized b × (length st.now ≡ settings_length * tiles b) × (w < ports b) }
    ensures { result ≡ lower_carry b st.now low w }
{
    if w % PORTS >= CARRY_IN && is_disabled_carry(b, st, drive_of(b, u32::from(w))) {
        low.min(usize::from(w))
    } else {
        low
    }
}

// The lowest so far, and what a row reads.
fn lower_carries(b: Block, st: &[u16], low: usize, row: Row) -> usize
    requires { Sized b × (length st.now ≡ settings_length * tiles b) × OperandsWithin b row }
    ensures { result ≡ lower_carries b st.now row low (arity_of row) }
{
    let mut lowest = low;
    for j in 0..row::arity(row) {
        lowest = lower_carry(b, st, lowest, row::operand(row, j));
    }
    lowest
}

// The lowest wire that is a disabled cout and is read.
// Rules out: the wire of the reader; carry_in_mux taken as a cout; passing over a cout that only a switch reads under the name carry_in.
pub fn carry_read_wire(b: Block, table: &[u16], st: &[u16], rows: &[u16]) -> Option<usize>
    requires { Routed b table.now st.now × (rows.now ≡ wire_rows b table.now st.now) }
    ensures { result ≡ below (ports b) (carry_read_wire b table.now st.now) }
{
    let n = PORTS_PER_TILE * ((b.h * b.w) as usize);
    let mut lowest = n;
    for w in 0..n {
        lowest = lower_carries(b, st, lowest, row::row_at(rows, w));
    }
    if lowest < n { Some(lowest) } else { None }
}
