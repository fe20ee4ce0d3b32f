// The row of each wire of a block, from its settings, the wire of each port, and where each wire's switch comes from.
ghost use Rattle.std.specs.Prelude.{◌≡◌, ◌*◌, ◌<◌, length};
ghost use Rattle.ports.specs.Lengths.{ports};
ghost use Rattle.netlist.specs.Rows.{row_length};
ghost use Rattle.equations.specs.Routed.{Mapped, Driven};
ghost use Rattle.equations.specs.WireRows.{drive_row};
ghost use Rattle.equations.specs.Sources.{row_from, rows_from};

use crate::cell_rows::{cout_row, lookup_row, mux_row, out_row, plain_row};
use crate::drives::{Drive, drive_of};
use netlist::row;
use netlist::row::Row;
use ports::size::Block;

// The row of wire w where no switch ends on it.
#[tactic(auto, unfolding(crate::specs::WireRows::drive_row))]
fn drive_row(b: Block, st: &[u16], wires: &[u16], w: u16, drive: Drive) -> Row
    requires { Mapped b st.now wires.now × Driven b drive }
    ensures { result ≡ drive_row b st.now w drive }
{
    match drive {
        Drive::Nothing => plain_row(row::LENT, w, 0),
        Drive::Low => plain_row(row::ZERO, w, 0),
        Drive::High => plain_row(row::ONE, w, 0),
        Drive::CellOut(tile, i) => out_row(b, st, wires, w, tile as usize, i),
        Drive::CellLout(tile, i) => lookup_row(b, st, wires, w, tile as usize, i),
        Drive::CellCout(tile, i) => cout_row(b, st, wires, w, tile as usize, i),
        Drive::CarryMux(tile) => mux_row(b, st, wires, w, tile as usize),
    }
}

// The row of port number p: that of a wire, or zeros where p is no wire's number. `sources` has one more than the wire that a wire's switch
// comes from, 0 where it has none.
// Rules out: a row for a port that is not its wire's number; the row of a cell where a switch ends.
pub fn row_of(b: Block, st: &[u16], wires: &[u16], sources: &[u16], p: usize) -> Row
    requires { Mapped b st.now wires.now × (length sources.now ≡ ports b) × (p < ports b) }
    ensures { result ≡ row_from b st.now sources.now p }
{
    if usize::from(wires[p]) != p {
        return row::zero_row();
    }
    let w = p as u16;
    match sources[p].checked_sub(1) {
        Some(source) => plain_row(row::COPY, w, source),
        None => drive_row(b, st, wires, w, drive_of(b, p as u32)),
    }
}

// Writes the rows of a block, one for each port number.
#[tactic(auto, using(fabric::proofs::WireLaws::wires_length))]
pub fn write_rows(b: Block, st: &[u16], wires: &[u16], sources: &[u16], rows: &mut [u16])
    requires { Mapped b st.now wires.now × (length sources.now ≡ ports b) × (length rows.old ≡ row_length * ports b) }
    ensures { rows.new ≡ rows_from b st.now sources.now }
{
    for p in 0..wires.len() {
        row::write_row(rows, p, row_of(b, st, wires, sources, p));
    }
}
