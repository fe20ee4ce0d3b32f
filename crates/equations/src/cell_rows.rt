// The rows of what a cell drives: its lookup, out, cout, and its tile's carry_in_mux, from the settings and the wire of each port.
ghost use Rattle.std.specs.Prelude.{◌≡◌, ◌<◌};
ghost use Rattle.ports.specs.Block.{tiles};
ghost use Rattle.ports.specs.Lengths.{ports_per_tile};
ghost use Rattle.equations.specs.declared.drives.Drive.TheVariants.{CellOut, CellCout, CarryMux};
ghost use Rattle.equations.specs.Equations.{carry_port};
ghost use Rattle.equations.specs.Routed.{Mapped};
ghost use Rattle.equations.specs.RowMeaning.{plain_row, lookup_row, majority_row};
ghost use Rattle.equations.specs.WireRows.{drive_row};

use crate::tiles::{cell_at, tile_setting, tile_wire};
use netlist::row;
use netlist::row::Row;
use ports::lengths::CELLS_PER_TILE;
use ports::size::Block;
use routing::table::{CARRY_CHAIN, CARRY_IN_SET};

// A row with no table and at most one operand.
pub fn plain_row(kind: u16, wire: u16, a: u16) -> Row
    ensures { result ≡ plain_row kind wire a }
{
    Row {
        kind,
        wire,
        a,
        b: 0,
        c: 0,
        d: 0,
        table: 0,
    }
}

// A cell's lookup, as the row of wire w.
pub fn lookup_row(b: Block, st: &[u16], wires: &[u16], w: u16, tile: usize, i: u32) -> Row
    requires { Mapped b st.now wires.now × (tile < tiles b) × (i < 8) }
    ensures { result ≡ lookup_row b st.now w tile i }
{
    let q = ports::IN + 4 * i;
    let in0 = tile_wire(b, wires, tile, q);
    let in1 = tile_wire(b, wires, tile, q + 1);
    let in2 = tile_wire(b, wires, tile, q + 2);
    let in3 = tile_wire(b, wires, tile, q + 3);
    let cell = cell_at(st, tile, i as usize);
    Row {
        kind: row::LOOKUP,
        wire: w,
        a: in0,
        b: in1,
        c: in2,
        d: in3,
        table: cell.table,
    }
}

// The port that is the carry-in of cell i.
fn carry_port(i: u32) -> u32
    requires { i < 8 }
    ensures { (result ≡ carry_port i) × (result < ports_per_tile) }
{
    if i == 0 {
        ports::CARRY_IN_MUX
    } else {
        ports::COUT + (i - 1)
    }
}

// A cell's carry, as the row of wire w.
fn majority_row(b: Block, st: &[u16], wires: &[u16], w: u16, tile: usize, i: u32) -> Row
    requires { Mapped b st.now wires.now × (tile < tiles b) × (i < 8) }
    ensures { result ≡ majority_row b w tile i }
{
    let q = ports::IN + 4 * i;
    let in1 = tile_wire(b, wires, tile, q + 1);
    let in2 = tile_wire(b, wires, tile, q + 2);
    let carry = tile_wire(b, wires, tile, carry_port(i));
    Row {
        kind: row::MAJORITY,
        wire: w,
        a: in1,
        b: in2,
        c: carry,
        d: 0,
        table: 0,
    }
}

// A cell's out, as the row of wire w.
pub fn out_row(b: Block, st: &[u16], wires: &[u16], w: u16, tile: usize, i: u32) -> Row
    requires { Mapped b st.now wires.now × (tile < tiles b) × (i < 8) }
    ensures { result ≡ drive_row b st.now w (CellOut tile i) }
{
    let cell = cell_at(st, tile, i as usize);
    if cell.flipflop {
        plain_row(
            row::FLIP_FLOP,
            w,
            (CELLS_PER_TILE * tile + i as usize) as u16,
        )
    } else {
        lookup_row(b, st, wires, w, tile, i)
    }
}

// A cell's cout, as the row of wire w.
pub fn cout_row(b: Block, st: &[u16], wires: &[u16], w: u16, tile: usize, i: u32) -> Row
    requires { Mapped b st.now wires.now × (tile < tiles b) × (i < 8) }
    ensures { result ≡ drive_row b st.now w (CellCout tile i) }
{
    let cell = cell_at(st, tile, i as usize);
    if cell.carry {
        majority_row(b, st, wires, w, tile, i)
    } else {
        plain_row(row::ZERO, w, 0)
    }
}

// A tile's carry_in_mux, as the row of wire w.
pub fn mux_row(b: Block, st: &[u16], wires: &[u16], w: u16, tile: usize) -> Row
    requires { Mapped b st.now wires.now × (tile < tiles b) }
    ensures { result ≡ drive_row b st.now w (CarryMux tile) }
{
    if tile_setting(st, tile, CARRY_IN_SET) == 1 {
        plain_row(row::ONE, w, 0)
    } else if tile_setting(st, tile, CARRY_CHAIN) == 1 {
        plain_row(row::COPY, w, tile_wire(b, wires, tile, ports::CARRY_IN))
    } else {
        plain_row(row::ZERO, w, 0)
    }
}
