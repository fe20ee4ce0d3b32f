// The wire of a port (document 01, 'Joins'): the lowest port that a chain of joins links it to.
ghost use Rattle.std.specs.Prelude.{◌≡◌, ◌≤◌, ◌<◌};
ghost use Rattle.ports.specs.Block.{Sized, port};
ghost use Rattle.ports.specs.Lengths.{ports_per_tile, ports};
ghost use Rattle.fabric.specs.Wire.{below, wire_of};

use crate::output::output_wire;
use crate::span_wire::{SPAN4_ROW, SPAN12_ROW, right_wire, row_wire, sp4_column, sp12_column};
use ports::Port;
use ports::size::Block;

// Port q of the tile to the south, where the block has that tile, else port own of the tile itself.
pub fn below_wire(b: Block, x: u32, y: u32, own: u32, q: u32) -> u32
    requires { Sized b × (x < b.w) × (y < b.h) × (own < ports_per_tile) × (q < ports_per_tile) }
    ensures { result ≡ below b x y own q }
{
    if 0 < y {
        ports::port_number(b, x, y - 1, q)
    } else {
        ports::port_number(b, x, 0, own)
    }
}

// The wire of port q of the tile (x, y).
pub fn wire_at(b: Block, x: u32, y: u32, q: u32) -> u32
    requires { Sized b × (x < b.w) × (y < b.h) × (q < ports_per_tile) }
    ensures { result ≡ wire_of b (port b x y q) }
{
    match ports::port_at(q) {
        Port::Sp4HL(k) => row_wire(SPAN4_ROW, b, y, x, k),
        Port::Sp4HR(k) => row_wire(SPAN4_ROW, b, y, x + 1, k),
        Port::Sp4VT(k) => sp4_column(b, x, y + 1, k),
        Port::Sp4VB(k) => sp4_column(b, x, y, k),
        Port::Sp4RVB(k) => right_wire(b, x, y, k),
        Port::Sp12HL(k) => row_wire(SPAN12_ROW, b, y, x, k),
        Port::Sp12HR(k) => row_wire(SPAN12_ROW, b, y, x + 1, k),
        Port::Sp12VT(k) => sp12_column(b, x, y + 1, k),
        Port::Sp12VB(k) => sp12_column(b, x, y, k),
        Port::Out(i) => output_wire(b, x, y, 1, 1, i),
        Port::NeighOp(dx, dy, i) => output_wire(b, x, y, dx, dy, i),
        Port::GlbNetwk(n) => ports::port_number(b, 0, 0, ports::GLB_NETWK + n),
        Port::CarryIn => below_wire(b, x, y, ports::CARRY_IN, ports::COUT + 7),
        Port::Ltin => below_wire(b, x, y, ports::LTIN, ports::LOUT + 7),
        _ => ports::port_number(b, x, y, q),
    }
}

// The wire of port p of a block.
// Rules out: a number that is another port of the same wire; a wire that runs through a tile outside the block, but for what `Join` says.
pub fn wire_of(b: Block, p: u32) -> u32
    requires { Sized b × (p < ports b) }
    ensures { (result ≡ wire_of b p) × (result ≤ p) }
{
    let tile = p / ports::lengths::PORTS_PER_TILE;
    wire_at(
        b,
        tile % b.w,
        tile / b.w,
        p % ports::lengths::PORTS_PER_TILE,
    )
}
