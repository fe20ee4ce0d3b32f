// All ports of a tile, in the order of their numbers.
ghost use Rattle.std.specs.Prelude.{◌≡◌, ◌+◌, ◌<◌};
ghost use Rattle.ports.specs.Block.{Sized, port};
ghost use Rattle.ports.specs.Lengths.{ports_per_tile};
ghost use Rattle.ports.specs.PortIndex.{out_port, clk, output_at};
ghost use Rattle.wiring.specs.Fill.{Wired};

use crate::ranges::{number, own};
use crate::spans::{fill_sp4_column, fill_sp12_column, right, row};
use fabric::output::output_wire;
use fabric::span_wire::{SPAN4_ROW, SPAN12_ROW};
use fabric::wire::below_wire;
use ports::size::Block;

// The ports of the tile (x, y) for the outputs of the tile (x + dx - 1, y + dy - 1), which start at q.
fn output(b: Block, wires: &mut [u16], x: u32, y: u32, dx: u32, dy: u32, q: u32)
    requires { Sized b × (x < b.w) × (y < b.h) × (dx < 3) × (dy < 3) × (q ≡ output_at dx dy 0) × Wired b (port b x y q) wires.old }
    ensures { Wired b (port b x y (q + 8)) wires.new }
{
    number(b, wires, output_wire(b, x, y, dx, dy, 0), x, y, q, 8);
}

// lutff out and the neigh_op names.
fn outputs(b: Block, wires: &mut [u16], x: u32, y: u32)
    requires { Sized b × (x < b.w) × (y < b.h) × Wired b (port b x y (out_port 0)) wires.old }
    ensures { Wired b (port b x y clk) wires.new }
{
    output(b, wires, x, y, 1, 1, ports::OUT);
    output(b, wires, x, y, 0, 0, ports::NEIGH_BNL);
    output(b, wires, x, y, 1, 0, ports::NEIGH_BOT);
    output(b, wires, x, y, 2, 0, ports::NEIGH_BNR);
    output(b, wires, x, y, 0, 1, ports::NEIGH_LFT);
    output(b, wires, x, y, 2, 1, ports::NEIGH_RGT);
    output(b, wires, x, y, 0, 2, ports::NEIGH_TNL);
    output(b, wires, x, y, 1, 2, ports::NEIGH_TOP);
    output(b, wires, x, y, 2, 2, ports::NEIGH_TNR);
}

// From clk to ltin.
fn controls(b: Block, wires: &mut [u16], x: u32, y: u32)
    requires { Sized b × (x < b.w) × (y < b.h) × Wired b (port b x y clk) wires.old }
    ensures { Wired b (port b x y ports_per_tile) wires.new }
{
    let carry = below_wire(b, x, y, ports::CARRY_IN, ports::COUT + 7);
    let cascade = below_wire(b, x, y, ports::LTIN, ports::LOUT + 7);
    own(b, wires, x, y, ports::CLK, 3);
    number(b, wires, ports::GLB_NETWK, x, y, ports::GLB_NETWK, 8);
    number(b, wires, carry, x, y, ports::CARRY_IN, 1);
    own(b, wires, x, y, ports::CARRY_IN_MUX, 17);
    number(b, wires, cascade, x, y, ports::LTIN, 1);
}

// The ports of the tile (x, y).
pub fn tile(b: Block, wires: &mut [u16], x: u32, y: u32)
    requires { Sized b × (x < b.w) × (y < b.h) × Wired b (port b x y 0) wires.old }
    ensures { Wired b (port b x y ports_per_tile) wires.new }
{
    row(SPAN4_ROW, b, wires, x, y);
    fill_sp4_column(b, wires, x, y);
    right(b, wires, x, y);
    row(SPAN12_ROW, b, wires, x, y);
    fill_sp12_column(b, wires, x, y);
    own(b, wires, x, y, ports::LOCAL, 68);
    outputs(b, wires, x, y);
    controls(b, wires, x, y);
}
