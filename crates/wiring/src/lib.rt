// The wires of all ports of a block, filled from the front: nearly every port either starts its wire or is joined to a port that comes
// before it, whose wire is there already. `fabric` has the wire of one port, which takes longer for each.
#![tactic(auto)]

ghost use Rattle.std.specs.Prelude.{◌≡◌, ◌<◌, length};
ghost use Rattle.ports.specs.Block.{Sized, port};
ghost use Rattle.ports.specs.Lengths.{ports};
ghost use Rattle.fabric.specs.Wire.{wires_of};
ghost use Rattle.wiring.specs.Fill.{Wired};

use crate::one_tile::tile;
use ports::size::Block;

mod one_tile;
mod ranges;
mod spans;

// The ports of row y of the tiles.
fn tiles(b: Block, wires: &mut [u16], y: u32)
    requires { Sized b × (y < b.h) × Wired b (port b 0 y 0) wires.old }
    ensures { Wired b (port b b.w y 0) wires.new }
{
    for x in 0..b.w {
        tile(b, wires, x, y);
    }
}

// Writes the wire of each port.
// Rules out: a port left out; a number that is another port of the same wire.
pub fn fill_wires(b: Block, wires: &mut [u16])
    requires { Sized b × (length wires.old ≡ ports b) }
    ensures { wires.new ≡ wires_of b }
{
    for y in 0..b.h {
        tiles(b, wires, y);
    }
}
