// The wires of outputs (document 01, 'Joins'): a cell's output is a port of its own tile and of the eight around it. dx and dy say where
// the tile whose output it is stands, seen from the port's tile: 0 before it, 1 the same, 2 after it.
ghost use Rattle.std.specs.Prelude.{◌≡◌, ◌<◌};
ghost use Rattle.ports.specs.Block.{Sized};
ghost use Rattle.ports.specs.PortIndex.{output_at};
ghost use Rattle.fabric.specs.OutputWire.{output_wire};

use ports::size::Block;

// The port of the tile (x, y) for output i of the tile (x + dx - 1, y + dy - 1).
fn output_port(dx: u32, dy: u32, i: u32) -> u32
    requires { (dx < 3) × (dy < 3) × (i < 8) }
    ensures { result ≡ output_at dx dy i }
{
    match (dx, dy) {
        (_, 0) => ports::NEIGH_BNL + 8 * dx + i,
        (_, 2) => ports::NEIGH_TNL + 8 * dx + i,
        (0, _) => ports::NEIGH_LFT + i,
        (1, _) => ports::OUT + i,
        _ => ports::NEIGH_RGT + i,
    }
}

// The wire of the tile (x, y)'s port for output i of the tile (x + dx - 1, y + dy - 1): the port of the tile furthest south and west
// that sees the same output.
pub fn output_wire(b: Block, x: u32, y: u32, dx: u32, dy: u32, i: u32) -> u32
    requires { Sized b × (x < b.w) × (y < b.h) × (dx < 3) × (dy < 3) × (i < 8) }
    ensures { result ≡ output_wire b x y dx dy i }
{
    let east = x + dx;
    let north = y + dy;
    // The first tile in each direction that sees the other, and where that stands, seen from it.
    ports::port_number(
        b,
        east.saturating_sub(2),
        north.saturating_sub(2),
        output_port(east.min(2), north.min(2), i),
    )
}
