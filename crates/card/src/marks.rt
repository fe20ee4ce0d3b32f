// Marks of wires: a number for each port, not 0 where the wire of that number is marked.
ghost use Rattle.std.specs.Prelude.{◌≡◌, ◌+◌, ◌<◌, ◌≤◌, length};
ghost use Rattle.lists.specs.Search.{count_below};
ghost use Rattle.ports.specs.Block.{tiles};
ghost use Rattle.ports.specs.Lengths.{ports, ports_per_tile};
ghost use Rattle.fabric.specs.Wire.{wires_of};
ghost use Rattle.netlist.specs.Marks.{listed};
ghost use Rattle.card.specs.Marks.{mark_ports};

use equations::tiles::tile_wire;
use ports::size::Block;

// The wires of the `count` ports of a tile from `from` on are marked.
pub fn mark_ports(b: Block, wires: &[u16], tile: usize, from: u32, count: u32, marks: &mut [u16])
    requires { (wires.now ≡ wires_of b) × (tile < tiles b) × (from + count ≤ ports_per_tile) × (length marks.old ≡ ports b) }
    ensures { marks.new ≡ mark_ports b tile from count marks.old }
{
    for k in 0..count {
        let w = usize::from(tile_wire(b, wires, tile, from + k));
        marks[w] = 1;
    }
}

// How many wires are marked. Summed and not filtered and counted, so that it vectorises.
pub fn count_marks(marks: &[u16]) -> usize
    ensures { result ≡ count_below (listed marks.now) (length marks.now) }
{
    marks.iter().map(|mark| usize::from(*mark != 0)).sum()
}
