// The wires that leave the block: those with an enabled switch and a port whose join to another tile fails, as that tile is outside.
ghost use Rattle.std.specs.Prelude.{◌≡◌, ◌+◌, ◌<◌, ◌≤◌, cond, length, fold, All};
ghost use Rattle.lists.specs.Tables.{zeros};
ghost use Rattle.ports.specs.Block.{Sized, tiles};
ghost use Rattle.ports.specs.Lengths.{ports, ports_per_tile};
ghost use Rattle.fabric.specs.Wire.{wires_of};
ghost use Rattle.card.specs.Marks.{mark_ports, exit_marks, driven_marks};

use crate::marks::mark_ports;
use ports::size::Block;

// How many ports a span has: 48 of length 4, 24 of length 12.
const SP4: u32 = 48;

const SP12: u32 = 24;

// The spans that go out on each side: their first port, and how many they are. In the west, sp4_v_b is the sp4_r_v_b of a tile there.
const WEST: [(u32, u32); 3] = [
    (ports::SP4_H_L, SP4),
    (ports::SP4_V_B, SP4),
    (ports::SP12_H_L, SP12),
];

const EAST: [(u32, u32); 3] = [
    (ports::SP4_H_R, SP4),
    (ports::SP4_R_V_B, SP4),
    (ports::SP12_H_R, SP12),
];

const SOUTH: [(u32, u32); 2] = [(ports::SP4_V_B, SP4), (ports::SP12_V_B, SP12)];

const NORTH: [(u32, u32); 2] = [(ports::SP4_V_T, SP4), (ports::SP12_V_T, SP12)];

// The wires of these spans are marked, if the tile stands on their side of the block.
fn mark_side(
    b: Block,
    wires: &[u16],
    tile: usize,
    at_side: bool,
    spans: &[(u32, u32)],
    marks: &mut [u16],
)
    requires { (wires.now ≡ wires_of b) × (tile < tiles b) × All (λ s. s.0 + s.1 ≤ ports_per_tile) spans.now × (length marks.old ≡ ports b) }
    ensures { marks.new ≡ cond at_side (fold (λ m s. mark_ports b tile s.0 s.1 m) marks.old spans.now) marks.old }
{
    if at_side {
        for (from, count) in spans {
            mark_ports(b, wires, tile, *from, *count, marks);
        }
    }
}

// The wires with a port that goes out, driven or not, marked in a cleared room.
fn mark_exits(b: Block, wires: &[u16], marks: &mut [u16])
    requires { Sized b × (wires.now ≡ wires_of b) × (length marks.old ≡ ports b) }
    ensures { marks.new ≡ exit_marks b (tiles b) marks.old }
{
    let w = b.w as usize;
    let h = b.h as usize;
    for tile in 0..h * w {
        let x = tile % w;
        let y = tile / w;
        mark_side(b, wires, tile, x == 0, &WEST, marks);
        mark_side(b, wires, tile, x + 1 == w, &EAST, marks);
        mark_side(b, wires, tile, y == 0, &SOUTH, marks);
        mark_side(b, wires, tile, y + 1 == h, &NORTH, marks);
    }
}

// Marks stay where a switch ends, by the map of sources, read at the mark's place: a zip of the two takes longer.
// Rules out: a wire without a switch.
fn keep_driven(sources: &[u16], marks: &mut [u16])
    requires { length sources.now ≡ length marks.old }
    ensures { marks.new ≡ driven_marks sources.now marks.old }
{
    for (w, mark) in marks.iter_mut().enumerate() {
        if sources[w] == 0 {
            *mark = 0;
        }
    }
}

// The wires that leave the block are marked, and no other.
pub fn mark_leaving(b: Block, wires: &[u16], sources: &[u16], marks: &mut [u16])
    requires { Sized b × (wires.now ≡ wires_of b) × (length sources.now ≡ ports b) × (length marks.old ≡ ports b) }
    ensures { marks.new ≡ driven_marks sources.now (exit_marks b (tiles b) (zeros (ports b))) }
{
    marks.fill(0);
    mark_exits(b, wires, marks);
    keep_driven(sources, marks);
}
