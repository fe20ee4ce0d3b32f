// The checks of contents that a step shares with settling and with clocking (`moments`): grounds 12 and 10. They are not given the
// outputs, so they cannot write them.
ghost use Rattle.std.specs.Prelude.{◌≡◌, ℕ, ◌<◌, ◌≤◌, leb, ◌++◌, length, get_or};
ghost use Rattle.lists.specs.Search.{below};
ghost use Rattle.lists.specs.Tables.{zeros};
ghost use Rattle.refusal.specs.Grounds.{unless};
ghost use Rattle.refusal.specs.declared.Refusal.TheVariants.{Row, NotABit};
ghost use Rattle.ports.specs.Block.{size_of, Sized};
ghost use Rattle.ports.specs.Lengths.{ports, state_length, list_length};
ghost use Rattle.fabric.specs.Wire.{wires_of};
ghost use Rattle.stepper.specs.Settling.{wire_marks, bad_row};
ghost use Rattle.sim.specs.Stepping.{bad_byte};

use netlist::check::{count_wires, first_bad_row};
use ports::size::Block;
use refusal::Refusal;
use wiring::fill_wires;

// Marks the ports that are their own wires.
fn mark_wires(b: Block, wires: &[u16], own: &mut [u16])
    requires { (wires.now ≡ wires_of b) × (length own.old ≡ ports b) × Sized b }
    ensures { own.new ≡ wire_marks b }
{
    for (p, mark) in own.iter_mut().enumerate() {
        *mark = u16::from(usize::from(wires[p]) == p);
    }
}

// Ground 12 of a list for a block with this many cells. `wires` then has the wire of each port, and `own` marks those that are their own;
// `marks` is work room, and is left clear.
pub fn check_rows(
    b: Block,
    list: &[u16],
    cells: usize,
    wires: &mut [u16],
    own: &mut [u16],
    marks: &mut [u16],
) -> Result<(), Refusal>
    requires { Sized b × (length list.now ≡ list_length b) × (cells ≡ state_length (size_of b)) × (length wires.old ≡ ports b) ×
        (length own.old ≡ ports b) × (length marks.old ≡ ports b) }
    ensures answer { result ≡ unless (leb (ports b) (bad_row b list.now)) (Err (Row (bad_row b list.now))) (Ok tt) }
    ensures wires { wires.new ≡ wires_of b }
    ensures own { own.new ≡ wire_marks b }
    ensures marks { marks.new ≡ zeros (ports b) }
{
    fill_wires(b, wires);
    mark_wires(b, wires, own);
    let row = first_bad_row(list, count_wires(own), cells, own, marks);
    if row < wires.len() {
        Err(Refusal::Row(row as u32))
    } else {
        Ok(())
    }
}

// The bytes or-ed: none is higher.
fn or_bytes(bytes: &[u8]) -> u8
    ensures { (k : ℕ) → k < length bytes.now → get_or bytes.now k 0 ≤ result }
{
    bytes.iter().fold(0, |any, byte| any | *byte)
}

// The first byte above 1. One pass over the bytes, which vectorises, says whether there is one.
fn first_above_one(bytes: &[u8]) -> Option<usize>
    ensures { result ≡ below (length bytes.now) (bad_byte bytes.now) }
{
    if or_bytes(bytes) < 2 {
        None
    } else {
        bytes.iter().position(|byte| *byte > 1)
    }
}

// The same of three slices joined.
// Rules out: an index that starts again at each of the three.
fn first_of_joined(first: &[u8], second: &[u8], third: &[u8]) -> Option<usize>
    requires { (length first.now ≤ 65536) × (length second.now ≤ 65536) × (length third.now ≤ 65536) }
    ensures { let joined = first.now ++ second.now ++ third.now in result ≡ below (length joined) (bad_byte joined) }
{
    let before = first.len() + second.len();
    first_above_one(first)
        .or_else(|| first_above_one(second).map(|i| first.len() + i))
        .or_else(|| first_above_one(third).map(|i| before + i))
}

// Ground 10 of three slices joined.
pub fn check_bytes(first: &[u8], second: &[u8], third: &[u8]) -> Result<(), Refusal>
    requires { (length first.now ≤ 65536) × (length second.now ≤ 65536) × (length third.now ≤ 65536) }
    ensures { let joined = first.now ++ second.now ++ third.now in
        result ≡ unless (leb (length joined) (bad_byte joined)) (Err (NotABit (bad_byte joined))) (Ok tt) }
{
    match first_of_joined(first, second, third) {
        Some(i) => Err(Refusal::NotABit(i as u32)),
        None => Ok(()),
    }
}
