// Building a block's list of rows and following a driver (document 01, 'The list and a step', 'Cells', 'Grounds for a no').
//
// `build` and `follow` take any input and none has a `requires`. specs/Building.antt and specs/Drivers.antt have the grounds in their
// orders, specs/Meaning.antt and specs/DriverMeaning.antt what each answer says in the paper's words.
#![tactic(auto)]

ghost use Rattle.refusal.specs.Grounds.{answer_number};
ghost use Rattle.std.specs.Prelude.{◌≡◌, length};
ghost use Rattle.refusal.specs.Memory.{output, work_room};
ghost use Rattle.ports.specs.Block.{tiles};
ghost use Rattle.config.specs.Blocks.{decoded, tiles_of};
ghost use Rattle.equations.specs.Settling.{block_list};
ghost use Rattle.block.specs.Lengths.{room_lent, build_lent, build_exact, follow_lent, follow_exact};
ghost use Rattle.block.specs.Building.{build_answer};
ghost use Rattle.block.specs.Drivers.{follow_answer};
ghost use Rattle.block.specs.Meaning.{BuildSays};
ghost use Rattle.block.specs.DriverMeaning.{FollowSays};

use crate::lengths::{BuildLent, FollowLent, RoomLent, is_build_exact, is_follow_exact};
use drivers::follow::Driver;
use ports::size::Block;
use refusal::Refusal;

mod driver;
pub mod lengths;
mod list;

// The list of a block's rows, in order, from its bits. Grounds 1 to 8, in this order (`build_answer`). The work room is what follows
// the list: settings, wires, sources, rows, marks and queue.
// Rules out: refusing every block; the same list always; a list written on a no; a row count made up; marks left behind.
pub fn build(
    b: Block,
    table: &[u16],
    bits: &[u64],
    list: &mut [u16],
    settings: &mut [u16],
    wires: &mut [u16],
    sources: &mut [u16],
    rows: &mut [u16],
    marks: &mut [u16],
    queue: &mut [u16],
) -> Result<u32, Refusal>
    ensures answer { result ≡ build_answer b table.now (tiles_of bits.now)
        (build_exact b (build_lent table.now bits.now settings.old
        (room_lent list.old wires.old sources.old rows.old marks.old
        queue.old))) }
    ensures list { list.new ≡ output (answer_number result) list.old
        (block_list b table.now (decoded table.now (tiles_of bits.now) (tiles b))) }
    ensures settings { settings.new ≡ work_room (answer_number result) settings.old }
    ensures wires { wires.new ≡ work_room (answer_number result) wires.old }
    ensures sources { sources.new ≡ work_room (answer_number result) sources.old }
    ensures rows { rows.new ≡ work_room (answer_number result) rows.old }
    ensures marks { marks.new ≡ work_room (answer_number result) marks.old }
    ensures queue { queue.new ≡ work_room (answer_number result) queue.old }
    ensures says { BuildSays b table.now bits.now
        (build_lent table.now bits.now settings.old
        (room_lent list.old wires.old sources.old rows.old marks.old
        queue.old)) result }
{
    if !ports::size::is_sized(b) {
        return Err(Refusal::WrongSize);
    }
    let room = RoomLent {
        list: list.len(),
        wires: wires.len(),
        sources: sources.len(),
        rows: rows.len(),
        marks: marks.len(),
        queue: queue.len(),
    };
    let lent = BuildLent {
        table: table.len(),
        bits: bits.len(),
        settings: settings.len(),
        room,
    };
    if !is_build_exact(b, lent) {
        return Err(Refusal::WrongLength);
    }
    let r = list::list_bits(
        b, table, bits, list, settings, wires, sources, rows, marks, queue,
    );
    settings.fill(0);
    wires.fill(0);
    sources.fill(0);
    rows.fill(0);
    marks.fill(0);
    queue.fill(0);
    r
}

// What drives a port of a tile, followed from switch to switch. Grounds 1, 2, 3, 9, 5, 20, in this order (`follow_answer`). The work
// room is wires, sources and marks.
// Rules out: stopping at the first switch; a ring's wire that is not its lowest; going on through carry_in_mux.
pub fn follow(
    b: Block,
    table: &[u16],
    settings: &[u16],
    tile: u32,
    port: u32,
    wires: &mut [u16],
    sources: &mut [u16],
    marks: &mut [u16],
) -> Result<Driver, Refusal>
    ensures answer { result ≡ follow_answer b table.now settings.now tile port
        (follow_exact b (follow_lent table.now settings.now wires.old sources.old
        marks.old)) }
    ensures wires { wires.new ≡ work_room (answer_number result) wires.old }
    ensures sources { sources.new ≡ work_room (answer_number result) sources.old }
    ensures marks { marks.new ≡ work_room (answer_number result) marks.old }
    ensures says { FollowSays b table.now settings.now tile port
        (follow_lent table.now settings.now wires.old sources.old marks.old)
        result }
{
    if !ports::size::is_sized(b) {
        return Err(Refusal::WrongSize);
    }
    let lent = FollowLent {
        table: table.len(),
        settings: settings.len(),
        wires: wires.len(),
        sources: sources.len(),
        marks: marks.len(),
    };
    if !is_follow_exact(b, lent) {
        return Err(Refusal::WrongLength);
    }
    let r = driver::follow_settings(b, table, settings, tile, port, wires, sources, marks);
    wires.fill(0);
    sources.fill(0);
    marks.fill(0);
    r
}
