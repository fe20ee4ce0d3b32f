// The shelf card of a lodged design (document 02, W14): size, cells in use, flip-flops, the wires that leave the block, and the open wires that these or
// the flip-flops depend on.
//
// `shelf_card` takes any input and has no `requires`. It builds the block, and then takes time linear in ports and switches: `leaving` marks the wires
// that leave, `feeding` marks what is depended on in one pass over the list, from its last row down. specs/Leaving.antt and specs/Feeding.antt say which
// wires stand on the card, specs/Entry.antt has the grounds in their order, specs/Meaning.antt what each answer says in the paper's words.
#![tactic(auto)]

ghost use Rattle.refusal.specs.Grounds.{answer_number};
ghost use Rattle.std.specs.Prelude.{◌≡◌, length};
ghost use Rattle.refusal.specs.Memory.{output, work_room};
ghost use Rattle.block.specs.Lengths.{room_lent, build_lent, build_exact};
ghost use Rattle.card.specs.Entry.{card_answer, card_after};
ghost use Rattle.card.specs.Meaning.{CardSays};

use block::lengths::{BuildLent, RoomLent, is_build_exact};
use ports::size::Block;
use refusal::Refusal;

mod cells;
mod feeding;
mod leaving;
mod listing;
mod make;
mod marks;

// The card of a block, from its bits. Grounds 1 to 8, those of building, then 15 with the numbers needed, in this order (`card_answer`). The card may have
// any length. The work room is what follows it: list, settings, wires, sources, rows, marks and queue, of the lengths that building asks for.
// Rules out: wires that only their own equation reads; a wire without a switch that leaves; numbers of an older card behind the last one; marks left
// behind.
pub fn shelf_card(
    b: Block,
    table: &[u16],
    bits: &[u64],
    card: &mut [u16],
    list: &mut [u16],
    settings: &mut [u16],
    wires: &mut [u16],
    sources: &mut [u16],
    rows: &mut [u16],
    marks: &mut [u16],
    queue: &mut [u16],
) -> Result<u32, Refusal>
    ensures answer { result ≡ card_answer b table.now bits.now
        (build_exact b (build_lent table.now bits.now settings.old
        (room_lent list.old wires.old sources.old rows.old marks.old
        queue.old))) (length card.old) }
    ensures card { card.new ≡ output (answer_number result) card.old
        (card_after b table.now bits.now (length card.old)) }
    ensures list { list.new ≡ work_room (answer_number result) list.old }
    ensures settings { settings.new ≡ work_room (answer_number result) settings.old }
    ensures wires { wires.new ≡ work_room (answer_number result) wires.old }
    ensures sources { sources.new ≡ work_room (answer_number result) sources.old }
    ensures rows { rows.new ≡ work_room (answer_number result) rows.old }
    ensures marks { marks.new ≡ work_room (answer_number result) marks.old }
    ensures queue { queue.new ≡ work_room (answer_number result) queue.old }
    ensures says { CardSays b table.now bits.now
        (build_lent table.now bits.now settings.old
        (room_lent list.old wires.old sources.old rows.old marks.old
        queue.old)) card.old card.new result }
{
    if !ports::size::is_sized(b) {
        return Err(Refusal::WrongSize);
    }
    let room = RoomLent {
        list: list.len(),
        wires: wires.len(),
        sources: sources.len(),
        rows: rows.len(),
        marks: marks.len(),
        queue: queue.len(),
    };
    let lent = BuildLent {
        table: table.len(),
        bits: bits.len(),
        settings: settings.len(),
        room: room,
    };
    if !is_build_exact(b, lent) {
        return Err(Refusal::WrongLength);
    }
    let r = make::card_bits(
        b, table, bits, card, list, settings, wires, sources, rows, marks, queue,
    );
    list.fill(0);
    settings.fill(0);
    wires.fill(0);
    sources.fill(0);
    rows.fill(0);
    marks.fill(0);
    queue.fill(0);
    r
}
