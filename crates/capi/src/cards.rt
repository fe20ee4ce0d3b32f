// The shelf card of a block (document 02, W14).
ghost use Rattle.refusal.specs.Grounds.{answer_number};
ghost use Rattle.std.specs.Prelude.{◌≡◌, length};
ghost use Rattle.refusal.specs.Memory.{output, work_room};
ghost use Rattle.ports.specs.Block.{block};
ghost use Rattle.block.specs.Lengths.{room_lent, build_lent, build_exact};
ghost use Rattle.card.specs.Entry.{card_answer, card_after};
ghost use Rattle.capi.specs.Packed.{ground_in, packed_number};

use crate::pack;
use ports::size::Block;
use refusal::Refusal;

// W, H, cells in use, flip-flops, leaving wires after their count, and the open wires that these or a flip-flop depend on after theirs, from a block's
// bits. Grounds 1 to 8, then 15; the value is how many numbers the card has. The output is card, of any length; the rest is work room.
pub fn ice40_card(
    w: u32,
    h: u32,
    east: u32,
    table: &[u16],
    bits: &[u64],
    card: &mut [u16],
    list: &mut [u16],
    settings: &mut [u16],
    wires: &mut [u16],
    sources: &mut [u16],
    rows: &mut [u16],
    marks: &mut [u16],
    queue: &mut [u16],
) -> u64
    ensures answer { result ≡ packed_number (card_answer (block w h east) table.now bits.now
        (build_exact (block w h east) (build_lent table.now bits.now settings.old
        (room_lent list.old wires.old sources.old rows.old marks.old
        queue.old))) (length card.old)) }
    ensures card { card.new ≡ output (ground_in result) card.old
        (card_after (block w h east) table.now bits.now (length card.old)) }
    ensures list { list.new ≡ work_room (ground_in result) list.old }
    ensures settings { settings.new ≡ work_room (ground_in result) settings.old }
    ensures wires { wires.new ≡ work_room (ground_in result) wires.old }
    ensures sources { sources.new ≡ work_room (ground_in result) sources.old }
    ensures rows { rows.new ≡ work_room (ground_in result) rows.old }
    ensures marks { marks.new ≡ work_room (ground_in result) marks.old }
    ensures queue { queue.new ≡ work_room (ground_in result) queue.old }
{
    let a = card::shelf_card(
        Block { w, h, east },
        table,
        bits,
        card,
        list,
        settings,
        wires,
        sources,
        rows,
        marks,
        queue,
    );
    pack::pack_number(a)
}
