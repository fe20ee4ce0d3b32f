// The checks once the lengths are exact, in their order, and the card, which is written after every check.
ghost use Rattle.refusal.specs.Grounds.{answer_number};
ghost use Rattle.std.specs.Prelude.{◌≡◌, true, ◌*◌, ◌<◌, length};
ghost use Rattle.lists.specs.Search.{count_below};
ghost use Rattle.lists.specs.Listing.{zero_filled};
ghost use Rattle.refusal.specs.Memory.{output};
ghost use Rattle.ports.specs.Block.{Sized, tiles};
ghost use Rattle.ports.specs.Lengths.{ports, settings_length};
ghost use Rattle.fabric.specs.Count.{wires as wireTotal};
ghost use Rattle.equations.specs.Routed.{Routed};
ghost use Rattle.equations.specs.Settling.{block_list};
ghost use Rattle.block.specs.Lengths.{room_lent, build_lent, BuildLong};
ghost use Rattle.block.specs.Meaning.{Accepted};
ghost use Rattle.card.specs.Cells.{used_cell, flop_cell};
ghost use Rattle.card.specs.Card.{numbers_of, needed, card_numbers, card_length};
ghost use Rattle.card.specs.Entry.{numbers_answer, card_answer, card_after};

use crate::cells::{count_flops, count_used};
use crate::feeding::mark_feeding;
use crate::leaving::mark_leaving;
use crate::listing::write_card;
use crate::marks::count_marks;
use ports::size::Block;
use refusal::Refusal;

// Ground 15 of a block whose wires are marked, and the card.
fn put_card(
    b: Block,
    st: &[u16],
    left: &[u16],
    fed: &[u16],
    card: &mut [u16],
) -> Result<u32, Refusal>
    requires { Sized b × (length st.now ≡ settings_length * tiles b) × (length left.now ≡ ports b) ×
        (length fed.now ≡ ports b) }
    ensures answer { result ≡ numbers_answer (needed left.now fed.now) (length card.old) }
    ensures card { card.new ≡ output (answer_number result) card.old (zero_filled (length card.old)
        (numbers_of b (count_below (used_cell st.now) (8 * tiles b)) (count_below (flop_cell st.now) (8 * tiles b))
        left.now fed.now)) }
{
    let tiles = (b.h * b.w) as usize;
    let leaving = count_marks(left);
    let feeding = count_marks(fed);
    let numbers = 6 + leaving + feeding;
    if card.len() < numbers {
        return Err(Refusal::ListTooShort(numbers as u32));
    }
    let cells = count_used(st, tiles);
    let flops = count_flops(st, tiles);
    write_card(b, cells, flops, leaving, feeding, left, fed, card);
    Ok(numbers as u32)
}

// The card of settings that building accepted, from their list of so many rows.
fn card_settings(
    b: Block,
    table: &[u16],
    st: &[u16],
    list: &[u16],
    count: usize,
    card: &mut [u16],
    wires: &mut [u16],
    sources: &mut [u16],
    marks: &mut [u16],
    queue: &mut [u16],
) -> Result<u32, Refusal>
    requires routed { Routed b table.now st.now × Accepted b table.now st.now × (list.now ≡ block_list b table.now st.now) × (count ≡ wireTotal b) }
    requires wires_len { (length wires.old ≡ ports b) × (length sources.old ≡ ports b) × (length marks.old ≡ ports b) × (length queue.old ≡ ports b) }
    ensures answer { result ≡ numbers_answer (card_length b table.now st.now) (length card.old) }
    ensures card { card.new ≡ output (answer_number result) card.old
        (zero_filled (length card.old) (card_numbers b table.now st.now)) }
{
    wiring::fill_wires(b, wires);
    drivers::sources::find_sources(b, table, st, wires, sources);
    mark_leaving(b, wires, sources, queue);
    lists::copy(queue, marks);
    mark_feeding(b, st, wires, sources, list, count, marks);
    put_card(b, st, queue, marks, card)
}

// Grounds 3 to 8 and 15 of bits, and the card.
pub fn card_bits(
    b: Block,
    table: &[u16],
    bits: &[u64],
    card: &mut [u16],
    list: &mut [u16],
    settings: &mut [u16],
    wires: &mut [u16],
    sources: &mut [u16],
    rows: &mut [u16],
    marks: &mut [u16],
    queue: &mut [u16],
) -> Result<u32, Refusal>
    requires { Sized b × BuildLong b (build_lent table.now bits.now settings.old
        (room_lent list.old wires.old sources.old rows.old marks.old queue.old)) }
    ensures answer { result ≡ card_answer b table.now bits.now true (length card.old) }
    ensures card { card.new ≡ output (answer_number result) card.old
        (card_after b table.now bits.now (length card.old)) }
{
    let n = (b.h * b.w) as usize;
    let count = block::build(
        b, table, bits, list, settings, wires, sources, rows, marks, queue,
    )?;
    config::blocks::decode_block(table, bits, settings, n);
    card_settings(
        b,
        table,
        settings,
        list,
        count as usize,
        card,
        wires,
        sources,
        marks,
        queue,
    )
}
