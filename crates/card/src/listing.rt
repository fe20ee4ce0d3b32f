// The numbers of a card, written one after another.
ghost use Rattle.std.specs.Prelude.{◌≡◌, ◌+◌, ◌<◌, ◌≤◌, [], ◌∷◌, length};
ghost use Rattle.std.proofs.lemmas.List.Edits.{sets};
ghost use Rattle.lists.specs.Listing.{zero_filled};
ghost use Rattle.ports.specs.Block.{Sized};
ghost use Rattle.card.specs.Card.{marked, marked_count, numbers_of, needed};

use ports::size::Block;

// Where the leaving wires begin.
const HEAD: usize = 5;

// The first five numbers, put in at the front.
fn put_head(b: Block, cells: usize, flops: usize, leaving: usize, card: &mut [u16])
    requires { Sized b × (cells < 65536) × (flops < 65536) × (leaving < 65536) × (5 ≤ length card.old) }
    ensures { card.new ≡ sets card.old 0 (b.w ∷ b.h ∷ cells ∷ flops ∷ leaving ∷ []) }
{
    let head = [
        b.w as u16,
        b.h as u16,
        cells as u16,
        flops as u16,
        leaving as u16,
    ];
    card[0..HEAD].copy_from_slice(&head);
}

// The numbers of the marked wires, rising, put in from `from` on; the answer is where they end.
fn put_wires(marks: &[u16], card: &mut [u16], from: usize) -> usize
    requires { (length marks.now < 65536) × (from + marked_count marks.now ≤ length card.old) }
    ensures end { result ≡ from + marked_count marks.now }
    ensures card { card.new ≡ sets card.old from (marked marks.now) }
{
    let mut at = from;
    for (w, mark) in marks.iter().enumerate() {
        if *mark != 0 {
            card[at] = w as u16;
            at += 1;
        }
    }
    at
}

// All numbers of a card, put in at the front; the answer is how many they are.
fn put_numbers(
    b: Block,
    cells: usize,
    flops: usize,
    leaving: usize,
    feeding: usize,
    left: &[u16],
    fed: &[u16],
    card: &mut [u16],
) -> usize
    requires sized { Sized b × (cells < 65536) × (flops < 65536) × (length left.now < 65536) × (length fed.now < 65536) }
    requires leaving_value { (leaving ≡ marked_count left.now) × (feeding ≡ marked_count fed.now) × (needed left.now fed.now ≤ length card.old) }
    ensures end { result ≡ needed left.now fed.now }
    ensures card { card.new ≡ sets card.old 0
        (numbers_of b cells flops left.now fed.now) }
{
    put_head(b, cells, flops, leaving, card);
    let at = put_wires(left, card, HEAD);
    card[at] = feeding as u16;
    put_wires(fed, card, at + 1)
}

// The whole card, and zeros behind it.
// Rules out: numbers of an older card left behind the last one.
pub fn write_card(
    b: Block,
    cells: usize,
    flops: usize,
    leaving: usize,
    feeding: usize,
    left: &[u16],
    fed: &[u16],
    card: &mut [u16],
)
    requires sized { Sized b × (cells < 65536) × (flops < 65536) × (length left.now < 65536) × (length fed.now < 65536) }
    requires leaving_value { (leaving ≡ marked_count left.now) × (feeding ≡ marked_count fed.now) × (needed left.now fed.now ≤ length card.old) }
    ensures { card.new ≡ zero_filled (length card.old)
        (numbers_of b cells flops left.now fed.now) }
{
    let end = put_numbers(b, cells, flops, leaving, feeding, left, fed, card);
    card[end..].fill(0);
}
