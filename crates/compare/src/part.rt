// One tile's bits out of either of two blocks, as a part of the caller's own.
ghost use Rattle.std.specs.Prelude.{◌≡◌, length};
ghost use Rattle.compare.specs.Entry.{part_answer, part_of};

use crate::lengths::is_part_exact;
use ports::lengths::TILE_NUMBERS;
use ports::size::{Size, is_allowed, tile_count};
use refusal::Refusal;

// Which of two lent blocks.
#[derive(Clone, Copy)]
pub enum Side {
    First,
    Second,
}

// Whether there is such a part, from the lengths alone. Grounds 1, 14, 2, 20, in this order (`part_answer`).
pub fn part_answer(a: Size, b: Size, first: usize, second: usize, tile: u32) -> Result<(), Refusal>
    ensures { result ≡ part_answer a b first second tile }
{
    if !is_allowed(a) {
        return Err(Refusal::WrongSize);
    }
    if !is_allowed(b) {
        return Err(Refusal::WrongSize);
    }
    if a != b {
        return Err(Refusal::SizesDiffer);
    }
    if !is_part_exact(a, first, second) {
        return Err(Refusal::WrongLength);
    }
    if tile_count(a) <= tile as usize {
        return Err(Refusal::OutOfRange(tile));
    }
    Ok(())
}

// The tile's sixteen numbers as a part of the block asked for, whether they can be decoded or not; empty on a no, whose ground is `part_answer`'s.
// Rules out: the part of the other block; a part of a no.
#[tactic(auto, using(crate::proofs::PartLaws::first_fits, crate::proofs::PartLaws::second_fits))]
pub fn tile_part<'a>(
    a: Size,
    b: Size,
    first: &'a [u64],
    second: &'a [u64],
    side: Side,
    tile: u32,
) -> &'a [u64]
    ensures { result.now ≡ part_of (part_answer a b (length first.now) (length second.now) tile) side
        first.now second.now tile }
{
    let answer = part_answer(a, b, first.len(), second.len(), tile);
    let Ok(()) = answer else {
        return &first[0..0];
    };
    let from = TILE_NUMBERS * (tile as usize);
    let to = from + TILE_NUMBERS;
    match side {
        Side::First => &first[from..to],
        Side::Second => &second[from..to],
    }
}
