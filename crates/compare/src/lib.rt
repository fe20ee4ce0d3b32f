// What changed between two lodgings of one size (document 02, W4): every difference between the settings of two blocks as a row of five
// numbers, and one tile's bits out of either block.
//
// `compare`, `part_answer` and `tile_part` take any input and none has a `requires`. specs/Difference.antt says what a row is,
// specs/Entry.antt has the grounds in their orders, specs/Meaning.antt what each answer says in the paper's words.
#![tactic(auto)]

ghost use Rattle.refusal.specs.Grounds.{answer_number};
ghost use Rattle.std.specs.Prelude.{◌≡◌, length};
ghost use Rattle.refusal.specs.Memory.{output, work_room};
ghost use Rattle.config.specs.Blocks.{tiles_of};
ghost use Rattle.compare.specs.Lengths.{compare_lent, compare_exact};
ghost use Rattle.compare.specs.Entry.{compare_answer, compared_list};
ghost use Rattle.compare.specs.Meaning.{CompareSays};

use crate::lengths::{CompareLent, is_compare_exact};
use ports::size::{Size, is_allowed};
use refusal::Refusal;

mod blocks;
mod cells;
pub mod lengths;
pub mod part;
mod settings;
mod tiles;

// Lists every difference between two blocks. Grounds 1, 14, 2, 3, 4, 15, in this order, each for the first block before the second
// (`compare_answer`). The work room is `before` and `after`, the settings of both; under 14 it is zeroed whatever its length.
// Rules out: a list that is cut where it does not fit; numbers of an older list behind the last row; a work room that tells the settings.
pub fn compare(
    a: Size,
    b: Size,
    table: &[u16],
    first: &[u64],
    second: &[u64],
    list: &mut [u32],
    before: &mut [u16],
    after: &mut [u16],
) -> Result<u32, Refusal>
    ensures answer { result ≡ compare_answer a b table.now (tiles_of first.now) (tiles_of second.now)
        (compare_exact a (compare_lent table.now first.now second.now before.old
        after.old)) (length list.old) }
    ensures list { list.new ≡ output (answer_number result) list.old
        (compared_list a table.now (tiles_of first.now) (tiles_of second.now) (length list.old)) }
    ensures before { before.new ≡ work_room (answer_number result) before.old }
    ensures after { after.new ≡ work_room (answer_number result) after.old }
    ensures says { CompareSays a b table.now first.now second.now
        (compare_lent table.now first.now second.now before.old after.old)
        list.old list.new result }
{
    if !is_allowed(a) {
        return Err(Refusal::WrongSize);
    }
    if !is_allowed(b) {
        return Err(Refusal::WrongSize);
    }
    if a != b {
        before.fill(0);
        after.fill(0);
        return Err(Refusal::SizesDiffer);
    }
    let lent = CompareLent {
        table: table.len(),
        first: first.len(),
        second: second.len(),
        before: before.len(),
        after: after.len(),
    };
    if !is_compare_exact(a, lent) {
        return Err(Refusal::WrongLength);
    }
    let r = blocks::compare_bits(a, table, first, second, list, before, after);
    before.fill(0);
    after.fill(0);
    r
}
