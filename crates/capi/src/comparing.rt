// Two blocks of one size compared, and one tile's bits out of either (document 02, W4). Calls on two blocks take w and h of each.
ghost use Rattle.refusal.specs.Grounds.{answer_number};
ghost use Rattle.std.specs.Prelude.{◌≡◌, length, take, drop};
ghost use Rattle.refusal.specs.Memory.{output, work_room};
ghost use Rattle.ports.specs.Block.{size};
ghost use Rattle.ports.specs.Lengths.{tile_numbers};
ghost use Rattle.config.specs.Blocks.{tiles_of};
ghost use Rattle.compare.specs.Lengths.{compare_lent, compare_exact};
ghost use Rattle.compare.specs.Entry.{compare_answer, compared_list, part_answer, part_of, chosen};
ghost use Rattle.capi.specs.Packed.{ground_in, value_in, packed_number, packed_part, side_of};

use crate::pack;
use ports::lengths::TILE_NUMBERS;
use ports::size::Size;
use refusal::Refusal;

// Every difference between two blocks, as rows of five numbers: tile, kind, index, old and new setting. Grounds 1, 14, 2, 3, 4, 15; the value is
// the number of rows. The output is list, of any length; before and after are work room.
pub fn ice40_compare(
    w1: u32,
    h1: u32,
    w2: u32,
    h2: u32,
    table: &[u16],
    first: &[u64],
    second: &[u64],
    list: &mut [u32],
    before: &mut [u16],
    after: &mut [u16],
) -> u64
    ensures answer { result ≡ packed_number (compare_answer (size w1 h1) (size w2 h2) table.now (tiles_of first.now)
        (tiles_of second.now) (compare_exact (size w1 h1) (compare_lent table.now first.now
        second.now before.old after.old)) (length list.old)) }
    ensures list { list.new ≡ output (ground_in result) list.old
        (compared_list (size w1 h1) table.now (tiles_of first.now) (tiles_of second.now)
        (length list.old)) }
    ensures before { before.new ≡ work_room (ground_in result) before.old }
    ensures after { after.new ≡ work_room (ground_in result) after.old }
{
    let a = compare::compare(
        Size { w: w1, h: h1 },
        Size { w: w2, h: h2 },
        table,
        first,
        second,
        list,
        before,
        after,
    );
    pack::pack_number(a)
}

// Where a tile's numbers begin in the block asked for: which is 0 for the first, any other number for the second. Grounds 1, 14, 2, 20. C cannot be
// handed a part of a slice; what lies there is the part that `tile_part` hands back.
pub fn ice40_tile_part(
    w1: u32,
    h1: u32,
    w2: u32,
    h2: u32,
    first: &[u64],
    second: &[u64],
    which: u32,
    tile: u32,
) -> u64
    ensures answer { result ≡ packed_part (part_answer (size w1 h1) (size w2 h2) (length first.now)
        (length second.now) tile) tile }
    ensures part { ground_in result ≡ 0 → take tile_numbers (drop (value_in result) (chosen (side_of which) first.now second.now)) ≡
        part_of (part_answer (size w1 h1) (size w2 h2) (length first.now) (length second.now) tile) (side_of which)
        first.now second.now tile }
{
    let a = compare::part::part_answer(
        Size { w: w1, h: h1 },
        Size { w: w2, h: h2 },
        first.len(),
        second.len(),
        tile,
    );
    match a {
        Ok(()) => pack::pack(0, TILE_NUMBERS as u32 * tile),
        Err(refusal) => pack::pack_no(refusal),
    }
}
