// Every contention of a block (document 02, W6).
ghost use Rattle.refusal.specs.Grounds.{answer_number};
ghost use Rattle.std.specs.Prelude.{◌≡◌, length};
ghost use Rattle.refusal.specs.Memory.{output, work_room};
ghost use Rattle.ports.specs.Block.{block};
ghost use Rattle.contention.specs.Lengths.{contention_lent, contention_exact};
ghost use Rattle.contention.specs.Entry.{contentions_answer, contentions_list};
ghost use Rattle.capi.specs.Packed.{ground_in, packed_number};

use crate::pack;
use ports::size::Block;
use refusal::Refusal;

// A row of wire, tile and group for each enabled switch on a wire with two or more, from a block's bits. Grounds 1 to 4, then 15; the value is the
// number of rows. The output is list, of any length; the rest is work room.
pub fn ice40_contentions(
    w: u32,
    h: u32,
    east: u32,
    table: &[u16],
    bits: &[u64],
    list: &mut [u16],
    settings: &mut [u16],
    wires: &mut [u16],
    heads: &mut [u16],
    nexts: &mut [u16],
) -> u64
    ensures answer { result ≡ packed_number (contentions_answer (block w h east) table.now bits.now
        (contention_exact (block w h east) (contention_lent table.now bits.now settings.old
        wires.old heads.old nexts.old)) (length list.old)) }
    ensures list { list.new ≡ output (ground_in result) list.old
        (contentions_list (block w h east) table.now bits.now (length list.old)) }
    ensures settings { settings.new ≡ work_room (ground_in result) settings.old }
    ensures wires { wires.new ≡ work_room (ground_in result) wires.old }
    ensures heads { heads.new ≡ work_room (ground_in result) heads.old }
    ensures nexts { nexts.new ≡ work_room (ground_in result) nexts.old }
{
    let a = contention::contentions(
        Block { w, h, east },
        table,
        bits,
        list,
        settings,
        wires,
        heads,
        nexts,
    );
    pack::pack_number(a)
}
