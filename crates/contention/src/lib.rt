// Every contention of a block (document 02, W6, 'fights'): each wire on which two or more enabled switches end, with each of these switches.
//
// `contentions` takes any input and has no `requires`. It takes time linear in switches and wires: `chains` puts the switches of each wire in a chain,
// and `rows` walks the chains, wire by wire. specs/Contentions.antt has the rows, specs/Entry.antt the grounds in their order, specs/Meaning.antt what
// each answer says in the paper's words.
#![tactic(auto)]

ghost use Rattle.refusal.specs.Grounds.{answer_number};
ghost use Rattle.std.specs.Prelude.{◌≡◌, length};
ghost use Rattle.refusal.specs.Memory.{output, work_room};
ghost use Rattle.contention.specs.Lengths.{contention_lent, contention_exact};
ghost use Rattle.contention.specs.Entry.{contentions_answer, contentions_list};
ghost use Rattle.contention.specs.Meaning.{ContentionsSay};

use crate::lengths::{ContentionLent, is_contention_exact};
use ports::size::Block;
use refusal::Refusal;

mod chains;
pub mod lengths;
mod list;
mod rows;

// Every contention of a block, from its bits. Grounds 1 to 4, then 15 with the rows needed, in this order (`contentions_answer`). The list may have any
// length. The work room is what follows it: settings, wires, heads and nexts.
// Rules out: a wire with two switches left out; groups that fall; a list cut short where it does not fit; numbers of an older list behind the last row;
// chains left behind.
pub fn contentions(
    b: Block,
    table: &[u16],
    bits: &[u64],
    list: &mut [u16],
    settings: &mut [u16],
    wires: &mut [u16],
    heads: &mut [u16],
    nexts: &mut [u16],
) -> Result<u32, Refusal>
    ensures answer { result ≡ contentions_answer b table.now bits.now
        (contention_exact b (contention_lent table.now bits.now settings.old wires.old
        heads.old nexts.old)) (length list.old) }
    ensures list { list.new ≡ output (answer_number result) list.old
        (contentions_list b table.now bits.now (length list.old)) }
    ensures settings { settings.new ≡ work_room (answer_number result) settings.old }
    ensures wires { wires.new ≡ work_room (answer_number result) wires.old }
    ensures heads { heads.new ≡ work_room (answer_number result) heads.old }
    ensures nexts { nexts.new ≡ work_room (answer_number result) nexts.old }
    ensures says { ContentionsSay b table.now bits.now
        (contention_lent table.now bits.now settings.old wires.old heads.old
        nexts.old) list.old list.new result }
{
    if !ports::size::is_sized(b) {
        return Err(Refusal::WrongSize);
    }
    let lent = ContentionLent {
        table: table.len(),
        bits: bits.len(),
        settings: settings.len(),
        wires: wires.len(),
        heads: heads.len(),
        nexts: nexts.len(),
    };
    if !is_contention_exact(b, lent) {
        return Err(Refusal::WrongLength);
    }
    let r = list::list_bits(b, table, bits, list, settings, wires, heads, nexts);
    settings.fill(0);
    wires.fill(0);
    heads.fill(0);
    nexts.fill(0);
    r
}
