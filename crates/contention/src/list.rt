// The checks once the lengths are exact, in their order, and the rows, which are written after every check.
ghost use Rattle.refusal.specs.Grounds.{answer_number};
ghost use Rattle.std.specs.Prelude.{◌≡◌, length};
ghost use Rattle.refusal.specs.Memory.{output};
ghost use Rattle.lists.specs.Listing.{zero_filled};
ghost use Rattle.ports.specs.Block.{Sized};
ghost use Rattle.ports.specs.Lengths.{ports};
ghost use Rattle.equations.specs.Switches.{switches};
ghost use Rattle.equations.specs.Routed.{Routed};
ghost use Rattle.contention.specs.Contentions.{contentions};
ghost use Rattle.contention.specs.Lengths.{contention_lent, ContentionLong};
ghost use Rattle.contention.specs.Entry.{rows_answer, bits_answer, contentions_list};

use crate::chains::chain_block;
use crate::rows::{ROW_LENGTH, list_rows};
use ports::size::{Block, size_of};
use refusal::Refusal;

// Ground 15 of settings that were read, and the rows.
fn list_settings(
    b: Block,
    table: &[u16],
    st: &[u16],
    list: &mut [u16],
    wires: &mut [u16],
    heads: &mut [u16],
    nexts: &mut [u16],
) -> Result<u32, Refusal>
    requires { Routed b table.now st.now × (length wires.old ≡ ports b) × (length heads.old ≡ ports b) × (length nexts.old ≡ switches b) }
    ensures answer { result ≡ rows_answer b table.now st.now (length list.old) }
    ensures list { list.new ≡ output (answer_number result) list.old
        (zero_filled (length list.old) (contentions b table.now st.now)) }
{
    wiring::fill_wires(b, wires);
    let rows = chain_block(b, table, st, wires, heads, nexts);
    if list.len() < ROW_LENGTH * rows {
        return Err(Refusal::ListTooShort(rows as u32));
    }
    list_rows(b, table, st, heads, nexts, list);
    Ok(rows as u32)
}

// Grounds 3, 4 and 15 of bits, and the rows.
pub fn list_bits(
    b: Block,
    table: &[u16],
    bits: &[u64],
    list: &mut [u16],
    settings: &mut [u16],
    wires: &mut [u16],
    heads: &mut [u16],
    nexts: &mut [u16],
) -> Result<u32, Refusal>
    requires { Sized b × ContentionLong b (contention_lent table.now bits.now settings.old wires.old heads.old nexts.old) }
    ensures answer { result ≡ bits_answer b table.now bits.now (length list.old) }
    ensures list { list.new ≡ output (answer_number result) list.old
        (contentions_list b table.now bits.now (length list.old)) }
{
    config::read(size_of(b), table, bits, settings)?;
    list_settings(b, table, settings, list, wires, heads, nexts)
}
