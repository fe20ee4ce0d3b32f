// Reading and writing the bits of a block (document 01, 'The routing table', 'Cells', 'Grounds for a no').
//
// `read`, `write` and `bit_count` take any input and none has a `requires`. The functions of `blocks` assume what the checks have
// shown, for callers that read or write one block many times. `check_settings` assumes the lengths alone, for callers that have grounds 3
// and 9 in front of their own. specs/Entry.antt has the grounds in their orders, specs/Meaning.antt what each answer says.
// proofs/RoundTrip.antt has both round trips.
#![tactic(auto)]

ghost use Rattle.std.specs.Prelude.{◌≡◌, length};
ghost use Rattle.refusal.specs.Grounds.{answer_number};
ghost use Rattle.refusal.specs.Memory.{output};
ghost use Rattle.ports.specs.Block.{tile_count};
ghost use Rattle.config.specs.Blocks.{decoded, encoded, tiles_of};
ghost use Rattle.config.specs.Entry.{read_answer, write_answer, bit_count_answer};
ghost use Rattle.config.specs.Meaning.{ReadSays};
ghost use Rattle.config.specs.WriteMeaning.{WriteSays};

use ports::lengths::{TILE_NUMBERS, bits_length};
use ports::size::{Size, is_allowed};
use refusal::Refusal;

pub mod blocks;
mod checks;
mod room;

pub use checks::check_settings;

// Reads a block's bits to its settings. Grounds 1 to 4, in this order (`read_answer`).
// Rules out: refusing every block; settings written on a no; the same settings for all bits.
pub fn read(s: Size, table: &[u16], bits: &[u64], settings: &mut [u16]) -> Result<(), Refusal>
    ensures answer { result ≡ read_answer s table.now bits.now (length settings.old) }
    ensures settings { settings.new ≡ output (answer_number result) settings.old
        (decoded table.now (tiles_of bits.now) (tile_count s)) }
    ensures says { ReadSays s table.now bits.now settings.old settings.new result }
{
    let len = settings.len();
    let mut room = room::settings_room();
    checks::read_checks(s, table, bits, len, &mut room)?;
    settings.copy_from_slice(&room[..len]);
    Ok(())
}

// Writes a block's settings as bits. Grounds 1, 2, 3, 9, in this order (`write_answer`).
// Rules out: writing nothing; bits of settings that no bits have; bits written on a no.
pub fn write(s: Size, table: &[u16], settings: &[u16], bits: &mut [u64]) -> Result<(), Refusal>
    ensures answer { result ≡ write_answer s table.now settings.now (length bits.old) }
    ensures bits { bits.new ≡ output (answer_number result) bits.old
        (encoded table.now settings.now (tile_count s)) }
    ensures says { WriteSays s table.now settings.now bits.old bits.new result }
{
    let len = bits.len();
    checks::write_checks(s, table, settings, len)?;
    blocks::encode_block(table, settings, bits, (s.h * s.w) as usize);
    Ok(())
}

// How many of a tile's bits are set. Grounds 1, 2, 20, in this order (`bit_count_answer`). It takes no table and counts undecodable tiles too.
// Rules out: counting the whole block; counting what is past a row's columns.
pub fn bit_count(s: Size, bits: &[u64], tile: u32) -> Result<u32, Refusal>
    ensures { result ≡ bit_count_answer s bits.now tile }
{
    if !is_allowed(s) {
        return Err(Refusal::WrongSize);
    }
    let n = (s.h * s.w) as usize;
    if bits.len() != bits_length(s) {
        return Err(Refusal::WrongLength);
    }
    let t = tile as usize;
    if n <= t {
        return Err(Refusal::OutOfRange(tile));
    }
    let from = TILE_NUMBERS * t;
    let to = from + TILE_NUMBERS;
    Ok(codec::bits::count_bits(&bits[from..to]))
}
