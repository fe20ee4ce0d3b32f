// A block's bits in both their forms (document 02, W7): sixteen words a tile, one for each row, which everything works on, and the 108 bytes a tile
// of document 01, which stay at the file edge. Nothing here knows what the bits mean.
//
// `words_of_bytes` and `bytes_of_words` take any input, and none has a `requires`. proofs/FormsLaws.antt says that each is the other's inverse and
// that both forms carry the same bits.
#![tactic(auto)]

ghost use Rattle.std.specs.Prelude.{◌≡◌, length};
ghost use Rattle.ports.specs.Block.{tile_count};
ghost use Rattle.refusal.specs.Grounds.{answer_number};
ghost use Rattle.refusal.specs.Memory.{output};
ghost use Rattle.words.specs.Forms.{words_of, bytes_of};
ghost use Rattle.words.specs.Answers.{words_answer, bytes_answer};
ghost use Rattle.words.specs.Meaning.{WordsSay, BytesSay};

use ports::lengths::{bits_length, bytes_length};
use ports::size::{Size, is_allowed, tile_count};
use refusal::Refusal;

pub mod forms;
pub mod stray;

// The bytes of a block as words. Grounds 1, 2, in this order (`words_answer`).
// Rules out: bytes taken in another order; a row that starts at a byte's first bit; words written on a no.
pub fn words_of_bytes(s: Size, bytes: &[u8], words: &mut [u64]) -> Result<(), Refusal>
    ensures answer { result ≡ words_answer s (length bytes.now) (length words.old) }
    ensures words { words.new ≡ output (answer_number result) words.old (words_of (tile_count s) bytes.now) }
    ensures says { WordsSay s bytes.now words.old words.new result }
{
    if !is_allowed(s) {
        return Err(Refusal::WrongSize);
    }
    if bytes.len() != bytes_length(s) || words.len() != bits_length(s) {
        return Err(Refusal::WrongLength);
    }
    forms::to_words(tile_count(s), bytes, words);
    Ok(())
}

// The words of a block as bytes. Grounds 1, 2, 4, in this order (`bytes_answer`): bytes have no place for a bit past a row's columns.
// Rules out: a byte cut off at a row's end; bits past a row's columns let into a byte, or dropped; bytes written on a no.
pub fn bytes_of_words(s: Size, words: &[u64], bytes: &mut [u8]) -> Result<(), Refusal>
    ensures answer { result ≡ bytes_answer s words.now (length bytes.old) }
    ensures bytes { bytes.new ≡ output (answer_number result) bytes.old (bytes_of (tile_count s) words.now) }
    ensures says { BytesSay s words.now bytes.old bytes.new result }
{
    if !is_allowed(s) {
        return Err(Refusal::WrongSize);
    }
    if bytes.len() != bytes_length(s) || words.len() != bits_length(s) {
        return Err(Refusal::WrongLength);
    }
    let i = stray::first_stray(words);
    if i < words.len() {
        return Err(Refusal::Undecodable(stray::stray_place(i)));
    }
    forms::to_bytes(tile_count(s), words, bytes);
    Ok(())
}
