// A block's bits in both their forms (document 02, W7): words, a row of a tile each, and the bytes of frames.
ghost use Rattle.std.specs.Prelude.{◌≡◌, length};
ghost use Rattle.refusal.specs.Memory.{output};
ghost use Rattle.ports.specs.Block.{size, tile_count};
ghost use Rattle.words.specs.Forms.{words_of, bytes_of};
ghost use Rattle.words.specs.Answers.{words_answer, bytes_answer};
ghost use Rattle.capi.specs.Packed.{packed_answer, ground_in};

use crate::pack;
use ports::size::Size;

// The bytes of a block as words. Grounds 1, 2.
pub fn ice40_words_of_bytes(w: u32, h: u32, bytes: &[u8], words: &mut [u64]) -> u64
    ensures answer { result ≡ packed_answer (words_answer (size w h) (length bytes.now) (length words.old)) }
    ensures words { words.new ≡ output (ground_in result) words.old (words_of (tile_count (size w h)) bytes.now) }
{
    pack::pack_answer(words::words_of_bytes(Size { w, h }, bytes, words))
}

// The words of a block as bytes. Grounds 1, 2, 4.
pub fn ice40_bytes_of_words(w: u32, h: u32, words: &[u64], bytes: &mut [u8]) -> u64
    ensures answer { result ≡ packed_answer (bytes_answer (size w h) words.now (length bytes.old)) }
    ensures bytes { bytes.new ≡ output (ground_in result) bytes.old (bytes_of (tile_count (size w h)) words.now) }
{
    pack::pack_answer(words::bytes_of_words(Size { w, h }, words, bytes))
}
