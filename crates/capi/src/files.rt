// Reading and writing a block as an IceStorm ASCII file (document 02, W1).
ghost use Rattle.std.specs.Prelude.{◌≡◌, length};
ghost use Rattle.refusal.specs.Memory.{output};
ghost use Rattle.ports.specs.Block.{size};
ghost use Rattle.asc.specs.Area.{area_at};
ghost use Rattle.asc.specs.Content.{written};
ghost use Rattle.asc.specs.Answers.{read_answer, bits_read, write_answer, length_answer};
ghost use Rattle.capi.specs.Packed.{packed_answer, packed_number, ground_in};

use crate::pack;
use ports::size::Size;

// Reads the bits of the block whose south-west tile stands at x, y of the chip from a file. Grounds 1, 2, 13.
pub fn ice40_asc_read(w: u32, h: u32, x: u32, y: u32, text: &[u8], bits: &mut [u64]) -> u64
    ensures answer { result ≡ packed_answer (read_answer (area_at (size w h) x y) text.now (length bits.old)) }
    ensures bits { bits.new ≡ output (ground_in result) bits.old (bits_read (area_at (size w h) x y) text.now) }
{
    pack::pack_answer(asc::read(Size { w, h }, x, y, text, bits))
}

// How many bytes the file of such a block has. Ground 1.
pub fn ice40_asc_length(w: u32, h: u32, x: u32, y: u32) -> u64
    ensures { result ≡ packed_number (length_answer (area_at (size w h) x y)) }
{
    pack::pack_number(asc::text_length(Size { w, h }, x, y))
}

// Writes a block as a file. Grounds 1, 2, 4.
pub fn ice40_asc_write(w: u32, h: u32, x: u32, y: u32, bits: &[u64], text: &mut [u8]) -> u64
    ensures answer { result ≡ packed_answer (write_answer (area_at (size w h) x y) bits.now (length text.old)) }
    ensures text { text.new ≡ output (ground_in result) text.old (written (area_at (size w h) x y) bits.now) }
{
    pack::pack_answer(asc::write(Size { w, h }, x, y, bits, text))
}
