// IceStorm's ASCII files (document 02, W1): reading the logic tiles of a block from one, and writing a block as one. Nothing here knows of routing
// tables or settings: a block is its bits.
//
// `read`, `text_length` and `write` take any input and none has a `requires`. specs/Stages.antt has what the lines of a file are, specs/Meaning.antt
// what each answer of `read` says and specs/WriteMeaning.antt of `write`, proofs/ExactLaws.antt and proofs/WriteAnswerLaws.antt that it fits one answer
// only, proofs/RoundTrip.antt that a file is read back.
#![tactic(auto)]

ghost use Rattle.std.specs.Prelude.{◌≡◌, ◌*◌, ◌^◌, ◌<◌, true, length};
ghost use Rattle.ports.specs.Lengths.{tile_numbers, positions};
ghost use Rattle.refusal.specs.Grounds.{answer_number};
ghost use Rattle.refusal.specs.Memory.{output};
ghost use Rattle.asc.specs.Area.{area_at, tiles_of, sized};
ghost use Rattle.asc.specs.Site.{area_of};
ghost use Rattle.asc.specs.Content.{written};
ghost use Rattle.asc.specs.Meaning.{AscSays, line_number};
ghost use Rattle.asc.specs.WriteMeaning.{WriteSays};
ghost use Rattle.asc.specs.Answers.{read_answer, bits_read, write_answer, length_answer};

use crate::area::Site;
use ports::lengths::{POSITIONS, TILE_NUMBERS};
use ports::size::Size;
use refusal::Refusal;
use words::stray::{first_stray, stray_place};

mod area;
mod bits;
mod lines;
mod room;
mod scan;
mod text;
mod turn;
mod writing;

// One more than so many lines, cut at 2^32 - 1.
fn line_number(n: usize) -> u32
    ensures { result ≡ line_number n }
{
    n.saturating_add(1).min(u32::MAX as usize) as u32
}

// Reads with rooms of the block's size: marks of the tiles, and digits.
fn read_into(
    site: Site,
    text: &[u8],
    bits: &mut [u64],
    given: &mut [u8],
    content: &mut [u8],
) -> Result<(), Refusal>
    requires { (length bits.old ≡ tile_numbers * tiles_of (area_of site)) ×
        (length given.old ≡ tiles_of (area_of site)) × (length content.old ≡ positions * tiles_of (area_of site)) }
    ensures { AscSays (area_of site) text.now bits.old bits.new result }
{
    match scan::scan(site, text, given, content) {
        Err(n) => Err(Refusal::AscLine(line_number(n))),
        Ok(()) => {
            bits::pack(content, bits);
            Ok(())
        }
    }
}

// Reads the bits of the block with its south-west corner at x, y from a file of any length. Grounds 1, 2, 13, in this order (`read_answer`).
// Rules out: refusing every file; bits written on a no; a second device, a tile given twice, a tile left out; a last line without its line feed.
pub fn read(s: Size, x: u32, y: u32, text: &[u8], bits: &mut [u64]) -> Result<(), Refusal>
    ensures answer { result ≡ read_answer (area_at s x y) text.now (length bits.old) }
    ensures bits { bits.new ≡ output (answer_number result) bits.old (bits_read (area_at s x y) text.now) }
    ensures says { AscSays (area_at s x y) text.now bits.old bits.new result }
{
    let Some(site) = Site::new(s, x, y) else {
        return Err(Refusal::WrongSize);
    };
    let n = site.tiles();
    if bits.len() != TILE_NUMBERS * n {
        return Err(Refusal::WrongLength);
    }
    let mut given = room::given_room();
    let mut content = room::content_room();
    let digits = POSITIONS * n;
    read_into(site, text, bits, &mut given[..n], &mut content[..digits])
}

// How long the file of a block is. Ground 1 (`length_answer`).
pub fn text_length(s: Size, x: u32, y: u32) -> Result<u32, Refusal>
    ensures { result ≡ length_answer (area_at s x y) }
{
    let Some(site) = Site::new(s, x, y) else {
        return Err(Refusal::WrongSize);
    };
    Ok(writing::file_length(site) as u32)
}

// Writes a block as a file, .device first, tiles by index. Grounds 1, 2, 4, in this order (`write_answer`); 4 for a bit past a row's columns only.
// Rules out: a room that is longer than the file; a file written on a no; a stray bit left out of the file in silence.
pub fn write(s: Size, x: u32, y: u32, bits: &[u64], text: &mut [u8]) -> Result<(), Refusal>
    ensures answer { result ≡ write_answer (area_at s x y) bits.now (length text.old) }
    ensures text { text.new ≡ output (answer_number result) text.old (written (area_at s x y) bits.now) }
    ensures says { WriteSays (area_at s x y) bits.now text.old text.new result }
{
    let Some(site) = Site::new(s, x, y) else {
        return Err(Refusal::WrongSize);
    };
    if bits.len() != TILE_NUMBERS * site.tiles() || text.len() != writing::file_length(site) {
        return Err(Refusal::WrongLength);
    }
    let stray = first_stray(bits);
    if stray < bits.len() {
        return Err(Refusal::Undecodable(stray_place(stray)));
    }
    writing::put_file(site, bits, text);
    Ok(())
}
