// A whole run (document 01, 'Frames and one whole run'): an input of frames to the lines of its report, bytes to bytes. The program `report`
// only reads its standard input, calls `report` and writes what it gave.
//
// specs/Report.antt says what is printed. An input longer than `INPUT` bytes has the report of its first `INPUT` bytes (proofs/PrefixLaws.antt:
// `report_prefix`), so a caller need read no more.
#![tactic(auto)]

ghost use Rattle.std.specs.Prelude.{◌≡◌, ◌+◌, ◌≤◌, ◌++◌, length, drop};
ghost use Rattle.ports.specs.Block.{size, size_of, tiles};
ghost use Rattle.ports.specs.Lengths.{table_length, bits_length, bytes_length};
ghost use Rattle.words.specs.Forms.{tiles_of_bytes};
ghost use Rattle.frames.specs.Whole.{Small};
ghost use Rattle.frames.specs.Contents.{table_of, bits_of};
ghost use Rattle.texts.specs.Pieces.{placed};
ghost use Rattle.reporting.specs.Report.{out_length, block_lines, report_of};

use ports::lengths::{TABLE_LENGTH, TILE_BYTES, TILE_NUMBERS};
use ports::size::Block;

pub mod blocks;

// As much of an input as its report depends on, and as much as a report can have.
pub const INPUT: usize = 131072;

pub const OUTPUT: usize = 51039;

const TABLE: usize = TABLE_LENGTH;

const BYTES: usize = 9 * TILE_BYTES;

const WORDS: usize = 9 * TILE_NUMBERS;

// Room of zeros, of which callers need the length alone.
pub fn input_room() -> [u8; INPUT]
    ensures { 131072 ≡ length result }
{
    [0; INPUT]
}

pub fn output_room() -> [u8; OUTPUT]
    ensures { 51039 ≡ length result }
{
    [0; OUTPUT]
}

fn table_room() -> [u16; TABLE]
    ensures { table_length ≡ length result }
{
    [0; TABLE]
}

fn bytes_room() -> [u8; BYTES]
    ensures { bytes_length (size 3 3) ≡ length result }
{
    [0; BYTES]
}

fn words_room() -> [u64; WORDS]
    ensures { bits_length (size 3 3) ≡ length result }
{
    [0; WORDS]
}

// The report of an input whose frames are in order, in room of the exact lengths. The frames have bytes, and all else works on words.
fn put_frames(
    s: &[u8],
    b: Block,
    table: &mut [u16],
    bytes: &mut [u8],
    words: &mut [u64],
    out: &mut [u8],
) -> usize
    requires { Small b.w b.h × (length table.old ≡ table_length) × (length bytes.old ≡ bytes_length (size_of b)) ×
        (length words.old ≡ bits_length (size_of b)) × (length out.old ≡ out_length) }
    ensures next { result ≡ 0 + length (block_lines b (table_of s.now) (tiles_of_bytes (bits_of s.now (tiles b)))) }
    ensures out { out.new ≡ placed 0 (block_lines b (table_of s.now) (tiles_of_bytes (bits_of s.now (tiles b))))
        out.old }
{
    frames::contents::fill_table(s, table);
    let n = (b.h * b.w) as usize;
    frames::contents::fill_bits(s, n, bytes);
    words::forms::to_words(n, bytes, words);
    blocks::put_block(b, table, words, out)
}

// The report of an input whose frames are in order.
fn put_input(s: &[u8], b: Block, out: &mut [u8]) -> usize
    requires { Small b.w b.h × (length out.old ≡ out_length) }
    ensures next { result ≡ 0 + length (block_lines b (table_of s.now) (tiles_of_bytes (bits_of s.now (tiles b)))) }
    ensures out { out.new ≡ placed 0 (block_lines b (table_of s.now) (tiles_of_bytes (bits_of s.now (tiles b))))
        out.old }
{
    let n = (b.h * b.w) as usize;
    let end = TILE_BYTES * n;
    let last = TILE_NUMBERS * n;
    let mut table = table_room();
    let mut bytes = bytes_room();
    let mut words = words_room();
    put_frames(s, b, &mut table, &mut bytes[..end], &mut words[..last], out)
}

// The report of an input: how many bytes it has, at the front of `out`.
// Rules out: lines before a no; the lines of another input; a last line that is left out.
pub fn report(input: &[u8], out: &mut [u8; OUTPUT]) -> usize
    ensures length { result ≡ length (report_of input.now) }
    ensures out { out.new ≡ report_of input.now ++ drop result out.old }
    ensures fits { result ≤ length out.new }
{
    match frames::input::parse(input) {
        Err(r) => blocks::put_refusal(r, out),
        Ok(b) => put_input(input, b, out),
    }
}
