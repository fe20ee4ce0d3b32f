// A block as a file: its length, and its text.
ghost use Rattle.std.specs.Prelude.{◌≡◌, ◌+◌, ◌*◌, ◌^◌, ◌<◌, ◌≤◌, length};
ghost use Rattle.ports.specs.Lengths.{tile_numbers};
ghost use Rattle.texts.specs.Pieces.{placed};
ghost use Rattle.asc.specs.Area.{tiles_of};
ghost use Rattle.asc.specs.Site.{area_of};
ghost use Rattle.asc.specs.Content.{row_digits, row_text, rows_length, rows_text, head_text, tile_text, written, text_length};

use crate::area::Site;
use crate::text::put_tile_line;
use digits::digit_of;
use ports::lengths::{COLUMNS, ROWS};
use std::array::from_fn;
use texts::decimal::decimal_length;
use texts::{LINE_END, put};

// The line .device, and what a tile has beside the digits of its coordinates: its word, two spaces, a line feed, and its rows.
const DEVICE_TEXT: usize = 11;

const TILE_TEXT: usize = 14 + ROWS * (COLUMNS + 1);

// How long the file of a block is.
#[tactic(auto, using(texts::proofs::DecimalLaws::decimal_length))]
pub fn file_length(site: Site) -> usize
    ensures { (result ≡ text_length (area_of site)) × (result < 2 ^ 16) }
{
    let mut length = DEVICE_TEXT;
    for t in 0..site.tiles() {
        let (x, y) = site.place(t);
        length += TILE_TEXT + decimal_length(x) + decimal_length(y);
    }
    length
}

// The 54 digits of a row.
fn row_digits(word: u64) -> [u8; COLUMNS]
    ensures { result ≡ row_digits word }
{
    from_fn(|c| b'0' + digit_of(word, c))
}

// A row and its line feed.
fn put_row(word: u64, out: &mut [u8], at: usize) -> usize
    requires { at + 55 ≤ length out.old }
    ensures next { result ≡ at + length (row_text word) }
    ensures out { out.new ≡ placed at (row_text word) out.old }
{
    let next = put(out, at, &row_digits(word));
    put(out, next, &[LINE_END])
}

// The sixteen rows of tile t.
fn put_rows(bits: &[u64], t: usize, out: &mut [u8], at: usize) -> usize
    requires { (t < 64) × (tile_numbers * t + tile_numbers ≤ length bits.now) × (at + rows_length ≤ length out.old) }
    ensures next { result ≡ at + length (rows_text bits.now t) }
    ensures out { out.new ≡ placed at (rows_text bits.now t) out.old }
{
    let mut next = at;
    for r in 0..ROWS {
        next = put_row(bits[ROWS * t + r], out, next);
    }
    next
}

// The line of tile t.
fn put_head(site: Site, t: usize, out: &mut [u8], at: usize) -> usize
    requires { (t < tiles_of (area_of site)) × (at + length (head_text (area_of site) t) ≤ length out.old) }
    ensures next { result ≡ at + length (head_text (area_of site) t) }
    ensures out { out.new ≡ placed at (head_text (area_of site) t) out.old }
{
    let (x, y) = site.place(t);
    let next = put_tile_line(out, at, x, y);
    put(out, next, &[LINE_END])
}

// The line and the rows of tile t.
fn put_tile(site: Site, t: usize, bits: &[u64], out: &mut [u8], at: usize) -> usize
    requires { (t < tiles_of (area_of site)) × (length bits.now ≡ tile_numbers * tiles_of (area_of site)) ×
        (at + length (tile_text (area_of site) bits.now t) ≤ length out.old) }
    ensures next { result ≡ at + length (tile_text (area_of site) bits.now t) }
    ensures out { out.new ≡ placed at (tile_text (area_of site) bits.now t) out.old }
{
    let next = put_head(site, t, out, at);
    put_rows(bits, t, out, next)
}

// The whole file, in a room of its length.
pub fn put_file(site: Site, bits: &[u64], text: &mut [u8])
    requires { (length bits.now ≡ tile_numbers * tiles_of (area_of site)) × (length text.old ≡ text_length (area_of site)) }
    ensures { text.new ≡ written (area_of site) bits.now }
{
    let mut next = put(text, 0, b".device 1k\n");
    for t in 0..site.tiles() {
        next = put_tile(site, t, bits, text, next);
    }
}
