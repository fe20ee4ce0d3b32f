// The row of a tile that is being written, kept out of the tile until another row is: several bits of one row follow each other, and a row that is
// loaded and stored for each of them makes every bit wait for the one before.
ghost use Rattle.std.specs.Prelude.{◌≡◌, ◌/◌, ◌%◌, ◌<◌, length};
ghost use Rattle.digits.specs.Digits.{digit};
ghost use Rattle.ports.specs.Lengths.{tile_numbers};
ghost use Rattle.routing.specs.LogicTile.{logic_tile};
ghost use Rattle.codec.specs.Bits.{unit, bit_at, set_bit};
ghost use Rattle.codec.specs.Held.{with_held};

use crate::bits::UNIT;

// A row's number and its bits as they are to be; the tile has an older word there.
#[derive(Clone, Copy)]
pub struct HeldRow {
    pub row: usize,
    pub word: u64,
}

// The first row, as it stands in the tile.
pub fn hold_first(bits: &[u64]) -> HeldRow
    requires { length bits.now ≡ tile_numbers }
    ensures row { result.row < tile_numbers }
    ensures bits { with_held bits.now result ≡ bits.now }
{
    HeldRow {
        row: 0,
        word: bits[0],
    }
}

// The row of a position. A product in place of a quotient: 1,214 is a little more than 65,536 / 54, and exact for a tile's positions.
fn row_of(p: usize) -> usize
    requires { p < logic_tile.positions }
    ensures { result ≡ p / unit }
{
    (p * 1214) >> 16
}

// And its column.
fn column_of(p: usize) -> usize
    requires { p < logic_tile.positions }
    ensures { result ≡ p % unit }
{
    p - UNIT * row_of(p)
}

// The row of position p held; where that is another row, the one that was held is stored.
fn hold_row(bits: &mut [u64], held: HeldRow, p: usize) -> HeldRow
    requires { (length bits.old ≡ tile_numbers) × (held.row < tile_numbers) × (p < logic_tile.positions) }
    ensures row { result.row ≡ p / unit }
    ensures bits { with_held bits.new result ≡ with_held bits.old held }
{
    let row = row_of(p);
    if row == held.row {
        return held;
    }
    bits[held.row] = held.word;
    HeldRow {
        row,
        word: bits[row],
    }
}

// Digit k of a pattern written to position p, which is clear: there is nothing to take away.
pub fn write_digit(bits: &mut [u64], held: HeldRow, p: usize, pattern: u16, k: usize) -> HeldRow
    requires { (p < logic_tile.positions) × (length bits.old ≡ tile_numbers) × (held.row < tile_numbers) ×
        (k < 16) × (bit_at (with_held bits.old held) p ≡ 0) }
    ensures row { result.row < tile_numbers }
    ensures bits { with_held bits.new result ≡ set_bit (with_held bits.old held) p (digit pattern k) }
{
    let mut next = hold_row(bits, held, p);
    next.word += u64::from((pattern >> k) & 1) << column_of(p);
    next
}

// The row that is held, put back.
pub fn store_held(bits: &mut [u64], held: HeldRow)
    requires { (length bits.old ≡ tile_numbers) × (held.row < tile_numbers) }
    ensures { bits.new ≡ with_held bits.old held }
{
    bits[held.row] = held.word;
}
