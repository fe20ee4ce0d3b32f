// The bits of a tile, by position. In which form they are lent is for specs/Bits.antt to say, and who knows it.
ghost use Rattle.std.specs.Prelude.{◌≡◌, ◌+◌, ◌/◌, ◌%◌, ◌<◌, ◌≤◌, length};
ghost use Rattle.codec.specs.Bits.{unit, bit_at, set_bit, ten_from, is_empty, bit_count};
ghost use Rattle.ports.specs.Lengths.{tile_numbers};

use ports::lengths::COLUMNS;
use words::stray::PAST_COLUMNS;

// How many positions a lent number, a row of the tile, has.
pub const UNIT: usize = COLUMNS;

// The bit at position p.
pub fn read_bit(bits: &[u64], p: usize) -> u8
    requires { p / unit < length bits.now }
    ensures { result ≡ bit_at bits.now p }
{
    digits::digit_of(bits[p / UNIT], p % UNIT)
}

// The weight of the first digit past ten.
pub const PAST_TEN: u32 = 1024;

// The ten bits from position p on as one number, the first with weight 1, where one row holds them: read at once, not one by one.
// Rules out: the bits of p + 1 on; bits past the ten.
pub fn read_ten(bits: &[u64], p: usize) -> u32
    requires { (p % unit ≤ 44) × (p / unit < length bits.now) }
    ensures { result ≡ ten_from (bit_at bits.now) p }
{
    ((bits[p / UNIT] >> (p % UNIT)) % 1024) as u32
}

// A bit written to position p.
pub fn write_bit(bits: &mut [u64], p: usize, value: u8)
    requires { (p / unit < length bits.old) × (value < 2) }
    ensures { bits.new ≡ set_bit bits.old p value }
{
    let i = p / UNIT;
    let row = bits[i];
    bits[i] = digits::with_digit(row, p % UNIT, value);
}

// Whether no bit of a tile is set, nor one past a row's columns.
pub fn is_empty(bits: &[u64]) -> bool
    requires { length bits.now ≡ tile_numbers }
    ensures { result ≡ is_empty bits.now }
{
    bits.iter().all(|row| *row == 0)
}

// How many of a tile's 864 bits are set.
// Rules out: counting rows that are not zero; leaving the last row; counting what is past a row's columns.
pub fn count_bits(bits: &[u64]) -> u32
    requires { length bits.now ≡ tile_numbers }
    ensures { result ≡ bit_count (bit_at bits.now) }
{
    bits.iter()
        .map(|row| u64::count_ones(*row % PAST_COLUMNS))
        .sum()
}
