// The eight cells of a tile, by value: in its bits, in its settings, and two tiles' cells compared (document 01, 'Cells').
ghost use Rattle.std.specs.Prelude.{◌≡◌, ℕ, ◌<◌, length};
ghost use Rattle.lists.specs.Tables.{zeros};
ghost use Rattle.routing.specs.TileKind.{bits_per_cell};
ghost use Rattle.routing.specs.LogicTile.{logic_tile, cell_position};
ghost use Rattle.ports.specs.Lengths.{tile_numbers, settings_length};
ghost use Rattle.codec.specs.Bits.{set_bits, bit_at};
ghost use Rattle.codec.specs.Cells.{cell_bit_in, cell_number, value_in, cells_in, cell_settings, write_cells, put_cells, no_cells, moved_bit, low_ten, high_ten, same_cell};

use crate::bits::{PAST_TEN, read_ten};
use crate::settings::GROUPS_FROM;
use cell::logic::Cell;
use ports::lengths::{COLUMNS, MAX_GROUPS};
use routing::cells::BITS_PER_CELL;

// Where the cells stand in a tile's settings: table and flags of each.
pub const CELLS_FROM: usize = GROUPS_FROM + MAX_GROUPS;

// How many numbers that is.
const CELL_NUMBERS: usize = 16;

// A cell has two rows of a tile. Its logic cell bits 0 to 9 stand side by side in the first, 10 to 19 in the second.
const CELL_POSITIONS: usize = 2 * COLUMNS;

const FIRST_TEN: usize = 36;

const SECOND_TEN: usize = 90;

// A cell's 20 bits as one number: its table, and its flags with weight 65,536. An empty cell takes no time.
pub fn read_value(bits: &[u64], i: usize) -> u32
    requires { (length bits.now ≡ tile_numbers) × (i < 8) }
    ensures { result ≡ value_in (bit_at bits.now) i }
{
    let p = CELL_POSITIONS * i;
    let first = read_ten(bits, p + FIRST_TEN);
    let second = read_ten(bits, p + SECOND_TEN);
    let both = first + PAST_TEN * second;
    if both == 0 {
        return 0;
    }
    let mut value: u32 = 0;
    for j in 0..BITS_PER_CELL {
        let k = routing::cells::lc_bit(j);
        value += ((both >> k) & 1) << j;
    }
    value
}

// The cells that a tile's bits hold.
pub fn decode_cells(bits: &[u64]) -> [Cell; 8]
    requires { length bits.now ≡ tile_numbers }
    ensures { result ≡ cells_in (bit_at bits.now) }
{
    std::array::from_fn(|i| {
        let value = read_value(bits, i);
        Cell::new((value % 65536) as u16, (value / 65536) as u16)
    })
}

// The cells that a tile's settings hold.
pub fn cells_of(settings: &[u16]) -> [Cell; 8]
    requires { length settings.now ≡ settings_length }
    ensures { result ≡ cell_settings settings.now }
{
    std::array::from_fn(|i| Cell::new(
        settings[CELLS_FROM + 2 * i],
        settings[CELLS_FROM + 2 * i + 1],
    ))
}

// Whether a tile's settings have no cell with anything set. No early exit, so the loop vectorises.
// Rules out: looking at the tables alone; leaving the last cell.
fn has_no_cells(settings: &[u16]) -> bool
    requires { length settings.now ≡ settings_length }
    ensures { result ≡ no_cells settings.now }
{
    settings[CELLS_FROM..CELLS_FROM + CELL_NUMBERS]
        .iter()
        .fold(true, |none, number| none & (*number == 0))
}

// Bit j of a number, moved to place k.
fn moved_bit(value: u32, j: u32, k: u32) -> u64
    requires { (j < bits_per_cell) × (k < 10) }
    ensures is { result ≡ moved_bit value j k }
    ensures small { result < 1024 }
{
    u64::from((value >> j) & 1) << k
}

// What a cell's first row holds of its value: logic cell bits 0 to 9. One by one and with no loop, for every place is known.
fn low_ten(value: u32) -> u64
    ensures { result ≡ low_ten value }
{
    moved_bit(value, 0, 4)
        + moved_bit(value, 3, 5)
        + moved_bit(value, 4, 6)
        + moved_bit(value, 7, 7)
        + moved_bit(value, 8, 3)
        + moved_bit(value, 11, 2)
        + moved_bit(value, 12, 1)
        + moved_bit(value, 15, 0)
        + moved_bit(value, 16, 8)
        + moved_bit(value, 17, 9)
}

// And its second row: logic cell bits 10 to 19.
fn high_ten(value: u32) -> u64
    ensures { result ≡ high_ten value }
{
    moved_bit(value, 1, 4)
        + moved_bit(value, 2, 5)
        + moved_bit(value, 5, 6)
        + moved_bit(value, 6, 7)
        + moved_bit(value, 9, 3)
        + moved_bit(value, 10, 2)
        + moved_bit(value, 13, 1)
        + moved_bit(value, 14, 0)
        + moved_bit(value, 18, 8)
        + moved_bit(value, 19, 9)
}

// A cell's 20 bits written where all of them are clear, so that an empty cell takes no time. Each of its two rows is written once.
fn write_value(bits: &mut [u64], i: usize, value: u32)
    requires { (length bits.old ≡ tile_numbers) × (i < 8) × ((j : ℕ) → j < bits_per_cell → cell_bit_in (bit_at bits.old) i j ≡ 0) }
    ensures { bits.new ≡ set_bits bits.old (cell_position i) value bits_per_cell }
{
    if value == 0 {
        return;
    }
    let first = bits[2 * i];
    let second = bits[2 * i + 1];
    bits[2 * i] = first + (low_ten(value) << FIRST_TEN);
    bits[2 * i + 1] = second + (high_ten(value) << FIRST_TEN);
}

// A cell's 20 bits as one number: its table, and its flags with weight 65,536.
fn cell_number(cell: Cell) -> u32
    ensures { result ≡ cell_number cell }
{
    u32::from(cell.table) + 65536 * u32::from(cell.flags())
}

// Eight cells written to a tile's bits, which are clear.
fn write_cells(bits: &mut [u64], cells: [Cell; 8])
    requires { bits.old ≡ zeros tile_numbers }
    ensures { bits.new ≡ write_cells bits.old cells 8 }
{
    for (i, cell) in cells.iter().enumerate() {
        write_value(bits, i, cell_number(*cell));
    }
}

// The cells of a tile's settings written to its bits, which are clear. A tile that only passes wires on has none: there is nothing to write.
pub fn encode_cells(settings: &[u16], bits: &mut [u64])
    requires { (length settings.now ≡ settings_length) × (bits.old ≡ zeros tile_numbers) }
    ensures { bits.new ≡ write_cells bits.old (cell_settings settings.now) 8 }
{
    if !has_no_cells(settings) {
        write_cells(bits, cells_of(settings));
    }
}

// Eight cells put into a tile's settings.
pub fn put_cells(settings: &mut [u16], cells: [Cell; 8])
    requires { length settings.old ≡ settings_length }
    ensures { settings.new ≡ put_cells settings.old cells 8 }
{
    for (i, cell) in cells.iter().enumerate() {
        settings[CELLS_FROM + 2 * i] = cell.table;
        settings[CELLS_FROM + 2 * i + 1] = cell.flags();
    }
}

// Whether two cells have the same settings.
pub fn is_same_cell(a: Cell, b: Cell) -> bool
    ensures { result ≡ same_cell a b }
{
    a == b
}
