// Reading a tile in one pass over its set bits, which are few: each goes to the setting that it belongs to, where a group's pattern comes together, or
// shows that the tile cannot be decoded. Then each pattern is looked up. Which position is at fault is another search (`tile_fault`).
ghost use Rattle.std.specs.Prelude.{◌≡◌, true, false, ◌<◌, eqb, length};
ghost use Rattle.routing.specs.LogicTile.{logic_tile};
ghost use Rattle.routing.specs.Rules.{TableRules};
ghost use Rattle.routing.specs.Slots.{slot_count};
ghost use Rattle.routing.specs.Claiming.{TableOwned};
ghost use Rattle.codec.specs.Bits.{bit_at, tile_of};
ghost use Rattle.ports.specs.Lengths.{tile_numbers, settings_length};
ghost use Rattle.codec.specs.Decode.{decode};
ghost use Rattle.codec.specs.Fault.{tile_fault};
ghost use Rattle.tile.specs.Taking.{Gathered, Learned, Taken, TakenRow, WithoutCell, Undecodable};

use crate::groups::find_settings;
use codec::bits::{UNIT, is_empty};
use codec::cells::{decode_cells, put_cells};
use codec::settings::{GROUPS_FROM, has_both_carries};
use ports::lengths::{MAX_POSITIONS, TILE_NUMBERS};
use routing::slots::{FIELD_CODES, GROUP_CODES};
use words::stray::PAST_COLUMNS;

// The set bit at p; whether something claims it. A group's bit is put into the group's pattern. The cells are read as a whole, elsewhere.
fn take_bit(table: &[u16], own: &[u16], bits: &[u64], p: usize, settings: &mut [u16]) -> bool
    requires { (TableRules logic_tile table.now) × (TableOwned logic_tile table.now (slot_count logic_tile) own.now) ×
        (length bits.now ≡ tile_numbers) × (p < logic_tile.positions) × (bit_at bits.now p ≡ 1) × Gathered table.now bits.now settings.old }
    ensures yes { result ≡ true → Learned table.now bits.now settings.old settings.new ×
        Taken table.now settings.new p }
    ensures no { result ≡ false → Undecodable table.now bits.now }
{
    let code = usize::from(own[p]);
    if code < FIELD_CODES {
        return code != 0;
    }
    if code < GROUP_CODES {
        settings[code - FIELD_CODES] = 1;
    } else {
        let n = code - GROUP_CODES;
        settings[GROUPS_FROM + n / MAX_POSITIONS] |= 1 << (n % MAX_POSITIONS);
    }
    true
}

// The weights of the first of the ten columns of a row that its cell has, and of the first one past them.
const CELL_FROM: u64 = 68719476736;

const PAST_CELL: u64 = 70368744177664;

// A row without its cell's columns.
fn without_cell(row: u64) -> u64
    ensures { WithoutCell row result }
{
    row / PAST_CELL * PAST_CELL + row % CELL_FROM
}

// The set bits of row i outside its cell. A row with one past its columns cannot be decoded.
// Rules out: a set bit past the columns left out.
fn take_row(table: &[u16], own: &[u16], bits: &[u64], i: usize, settings: &mut [u16]) -> bool
    requires { (TableRules logic_tile table.now) × (TableOwned logic_tile table.now (slot_count logic_tile) own.now) ×
        (length bits.now ≡ tile_numbers) × (i < tile_numbers) × Gathered table.now bits.now settings.old }
    ensures yes { result ≡ true → Learned table.now bits.now settings.old settings.new ×
        TakenRow table.now bits.now settings.new i }
    ensures no { result ≡ false → Undecodable table.now bits.now }
{
    let row = bits[i];
    if PAST_COLUMNS <= row {
        return false;
    }
    let mut left = without_cell(row);
    while 0 < left {
        let k = digits::lowest_digit(left);
        if !take_bit(table, own, bits, UNIT * i + k, settings) {
            return false;
        }
        left = digits::without_digit(left, k);
    }
    true
}

// Whether the tile can be decoded; on a yes its settings are read. A tile with no bit set takes no time.
// Rules out: settings kept from another tile; a yes for a bit that nothing claims, a set bit past the columns, an unlisted group or the carry pair; a no for anything else.
pub fn try_decode(table: &[u16], own: &[u16], bits: &[u64], settings: &mut [u16]) -> bool
    requires { (TableRules logic_tile table.now) × (TableOwned logic_tile table.now (slot_count logic_tile) own.now) ×
        (length bits.now ≡ tile_numbers) × (length settings.old ≡ settings_length) }
    ensures answer { result ≡ eqb (tile_fault table.now (tile_of bits.now)) logic_tile.positions }
    ensures settings { result ≡ true → settings.new ≡ decode table.now (bit_at bits.now) }
{
    settings.fill(0);
    if is_empty(bits) {
        return true;
    }
    for i in 0..TILE_NUMBERS {
        if !take_row(table, own, bits, i, settings) {
            return false;
        }
    }
    if !find_settings(table, settings) {
        return false;
    }
    put_cells(settings, decode_cells(bits));
    !has_both_carries(settings)
}
