// One logic tile: the lowest position at fault, its settings read, its settings written, and whether any bits have them (document 01, 'The routing
// table' and 'Cells'). The functions ask for a table that breaks no rule and for exact lengths; what reading and writing are stands in `codec`.
#![tactic(auto)]

ghost use Rattle.std.specs.Prelude.{◌≡◌, true, ◌<◌, length};
ghost use Rattle.lists.specs.Tables.{zeros};
ghost use Rattle.routing.specs.LogicTile.{logic_tile};
ghost use Rattle.routing.specs.Rules.{TableRules};
ghost use Rattle.routing.specs.Slots.{slot_count, field_slots, passive_slots, group_slots};
ghost use Rattle.routing.specs.Claiming.{TableOwned};
ghost use Rattle.ports.specs.Lengths.{tile_numbers, settings_length};
ghost use Rattle.codec.specs.Bits.{bit_at, tile_of};
ghost use Rattle.codec.specs.Decode.{decode};
ghost use Rattle.codec.specs.Fault.{tile_fault};
ghost use Rattle.codec.specs.Encode.{encode};
ghost use Rattle.codec.specs.Limits.{settings_fit, fits_within};
ghost use Rattle.codec.specs.Writing.{Writable, TileWritten};

use crate::groups::after_off;
use crate::reading::try_decode;
use codec::bits::{is_empty, write_bit};
use codec::cells::{CELLS_FROM, decode_cells, encode_cells, put_cells};
use codec::fault::is_fault_at;
use codec::groups::write_group;
use codec::held::{hold_first, store_held};
use codec::settings::{GROUPS_FROM, PASSIVES_FROM, group_setting, has_both_carries, setting_at};
use ports::lengths::{POSITIONS, SETTINGS_LENGTH};

mod groups;
mod reading;

// The lowest position at fault; 864 where the tile can be decoded. `own` is the ownership map of the table.
pub fn tile_fault(table: &[u16], own: &[u16], bits: &[u64]) -> usize
    requires { (TableRules logic_tile table.now) × (TableOwned logic_tile table.now (slot_count logic_tile) own.now) ×
        (length bits.now ≡ tile_numbers) }
    ensures { result ≡ tile_fault table.now (tile_of bits.now) }
{
    (0..POSITIONS)
        .find(|p| is_fault_at(table, own, bits, *p))
        .unwrap_or(POSITIONS)
}

// A tile's settings read from its bits; the cells go through the array by value. Many tiles of a block have no bit set, and take no time.
// Rules out: writing nothing; leaving the numbers past the table's counts as they were.
pub fn decode_tile(table: &[u16], bits: &[u64], settings: &mut [u16])
    requires { (TableRules logic_tile table.now) × (length bits.now ≡ tile_numbers) × (length settings.old ≡ settings_length) }
    ensures { settings.new ≡ decode table.now (bit_at bits.now) }
{
    if is_empty(bits) {
        settings.fill(0);
        return;
    }
    for n in 0..GROUPS_FROM {
        settings[n] = setting_at(table, bits, n);
    }
    let count = routing::table::group_count(table);
    for g in 0..count {
        settings[GROUPS_FROM + g] = group_setting(table, g, bits);
    }
    settings[GROUPS_FROM + count..CELLS_FROM].fill(0);
    put_cells(settings, decode_cells(bits));
}

// The lowest position at fault, with cleared settings; where there is none, 864 with the settings read. Only of a tile that cannot be decoded are
// all positions looked at.
pub fn read_tile(table: &[u16], own: &[u16], bits: &[u64], settings: &mut [u16]) -> usize
    requires { (TableRules logic_tile table.now) × (TableOwned logic_tile table.now (slot_count logic_tile) own.now) ×
        (length bits.now ≡ tile_numbers) × (length settings.old ≡ settings_length) }
    ensures fault { result ≡ tile_fault table.now (tile_of bits.now) }
    ensures settings { result ≡ logic_tile.positions → settings.new ≡ decode table.now (bit_at bits.now) }
    ensures cleared { result < logic_tile.positions → settings.new ≡ zeros settings_length }
{
    if try_decode(table, own, bits, settings) {
        POSITIONS
    } else {
        settings.fill(0);
        tile_fault(table, own, bits)
    }
}

// The fields written to bits that hold the cells.
#[tactic(auto, using(codec::proofs::TileRunLaws::field_position_lt, codec::proofs::LimitLaws::fit_field))]
fn write_fields(table: &[u16], settings: &[u16], bits: &mut [u64])
    requires { (Writable table.now settings.now) × (TileWritten table.now settings.now (field_slots logic_tile) bits.old) }
    ensures { TileWritten table.now settings.now (passive_slots logic_tile) bits.new }
{
    for f in 0..PASSIVES_FROM {
        let p = routing::table::field(table, f);
        write_bit(bits, p, settings[f] as u8);
    }
}

// The passive bits written after the fields.
#[tactic(auto, using(codec::proofs::TileRunLaws::passive_position_lt, codec::proofs::LimitLaws::fit_passive))]
fn write_passives(table: &[u16], settings: &[u16], bits: &mut [u64])
    requires { (Writable table.now settings.now) × (TileWritten table.now settings.now (passive_slots logic_tile) bits.old) }
    ensures { TileWritten table.now settings.now (group_slots logic_tile) bits.new }
{
    for j in 0..routing::table::passive_count(table) {
        let p = routing::table::passive(table, j);
        write_bit(bits, p, settings[PASSIVES_FROM + j] as u8);
    }
}

// The groups written after the passive bits. Most groups of most tiles are off: nothing is written for them.
fn write_groups(table: &[u16], settings: &[u16], bits: &mut [u64])
    requires { (Writable table.now settings.now) × (TileWritten table.now settings.now (group_slots logic_tile) bits.old) }
    ensures { TileWritten table.now settings.now (slot_count logic_tile) bits.new }
{
    let n = routing::table::group_count(table);
    let mut held = hold_first(bits);
    let mut g = 0;
    while g < n {
        let setting = settings[GROUPS_FROM + g];
        if setting != 0 {
            held = write_group(table, g, bits, held, setting);
            g += 1;
        } else {
            g = after_off(settings, g, n);
        }
    }
    store_held(bits, held);
}

// A tile's settings written to its bits: the cells first, then fields, passive bits and groups.
pub fn encode_tile(table: &[u16], settings: &[u16], bits: &mut [u64])
    requires { (TableRules logic_tile table.now) × (length settings.now ≡ settings_length) ×
        (settings_fit table.now settings.now ≡ true) × (length bits.old ≡ tile_numbers) }
    ensures { bits.new ≡ encode table.now settings.now }
{
    bits.fill(0);
    encode_cells(settings, bits);
    write_fields(table, settings, bits);
    write_passives(table, settings, bits);
    write_groups(table, settings, bits);
}

// Whether settings are within the limits, without the carry pair. With the limits of a table: whether some bits have these settings (ground 9). No
// early exit, so the loop vectorises.
// Rules out: an entry past a group's count; a number past the table's counts that is not 0.
pub fn settings_fit(limits: &[u16; SETTINGS_LENGTH], settings: &[u16]) -> bool
    requires { length settings.now ≡ settings_length }
    ensures { result ≡ fits_within limits.now settings.now }
{
    !has_both_carries(settings)
        && settings
            .iter()
            .zip(limits)
            .fold(true, |fit, (setting, limit)| fit & (*setting <= *limit))
}
