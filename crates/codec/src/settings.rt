// The settings of a tile as one slice of numbers (the layout stands in specs/Settings.antt): what is read to each, and the
// largest value of each.
ghost use Rattle.std.specs.Prelude.{◌≡◌, ◌<◌, length};
ghost use Rattle.routing.specs.LogicTile.{logic_tile};
ghost use Rattle.routing.specs.Rules.{TableRules};
ghost use Rattle.ports.specs.Lengths.{tile_numbers, settings_length};
ghost use Rattle.codec.specs.Bits.{bit_at};
ghost use Rattle.codec.specs.Settings.{groups_from};
ghost use Rattle.codec.specs.Groups.{GroupLent, read_group};
ghost use Rattle.codec.specs.Decode.{setting_number, setting_at};
ghost use Rattle.codec.specs.Limits.{limit_at, limits_of, both_carries};

use crate::bits::read_bit;
use crate::cells::CELLS_FROM;
use crate::groups::{GroupRead, read_group};
use ports::lengths::{FIELDS, MAX_PASSIVES, SETTINGS_LENGTH};
use routing::table::{CARRY_CHAIN, CARRY_IN_SET};

pub const PASSIVES_FROM: usize = FIELDS;

pub const GROUPS_FROM: usize = PASSIVES_FROM + MAX_PASSIVES;

// A group's setting.
pub fn group_setting(table: &[u16], g: usize, bits: &[u64]) -> u16
    requires { GroupLent table.now g bits.now }
    ensures { result ≡ setting_number (read_group logic_tile table.now (bit_at bits.now) g) }
{
    match read_group(table, g, bits) {
        GroupRead::Setting(s) => s,
        GroupRead::Unlisted(_) => 0,
    }
}

// Setting n of what the bits read to, below the groups: a field or a passive bit.
#[tactic(auto, using(crate::proofs::TileRunLaws::field_position_lt, crate::proofs::TileRunLaws::passive_position_lt), unfolding(crate::specs::Decode::setting_at))]
pub fn setting_at(table: &[u16], bits: &[u64], n: usize) -> u16
    requires { (TableRules logic_tile table.now) × (length bits.now ≡ tile_numbers) × (n < groups_from logic_tile) }
    ensures { result ≡ setting_at table.now (bit_at bits.now) n }
{
    if n < PASSIVES_FROM {
        u16::from(read_bit(bits, routing::table::field(table, n)))
    } else if n - PASSIVES_FROM < routing::table::passive_count(table) {
        u16::from(read_bit(bits, routing::table::passive(table, n - PASSIVES_FROM)))
    } else {
        0
    }
}

// The largest value of setting n.
#[tactic(auto, unfolding(crate::specs::Limits::limit_at))]
pub fn limit_at(table: &[u16], n: usize) -> u16
    requires { (TableRules logic_tile table.now) × (n < settings_length) }
    ensures { result ≡ limit_at table.now n }
{
    if n < PASSIVES_FROM {
        1
    } else if n < GROUPS_FROM {
        u16::from(n - PASSIVES_FROM < routing::table::passive_count(table))
    } else if n < CELLS_FROM {
        let g = n - GROUPS_FROM;
        if g < routing::table::group_count(table) {
            routing::table::entry_count(table, g) as u16
        } else {
            0
        }
    } else if (n - CELLS_FROM) % 2 == 0 {
        65535
    } else {
        15
    }
}

// The largest values of all settings, for a caller with many tiles.
pub fn limits(table: &[u16]) -> [u16; SETTINGS_LENGTH]
    requires { TableRules logic_tile table.now }
    ensures { result ≡ limits_of table.now }
{
    std::array::from_fn(|n| limit_at(table, n))
}

// Whether settings have CarryInSet together with the chain switch.
#[tactic(auto, unfolding(crate::specs::Limits::both_carries))]
pub fn has_both_carries(settings: &[u16]) -> bool
    requires { length settings.now ≡ settings_length }
    ensures { result ≡ both_carries settings.now }
{
    settings[CARRY_IN_SET] == 1 && settings[CARRY_CHAIN] == 1
}
