// The lent table as one slice of numbers (the layout stands in specs/Table.antt): one function for each thing that stands there.
ghost use Rattle.std.specs.Prelude.{◌≡◌, ◌+◌, ◌<◌, ◌≤◌, length};
ghost use Rattle.routing.specs.LogicTile.{logic_tile};
ghost use Rattle.ports.specs.Lengths.{max_passives, max_groups, max_positions, max_entries, table_length};
ghost use Rattle.routing.specs.Table.{group_start, field_at, passive_count, passive_at, group_count, destination_of, width_of, position_at, entry_count, pattern_at, source_at, entry_of};

use ports::lengths::{FIELDS, GROUP_LENGTH};

// Which field is which.
pub const NEG_CLK: usize = 0;

pub const CARRY_IN_SET: usize = 1;

pub const CARRY_CHAIN: usize = 2;

// Where the passive list, the group count and the groups stand, and in a group its position count, positions, entry count, entries.
pub const PASSIVES: usize = 4;

const GROUP_COUNT: usize = 68;

const GROUPS: usize = 69;

const WIDTH: usize = 1;

const GROUP_POSITIONS: usize = 2;

const ENTRY_COUNT: usize = 10;

const PATTERNS: usize = 11;

const SOURCES: usize = 12;

// The position of field f.
pub fn field(table: &[u16], f: usize) -> usize
    requires { (length table.now ≡ table_length) × (f < logic_tile.fields) }
    ensures { result ≡ field_at table.now f }
{
    usize::from(table[f])
}

pub fn passive_count(table: &[u16]) -> usize
    requires { length table.now ≡ table_length }
    ensures { result ≡ passive_count logic_tile table.now }
{
    usize::from(table[FIELDS])
}

pub fn passive(table: &[u16], j: usize) -> usize
    requires { (length table.now ≡ table_length) × (j < max_passives) }
    ensures { result ≡ passive_at logic_tile table.now j }
{
    usize::from(table[PASSIVES + j])
}

pub fn group_count(table: &[u16]) -> usize
    requires { length table.now ≡ table_length }
    ensures { result ≡ group_count logic_tile table.now }
{
    usize::from(table[GROUP_COUNT])
}

// Where the positions of group g stand in the table.
pub fn positions_start(g: usize) -> usize
    requires { g < max_groups }
    ensures { result ≡ group_start logic_tile g + 2 }
{
    GROUPS + GROUP_LENGTH * g + GROUP_POSITIONS
}

pub fn destination(table: &[u16], g: usize) -> u16
    requires { (length table.now ≡ table_length) × (g < max_groups) }
    ensures { result ≡ destination_of logic_tile table.now g }
{
    table[GROUPS + GROUP_LENGTH * g]
}

// How many positions group g has.
pub fn width(table: &[u16], g: usize) -> usize
    requires { (length table.now ≡ table_length) × (g < max_groups) }
    ensures { result ≡ width_of logic_tile table.now g }
{
    usize::from(table[GROUPS + GROUP_LENGTH * g + WIDTH])
}

pub fn position(table: &[u16], g: usize, k: usize) -> usize
    requires { (length table.now ≡ table_length) × (g < max_groups) × (k < max_positions) }
    ensures { result ≡ position_at logic_tile table.now g k }
{
    usize::from(table[GROUPS + GROUP_LENGTH * g + GROUP_POSITIONS + k])
}

pub fn entry_count(table: &[u16], g: usize) -> usize
    requires { (length table.now ≡ table_length) × (g < max_groups) }
    ensures { result ≡ entry_count logic_tile table.now g }
{
    usize::from(table[GROUPS + GROUP_LENGTH * g + ENTRY_COUNT])
}

pub fn pattern(table: &[u16], g: usize, e: usize) -> u16
    requires { (length table.now ≡ table_length) × (g < max_groups) × (e < max_entries) }
    ensures { result ≡ pattern_at logic_tile table.now g e }
{
    table[GROUPS + GROUP_LENGTH * g + PATTERNS + 2 * e]
}

pub fn source(table: &[u16], g: usize, e: usize) -> u16
    requires { (length table.now ≡ table_length) × (g < max_groups) × (e < max_entries) }
    ensures { result ≡ source_at logic_tile table.now g e }
{
    table[GROUPS + GROUP_LENGTH * g + SOURCES + 2 * e]
}

// The first entry of group g with this pattern, or its number of entries.
// Rules out: the last such entry; an entry past the group's count.
pub fn find_entry(table: &[u16], g: usize, wanted: u16) -> usize
    requires { (length table.now ≡ table_length) × (g < max_groups) × (entry_count logic_tile table.now g ≤ max_entries) }
    ensures { result ≡ entry_of logic_tile table.now g wanted }
{
    let n = entry_count(table, g);
    (0..n)
        .find(|e| pattern(table, g, *e) == wanted)
        .unwrap_or(n)
}
