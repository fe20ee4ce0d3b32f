// Ground 3: the first part of the table that breaks a rule (document 01, 'The routing table', 'Grounds for a no').
ghost use Rattle.std.specs.Prelude.{◌≡◌, true, false, ◌+◌, ◌<◌, length};
ghost use Rattle.lists.specs.Tables.{zeros};
ghost use Rattle.routing.specs.LogicTile.{logic_tile};
ghost use Rattle.ports.specs.Lengths.{max_groups, table_length};
ghost use Rattle.routing.specs.Table.{group_count};
ghost use Rattle.routing.specs.Slots.{group_slots, group_slot, slot_count};
ghost use Rattle.routing.specs.Claiming.{TableOwned};
ghost use Rattle.routing.specs.Marks.{MarkedBefore};
ghost use Rattle.routing.specs.TableCheck.{fields_ok, passives_ok, group_ok, broken_part, table_ok};

use crate::claims::{claim, claim_cells};
use crate::groups::{PATTERN_COUNT, group_alone_ok};
use crate::slots::{FIELD_SLOTS, GROUP_SLOTS, PASSIVE_SLOTS};
use crate::table::{PASSIVES, group_count, passive_count, positions_start, width};
use ports::lengths::{FIELDS, MAX_GROUPS, MAX_PASSIVES, MAX_POSITIONS, POSITIONS};

// Group g by itself and with all that was claimed before it.
fn check_group(table: &[u16], g: usize, seen: &mut [u16; PATTERN_COUNT], own: &mut [u16]) -> bool
    requires { (length table.now ≡ table_length) × (g < max_groups) × (g < group_count logic_tile table.now) ×
        MarkedBefore g seen.old × (TableOwned logic_tile table.now (group_slot logic_tile g) own.old) }
    ensures answer { result ≡ group_ok logic_tile table.now g }
    ensures seen { result ≡ true → MarkedBefore (g + 1) seen.new }
    ensures map { result ≡ true → TableOwned logic_tile table.now (group_slot logic_tile (g + 1)) own.new }
{
    let w = width(table, g);
    let start = positions_start(g);
    let slot = GROUP_SLOTS + MAX_POSITIONS * g;
    group_alone_ok(table, g, seen) && claim(table, start, w, slot, own)
}

// The groups, after fields and passive list. All of them mark their patterns in one array, which starts as zeros: see `group_alone_ok`.
fn check_groups(table: &[u16], own: &mut [u16]) -> Option<usize>
    requires { (length table.now ≡ table_length) × (fields_ok logic_tile table.now ≡ true) ×
        (passives_ok logic_tile table.now ≡ true) × (TableOwned logic_tile table.now (group_slots logic_tile) own.old) }
    ensures part { result ≡ broken_part logic_tile table.now }
    ensures map { table_ok logic_tile table.now ≡ true → TableOwned logic_tile table.now
        (slot_count logic_tile) own.new }
{
    let n = group_count(table);
    let mut seen = [0u16; PATTERN_COUNT];
    for g in 0..n {
        if g == MAX_GROUPS || !check_group(table, g, &mut seen, own) {
            return Some(2 + g);
        }
    }
    None
}

// All parts, with an empty map.
fn check_parts(table: &[u16], own: &mut [u16]) -> Option<usize>
    requires { (length table.now ≡ table_length) × (own.old ≡ zeros logic_tile.positions) }
    ensures part { result ≡ broken_part logic_tile table.now }
    ensures map { table_ok logic_tile table.now ≡ true → TableOwned logic_tile table.now
        (slot_count logic_tile) own.new }
{
    claim_cells(own);
    if !claim(table, 0, FIELDS, FIELD_SLOTS, own) {
        return Some(0);
    }
    let n = passive_count(table);
    if MAX_PASSIVES < n || !claim(table, PASSIVES, n, PASSIVE_SLOTS, own) {
        return Some(1);
    }
    check_groups(table, own)
}

// The first part of the table that breaks a rule; and, of a table that breaks none, the map of the
// tile's positions to the slots that claim them, whatever `own` held. Of any other table `own` is cleared.
// Rules out: refusing every table; a position claimed twice let through; a later part named than the first.
pub fn check_table(table: &[u16], own: &mut [u16]) -> Option<usize>
    requires { (length table.now ≡ table_length) × (length own.old ≡ logic_tile.positions) }
    ensures part { result ≡ broken_part logic_tile table.now }
    ensures map { table_ok logic_tile table.now ≡ true → TableOwned logic_tile table.now
        (slot_count logic_tile) own.new }
    ensures cleared { table_ok logic_tile table.now ≡ false → own.new ≡ zeros logic_tile.positions }
{
    own.fill(0);
    let part = check_parts(table, own);
    if part.is_some() {
        own.fill(0);
    }
    part
}

// Ground 3's place for callers that need no map: the first part of the table that breaks a rule.
pub fn faulty_part(table: &[u16]) -> Option<usize>
    requires { length table.now ≡ table_length }
    ensures { result ≡ broken_part logic_tile table.now }
{
    let mut own = [0u16; POSITIONS];
    check_parts(table, &mut own)
}
