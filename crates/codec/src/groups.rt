// The bits of one group of the routing table, and its setting (document 01, 'The routing table').
ghost use Rattle.std.specs.Prelude.{◌≡◌, ℕ, ◌<◌, ◌≤◌};
ghost use Rattle.ports.specs.Lengths.{tile_numbers};
ghost use Rattle.routing.specs.LogicTile.{logic_tile};
ghost use Rattle.routing.specs.Table.{group_count, width_of, position_at, entry_count};
ghost use Rattle.routing.specs.Rules.{TableRules};
ghost use Rattle.codec.specs.Bits.{set_bits, bit_at};
ghost use Rattle.codec.specs.Held.{with_held, ClearFrom, DigitsWritten};
ghost use Rattle.codec.specs.Groups.{GroupLent, group_bit, group_pattern, setting_of_pattern, read_group, pattern_of};

use crate::bits::read_bit;
use crate::held::{HeldRow, write_digit};

// What reading a group gives: 0 for off, an entry from 1, or, for a pattern that the table does not list, the position at fault.
#[derive(Clone, Copy)]
pub enum GroupRead {
    Setting(u16),
    Unlisted(usize),
}

// The pattern that a group's bits have, the first position with weight 1.
#[tactic(auto, using(crate::proofs::TileRunLaws::group_position_lt))]
fn read_pattern(table: &[u16], g: usize, bits: &[u64]) -> u16
    requires { GroupLent table.now g bits.now }
    ensures { result ≡ group_pattern logic_tile table.now (bit_at bits.now) g }
{
    let n = routing::table::width(table, g);
    let mut pattern: u16 = 0;
    for k in 0..n {
        let p = routing::table::position(table, g, k);
        pattern += u16::from(read_bit(bits, p)) << k;
    }
    pattern
}

// The setting that a pattern gives.
// Rules out: a pattern that only lacks its enable bit taken as off; an entry past the group's count.
pub fn setting_of(table: &[u16], g: usize, pattern: u16) -> GroupRead
    requires { (TableRules logic_tile table.now) × (g < group_count logic_tile table.now) }
    ensures { result ≡ setting_of_pattern logic_tile table.now g pattern }
{
    if pattern == 0 {
        return GroupRead::Setting(0);
    }
    let e = routing::table::find_entry(table, g, pattern);
    if e < routing::table::entry_count(table, g) {
        GroupRead::Setting(e as u16 + 1)
    } else {
        GroupRead::Unlisted(routing::table::position(table, g, 0))
    }
}

// The setting that a group's bits give.
pub fn read_group(table: &[u16], g: usize, bits: &[u64]) -> GroupRead
    requires { GroupLent table.now g bits.now }
    ensures { result ≡ read_group logic_tile table.now (bit_at bits.now) g }
{
    let pattern = read_pattern(table, g, bits);
    setting_of(table, g, pattern)
}

// The digits of a pattern after its first written to a group's positions, which are clear; one row is held over the positions.
fn write_others(table: &[u16], g: usize, bits: &mut [u64], held: HeldRow, pattern: u16) -> HeldRow
    requires { (GroupLent table.now g bits.old) × (held.row < tile_numbers) ×
        ClearFrom (position_at logic_tile table.now g) 1 (width_of logic_tile table.now g) (with_held bits.old held) }
    ensures row { result.row < tile_numbers }
    ensures bits { DigitsWritten (position_at logic_tile table.now g) pattern 1 (width_of logic_tile table.now g)
        (with_held bits.old held) (with_held bits.new result) }
{
    let n = routing::table::width(table, g);
    let mut next = held;
    for k in 1..n {
        let p = routing::table::position(table, g, k);
        next = write_digit(bits, next, p, pattern, k);
    }
    next
}

// A pattern written to a group's positions, which are clear, the first with weight 1. Every group has a first position, and many have no other, so it
// is not left to the loop.
fn write_pattern(table: &[u16], g: usize, bits: &mut [u64], held: HeldRow, pattern: u16) -> HeldRow
    requires { (GroupLent table.now g bits.old) × (held.row < tile_numbers) ×
        ((k : ℕ) → k < width_of logic_tile table.now g → group_bit logic_tile table.now (bit_at (with_held bits.old held)) g k ≡ 0) }
    ensures row { result.row < tile_numbers }
    ensures bits { with_held bits.new result ≡ set_bits (with_held bits.old held)
        (position_at logic_tile table.now g) pattern (width_of logic_tile table.now g) }
{
    let first = routing::table::position(table, g, 0);
    let next = write_digit(bits, held, first, pattern, 0);
    write_others(table, g, bits, next, pattern)
}

// A group's setting written where all its bits are clear, so that a group that is off takes no time.
pub fn write_group(
    table: &[u16],
    g: usize,
    bits: &mut [u64],
    held: HeldRow,
    setting: u16,
) -> HeldRow
    requires { (GroupLent table.now g bits.old) × (held.row < tile_numbers) × (setting ≤ entry_count logic_tile table.now g) ×
        ((k : ℕ) → k < width_of logic_tile table.now g → group_bit logic_tile table.now (bit_at (with_held bits.old held)) g k ≡ 0) }
    ensures row { result.row < tile_numbers }
    ensures bits { with_held bits.new result ≡ set_bits (with_held bits.old held)
        (position_at logic_tile table.now g) (pattern_of logic_tile table.now g setting)
        (width_of logic_tile table.now g) }
{
    if setting == 0 {
        return held;
    }
    let pattern = routing::table::pattern(table, g, usize::from(setting) - 1);
    write_pattern(table, g, bits, held, pattern)
}
