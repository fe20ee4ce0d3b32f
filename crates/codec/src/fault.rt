// Whether a position of a tile is at fault, by what claims it (document 01, 'The routing table'; ground 4).
ghost use Rattle.std.specs.Prelude.{◌≡◌, ◌<◌, length};
ghost use Rattle.routing.specs.LogicTile.{logic_tile};
ghost use Rattle.routing.specs.Rules.{TableRules};
ghost use Rattle.routing.specs.Slots.{slot_count};
ghost use Rattle.routing.specs.Claiming.{TableOwned};
ghost use Rattle.ports.specs.Lengths.{tile_numbers};
ghost use Rattle.codec.specs.Bits.{bit_at, tile_of};
ghost use Rattle.codec.specs.Groups.{GroupLent, read_group};
ghost use Rattle.codec.specs.Fault.{points_to, carry_pair, past_at, owned_fault, fault_at};

use crate::bits::{UNIT, read_bit};
use crate::groups::{GroupRead, read_group};
use ports::lengths::MAX_POSITIONS;
use routing::slots::{FIELD_CODES, GROUP_CODES};
use routing::table::{CARRY_CHAIN, CARRY_IN_SET};
use words::stray::PAST_COLUMNS;

// The CarryInSet field in the map of owners.
const SET_FIELD: usize = FIELD_CODES + CARRY_IN_SET;

// Whether reading a group says that position p is at fault.
pub fn is_group_fault(table: &[u16], g: usize, bits: &[u64], p: usize) -> bool
    requires { GroupLent table.now g bits.now }
    ensures { result ≡ points_to p (read_group logic_tile table.now (bit_at bits.now) g) }
{
    match read_group(table, g, bits) {
        GroupRead::Setting(_) => false,
        GroupRead::Unlisted(first) => first == p,
    }
}

// CarryInSet together with the chain switch.
#[tactic(auto, using(crate::proofs::TileRunLaws::field_position_lt), unfolding(crate::specs::Fault::carry_pair))]
pub fn is_carry_pair(table: &[u16], bits: &[u64]) -> bool
    requires { (TableRules logic_tile table.now) × (length bits.now ≡ tile_numbers) }
    ensures { result ≡ carry_pair table.now (bit_at bits.now) }
{
    let set = routing::table::field(table, CARRY_IN_SET);
    let chain = routing::table::field(table, CARRY_CHAIN);
    read_bit(bits, set) == 1 && read_bit(bits, chain) == 1
}

// Whether p is the last column of a row with a set bit past it.
// Rules out: such a bit let through; a fault in another column of the row.
#[tactic(auto, unfolding(crate::specs::Fault::past_at))]
fn is_past_at(bits: &[u64], p: usize) -> bool
    requires { (length bits.now ≡ tile_numbers) × (p < logic_tile.positions) }
    ensures { result ≡ past_at (tile_of bits.now) p }
{
    p % UNIT == UNIT - 1 && PAST_COLUMNS <= bits[p / UNIT]
}

// Whether position p is at fault by what claims it; `own` says which slot does.
// Rules out: a set bit that nothing claims let through; a fault reported at a group's second position.
fn is_owned_fault(table: &[u16], own: &[u16], bits: &[u64], p: usize) -> bool
    requires { (TableRules logic_tile table.now) × (TableOwned logic_tile table.now (slot_count logic_tile) own.now) ×
        (length bits.now ≡ tile_numbers) × (p < logic_tile.positions) }
    ensures { result ≡ owned_fault table.now (tile_of bits.now) p }
{
    let code = usize::from(own[p]);
    if code == 0 {
        read_bit(bits, p) == 1
    } else if code == SET_FIELD {
        is_carry_pair(table, bits)
    } else if code < GROUP_CODES {
        false
    } else {
        is_group_fault(table, (code - GROUP_CODES) / MAX_POSITIONS, bits, p)
    }
}

// Whether position p is at fault.
// Rules out: the last column of a row at fault only for what claims it.
#[tactic(auto, unfolding(crate::specs::Fault::fault_at))]
pub fn is_fault_at(table: &[u16], own: &[u16], bits: &[u64], p: usize) -> bool
    requires { (TableRules logic_tile table.now) × (TableOwned logic_tile table.now (slot_count logic_tile) own.now) ×
        (length bits.now ≡ tile_numbers) × (p < logic_tile.positions) }
    ensures { result ≡ fault_at table.now (tile_of bits.now) p }
{
    is_past_at(bits, p) || is_owned_fault(table, own, bits, p)
}
