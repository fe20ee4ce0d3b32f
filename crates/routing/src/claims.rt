// The ownership map of a tile's positions: at each one more than the slot that claims it, or 0. It shows a position that is claimed twice.
ghost use Rattle.std.specs.Prelude.{◌≡◌, true, List, ℕ, ◌+◌};
ghost use Rattle.lists.specs.Search.{all_from};
ghost use Rattle.lists.specs.Tables.{zeros};
ghost use Rattle.routing.specs.LogicTile.{logic_tile};
ghost use Rattle.routing.specs.Slots.{field_slots};
ghost use Rattle.routing.specs.Claiming.{SlotRun, TableOwned};
ghost use Rattle.routing.specs.TableCheck.{position_ok};

use crate::cells::{BITS_PER_CELL, cell_position};
use crate::slots::FIELD_SLOTS;
use ports::lengths::POSITIONS;

// The cells' own positions claimed in an empty map; no table has a say in them.
#[tactic(auto, using(crate::proofs::LogicTileLaws::cell_position_lt))]
pub fn claim_cells(own: &mut [u16])
    requires { own.old ≡ zeros logic_tile.positions }
    ensures { (table : List ℕ) → TableOwned logic_tile table (field_slots logic_tile) own.new }
{
    for s in 0..FIELD_SLOTS {
        let p = cell_position(s / BITS_PER_CELL, s % BITS_PER_CELL);
        own[p] = (s + 1) as u16;
    }
}

// The n positions that the table has from `start` on claimed for the slots from `slot` on, until one is not to be had.
// Rules out: letting a position through that a slot before it claims.
pub fn claim(table: &[u16], start: usize, n: usize, slot: usize, own: &mut [u16]) -> bool
    requires { (SlotRun logic_tile table.now start n slot) × (TableOwned logic_tile table.now slot own.old) }
    ensures answer { result ≡ all_from (position_ok logic_tile table.now slot) 0 n }
    ensures map { result ≡ true → TableOwned logic_tile table.now (slot + n) own.new }
{
    for k in 0..n {
        let p = usize::from(table[start + k]);
        if POSITIONS <= p || 0 < own[p] {
            return false;
        }
        own[p] = (slot + k + 1) as u16;
    }
    true
}
