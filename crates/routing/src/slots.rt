// The slots of a tile's table in their order (specs/Slots.antt): the cells' bits first, then the fields, the passive list and the groups.
use crate::cells::BITS_PER_CELL;
use ports::lengths::{CELLS_PER_TILE, FIELDS, MAX_PASSIVES};

// The first slot of the fields, of the passive list and of the groups.
pub const FIELD_SLOTS: usize = BITS_PER_CELL * CELLS_PER_TILE;

pub const PASSIVE_SLOTS: usize = FIELD_SLOTS + FIELDS;

pub const GROUP_SLOTS: usize = PASSIVE_SLOTS + MAX_PASSIVES;

// In the map of owners, whose number is one more than the slot's: the first field, after which come the others and the passive bits, as in the
// settings; and the first position of group 0.
pub const FIELD_CODES: usize = FIELD_SLOTS + 1;

pub const GROUP_CODES: usize = GROUP_SLOTS + 1;
