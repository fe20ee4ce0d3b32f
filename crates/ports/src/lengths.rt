// How long everything is that is lent for a block, ground 2 of the calls: the figures of specs/Lengths.antt, and what a size or a block asks for.
// No other source has these figures.
ghost use Rattle.std.specs.Prelude.{◌≡◌, ◌*◌, ◌≤◌};
ghost use Rattle.ports.specs.Block.{Allowed, Sized};
ghost use Rattle.ports.specs.Lengths.{ports_per_tile, bits_length, bytes_length, settings_total, state_length, ports, list_length};

use crate::size::{Block, Size, size_of, tile_count};

// A tile's ports, its rows and columns of bits, which make its positions, the numbers of its bits as they are lent, its bytes in a frame, and its cells.
pub const PORTS_PER_TILE: u32 = 506;

pub const ROWS: usize = 16;

pub const COLUMNS: usize = 54;

pub const POSITIONS: usize = ROWS * COLUMNS;

pub const TILE_NUMBERS: usize = ROWS;

pub const TILE_BYTES: usize = 108;

pub const CELLS_PER_TILE: usize = 8;

// What a routing table can hold.
pub const FIELDS: usize = 3;

pub const MAX_PASSIVES: usize = 64;

pub const MAX_GROUPS: usize = 512;

pub const MAX_POSITIONS: usize = 8;

pub const MAX_ENTRIES: usize = 32;

pub const GROUP_LENGTH: usize = 3 + MAX_POSITIONS + 2 * MAX_ENTRIES;

pub const TABLE_LENGTH: usize = FIELDS + 1 + MAX_PASSIVES + 1 + GROUP_LENGTH * MAX_GROUPS;

pub const SETTINGS_LENGTH: usize = FIELDS + MAX_PASSIVES + MAX_GROUPS + 2 * CELLS_PER_TILE;

// The numbers of a row of the list.
const ROW: usize = 7;

pub fn bits_length(s: Size) -> usize
    requires { Allowed s }
    ensures { result ≡ bits_length s }
{
    TILE_NUMBERS * tile_count(s)
}

// The same bits as bytes.
pub fn bytes_length(s: Size) -> usize
    requires { Allowed s }
    ensures { result ≡ bytes_length s }
{
    TILE_BYTES * tile_count(s)
}

pub fn settings_total(s: Size) -> usize
    requires { Allowed s }
    ensures { result ≡ settings_total s }
{
    SETTINGS_LENGTH * tile_count(s)
}

pub fn state_length(s: Size) -> usize
    requires { Allowed s }
    ensures { result ≡ state_length s }
{
    CELLS_PER_TILE * tile_count(s)
}

// A number for each port.
pub fn port_count(b: Block) -> usize
    requires { Sized b }
    ensures { (result ≡ ports b) × (result ≤ ports_per_tile * 64) }
{
    PORTS_PER_TILE as usize * tile_count(size_of(b))
}

// A row for each port.
pub fn list_length(b: Block) -> usize
    requires { Sized b }
    ensures { result ≡ list_length b }
{
    ROW * port_count(b)
}
