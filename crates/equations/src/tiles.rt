// The settings of a block and the map of its wires, read by tile.
ghost use Rattle.std.specs.Prelude.{◌≡◌, ◌<◌};
ghost use Rattle.ports.specs.Lengths.{ports, max_groups, settings_length};
ghost use Rattle.ports.specs.Block.{port_of};
ghost use Rattle.fabric.specs.Wire.{wire_of, wires_of};
ghost use Rattle.cell.specs.Settings.{cell_of};
ghost use Rattle.routing.specs.LogicTile.{logic_tile};
ghost use Rattle.equations.specs.Tiles.{TileInside, setting_of, group_of, table_of, flags_at};

use cell::logic::Cell;
use codec::cells::CELLS_FROM;
use codec::settings::GROUPS_FROM;
use ports::lengths::SETTINGS_LENGTH;
use ports::size::Block;

pub const PORTS_PER_TILE: usize = ports::lengths::PORTS_PER_TILE as usize;

// Number n of the settings of a tile.
pub fn tile_setting(st: &[u16], tile: usize, n: usize) -> u16
    requires { TileInside st.now tile × (n < settings_length) }
    ensures { result ≡ setting_of st.now tile n }
{
    st[SETTINGS_LENGTH * tile + n]
}

// The setting of group g of a tile: 0 for off, else an entry from 1.
pub fn group_at(st: &[u16], tile: usize, g: usize) -> usize
    requires { (g < max_groups) × TileInside st.now tile }
    ensures { result ≡ group_of st.now tile g }
{
    usize::from(tile_setting(st, tile, GROUPS_FROM + g))
}

// A cell's settings.
pub fn cell_at(st: &[u16], tile: usize, i: usize) -> Cell
    requires { (i < 8) × TileInside st.now tile }
    ensures { result ≡ cell_of (table_of st.now tile i) (flags_at st.now tile i) }
{
    let at = SETTINGS_LENGTH * tile;
    Cell::new(
        st[at + (CELLS_FROM + 2 * i)],
        st[at + (CELLS_FROM + 2 * i + 1)],
    )
}

// The wire of port q of a tile.
#[tactic(auto, using(fabric::proofs::WireLaws::wires_length, fabric::proofs::WireLaws::wires_at))]
pub fn tile_wire(b: Block, wires: &[u16], tile: usize, q: u32) -> u16
    requires { (wires.now ≡ wires_of b) × (port_of tile q < ports b) }
    ensures { result ≡ wire_of b (port_of tile q) }
{
    wires[PORTS_PER_TILE * tile + q as usize]
}
