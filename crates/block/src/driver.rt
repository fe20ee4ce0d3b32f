// The checks of following a driver once the lengths are exact, in their order, and where it ends.
ghost use Rattle.std.specs.Prelude.{◌≡◌, ◌*◌, length};
ghost use Rattle.ports.specs.Block.{Sized, tiles};
ghost use Rattle.ports.specs.Lengths.{ports, table_length, settings_length};
ghost use Rattle.routing.specs.LogicTile.{logic_tile};
ghost use Rattle.equations.specs.Routed.{Routed};
ghost use Rattle.block.specs.Drivers.{port_answer, settings_answer};

use drivers::follow::Driver;
use ports::lengths::PORTS_PER_TILE;
use ports::size::Block;
use refusal::Refusal;

// Grounds 5 and 20 of settings that some bits have, and where following ends.
fn follow_port(
    b: Block,
    table: &[u16],
    st: &[u16],
    tile: u32,
    port: u32,
    wires: &mut [u16],
    sources: &mut [u16],
    marks: &mut [u16],
) -> Result<Driver, Refusal>
    requires { Routed b table.now st.now × (length wires.old ≡ ports b) × (length sources.old ≡ ports b) ×
        (length marks.old ≡ ports b) }
    ensures { result ≡ port_answer b table.now st.now tile port }
{
    wiring::fill_wires(b, wires);
    if let Some(wire) = drivers::sources::find_sources(b, table, st, wires, sources) {
        return Err(Refusal::Contention(wire as u32));
    }
    if b.h * b.w <= tile {
        return Err(Refusal::OutOfRange(tile));
    }
    if PORTS_PER_TILE <= port {
        return Err(Refusal::OutOfRange(port));
    }
    let at = (PORTS_PER_TILE * tile + port) as usize;
    let wire = wires[at];
    Ok(drivers::follow::driver_of(b, sources, wire as usize, marks))
}

// Grounds 3, 9, 5 and 20, and where following ends.
pub fn follow_settings(
    b: Block,
    table: &[u16],
    st: &[u16],
    tile: u32,
    port: u32,
    wires: &mut [u16],
    sources: &mut [u16],
    marks: &mut [u16],
) -> Result<Driver, Refusal>
    requires sized { Sized b × (length table.now ≡ table_length) × (length st.now ≡ settings_length * tiles b) }
    requires wires_len { (length wires.old ≡ ports b) × (length sources.old ≡ ports b) × (length marks.old ≡ ports b) }
    ensures { result ≡ settings_answer b table.now st.now tile port }
{
    config::check_settings(table, st, (b.h * b.w) as usize)?;
    follow_port(b, table, st, tile, port, wires, sources, marks)
}
