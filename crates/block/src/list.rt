// The checks of building once the lengths are exact, in their order, and the list, which is written after every check.
ghost use Rattle.refusal.specs.Grounds.{answer_number};
ghost use Rattle.std.specs.Prelude.{◌≡◌, ◌*◌, ◌≤◌, length};
ghost use Rattle.refusal.specs.Memory.{output};
ghost use Rattle.ports.specs.Block.{Sized, tiles};
ghost use Rattle.ports.specs.Lengths.{ports, table_length, tile_numbers, settings_length};
ghost use Rattle.fabric.specs.Wire.{wires_of};
ghost use Rattle.routing.specs.LogicTile.{logic_tile};
ghost use Rattle.config.specs.Blocks.{decoded, tiles_of};
ghost use Rattle.equations.specs.Routed.{Routed};
ghost use Rattle.equations.specs.Sources.{sources_of, contended_wire};
ghost use Rattle.equations.specs.WireRows.{wire_rows};
ghost use Rattle.equations.specs.Settling.{block_list};
ghost use Rattle.drivers.specs.CarryReads.{carry_read_wire};
ghost use Rattle.block.specs.Lengths.{room_lent, build_lent, RoomLong, BuildLong};
ghost use Rattle.block.specs.Building.{list_answer, bits_answer};

use ports::lengths::POSITIONS;
use ports::size::Block;
use refusal::Refusal;

// Grounds 7 and 8 of a block that passed those before, from its rows, and the list. The clocks are looked at first, so that the room of the sources
// serves the schedule; a loop still comes before them.
fn list_rows(
    b: Block,
    table: &[u16],
    st: &[u16],
    wires: &[u16],
    sources: &mut [u16],
    rows: &[u16],
    list: &mut [u16],
    marks: &mut [u16],
    queue: &mut [u16],
) -> Result<u32, Refusal>
    requires routed { Routed b table.now st.now × (ports b ≤ contended_wire b table.now st.now) ×
        (ports b ≤ carry_read_wire b table.now st.now) }
    requires wires_value { (wires.now ≡ wires_of b) × (sources.old ≡ sources_of b table.now st.now) × (rows.now ≡ wire_rows b table.now st.now) }
    requires room_long { RoomLong b (room_lent list.old wires.now sources.old rows.now marks.old queue.old) }
    ensures answer { result ≡ list_answer b table.now st.now }
    ensures list { list.new ≡ output (answer_number result) list.old (block_list b table.now st.now) }
{
    let clocked = drivers::clocks::clocked_tile(b, st, wires, sources, marks);
    let count = scheduling::schedule::schedule(rows, marks, queue, sources).map_err(
        |wire| Refusal::Loop(wire as u32),
    )?;
    if let Some(tile) = clocked {
        return Err(Refusal::CellClock(tile as u32));
    }
    scheduling::schedule::write_list(rows, queue, count, wires.len(), list);
    Ok(count as u32)
}

// Grounds 6 to 8 of a block without contention, and the list.
fn list_sources(
    b: Block,
    table: &[u16],
    st: &[u16],
    wires: &[u16],
    sources: &mut [u16],
    list: &mut [u16],
    rows: &mut [u16],
    marks: &mut [u16],
    queue: &mut [u16],
) -> Result<u32, Refusal>
    requires routed { Routed b table.now st.now × (ports b ≤ contended_wire b table.now st.now) }
    requires wires_value { (wires.now ≡ wires_of b) × (sources.old ≡ sources_of b table.now st.now) }
    requires room_long { RoomLong b (room_lent list.old wires.now sources.old rows.old marks.old queue.old) }
    ensures answer { result ≡ list_answer b table.now st.now }
    ensures list { list.new ≡ output (answer_number result) list.old (block_list b table.now st.now) }
{
    equations::rows::write_rows(b, st, wires, sources, rows);
    if let Some(wire) = drivers::carry::carry_read_wire(b, table, st, rows) {
        return Err(Refusal::DisabledCarry(wire as u32));
    }
    list_rows(b, table, st, wires, sources, rows, list, marks, queue)
}

// Grounds 5 to 8 of settings that were read, and the list.
pub fn list_settings(
    b: Block,
    table: &[u16],
    st: &[u16],
    list: &mut [u16],
    wires: &mut [u16],
    sources: &mut [u16],
    rows: &mut [u16],
    marks: &mut [u16],
    queue: &mut [u16],
) -> Result<u32, Refusal>
    requires routed { Routed b table.now st.now }
    requires room_long { RoomLong b (room_lent list.old wires.old sources.old rows.old marks.old queue.old) }
    ensures answer { result ≡ list_answer b table.now st.now }
    ensures list { list.new ≡ output (answer_number result) list.old (block_list b table.now st.now) }
{
    wiring::fill_wires(b, wires);
    if let Some(wire) = drivers::sources::find_sources(b, table, st, wires, sources) {
        return Err(Refusal::Contention(wire as u32));
    }
    list_sources(b, table, st, wires, sources, list, rows, marks, queue)
}

// Grounds 3 to 8 of bits, and the list.
pub fn list_bits(
    b: Block,
    table: &[u16],
    bits: &[u64],
    list: &mut [u16],
    settings: &mut [u16],
    wires: &mut [u16],
    sources: &mut [u16],
    rows: &mut [u16],
    marks: &mut [u16],
    queue: &mut [u16],
) -> Result<u32, Refusal>
    requires sized { Sized b }
    requires build_long { BuildLong b (build_lent table.now bits.now settings.old
        (room_lent list.old wires.old sources.old rows.old marks.old queue.old)) }
    ensures answer { result ≡ bits_answer b table.now (tiles_of bits.now) }
    ensures list { list.new ≡ output (answer_number result) list.old
        (block_list b table.now (decoded table.now (tiles_of bits.now) (tiles b))) }
{
    let n = (b.h * b.w) as usize;
    let mut own = [0u16; POSITIONS];
    if let Some(part) = routing::rules::check_table(table, &mut own) {
        return Err(Refusal::Table(part as u32));
    }
    if let Some(place) = config::blocks::read_block(table, &own, bits, settings, n) {
        return Err(Refusal::Undecodable(place as u32));
    }
    list_settings(b, table, settings, list, wires, sources, rows, marks, queue)
}
