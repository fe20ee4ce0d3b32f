// Building a block's list, following a driver, and a step.
ghost use Rattle.refusal.specs.Grounds.{answer_number};
ghost use Rattle.std.specs.Prelude.{◌≡◌};
ghost use Rattle.refusal.specs.Memory.{output, work_room};
ghost use Rattle.ports.specs.Block.{block, tiles};
ghost use Rattle.config.specs.Blocks.{decoded, tiles_of};
ghost use Rattle.equations.specs.Settling.{block_list};
ghost use Rattle.block.specs.Lengths.{room_lent, build_lent, build_exact, follow_lent, follow_exact};
ghost use Rattle.block.specs.Building.{build_answer};
ghost use Rattle.block.specs.Drivers.{follow_answer};
ghost use Rattle.stepper.specs.Settling.{settled_by, port_values};
ghost use Rattle.stepper.specs.Clocking.{next_states};
ghost use Rattle.sim.specs.Lengths.{inputs_lent, step_room_lent, step_lent, step_exact};
ghost use Rattle.sim.specs.Stepping.{step_answer};
ghost use Rattle.capi.specs.Packed.{ground_in, packed_answer, packed_number, driver_code, packed_followed};

use crate::pack;
use drivers::follow::Driver;
use ports::size::Block;
use refusal::Refusal;

// The list of a block's rows in order, from its bits. Grounds 1 to 8; the value is the row count. The output is list; the rest is work room.
pub fn ice40_build(
    w: u32,
    h: u32,
    east: u32,
    table: &[u16],
    bits: &[u64],
    list: &mut [u16],
    settings: &mut [u16],
    wires: &mut [u16],
    sources: &mut [u16],
    rows: &mut [u16],
    marks: &mut [u16],
    queue: &mut [u16],
) -> u64
    ensures answer { result ≡ packed_number (build_answer (block w h east) table.now (tiles_of bits.now)
        (build_exact (block w h east) (build_lent table.now bits.now settings.old
        (room_lent list.old wires.old sources.old rows.old marks.old
        queue.old)))) }
    ensures list { list.new ≡ output (ground_in result) list.old
        (block_list (block w h east) table.now
        (decoded table.now (tiles_of bits.now) (tiles (block w h east)))) }
    ensures settings { settings.new ≡ work_room (ground_in result) settings.old }
    ensures wires { wires.new ≡ work_room (ground_in result) wires.old }
    ensures sources { sources.new ≡ work_room (ground_in result) sources.old }
    ensures rows { rows.new ≡ work_room (ground_in result) rows.old }
    ensures marks { marks.new ≡ work_room (ground_in result) marks.old }
    ensures queue { queue.new ≡ work_room (ground_in result) queue.old }
{
    let a = block::build(
        Block { w, h, east },
        table,
        bits,
        list,
        settings,
        wires,
        sources,
        rows,
        marks,
        queue,
    );
    pack::pack_number(a)
}

// What drives a port, followed from switch to switch. Grounds 1, 2, 3, 9, 5, 20; the value is 65,536 times 1 for an open wire, 2 and 3
// for the constants 0 and 1, 4 for a cell, 5 for a ring, plus the wire. The rest is work room.
pub fn ice40_follow(
    w: u32,
    h: u32,
    east: u32,
    table: &[u16],
    settings: &[u16],
    tile: u32,
    port: u32,
    wires: &mut [u16],
    sources: &mut [u16],
    marks: &mut [u16],
) -> u64
    ensures answer { result ≡ packed_followed (follow_answer (block w h east) table.now settings.now tile port
        (follow_exact (block w h east) (follow_lent table.now settings.now wires.old
        sources.old marks.old))) }
    ensures wires { wires.new ≡ work_room (ground_in result) wires.old }
    ensures sources { sources.new ≡ work_room (ground_in result) sources.old }
    ensures marks { marks.new ≡ work_room (ground_in result) marks.old }
{
    let a = block::follow(
        Block { w, h, east },
        table,
        settings,
        tile,
        port,
        wires,
        sources,
        marks,
    );
    pack::pack_number(a.map(driver_code))
}

// One step. Grounds 1, 2, 3, 9, 12, 10. The outputs are values and next; the rest is work room.
pub fn ice40_step(
    w: u32,
    h: u32,
    east: u32,
    table: &[u16],
    settings: &[u16],
    list: &[u16],
    state: &[u8],
    before: &[u8],
    after: &[u8],
    values: &mut [u8],
    next: &mut [u8],
    wires: &mut [u16],
    own: &mut [u16],
    marks: &mut [u16],
    first: &mut [u8],
    second: &mut [u8],
) -> u64
    ensures answer { result ≡ packed_answer (step_answer (block w h east) table.now settings.now
        list.now state.now before.now after.now
        (step_exact (block w h east) (step_lent (inputs_lent table.now settings.now list.now
        state.now before.now after.now)
        (step_room_lent values.old next.old wires.old own.old marks.old
        first.old second.old)))) }
    ensures values { values.new ≡ output (ground_in result) values.old
        (port_values (block w h east) (settled_by (block w h east) list.now state.now before.now)) }
    ensures next { next.new ≡ output (ground_in result) next.old
        (next_states (block w h east) settings.now (settled_by (block w h east) list.now state.now
        before.now) (settled_by (block w h east) list.now state.now after.now)
        state.now) }
    ensures wires { wires.new ≡ work_room (ground_in result) wires.old }
    ensures own { own.new ≡ work_room (ground_in result) own.old }
    ensures marks { marks.new ≡ work_room (ground_in result) marks.old }
    ensures first { first.new ≡ work_room (ground_in result) first.old }
    ensures second { second.new ≡ work_room (ground_in result) second.old }
{
    let a = sim::step(
        Block { w, h, east },
        table,
        settings,
        list,
        state,
        before,
        after,
        values,
        next,
        wires,
        own,
        marks,
        first,
        second,
    );
    pack::pack_answer(a)
}

// 65,536 times which end it is, plus the wire.
fn driver_code(driver: Driver) -> u32
    ensures { result ≡ driver_code driver }
{
    match driver {
        Driver::Open(wire) => 65536 + wire as u32,
        Driver::Constant(wire, value) => {
            if value == 0 {
                return 131072 + wire as u32;
            }
            196608 + wire as u32
        }
        Driver::Cell(wire) => 262144 + wire as u32,
        Driver::Ring(wire) => 327680 + wire as u32,
    }
}
