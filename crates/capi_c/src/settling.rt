// Settling and clocking a block, in two calls.
ghost use Rattle.std.specs.Prelude.{◌≡◌, length};
ghost use Rattle.refusal.specs.Memory.{output, work_room};
ghost use Rattle.ports.specs.Block.{size, block};
ghost use Rattle.stepper.specs.Settling.{settled_by, port_values};
ghost use Rattle.moments.specs.Lengths.{settle_room_lent, settle_lent, settle_exact, clock_lent, clock_exact};
ghost use Rattle.moments.specs.Settling.{settle_answer};
ghost use Rattle.moments.specs.Clocking.{handed, next_states, clock_answer};
ghost use Rattle.capi.specs.Packed.{ground_in, packed_answer};

// Every port's value under a state and lent values, without any tick. Grounds 1, 2, 3, 9, 12, 10. The output is values; the rest is work room.
#[unsafe(no_mangle)]
pub extern "C" fn ice40_settle(
    w: u32,
    h: u32,
    east: u32,
    table: &[u16],
    settings: &[u16],
    list: &[u16],
    state: &[u8],
    lent: &[u8],
    values: &mut [u8],
    wires: &mut [u16],
    own: &mut [u16],
    marks: &mut [u16],
) -> u64
    ensures answer { result ≡ packed_answer (settle_answer (block w h east) table.now settings.now
        list.now state.now lent.now
        (settle_exact (block w h east) (settle_lent table.now settings.now list.now
        state.now lent.now
        (settle_room_lent values.old wires.old own.old marks.old)))) }
    ensures values { values.new ≡ output (ground_in result) values.old
        (port_values (block w h east) (settled_by (block w h east) list.now state.now lent.now)) }
    ensures wires { wires.new ≡ work_room (ground_in result) wires.old }
    ensures own { own.new ≡ work_room (ground_in result) own.old }
    ensures marks { marks.new ≡ work_room (ground_in result) marks.old }
{
    capi::settling::ice40_settle(
        w, h, east, table, settings, list, state, lent, values, wires, own, marks,
    )
}

// Every cell's next state, from the values settled before and after and the old state. Grounds 1, 2, 3, 9, 10. The output is next.
#[unsafe(no_mangle)]
pub extern "C" fn ice40_clock(
    w: u32,
    h: u32,
    table: &[u16],
    settings: &[u16],
    state: &[u8],
    before: &[u8],
    after: &[u8],
    next: &mut [u8],
) -> u64
    ensures answer { result ≡ packed_answer (clock_answer (size w h) table.now settings.now state.now
        before.now after.now
        (clock_exact (size w h) (clock_lent table.now settings.now state.now before.now
        after.now (length next.old)))) }
    ensures next { next.new ≡ output (ground_in result) next.old
        (next_states (size w h) settings.now (handed before.now) (handed after.now)
        state.now) }
{
    capi::settling::ice40_clock(w, h, table, settings, state, before, after, next)
}
