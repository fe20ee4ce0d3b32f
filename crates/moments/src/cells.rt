// How every cell's state moves, from the values of its tile's own ports before and after. No wire and no list is looked at.
ghost use Rattle.std.specs.Prelude.{◌≡◌, ◌<◌, length};
ghost use Rattle.ports.specs.Block.{port_of};
ghost use Rattle.ports.specs.Lengths.{state_length};
ghost use Rattle.moments.specs.Clocking.{handed, next_cell, next_states, Clockable};

use equations::tiles::PORTS_PER_TILE;
use ports::lengths::CELLS_PER_TILE;
use ports::size::Size;
use stepper::clock::next_state;

// The value of port q of a tile, at the port's own number.
// Rules out: another name of the port's wire, which may be handed another value.
fn value_at(values: &[u8], tile: usize, q: u32) -> u8
    requires { port_of tile q < length values.now }
    ensures { result ≡ handed values.now tile q }
{
    values[PORTS_PER_TILE * tile + q as usize]
}

// The next state of cell number c, of which tile c / 8 has the eight.
fn next_cell(s: Size, st: &[u16], before: &[u8], after: &[u8], state: &[u8], c: usize) -> u8
    requires { Clockable s st.now state.now before.now after.now × (c < state_length s) }
    ensures { result ≡ next_cell st.now (handed before.now) (handed after.now) state.now c }
{
    let tile = c / CELLS_PER_TILE;
    next_state(
        st,
        tile,
        c % CELLS_PER_TILE,
        |q| value_at(before, tile, q),
        |q| value_at(after, tile, q),
        state[c],
    )
}

// The next state of every cell.
// Rules out: a cell left out; the new state of one cell seen by another.
pub fn clock(s: Size, st: &[u16], before: &[u8], after: &[u8], state: &[u8], next: &mut [u8])
    requires { Clockable s st.now state.now before.now after.now × (length next.old ≡ state_length s) }
    ensures { next.new ≡ next_states s st.now (handed before.now) (handed after.now)
        state.now }
{
    for (c, cell) in next.iter_mut().enumerate() {
        *cell = next_cell(s, st, before, after, state, c);
    }
}
