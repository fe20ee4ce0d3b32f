// How every cell's state moves in a step, from the wires' values before and after.
ghost use Rattle.std.specs.Prelude.{◌≡◌, ◌*◌, ◌<◌, length, ℕ};
ghost use Rattle.ports.specs.Block.{tiles};
ghost use Rattle.ports.specs.Lengths.{ports, ports_per_tile};
ghost use Rattle.ports.specs.PortIndex.{clk, cen, s_r, in_port};
ghost use Rattle.cell.specs.Lookup.{lookup_bit};
ghost use Rattle.cell.specs.Settings.{cell_of};
ghost use Rattle.cell.specs.NextState.{ticked, next_state};
ghost use Rattle.equations.specs.Tiles.{TileInside, table_of, flags_at, inverted};
ghost use Rattle.equations.specs.Routed.{Mapped};
ghost use Rattle.stepper.specs.Settling.{PortBits};
ghost use Rattle.stepper.specs.Clocking.{value_at, next_cell, next_states};

use cell::flip_flop::{Control, FlipFlop, is_tick};
use cell::logic::lookup_bit;
use equations::tiles::{cell_at, tile_setting, tile_wire};
use ports::lengths::CELLS_PER_TILE;
use ports::size::Block;
use routing::table::NEG_CLK;

// The value of port q of a tile.
fn value_at(b: Block, st: &[u16], wires: &[u16], values: &[u8], tile: usize, q: u32) -> u8
    requires { Mapped b st.now wires.now × (tile < tiles b) × (q < ports_per_tile) × (length values.now ≡ ports b) }
    ensures { result ≡ value_at b values.now tile q }
{
    values[usize::from(tile_wire(b, wires, tile, q))]
}

// The next state of cell i of a tile, whose state is `old`, from what stands at the tile's ports before and after. Without a flip-flop it is kept, and
// nothing else is looked at.
// Rules out: cen after; s_r before and after taken for one another.
#[tactic(auto, unfolding(cell::specs::NextState::next_state))]
pub fn next_state<B: Fn(u32) -> u8, A: Fn(u32) -> u8>(
    st: &[u16],
    tile: usize,
    i: usize,
    before: B,
    after: A,
    old: u8,
) -> u8
    requires inside { TileInside st.now tile × (i < 8) }
    requires reads { (q : ℕ) → q < ports_per_tile → B.pre before q × A.pre after q }
    requires bits { (q r : ℕ) → q < ports_per_tile → B.post before q r → r < 2 }
    ensures { (b a : ℕ → ℕ) → ((q r : ℕ) → q < ports_per_tile → B.post before q r → r ≡ b q) →
        ((q r : ℕ) → q < ports_per_tile → A.post after q r → r ≡ a q) →
        result ≡ next_state (cell_of (table_of st.now tile i) (flags_at st.now tile i))
        (record { tick = ticked (inverted st.now tile) (b clk) (a clk); enable = b cen; before = b s_r; after = a s_r })
        (lookup_bit (table_of st.now tile i) (b (in_port i 0)) (b (in_port i 1)) (b (in_port i 2)) (b (in_port i 3))) old }
{
    let cell = cell_at(st, tile, i);
    if !cell.flipflop {
        return old;
    }
    let inverted = tile_setting(st, tile, NEG_CLK) == 1;
    let control = Control {
        tick: is_tick(inverted, before(ports::CLK), after(ports::CLK)),
        enable: before(ports::CEN),
        before: before(ports::S_R),
        after: after(ports::S_R),
    };
    let q = ports::IN + 4 * i as u32;
    let lookup = lookup_bit(
        cell.table,
        before(q),
        before(q + 1),
        before(q + 2),
        before(q + 3),
    );
    FlipFlop { value: old }.step(cell, control, lookup).value
}

// The next state of cell number c, of which tile c / 8 has the eight.
fn next_cell(
    b: Block,
    st: &[u16],
    wires: &[u16],
    before: &[u8],
    after: &[u8],
    state: &[u8],
    c: usize,
) -> u8
    requires { Mapped b st.now wires.now × (c < 8 * tiles b) × (length before.now ≡ ports b) × PortBits b before.now ×
        (length after.now ≡ ports b) × (length state.now ≡ 8 * tiles b) }
    ensures { result ≡ next_cell b st.now before.now after.now state.now c }
{
    let tile = c / CELLS_PER_TILE;
    next_state(
        st,
        tile,
        c % CELLS_PER_TILE,
        |q| value_at(b, st, wires, before, tile, q),
        |q| value_at(b, st, wires, after, tile, q),
        state[c],
    )
}

// The next state of every cell.
// Rules out: a cell left out; the new state of one cell seen by another.
pub fn clock(
    b: Block,
    st: &[u16],
    wires: &[u16],
    before: &[u8],
    after: &[u8],
    state: &[u8],
    next: &mut [u8],
)
    requires { Mapped b st.now wires.now × (length before.now ≡ ports b) × PortBits b before.now ×
        (length after.now ≡ ports b) × (length state.now ≡ 8 * tiles b) × (length next.old ≡ 8 * tiles b) }
    ensures { next.new ≡ next_states b st.now before.now after.now state.now }
{
    for (c, cell) in next.iter_mut().enumerate() {
        *cell = next_cell(b, st, wires, before, after, state, c);
    }
}
