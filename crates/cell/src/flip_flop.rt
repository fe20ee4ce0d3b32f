// A cell's flip-flop: its state by value, which a step takes and hands back.
ghost use Rattle.std.specs.Prelude.{◌≡◌};
ghost use Rattle.cell.specs.NextState.{ticked, rose, next_sync, next_async, next_state};

use crate::logic::Cell;

#[derive(Clone, Copy)]
pub struct FlipFlop {
    pub value: u8,
}

// What a tile's wires say of one step: its tick, cen before, s_r before and after.
#[derive(Clone, Copy)]
pub struct Control {
    pub tick: bool,
    pub enable: u8,
    pub before: u8,
    pub after: u8,
}

impl FlipFlop {
    // The clock enable beats the synchronous set or reset.
    // Rules out: a reset without the enable; a lookup taken under a reset.
    #[tactic(auto, unfolding(crate::specs::NextState::next_sync))]
    pub fn synchronous(self, tick: bool, enable: u8, reset: u8, set: u8, lookup: u8) -> FlipFlop
        ensures { result.value ≡ next_sync self.value tick enable reset set lookup }
    {
        if tick && enable == 1 {
            let value = if reset == 1 { set } else { lookup };
            FlipFlop { value }
        } else {
            self
        }
    }

    // An asynchronous set or reset acts on events alone: a tick, or the rise of s_r.
    // Rules out: holding the set value while s_r stays 1; asking s_r before; the enable asked of the reset.
    #[tactic(auto, unfolding(crate::specs::NextState::next_async))]
    pub fn asynchronous(
        self,
        tick: bool,
        rise: bool,
        enable: u8,
        after: u8,
        set: u8,
        lookup: u8,
    ) -> FlipFlop
        ensures { result.value ≡ next_async self.value tick rise enable after set lookup }
    {
        if (tick || rise) && after == 1 {
            FlipFlop { value: set }
        } else if tick && enable == 1 {
            FlipFlop { value: lookup }
        } else {
            self
        }
    }

    // The state after a step, for a cell with these settings. Without a flip-flop it is kept.
    #[tactic(auto, unfolding(crate::specs::NextState::next_state))]
    pub fn step(self, cell: Cell, control: Control, lookup: u8) -> FlipFlop
        ensures { result.value ≡ next_state cell control lookup self.value }
    {
        let set = u8::from(cell.set);
        if !cell.flipflop {
            self
        } else if cell.asynchronous {
            let rise = is_rise(control.before, control.after);
            self.asynchronous(
                control.tick,
                rise,
                control.enable,
                control.after,
                set,
                lookup,
            )
        } else {
            self.synchronous(control.tick, control.enable, control.before, set, lookup)
        }
    }
}

// Whether a tile ticks, from NegClk (`inverted`) and clk before and after.
#[tactic(auto, unfolding(crate::specs::NextState::ticked, crate::specs::NextState::rose))]
pub fn is_tick(inverted: bool, before: u8, after: u8) -> bool
    ensures { result ≡ ticked inverted before after }
{
    if inverted {
        is_rise(after, before)
    } else {
        is_rise(before, after)
    }
}

// From 0 to 1.
#[tactic(auto, unfolding(crate::specs::NextState::rose))]
pub fn is_rise(before: u8, after: u8) -> bool
    ensures { result ≡ rose before after }
{
    before == 0 && after == 1
}
