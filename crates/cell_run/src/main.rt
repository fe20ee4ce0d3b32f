// Runs the logic cell over all inputs and prints what it gives; `stdout` holds what a model written apart from it gives
// (tests/cell_model.py). One block of lines each: ticks, the flip-flop, the majority, the lookup.
#![tactic(auto)]

ghost use Rattle.std.specs.Prelude.{◌<◌};

use cell::flip_flop::{Control, FlipFlop};
use cell::logic::Cell;

fn put(rt: &impl Print, c: u8) {
    let line = [c];
    let _ = rt.write_all(&line);
}

// Bit k of a number, as a byte.
fn bit(n: u32, k: u32) -> u8
    ensures { result < 2 }
{
    if k < 32 { ((n >> k) % 2) as u8 } else { 0 }
}

fn digit(v: u8) -> u8 {
    if v == 0 { b'0' } else { b'1' }
}

// NegClk, clk before, clk after.
fn tick_of(n: u32) -> u8 {
    if cell::flip_flop::is_tick(bit(n, 2) == 1, bit(n, 1), bit(n, 0)) {
        b'1'
    } else {
        b'0'
    }
}

// Flip-flop, asynchronous, set value, tick, cen, s_r before, s_r after, lookup, old state: bits 8 to 0.
fn next_of(n: u32) -> u8 {
    let settings = Cell {
        table: 0,
        carry: false,
        flipflop: bit(n, 8) == 1,
        set: bit(n, 6) == 1,
        asynchronous: bit(n, 7) == 1,
    };
    let control = Control {
        tick: bit(n, 5) == 1,
        enable: bit(n, 4),
        before: bit(n, 3),
        after: bit(n, 2),
    };
    let old = FlipFlop { value: bit(n, 0) };
    let new = old.step(settings, control, bit(n, 1));
    digit(new.value)
}

fn majority_of(n: u32) -> u8 {
    digit(cell::logic::majority_bit(bit(n, 2), bit(n, 1), bit(n, 0)))
}

// Refused inputs show as a dash.
fn looked_up(table: u16, inputs: u32) -> u8 {
    match cell::logic::lookup(table, inputs) {
        Ok(b) => digit(b),
        Err(_) => b'-',
    }
}

fn looked_up_bits(table: u16, n: u32) -> u8 {
    digit(cell::logic::lookup_bit(table, bit(n, 0), bit(n, 1), bit(n, 2), bit(n, 3)))
}

// A table with one bit set, then that bit alone clear.
fn print_lookups(rt: &impl Print, k: u32) {
    if k < 16 {
        let table: u16 = 1 << k;
        for inputs in 0..18 {
            put(rt, looked_up(table, inputs));
        }
        for inputs in 0..16 {
            put(rt, looked_up_bits(65535 - table, inputs));
        }
        put(rt, b'\n');
    }
}

fn main(rt: HostRuntime) {
    for n in 0..8 {
        put(&rt, tick_of(n));
    }
    put(&rt, b'\n');
    for n in 0..512 {
        put(&rt, next_of(n));
        if n % 64 == 63 {
            put(&rt, b'\n');
        }
    }
    for n in 0..8 {
        put(&rt, majority_of(n));
    }
    put(&rt, b'\n');
    for k in 0..16 {
        print_lookups(&rt, k);
    }
}
