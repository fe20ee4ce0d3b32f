// Running a list: each row gives its wire a value.
ghost use Rattle.std.specs.Prelude.{◌≡◌, ℕ, ◌<◌, length, get_or};
ghost use Rattle.netlist.specs.Rows.{operand_of};
ghost use Rattle.netlist.specs.Running.{row_value, run_from, input_of, Bits, RowReads, RowFits};

use crate::row::{COPY, FLIP_FLOP, LENT, LOOKUP, MAJORITY, ONE, Row, operand, row_at};
use cell::logic::{lookup_bit, majority_bit};

// The value of the wire that operand j names.
fn input(row: Row, j: usize, values: &[u8]) -> u8
    requires { (j < 4) × (operand_of row j < length values.now) }
    ensures { result ≡ input_of row values.now j }
{
    values[usize::from(operand(row, j))]
}

// What a row gives.
#[tactic(auto, unfolding(crate::specs::Running::row_value, crate::specs::Rows::arity_of))]
fn value(row: Row, state: &[u8], lent: &[u8], values: &[u8]) -> u8
    requires { RowReads row state.now lent.now values.now }
    ensures { result ≡ row_value row state.now lent.now values.now }
{
    match row.kind {
        LENT => lent[usize::from(row.wire)],
        ONE => 1,
        FLIP_FLOP => state[usize::from(row.a)],
        COPY => input(row, 0, values),
        LOOKUP => {
            let in0 = input(row, 0, values);
            let in1 = input(row, 1, values);
            let in2 = input(row, 2, values);
            let in3 = input(row, 3, values);
            lookup_bit(row.table, in0, in1, in2, in3)
        }
        MAJORITY => {
            let in1 = input(row, 0, values);
            let in2 = input(row, 1, values);
            let carry = input(row, 2, values);
            majority_bit(in1, in2, carry)
        }
        // ZERO, and what is no kind
        _ => 0,
    }
}

// Gives the wires their values, row after row. What `values` held before is not read: each row reads wires of earlier rows.
// Rules out: a row run before one that it reads; the lent value read at another number than the wire's.
pub fn run(list: &[u16], count: usize, state: &[u8], lent: &[u8], values: &mut [u8])
    requires by_index { (i : ℕ) → i < count → RowFits list.now (length state.now) (length lent.now) (length values.old) i }
    requires bits { Bits state.now × Bits lent.now }
    ensures { values.new ≡ run_from list.now state.now lent.now 0 count values.old }
{
    for i in 0..count {
        let row = row_at(list, i);
        values[usize::from(row.wire)] = value(row, state, lent, values);
    }
}
