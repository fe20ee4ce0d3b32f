// A cell's settings as a record by value, its lookup table and its carry.
ghost use Rattle.std.specs.Prelude.{◌≡◌, ℕ, ◌+◌, ◌*◌, ◌<◌, ◌≤◌};
ghost use Rattle.cell.specs.Settings.{cell_of, flags_of};
ghost use Rattle.cell.specs.Lookup.{lookup_bit, looked_up, majority};
ghost use Rattle.cell.specs.Halves.{halved};
ghost use Rattle.digits.specs.Digits.{digit, is_set};

use refusal::Refusal;

// The settings of one logic cell.
#[derive(Clone, Copy, Default, PartialEq, Eq)]
pub struct Cell {
    // LUT_INIT, bit 0 with weight 1.
    pub table: u16,
    pub carry: bool,
    pub flipflop: bool,
    // Sets rather than resets.
    pub set: bool,
    pub asynchronous: bool,
}

impl Cell {
    // A cell from its table and its flags as a number: 1 carry, 2 flip-flop, 4 set, 8 asynchronous.
    pub fn new(table: u16, flags: u16) -> Cell
        ensures { result ≡ cell_of table flags }
    {
        Cell {
            table,
            carry: has(flags, 0),
            flipflop: has(flags, 1),
            set: has(flags, 2),
            asynchronous: has(flags, 3),
        }
    }

    // Its flags as a number.
    pub fn flags(self) -> u16
        ensures { result ≡ flags_of self }
    {
        u16::from(self.carry)
            + 2 * u16::from(self.flipflop)
            + 4 * u16::from(self.set)
            + 8 * u16::from(self.asynchronous)
    }
}

// The lookup of a table at inputs given as one number, in_0 with weight 1. Ground 20, for inputs above 15.
// Rules out: the table read from its high end; inputs above 15 taken modulo 16.
pub fn lookup(table: u16, inputs: u32) -> Result<u8, Refusal>
    ensures { result ≡ looked_up table inputs }
{
    if 15 < inputs {
        return Err(Refusal::OutOfRange(inputs));
    }
    let in0 = input(inputs, 0);
    let in1 = input(inputs, 1);
    let in2 = input(inputs, 2);
    let in3 = input(inputs, 3);
    Ok(lookup_bit(table, in0, in1, in2, in3))
}

// Input k of inputs that are given as one number.
fn input(inputs: u32, k: u32) -> u8
    requires { k < 4 }
    ensures { result ≡ digit inputs k }
{
    ((inputs >> k) & 1) as u8
}

// The lookup of a cell whose inputs in_0 to in_3 are bits: four choices, each halving what is left of the table's sixteen bits.
// `ByHalves` says after each choice where the bit wanted is (specs/Halves.antt).
// Rules out: one input that makes the choice of another; a 0 that picks the upper half.
pub fn lookup_bit(table: u16, in0: u8, in1: u8, in2: u8, in3: u8) -> u8
    requires { (in0 < 2) × (in1 < 2) × (in2 < 2) × (in3 < 2) }
    ensures { result ≡ lookup_bit table in0 in1 in2 in3 }
{
    // of sixteen; in_2, in_1 and in_0 index the bit wanted among the eight (`after_in3`)
    let eight = half(table, in3, 8);
    // of eight; in_1 and in_0 index it among the four (`after_in2`)
    let four = half(eight, in2, 4);
    // of four; in_0 indexes it among the two (`after_in1`)
    let two = half(four, in1, 2);
    // of two; this is the bit (`after_in0`)
    let one = half(two, in0, 1);
    one as u8
}

// One choice between the two halves of 2n bits: a 0 picks the lower n and a 1 the upper n, by a shifted mask.
// "after each choice the bit wanted is the one the remaining inputs index among those left" (02, W3): `among`, where i is what they index.
fn half(bits: u16, choice: u8, n: u8) -> u16
    requires { (choice < 2) × (n ≤ 8) }
    ensures is { result ≡ halved bits choice n }
    ensures among { (i : ℕ) → i < n → digit result i ≡ digit bits (choice * n + i) }
{
    let mask: u16 = (1 << n) - 1;
    (bits >> (choice * n)) & mask
}

// The carry of a cell: the majority of three bits.
#[tactic(auto, unfolding(crate::specs::Lookup::majority))]
pub fn majority_bit(a: u8, b: u8, c: u8) -> u8
    requires { (a < 2) × (b < 2) × (c < 2) }
    ensures { result ≡ majority a b c }
{
    u8::from(2 <= a + b + c)
}

// Whether flag k is set, by a shifted mask.
fn has(flags: u16, k: u32) -> bool
    requires { k < 16 }
    ensures { result ≡ is_set flags k }
{
    (flags >> k) & 1 == 1
}
