// A row as a record by value, read from and written to a list of numbers.
ghost use Rattle.std.specs.Prelude.{◌≡◌, ◌<◌};
ghost use Rattle.netlist.specs.Rows.{row_at, set_row, zero_row, Inside, operand_of, arity_of};

// "A row is seven 16-bit numbers: kind, wire, four operands, table."
#[derive(Clone, Copy, Default, PartialEq, Eq)]
pub struct Row {
    pub kind: u16,
    pub wire: u16,
    pub a: u16,
    pub b: u16,
    pub c: u16,
    pub d: u16,
    pub table: u16,
}

pub const ROW_LENGTH: usize = 7;

// The kinds. 0 is no kind: by wire, it says that the index is no wire.
pub const LENT: u16 = 1;

pub const ZERO: u16 = 2;

pub const ONE: u16 = 3;

pub const FLIP_FLOP: u16 = 4;

pub const COPY: u16 = 5;

pub const LOOKUP: u16 = 6;

pub const MAJORITY: u16 = 7;

// Row i of a list.
pub fn row_at(list: &[u16], i: usize) -> Row
    requires { Inside list.now i }
    ensures { result ≡ row_at list.now i }
{
    let at = ROW_LENGTH * i;
    Row {
        kind: list[at],
        wire: list[at + 1],
        a: list[at + 2],
        b: list[at + 3],
        c: list[at + 4],
        d: list[at + 5],
        table: list[at + 6],
    }
}

// Puts a row in as row i.
pub fn write_row(list: &mut [u16], i: usize, row: Row)
    requires { Inside list.old i }
    ensures { list.new ≡ set_row list.old i row }
{
    let at = ROW_LENGTH * i;
    list[at..at + ROW_LENGTH].copy_from_slice(&[
        row.kind, row.wire, row.a, row.b, row.c, row.d, row.table,
    ]);
}

// The unused row.
pub fn zero_row() -> Row
    ensures { result ≡ zero_row }
{
    Row::default()
}

// Operand j of the four, from 0.
#[tactic(auto, unfolding(crate::specs::Rows::operand_of))]
pub fn operand(row: Row, j: usize) -> u16
    requires { j < 4 }
    ensures { result ≡ operand_of row j }
{
    match j {
        0 => row.a,
        1 => row.b,
        2 => row.c,
        _ => row.d,
    }
}

// How many of its operands are wires that it reads.
#[tactic(auto, unfolding(crate::specs::Rows::arity_of))]
pub fn arity(row: Row) -> usize
    ensures { result ≡ arity_of row }
{
    match row.kind {
        COPY => 1,
        LOOKUP => 4,
        MAJORITY => 3,
        _ => 0,
    }
}
