// The grounds for a no (document 01, 'Grounds for a no'): one case for each, with its place. Nothing here knows how a ground is found.
//
// Every entry point of the project answers with a `Refusal` or with what it was asked for. `specs/Grounds.antt` gives the
// number and the place of each case; `specs/Memory.antt` what an answer leaves in lent memory.
#![tactic(auto)]

ghost use Rattle.std.specs.Prelude.{◌≡◌};
ghost use Rattle.refusal.specs.Grounds.{number_of, place_of};

#[derive(Clone, Copy)]
pub enum Refusal {
    // W or H is not 1 to 8, or the byte for the column to the east is not 0 or 1.
    WrongSize,
    // A lent length differs from the exact one.
    WrongLength,
    // The part of the routing table that breaks a rule: 0 the fields, 1 the passive list, 2 + g group g, 514 a group too many.
    Table(u32),
    // The position at fault in a tile that cannot be decoded: 864 times the tile plus the position.
    Undecodable(u32),
    // The wire that two enabled switches end on (document 01: fight).
    Contention(u32),
    // The wire of a disabled carry output that is read.
    DisabledCarry(u32),
    // The wire that depends on itself (document 01: loop).
    Loop(u32),
    // The tile whose clock, or asynchronous set or reset, comes from a cell.
    CellClock(u32),
    // The tile whose settings no bits have.
    NoSuchSettings(u32),
    // The index of a state, before or after byte above 1, the three joined.
    NotABit(u32),
    // The line that is malformed, out of turn, missing or extra, from 1.
    Line(u32),
    // The row of a lent list whose kind, wire, operand or unused number is not as it must be, from 0.
    Row(u32),
    // The line of an IceStorm file that is not of the shape due, or at which something is given twice or missing, from 1.
    AscLine(u32),
    // Two blocks that are compared have different sizes.
    SizesDiffer,
    // The lent list is too short: the rows that it would need.
    ListTooShort(u32),
    // The line of a change to the lent values that names a wire that is not open, or one twice, from 1.
    Change(u32),
    // A port, tile or lookup input out of range: that number.
    OutOfRange(u32),
}

// The paper's number of a ground.
// Rules out: one number for two grounds; counting the cases instead of the paper's numbers (20 follows 16).
pub fn number(r: Refusal) -> u8
    ensures { result ≡ number_of r }
{
    match r {
        Refusal::WrongSize => 1,
        Refusal::WrongLength => 2,
        Refusal::Table(_) => 3,
        Refusal::Undecodable(_) => 4,
        Refusal::Contention(_) => 5,
        Refusal::DisabledCarry(_) => 6,
        Refusal::Loop(_) => 7,
        Refusal::CellClock(_) => 8,
        Refusal::NoSuchSettings(_) => 9,
        Refusal::NotABit(_) => 10,
        Refusal::Line(_) => 11,
        Refusal::Row(_) => 12,
        Refusal::AscLine(_) => 13,
        Refusal::SizesDiffer => 14,
        Refusal::ListTooShort(_) => 15,
        Refusal::Change(_) => 16,
        Refusal::OutOfRange(_) => 20,
    }
}

// The place of a no.
pub fn place(r: Refusal) -> u32
    ensures { result ≡ place_of r }
{
    match r {
        Refusal::WrongSize | Refusal::WrongLength | Refusal::SizesDiffer => 0,
        Refusal::Table(p)
        | Refusal::Undecodable(p)
        | Refusal::Contention(p)
        | Refusal::DisabledCarry(p)
        | Refusal::Loop(p)
        | Refusal::CellClock(p)
        | Refusal::NoSuchSettings(p)
        | Refusal::NotABit(p)
        | Refusal::Line(p)
        | Refusal::Row(p)
        | Refusal::AscLine(p)
        | Refusal::ListTooShort(p)
        | Refusal::Change(p)
        | Refusal::OutOfRange(p) => p,
    }
}
