// The lines of a report, by value.
ghost use Rattle.std.specs.Prelude.{◌≡◌, min};
ghost use Rattle.lines.specs.Lines.{switch_line, cell_line, answer_line};

use texts::hex::digit;

// A line 06.
#[tactic(auto, unfolding(texts::specs::Hex::digit_of))]
pub fn switch_line(wire: u16, source: u16) -> [u8; 11]
    ensures { result ≡ switch_line wire source }
{
    [
        b'0',
        b'6',
        digit(wire / 256 / 16),
        digit(wire / 256),
        digit(wire / 16),
        digit(wire),
        digit(source / 256 / 16),
        digit(source / 256),
        digit(source / 16),
        digit(source),
        b'\n',
    ]
}

// A line 07.
#[tactic(auto, unfolding(texts::specs::Hex::digit_of))]
pub fn cell_line(tile: u16, cell: u16, table: u16, flags: u16) -> [u8; 13]
    ensures { result ≡ cell_line tile cell table flags }
{
    [
        b'0',
        b'7',
        digit(tile / 16),
        digit(tile),
        digit(cell / 16),
        digit(cell),
        digit(table / 256 / 16),
        digit(table / 256),
        digit(table / 16),
        digit(table),
        digit(flags / 16),
        digit(flags),
        b'\n',
    ]
}

// A line 08. A place above four digits is the highest that they can say.
#[tactic(auto, unfolding(texts::specs::Hex::digit_of))]
pub fn answer_line(number: u8, place: u32) -> [u8; 9]
    ensures { result ≡ answer_line number place }
{
    let n = u16::from(number);
    let p = place.min(65535) as u16;
    [
        b'0',
        b'8',
        digit(n / 16),
        digit(n),
        digit(p / 256 / 16),
        digit(p / 256),
        digit(p / 16),
        digit(p),
        b'\n',
    ]
}
