// An answer's number and value, in one number.
ghost use Rattle.std.specs.Prelude.{◌≡◌, ◌<◌};
ghost use Rattle.refusal.specs.Grounds.{number_of, place_of, answer_number};
ghost use Rattle.capi.specs.Packed.{packed, packed_answer, packed_number, ground_in};

use refusal::Refusal;

pub fn pack(number: u8, value: u32) -> u64
    ensures { (result ≡ packed number value) × (ground_in result ≡ number) }
{
    (number as u64) * 4294967296 + (value as u64)
}

pub fn pack_no(refusal: Refusal) -> u64
    ensures { (result ≡ packed (number_of refusal) (place_of refusal)) × (ground_in result ≡ number_of refusal) }
{
    pack(refusal::number(refusal), refusal::place(refusal))
}

pub fn pack_answer(answer: Result<(), Refusal>) -> u64
    ensures { (result ≡ packed_answer answer) × (ground_in result ≡ answer_number answer) }
{
    match answer {
        Ok(()) => pack(0, 0),
        Err(refusal) => pack_no(refusal),
    }
}

pub fn pack_number(answer: Result<u32, Refusal>) -> u64
    ensures { (result ≡ packed_number answer) × (ground_in result ≡ answer_number answer) }
{
    match answer {
        Ok(n) => pack(0, n),
        Err(refusal) => pack_no(refusal),
    }
}
