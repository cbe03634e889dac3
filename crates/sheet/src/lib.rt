// The layout of a sheet (document 01, "The sheet"): its places and sizes, and its trailer, put and judged. specs/Layout.antt has it as a
// table.
#![tactic(auto)]

ghost use Rattle.std.specs.Prelude.{◌≡◌, ◌+◌, ◌≤◌, length};
ghost use Rattle.octets.specs.Octets.{over};
ghost use Rattle.sheet.specs.Layout.{trailer_size, trailer};
ghost use Rattle.sheet.specs.Framing.{sheet_refusal_number, verdict_number, framing, seat_count};

// The form that is written and read, and the letters F and S as one number.
const FORM: u8 = 1;

const LETTERS: u16 = 0x4653;

// The octets of a seat before its identity, of the trailer, and of all that stands behind the seats: the settings and the trailer.
pub const SEAT_HEAD: usize = 7;

pub const TRAILER_SIZE: usize = 8;

pub const TAIL_SIZE: usize = seat_octets::SETTINGS_SIZE + TRAILER_SIZE;

// Where things stand in a seat, behind its flags.
pub const HIGHEST_WITHIN: usize = 1;

pub const SSRC_WITHIN: usize = 2;

pub const LENGTH_WITHIN: usize = 6;

// Where things stand in the trailer; the offset of the settings is its first.
const SEATS_OFFSET: usize = 2;

const SEAT_COUNT: usize = 4;

const FORM_PLACE: usize = 5;

const LETTERS_PLACE: usize = 6;

// What is wrong with a sheet; specs/Framing.antt has the paper's number of each.
#[derive(Clone, Copy, PartialEq, Eq)]
pub enum Refusal {
    NotASheet,
    OtherForm,
    WrongPlaces,
    OutsideRange,
    SeatAtFault,
}

impl From<Refusal> for u8 {
    ghost from_gives = { λ refusal n. n ≡ sheet_refusal_number refusal };

    fn from(refusal: Refusal) -> u8 {
        match refusal {
            Refusal::NotASheet => 41,
            Refusal::OtherForm => 42,
            Refusal::WrongPlaces => 43,
            Refusal::OutsideRange => 44,
            Refusal::SeatAtFault => 45,
        }
    }
}

// The number of a verdict; 0 is accepted.
pub fn verdict_number(verdict: Result<(), Refusal>) -> u8
    ensures { result ≡ verdict_number verdict }
{
    match verdict {
        Ok(()) => 0,
        Err(refusal) => u8::from(refusal),
    }
}

#[tactic(auto, using(octets::proofs::Over::over_more), unfolding(crate::specs::Layout::trailer, octets::specs::Octets::octets16))]
pub fn put_trailer(room: &mut [u8], at: usize, offset: u16, count: u8)
    requires { at + trailer_size ≤ length room.old }
    ensures { room.new ≡ over room.old at (trailer offset count) }
{
    octets::put16(room, at, offset);
    octets::put16(room, at + SEATS_OFFSET, 0);
    octets::put_pair(room, at + SEAT_COUNT, count, FORM);
    octets::put16(room, at + LETTERS_PLACE, LETTERS);
}

// 41, 42, 43.
#[tactic(auto, using(std::proofs::lemmas::Bool::Decides::nat_tests), unfolding(crate::proofs::Frames::judging))]
pub fn judge_trailer(s: &[u8]) -> Result<(), Refusal>
    ensures { result ≡ framing s.now }
{
    let n = s.len();
    if n < TAIL_SIZE {
        return Err(Refusal::NotASheet);
    }
    let at = n - TRAILER_SIZE;
    if octets::number16(s, at + LETTERS_PLACE) != LETTERS {
        return Err(Refusal::NotASheet);
    }
    if s[at + FORM_PLACE] != FORM {
        return Err(Refusal::OtherForm);
    }
    if 16 < s[at + SEAT_COUNT]
        || octets::number16(s, at) as usize + TAIL_SIZE != n
        || octets::number16(s, at + SEATS_OFFSET) != 0
    {
        return Err(Refusal::WrongPlaces);
    }
    Ok(())
}

// How many seats a sheet says it has.
pub fn seat_count(s: &[u8]) -> u8
    requires { trailer_size ≤ length s.now }
    ensures { result ≡ seat_count s.now }
{
    s[s.len() - TRAILER_SIZE + SEAT_COUNT]
}
