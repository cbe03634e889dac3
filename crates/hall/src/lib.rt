// The hall of a call: its sixteen seats, its settings, and what a desk answers (document 01, "The desk"). The names of those who sit there
// stand apart, in the crate identities: no step of a running call reads one.
#![tactic(auto, using(std::proofs::lemmas::Bool::Decides::nat_tests), unfolding(crate::proofs::Looking::looking))]

ghost use Rattle.std.specs.Prelude.{◌≡◌, true, false, get_or, set};
ghost use Rattle.hall.specs.Seats.{settings_of, newcomer_of, in_range, empty_hall, is_present, flags_at, queues, receives_only, only, others, alone, asked, effective, seat_of, free_seat, with_seat, vacated};
ghost use Rattle.hall.specs.Answers.{desk_refusal_number, answer_number, settings_answer};

// Why a desk refuses; specs/Answers.antt has the paper's number of each.
#[derive(Clone, Copy)]
pub enum Refusal {
    CallStopped,
    NoSuchSeat,
    NotExpected,
    AllSeatsTaken,
    IdentityLength,
    IdentityPresent,
    SsrcPresent,
    OutsideRange,
    // A packet that was not read: the reader's number.
    NotRead(u8),
}

// What a desk answers: that it is done, or why not.
pub type Answer = Result<(), Refusal>;

// A set of seats.
pub type Seats = [bool; 16];

// The desk's SSRC, the pre-emptive level, how long the line may be, how far C7 and C20 count, the duration of a grant in seconds, and the
// normal level: what a request counts as that names no priority.
#[derive(Clone, Copy)]
pub struct Settings {
    pub ssrc: u32,
    pub level: u8,
    pub limit: u8,
    pub c7: u8,
    pub c20: u8,
    pub duration: u16,
    pub normal: u8,
}

// Those of a desk that nobody can use: zeros, which are out of range.
pub const NO_SETTINGS: Settings = Settings {
    ssrc: 0,
    level: 0,
    limit: 0,
    c7: 0,
    c20: 0,
    duration: 0,
    normal: 0,
};

// What a seat is flagged as: that it negotiated queueing, that it is receive only.
#[derive(Clone, Copy)]
pub struct Flags {
    pub queueing: bool,
    pub receive_only: bool,
}

// A free seat's.
pub const NO_FLAGS: Flags = Flags {
    queueing: false,
    receive_only: false,
};

// The seats, a column for each thing known of them, as every definition and the desk's octets have them; a free seat has zeros.
#[derive(Clone, Copy)]
pub struct Hall {
    pub present: [bool; 16],
    pub ssrcs: [u32; 16],
    pub highest: [u8; 16],
    pub flags: [Flags; 16],
    pub settings: Settings,
}

// What a newcomer says of itself, beside its identity.
#[derive(Clone, Copy)]
pub struct Newcomer {
    pub ssrc: u32,
    pub highest: u8,
    pub flags: Flags,
}

// The settings of a desk, and a newcomer, from their parts: what makes one comes through here.

pub fn settings_of(
    ssrc: u32,
    level: u8,
    limit: u8,
    c7: u8,
    c20: u8,
    duration: u16,
    normal: u8,
) -> Settings
    ensures { result ≡ settings_of ssrc level limit c7 c20 duration normal }
{
    Settings {
        ssrc,
        level,
        limit,
        c7,
        c20,
        duration,
        normal,
    }
}

pub fn newcomer_of(ssrc: u32, highest: u8, flags: Flags) -> Newcomer
    ensures { result ≡ newcomer_of ssrc highest flags }
{
    Newcomer {
        ssrc,
        highest,
        flags,
    }
}

// A column at a seat, and a column with one seat's value stored: the names, which stand apart, are a column too.

pub fn column_at<T: Copy>(column: [T; 16], seat: u8, free: T) -> T
    ensures { result ≡ get_or column seat free }
{
    let s = seat as usize;
    if s < 16 { column[s] } else { free }
}

pub fn with_value<T: Copy>(column: [T; 16], seat: u8, value: T) -> [T; 16]
    ensures { result ≡ set column seat value }
{
    let s = seat as usize;
    let mut more = column;
    if s < 16 {
        more[s] = value;
    }
    more
}

// Settings and the empty hall.

pub fn in_range(settings: Settings) -> bool
    ensures { result ≡ in_range settings }
{
    1 <= settings.level
        && settings.limit <= 15
        && 1 <= settings.c7
        && 1 <= settings.c20
        && 1 <= settings.duration
}

// The answer to settings that a desk is to be made with.
pub fn check_settings(settings: Settings) -> Answer
    ensures { result ≡ settings_answer settings }
{
    if in_range(settings) {
        Ok(())
    } else {
        Err(Refusal::OutsideRange)
    }
}

// The paper's number of a refusal, and of an answer.

impl From<Refusal> for u8 {
    ghost from_gives = { λ refusal number. number ≡ desk_refusal_number refusal };

    fn from(refusal: Refusal) -> u8 {
        match refusal {
            Refusal::CallStopped => 21,
            Refusal::NoSuchSeat => 22,
            Refusal::NotExpected => 23,
            Refusal::AllSeatsTaken => 24,
            Refusal::IdentityLength => 25,
            Refusal::IdentityPresent => 26,
            Refusal::SsrcPresent => 27,
            Refusal::OutsideRange => 28,
            Refusal::NotRead(n) => n,
        }
    }
}

pub fn number_of(answer: Answer) -> u8
    ensures { result ≡ answer_number answer }
{
    match answer {
        Ok(()) => 0,
        Err(refusal) => u8::from(refusal),
    }
}

pub fn empty_hall(settings: Settings) -> Hall
    ensures { result ≡ empty_hall settings }
{
    Hall {
        present: [false; 16],
        ssrcs: [0; 16],
        highest: [0; 16],
        flags: [NO_FLAGS; 16],
        settings,
    }
}

// What is known of a seat.

pub fn is_present(hall: Hall, seat: u8) -> bool
    ensures { result ≡ is_present hall seat }
{
    column_at(hall.present, seat, false)
}

pub fn flags_at(hall: Hall, seat: u8) -> Flags
    ensures { result ≡ flags_at hall seat }
{
    column_at(hall.flags, seat, NO_FLAGS)
}

// The two flags by their names, as the rules ask for them.

pub fn negotiated_queueing(hall: Hall, seat: u8) -> bool
    ensures { result ≡ queues hall seat }
{
    flags_at(hall, seat).queueing
}

pub fn receives_only(hall: Hall, seat: u8) -> bool
    ensures { result ≡ receives_only hall seat }
{
    flags_at(hall, seat).receive_only
}

// What a request asks for: the priority that its field says, 0 too, or the normal level where it has no field.
fn asked_priority(normal: u8, wish: Option<u8>) -> u8
    ensures { result ≡ asked normal wish }
{
    wish.unwrap_or(normal)
}

// The effective priority: the lower of the one asked and the seat's highest.
pub fn effective_priority(hall: Hall, seat: u8, wish: Option<u8>) -> u8
    ensures { result ≡ effective hall seat wish }
{
    let highest = column_at(hall.highest, seat, 0);
    asked_priority(hall.settings.normal, wish).min(highest)
}

// Sets of seats.

pub fn only_seat(seat: u8) -> Seats
    ensures { result ≡ only seat }
{
    with_value([false; 16], seat, true)
}

pub fn all_others(hall: Hall, seat: u8) -> Seats
    ensures { result ≡ others hall seat }
{
    with_value(hall.present, seat, false)
}

// Whether no other seat is present.
pub fn is_alone(hall: Hall, seat: u8) -> bool
    ensures { result ≡ alone hall seat }
{
    !all_others(hall, seat).contains(&true)
}

// Seats looked for: by SSRC, and a free one; the lowest counts.

pub fn seat_of(hall: Hall, ssrc: u32) -> Option<u8>
    ensures { result ≡ seat_of hall ssrc }
{
    (0..16).find(|s: &u8| is_present(hall, *s) && column_at(hall.ssrcs, *s, 0) == ssrc)
}

pub fn free_seat(hall: Hall) -> Option<u8>
    ensures { result ≡ free_seat hall }
{
    (0..16).find(|s: &u8| !is_present(hall, *s))
}

// The hall once a seat is what is told of it; join, leave and a sheet all come through here.
pub fn with_seat(hall: Hall, seat: u8, here: bool, who: Newcomer) -> Hall
    ensures { result ≡ with_seat hall seat here who }
{
    Hall {
        present: with_value(hall.present, seat, here),
        ssrcs: with_value(hall.ssrcs, seat, who.ssrc),
        highest: with_value(hall.highest, seat, who.highest),
        flags: with_value(hall.flags, seat, who.flags),
        settings: hall.settings,
    }
}

pub fn vacate(hall: Hall, seat: u8) -> Hall
    ensures { result ≡ vacated hall seat }
{
    let who = newcomer_of(0, 0, NO_FLAGS);
    with_seat(hall, seat, false, who)
}
