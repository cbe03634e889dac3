// A report as octets (docs/FORMS.md).
#![tactic(auto)]

ghost use Rattle.std.specs.Prelude.{◌≡◌, ◌+◌, ◌≤◌, length};
ghost use Rattle.octets.specs.Octets.{over};
ghost use Rattle.report_octets.specs.Places.{report_size, first_place, sent_size};
ghost use Rattle.report_octets.specs.Report.{mask_of, seat_octet, given_octet, how_octet, particulars, octets_of_message, marks_octets, octets_of_report, particulars_at, kind_of, said_by, said_at, told_in};

use steps::{Given, Kind, Marks, Report, Sending};

// The places of a report and of its messages; specs/Places.antt has the same names.
pub const REPORT_SIZE: usize = 24;

const STRUCK_PLACE: usize = 0;

const STRUCK_ZERO: usize = 2;

const ENDED_PLACE: usize = 4;

pub const HOW_PLACE: usize = 6;

const FIRST_PLACE: usize = 8;

const SECOND_PLACE: usize = 16;

const SEAT_WITHIN: usize = 1;

const NUMBER_WITHIN: usize = 2;

const PRIORITY_WITHIN: usize = 4;

const ZERO_WITHIN: usize = 5;

const MASK_WITHIN: usize = 6;

// What a message has beside its receivers: its kind's number, a seat, a number, a priority; zeros for what it has not.
#[derive(Clone, Copy, PartialEq, Eq)]
pub struct Particulars {
    pub kind: u8,
    pub seat: u8,
    pub number: u16,
    pub priority: u8,
}

// Where nothing is said.
const BLANK: Particulars = Particulars {
    kind: 0,
    seat: 0,
    number: 0,
    priority: 0,
};

// A set of seats as a number, seat 0 the lowest bit. Each of its two octets is gathered by itself, side by side.
pub fn mask_of(set: [bool; 16]) -> u16
    ensures { result ≡ mask_of set }
{
    let mut low = 0u8;
    let mut high = 0u8;
    for i in (0..8).rev() {
        low = low * 2 + u8::from(set[i]);
        high = high * 2 + u8::from(set[8 + i]);
    }
    u16::from(high) * 256 + u16::from(low)
}

fn seat_octet(mark: Option<u8>) -> u8
    ensures { result ≡ seat_octet mark }
{
    mark.unwrap_or(255)
}

// As in core_writing, the types are of another crate, so that no From can say these numbers.

fn given_octet(given: Given) -> u8
    ensures { result ≡ given_octet given }
{
    match given {
        Given::NotGiven => 255,
        Given::AtOnce(s) | Given::OutOfLine(s) => s,
    }
}

fn how_octet(given: Given) -> u8
    ensures { result ≡ how_octet given }
{
    match given {
        Given::NotGiven => 0,
        Given::AtOnce(_) => 1,
        Given::OutOfLine(_) => 2,
    }
}

impl From<Kind> for Particulars {
    ghost from_gives = { λ kind q. q ≡ particulars kind };

    #[tactic(auto, unfolding(crate::specs::Report::particulars))]
    fn from(kind: Kind) -> Particulars {
        match kind {
            Kind::Nothing => Particulars { kind: 255, ..BLANK },
            Kind::Granted(priority) => Particulars {
                kind: 1,
                priority,
                ..BLANK
            },
            Kind::Taken(seat, number) => Particulars {
                kind: 2,
                seat,
                number,
                ..BLANK
            },
            Kind::Deny(number) => Particulars {
                kind: 3,
                number,
                ..BLANK
            },
            Kind::Idle(number) => Particulars {
                kind: 5,
                number,
                ..BLANK
            },
            Kind::Revoke(number) => Particulars {
                kind: 6,
                number,
                ..BLANK
            },
            Kind::Info(place, priority) => Particulars {
                kind: 9,
                number: u16::from(place),
                priority,
                ..BLANK
            },
        }
    }
}

pub fn particulars_of(kind: Kind) -> Particulars
    ensures { result ≡ particulars kind }
{
    Particulars::from(kind)
}

// Writes a message of a report at a place; the mask is its receivers.
#[tactic(auto, using(octets::proofs::Over::over_more), unfolding(crate::specs::Report::octets_of_message, octets::specs::Octets::octets16))]
fn put_message(room: &mut [u8], at: usize, m: Sending, mask: u16)
    requires sent_size_in_bounds { at + sent_size ≤ length room.old }
    requires mask_value { mask ≡ mask_of m.to }
    ensures { room.new ≡ over room.old at (octets_of_message m) }
{
    let q = Particulars::from(m.kind);
    octets::put_pair(room, at, q.kind, q.seat);
    octets::put16(room, at + NUMBER_WITHIN, q.number);
    octets::put_pair(room, at + PRIORITY_WITHIN, q.priority, 0);
    octets::put16(room, at + MASK_WITHIN, mask);
}

#[tactic(auto, using(octets::proofs::Over::over_more), unfolding(crate::specs::Report::marks_octets, octets::specs::Octets::octets16))]
fn put_marks(room: &mut [u8], m: Marks, mask: u16)
    requires first_place_in_bounds { first_place ≤ length room.old }
    requires mask_value { mask ≡ mask_of m.struck }
    ensures { room.new ≡ over room.old 0 (marks_octets m) }
{
    octets::put16(room, STRUCK_PLACE, mask);
    octets::put_pair(room, STRUCK_ZERO, 0, seat_octet(m.placed));
    octets::put_pair(room, ENDED_PLACE, seat_octet(m.ended), given_octet(m.given));
    octets::put_pair(room, HOW_PLACE, how_octet(m.given), 0);
}

// Writes a report into the first 24 octets of a room. The sets become numbers before anything is written, so that none is kept meanwhile.
pub fn put_report(room: &mut [u8], report: Report)
    requires { report_size ≤ length room.old }
    ensures { room.new ≡ over room.old 0 (octets_of_report report) }
{
    let strikes = mask_of(report.marks.struck);
    let tells = mask_of(report.first.to);
    let also_tells = mask_of(report.second.to);
    put_marks(room, report.marks, strikes);
    put_message(room, FIRST_PLACE, report.first, tells);
    put_message(room, SECOND_PLACE, report.second, also_tells);
}

// What the octets of a report say.

#[tactic(auto, unfolding(crate::specs::Report::particulars_at))]
fn particulars_at(r: &[u8], at: usize) -> Particulars
    requires { at + sent_size ≤ length r.now }
    ensures { result ≡ particulars_at r.now at }
{
    Particulars {
        kind: r[at],
        seat: r[at + SEAT_WITHIN],
        number: octets::number16(r, at + NUMBER_WITHIN),
        priority: r[at + PRIORITY_WITHIN],
    }
}

#[tactic(auto, using(std::proofs::lemmas::Bool::Decides::nat_tests), unfolding(crate::proofs::Choices::choosing))]
fn kind_of(q: Particulars) -> Kind
    ensures { result ≡ kind_of q }
{
    match q.kind {
        1 => Kind::Granted(q.priority),
        2 => Kind::Taken(q.seat, q.number),
        3 => Kind::Deny(q.number),
        5 => Kind::Idle(q.number),
        6 => Kind::Revoke(q.number),
        9 => Kind::Info((q.number % 256) as u8, q.priority),
        _ => Kind::Nothing,
    }
}

// A message is taken only if its octets are those that would be written for it.
#[tactic(auto, using(std::proofs::lemmas::Bool::Decides::nat_tests), unfolding(crate::proofs::Choices::choosing))]
fn said_by(q: Particulars, behind: u8) -> Option<Kind>
    ensures { result ≡ said_by q behind }
{
    let kind = kind_of(q);
    if q == Particulars::from(kind) && behind == 0 {
        Some(kind)
    } else {
        None
    }
}

fn said_at(r: &[u8], at: usize) -> Option<Kind>
    requires { at + sent_size ≤ length r.now }
    ensures { result ≡ said_at r.now at }
{
    said_by(particulars_at(r, at), r[at + ZERO_WITHIN])
}

// Message 0 or 1 of a report; none, if its octets are no message's.
#[tactic(auto, using(std::proofs::lemmas::Bool::Decides::nat_tests), unfolding(crate::proofs::Choices::choosing))]
pub fn message_in(r: &[u8], which: u32) -> Option<Kind>
    ensures { result ≡ told_in r.now which }
{
    if r.len() != REPORT_SIZE {
        return None;
    }
    match which {
        0 => said_at(r, FIRST_PLACE),
        1 => said_at(r, SECOND_PLACE),
        _ => Some(Kind::Nothing),
    }
}
