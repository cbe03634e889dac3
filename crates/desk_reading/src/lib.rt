// The desk that octets stand for (docs/FORMS.md; the definitions are those of crate desk_octets), read a column of them at a time. That
// the octets are as many as a desk has is asked at each function: a type that holds it would ask more of those who call the public ones.
#![tactic(auto)]

ghost use Rattle.std.specs.Prelude.{◌≡◌, ◌+◌, ◌≤◌, ◌<◌, length};
ghost use Rattle.identities.specs.Identity.{octets_of, name_at};
ghost use Rattle.desk_octets.specs.Form.{also_of, phase_of, phase_at, entries_at, core_at, bools_at, octets_at, words_at, seat_flags_at, settings_at, hall_at, name_in, names_at};
ghost use Rattle.desk_octets.specs.Places.{desk_size};

use desk_octets::{
    C7_PLACE, C20_PLACE, CAUSE_PLACE, COUNT_PLACE, FLAGS_COLUMN, HELD_AT_PLACE, HIGHEST_COLUMN,
    HOLDER_PLACE, IDENTITIES_COLUMN, LENGTHS_COLUMN, PHASE_PLACE, PRIORITIES_COLUMN,
    SEQUENCE_PLACE, SETTINGS_START, SSRCS_COLUMN, TAKEN_COLUMN, TIMERS_PLACE, WAITING_COLUMN,
};
use hall::{Flags, Hall, Settings};
use identities::{Name, Names};
use line::{Entry, Line};
use std::array;
use steps::{AlsoRuns, Core, Phase};

// By the numbers of docs/FORMS.md: any other number is the last case, and none is refused here.

#[tactic(auto, unfolding(crate::proofs::Choices::choosing))]
fn also_of(n: u8) -> AlsoRuns
    ensures { result ≡ also_of n }
{
    match n {
        0 => AlsoRuns::NoMore,
        1 => AlsoRuns::T2,
        _ => AlsoRuns::T20,
    }
}

#[tactic(auto, unfolding(crate::proofs::Choices::choosing))]
fn phase_of(kind: u8, timers: u8, holder: Entry, cause: u16) -> Phase
    ensures { result ≡ phase_of kind timers holder cause }
{
    match kind {
        0 => Phase::Stopped,
        1 => Phase::Idle(timers == 1),
        2 => Phase::Taken(holder, also_of(timers)),
        _ => Phase::Revoking(holder, cause),
    }
}

#[tactic(auto, unfolding(desk_octets::specs::Form::phase_at))]
fn phase_at(s: &[u8]) -> Phase
    requires { desk_size ≤ length s.now }
    ensures { result ≡ phase_at s.now }
{
    let holder = Entry {
        seat: s[HOLDER_PLACE],
        priority: s[HELD_AT_PLACE],
    };
    let cause = octets::number16(s, CAUSE_PLACE);
    phase_of(s[PHASE_PLACE], s[TIMERS_PLACE], holder, cause)
}

fn entries_at(s: &[u8]) -> [Entry; 15]
    requires { desk_size ≤ length s.now }
    ensures { result ≡ entries_at s.now }
{
    array::from_fn(|i| Entry {
        seat: s[WAITING_COLUMN + i],
        priority: s[PRIORITIES_COLUMN + i],
    })
}

#[tactic(auto, unfolding(desk_octets::specs::Form::core_at))]
pub fn core_at(s: &[u8]) -> Core
    requires { desk_size ≤ length s.now }
    ensures { result ≡ core_at s.now }
{
    let entries = entries_at(s);
    let len = octets::wide(s[COUNT_PLACE]);
    Core {
        phase: phase_at(s),
        line: Line { entries, len },
        sequence: octets::number16(s, SEQUENCE_PLACE),
        c7: s[C7_PLACE],
        c20: s[C20_PLACE],
    }
}

fn bools_at(s: &[u8], at: usize) -> [bool; 16]
    requires { at + 16 ≤ length s.now }
    ensures { result ≡ bools_at s.now at }
{
    array::from_fn(|i| s[at + i] == 1)
}

fn octets_at(s: &[u8], at: usize) -> [u8; 16]
    requires { at + 16 ≤ length s.now }
    ensures { result ≡ octets_at s.now at }
{
    array::from_fn(|i| s[at + i])
}

fn words_at(s: &[u8], at: usize) -> [u32; 16]
    requires { at + 64 ≤ length s.now }
    ensures { result ≡ words_at s.now at }
{
    array::from_fn(|i| octets::number32(s, at + 4 * i))
}

fn seat_flags_at(s: &[u8], at: usize) -> [Flags; 16]
    requires { at + 16 ≤ length s.now }
    ensures { result ≡ seat_flags_at s.now at }
{
    array::from_fn(|i| seat_octets::flags_of(s[at + i]))
}

pub fn settings_at(s: &[u8]) -> Settings
    requires { desk_size ≤ length s.now }
    ensures { result ≡ settings_at s.now }
{
    seat_octets::settings_in(s, SETTINGS_START)
}

#[tactic(auto, unfolding(desk_octets::specs::Form::hall_at))]
pub fn hall_at(s: &[u8]) -> Hall
    requires { desk_size ≤ length s.now }
    ensures { result ≡ hall_at s.now }
{
    Hall {
        present: bools_at(s, TAKEN_COLUMN),
        ssrcs: words_at(s, SSRCS_COLUMN),
        highest: octets_at(s, HIGHEST_COLUMN),
        flags: seat_flags_at(s, FLAGS_COLUMN),
        settings: settings_at(s),
    }
}

fn name_in(s: &[u8], seat: usize) -> Name
    requires desk_size_in_bounds { desk_size ≤ length s.now }
    requires seat_bound { seat < 16 }
    ensures { result ≡ name_in s.now seat }
{
    let at = IDENTITIES_COLUMN + 62 * seat;
    let octets = array::from_fn(|i| s[at + i]);
    let len = octets::wide(s[LENGTHS_COLUMN + seat]);
    Name { octets, len }
}

pub fn names_at(s: &[u8]) -> Names
    requires { desk_size ≤ length s.now }
    ensures { result ≡ names_at s.now }
{
    let of = array::from_fn(|seat| name_in(s, seat));
    Names { of }
}

// The identity of a seat, as the part of the octets that holds it.
pub fn name_at(s: &[u8], seat: u8) -> &[u8]
    requires { desk_size ≤ length s.now }
    ensures { result.now ≡ octets_of (name_at (names_at s.now) seat) }
{
    let at = octets::wide(seat);
    if at < 16 {
        let len = octets::wide(s[LENGTHS_COLUMN + at]);
        let start = IDENTITIES_COLUMN + 62 * at;
        let end = start + len.min(62);
        &s[start..end]
    } else {
        &s[0..0]
    }
}
