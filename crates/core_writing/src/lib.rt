// The octets of the letters, the floor and the line, written at their places (docs/FORMS.md; the definitions are those of crate
// desk_octets); the rest of the room is untouched. That the room is as long as a desk is asked at each function: a type that holds it
// would ask more of callers.
#![tactic(auto, using(octets::proofs::Over::over_more), unfolding(crate::proofs::Pieces::pieces))]

ghost use Rattle.std.specs.Prelude.{◌≡◌, ℕ, ◌+◌, ◌≤◌, ◌<◌, length};
ghost use Rattle.words.specs.Choice.{one as flag};
ghost use Rattle.octets.specs.Octets.{over};
ghost use Rattle.desk_octets.specs.Columns.{column};
ghost use Rattle.desk_octets.specs.Form.{desk_letters, kind_octet, also_octet, timers_octet, holder_in, cause_in, phase_octets, line_octets, core_octets};
ghost use Rattle.desk_octets.specs.Places.{phase_place, count_place, desk_size};

use desk_octets::{
    C7_PLACE, CAUSE_PLACE, COUNT_PLACE, HOLDER_PLACE, PHASE_PLACE, PRIORITIES_COLUMN,
    PRIORITIES_ZERO, SEQUENCE_PLACE, WAITING_COLUMN, WAITING_ZERO,
};
use line::{EMPTY, Entry, Line};
use steps::{AlsoRuns, Core, Phase};

pub fn flag_octet(b: bool) -> u8
    ensures { result ≡ flag b }
{
    u8::from(b)
}

// The numbers of docs/FORMS.md; no From can say them here, since the types and `u8` are of other crates.

fn also_octet(beside: AlsoRuns) -> u8
    ensures { result ≡ also_octet beside }
{
    match beside {
        AlsoRuns::NoMore => 0,
        AlsoRuns::T2 => 1,
        AlsoRuns::T20 => 2,
    }
}

// A phase by its number.
pub fn kind_octet(phase: Phase) -> u8
    ensures { result ≡ kind_octet phase }
{
    match phase {
        Phase::Stopped => 0,
        Phase::Idle(_) => 1,
        Phase::Taken(_, _) => 2,
        Phase::Revoking(_, _) => 3,
    }
}

fn timers_octet(phase: Phase) -> u8
    ensures { result ≡ timers_octet phase }
{
    match phase {
        Phase::Idle(t7) => flag_octet(t7),
        Phase::Taken(_, beside) => also_octet(beside),
        _ => 0,
    }
}

fn holder_in(phase: Phase) -> Entry
    ensures { result ≡ holder_in phase }
{
    match phase {
        Phase::Taken(holder, _) | Phase::Revoking(holder, _) => holder,
        _ => EMPTY,
    }
}

fn cause_in(phase: Phase) -> u16
    ensures { result ≡ cause_in phase }
{
    match phase {
        Phase::Revoking(_, cause) => cause,
        _ => 0,
    }
}

// Writes a column from `at` on: so many octets, each as it is given for its place.
pub fn put_column<F: Fn(usize) -> u8>(room: &mut [u8], at: usize, count: usize, given: F)
    requires in_bounds { at + count ≤ length room.old }
    requires given_there { (i : ℕ) → i < count → F.pre given i }
    ensures { (f : ℕ → ℕ) → ((i x : ℕ) → i < count → F.post given i x → x ≡ f i)
        → room.new ≡ over room.old at (column f 0 count) }
{
    for i in 0..count {
        room[at + i] = given(i);
    }
}

pub fn put_letters(room: &mut [u8])
    requires { desk_size ≤ length room.old }
    ensures { room.new ≡ over room.old 0 desk_letters }
{
    octets::put_pair(room, 0, 70, 68);
    octets::put_pair(room, 2, 1, 0);
}

fn put_phase(room: &mut [u8], phase: Phase)
    requires { desk_size ≤ length room.old }
    ensures { room.new ≡ over room.old phase_place (phase_octets phase) }
{
    let holder = holder_in(phase);
    octets::put_pair(room, PHASE_PLACE, kind_octet(phase), timers_octet(phase));
    octets::put_pair(room, HOLDER_PLACE, holder.seat, holder.priority);
    octets::put16(room, CAUSE_PLACE, cause_in(phase));
}

fn put_line(room: &mut [u8], line: Line)
    requires { desk_size ≤ length room.old }
    ensures { room.new ≡ over room.old count_place (line_octets line) }
{
    let count = line::count(line) as u8;
    let entries = line.entries;
    octets::put_pair(room, COUNT_PLACE, count, 0);
    put_column(room, WAITING_COLUMN, 15, |i| entries[i].seat);
    copying::put_zeros(room, WAITING_ZERO, 1);
    put_column(room, PRIORITIES_COLUMN, 15, |i| entries[i].priority);
    copying::put_zeros(room, PRIORITIES_ZERO, 1);
}

pub fn put_core(room: &mut [u8], core: Core)
    requires { desk_size ≤ length room.old }
    ensures { room.new ≡ over room.old phase_place (core_octets core) }
{
    put_phase(room, core.phase);
    octets::put16(room, SEQUENCE_PLACE, core.sequence);
    octets::put_pair(room, C7_PLACE, core.c7, core.c20);
    put_line(room, core.line);
}
