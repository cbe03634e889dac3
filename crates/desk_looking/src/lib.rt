// What a function that looks something up or writes something out answers: a number of 0 or more, or minus the number of a refusal.
// specs/Looking.antt has each answer and what is left in the lent room.
#![tactic(auto)]

ghost use Rattle.std.specs.Prelude.{◌≡◌, ◌*◌, ◌<◌, ◌≤◌, length, true, IfOk};
ghost use Rattle.std.specs.Fn.{FnOnceReturnsAtMut};
ghost use Rattle.octets.specs.Octets.{over};
ghost use Rattle.signed.specs.Signed.{signed};
ghost use Rattle.desk_looking.specs.Looking.{AskedAt, NoneAsked, WrittenAt, NoneWritten, holder_of, holder_seat, holder_priority, seat_answer, size_in, pairs, screened, saved_answer, tells};
ghost use Rattle.line.specs.Line.{waiting};
ghost use Rattle.header.specs.Header.{longest_packet};
ghost use Rattle.sheet.specs.Layout.{longest_sheet};
ghost use Rattle.writing.specs.Writing.{writing_answer};
ghost use Rattle.desk_octets.specs.Places.{desk_size};
ghost use Rattle.desk_test.specs.Lent.{formed};

use line::{Entry, Line};
use message::Refusal;
use signed::{found, refusal, refused, told};
use steps::{Kind, Phase};

// Octets that are no desk's get 20, before all else: the two ways in to what is asked of a desk, and to what is written out of one.

pub fn on_desk<F: FnOnce(&[u8]) -> i32>(desk: &[u8], ask: F) -> i32
    requires { formed desk.now ≡ true → F.pre ask desk }
    ensures asked { AskedAt desk.now (F.post ask desk.entry) result }
    ensures no_desk { NoneAsked desk.now result }
{
    if desk_test::is_desk(desk) {
        ask(desk)
    } else {
        refusal(signed::NO_DESK)
    }
}

pub fn from_desk<F: FnOnce(&mut [u8]) -> i32>(desk: &[u8], room: &mut [u8], write: F) -> i32
    requires { formed desk.now ≡ true → ((lent : _) → lent.now ≡ room.now → F.pre write lent) }
    ensures written { WrittenAt desk.now (FnOnceReturnsAtMut F.FnOnce write room.old) result room.new }
    ensures no_desk { NoneWritten desk.now room.old result room.new }
{
    if !desk_test::is_desk(desk) {
        return refusal(signed::NO_DESK);
    }
    write(room)
}

// A seat that was found, or what else an octet says; 22 where there is none.
pub fn seat_number(seat: Option<u8>) -> i32
    ensures { result ≡ signed (seat_answer seat) }
{
    told(
        seat.map(|s| usize::from(s))
            .ok_or(hall::Refusal::NoSuchSeat),
    )
}

// What is asked of the holder: C asks for each by a function of its own.

fn holder(phase: Phase) -> Option<Entry>
    ensures { result ≡ holder_of phase }
{
    match phase {
        Phase::Stopped | Phase::Idle(_) => None,
        Phase::Taken(e, _) | Phase::Revoking(e, _) => Some(e),
    }
}

pub fn holder_seat(phase: Phase) -> i32
    ensures { result ≡ signed (holder_seat phase) }
{
    seat_number(holder(phase).map(|e| e.seat))
}

pub fn holder_priority(phase: Phase) -> i32
    ensures { result ≡ signed (holder_priority phase) }
{
    seat_number(holder(phase).map(|e| e.priority))
}

// Writers: how many they wrote, or minus the number of a refusal, and the room.

// Writes the line into the room, two octets an entry.
fn put_pairs(room: &mut [u8], line: Line)
    requires { 2 * length (waiting line) ≤ length room.old }
    ensures { room.new ≡ over room.old 0 (pairs (waiting line)) }
{
    for i in 0..line::count(line) {
        let e = line::entry_at(line, i);
        octets::put_pair(room, 2 * i, e.seat, e.priority);
    }
}

pub fn show(line: Line, room: &mut [u8]) -> i32
    ensures { (result, room.new) ≡ screened (waiting line) room.old }
{
    let n = line::count(line);
    if room.len() < 2 * n {
        return refused(Refusal::NoRoom);
    }
    put_pairs(room, line);
    found(n as u32)
}

pub fn saved_number(saving: Result<usize, saving::Refusal>) -> i32
    requires { IfOk saving (λ n. n ≤ longest_sheet) }
    ensures { result ≡ signed (saved_answer saving) }
{
    told(saving)
}

// A packet has at most 440 octets.
pub fn written_number(answer: Result<usize, Refusal>) -> i32
    requires { size_in (writing_answer answer) ≤ longest_packet }
    ensures { result ≡ signed (writing_answer answer) }
{
    told(answer)
}

// A report's message as its packet; 12 where the report has none.
pub fn tell(desk: &[u8], kind: Option<Kind>, room: &mut [u8]) -> i32
    requires { desk_size ≤ length desk.now }
    ensures { (result, room.new) ≡ tells desk.now room.old kind }
{
    let Some(kind) = kind else {
        return refused(Refusal::Unreadable);
    };
    let settings = desk_reading::settings_at(desk);
    let particulars = report_octets::particulars_of(kind);
    let identity = desk_reading::name_at(desk, particulars.seat);
    written_number(outgoing::send(settings, kind, identity, room))
}
