// Plays Thursday's exercise (document 01) and prints it: each event, the messages with who gets them and their packets, the marks, and
// the wall with the floor, the line and the timers. Then the sequence number from 65,535 to 0.
#![tactic(auto)]

use events::{Desk, Event, Outcome};
use hall::Flags;
use line::Line;
use printing::{Octets, Page, Printout, Seats};
use std::fmt::{self, Display};
use std::io;
use steps::{Given, Kind, Marks, Phase, Report, Sending, Step};
use timers::{Running, Timer};

// The log of a step.

// The kind of a message with its particulars.
#[derive(Clone, Copy)]
struct Particulars(Kind);

impl Display for Particulars {
    fn fmt<W: fmt::Write>(&self, f: &mut fmt::Formatter<W>) -> fmt::Result {
        match self.0 {
            Kind::Nothing => Ok(()),
            Kind::Granted(priority) => write!(f, "Granted, priority {priority}"),
            Kind::Taken(seat, sequence) => write!(f, "Taken by seat {seat}, sequence {sequence}"),
            Kind::Deny(cause) => write!(f, "Deny #{cause}"),
            Kind::Idle(sequence) => write!(f, "Idle, sequence {sequence}"),
            Kind::Revoke(cause) => write!(f, "Revoke #{cause}"),
            Kind::Info(place, priority) => write!(
                f,
                "Queue Position Info, place {place}, priority {priority}"
            ),
        }
    }
}

// The seat whose identity a message names.
fn named(kind: Kind) -> u8 {
    match kind {
        Kind::Taken(seat, _) => seat,
        _ => 0,
    }
}

// A message, who gets it, and the octets that it is sent as.
fn show_message(page: &mut Printout, desk: &Desk, message: Sending) {
    let Sending { kind, to } = message;
    if let Kind::Nothing = kind {
        return;
    }
    writeln!(page, "     {} ->{}", Particulars(kind), Seats(to));
    let mut room = [0; 96];
    let name = identities::name_at(desk.names, named(kind));
    let identity = printing::part(&name.octets, 0, name.len);
    match outgoing::send(desk.hall.settings, kind, identity, &mut room) {
        Ok(n) => writeln!(page, "        {}", Octets(printing::part(&room, 0, n))),
        Err(_) => writeln!(page, "         no packet"),
    }
}

fn show_marks(page: &mut Printout, marks: Marks) {
    if let Some(seat) = marks.placed {
        writeln!(page, "     placed {seat}");
    }
    let struck = Seats(marks.struck);
    if 0 < struck.count() {
        writeln!(page, "     struck off{struck}");
    }
    if let Some(seat) = marks.ended {
        writeln!(page, "     ended {seat}");
    }
    match marks.given {
        Given::NotGiven => {}
        Given::AtOnce(seat) => writeln!(page, "     given at once {seat}"),
        Given::OutOfLine(seat) => writeln!(page, "     given out of the line {seat}"),
    }
}

// The wall: the floor, the line, the timers that run, the sequence number, the seats.

#[derive(Clone, Copy)]
struct Floor(Phase);

impl Display for Floor {
    fn fmt<W: fmt::Write>(&self, f: &mut fmt::Formatter<W>) -> fmt::Result {
        match self.0 {
            Phase::Stopped => f.write_str("Stopped"),
            Phase::Idle(_) => f.write_str("Idle"),
            Phase::Taken(e, _) => write!(f, "Taken, floor with seat {} at {}", e.seat, e.priority),
            Phase::Revoking(e, cause) => write!(
                f,
                "Revoking, floor with seat {} at {}, cause {cause}",
                e.seat, e.priority
            ),
        }
    }
}

// The line, from the wall screen's list of it.
#[derive(Clone, Copy)]
struct Waiting(Line);

impl Display for Waiting {
    fn fmt<W: fmt::Write>(&self, f: &mut fmt::Formatter<W>) -> fmt::Result {
        let count = line::count(self.0);
        if count == 0 {
            return f.write_str(" empty");
        }
        for e in screen::listed(self.0).iter().take(count) {
            write!(f, " seat {} at {}", e.seat, e.priority)?;
        }
        Ok(())
    }
}

#[derive(Clone, Copy)]
struct Timers(Running);

impl Display for Timers {
    fn fmt<W: fmt::Write>(&self, f: &mut fmt::Formatter<W>) -> fmt::Result {
        for number in [1, 2, 3, 4, 7, 8, 20] {
            if timers::is_running(self.0, timers::timer_named(number)) {
                write!(f, " T{number}")?;
            }
        }
        Ok(())
    }
}

fn show_wall(page: &mut Printout, desk: &Desk) {
    let core = desk.core;
    let timers = Timers(timers::running_timers(core.phase));
    write!(
        page,
        "     | {} | line{}",
        Floor(core.phase),
        Waiting(core.line)
    );
    writeln!(
        page,
        " | timers{timers} | sequence {} | seats{}\n",
        core.sequence,
        Seats(desk.hall.present)
    );
}

fn show_outcome(page: &mut Printout, outcome: &Outcome) {
    if outcome.answer.is_err() {
        writeln!(page, "     answer {}", hall::number_of(outcome.answer));
    }
    let Report {
        first,
        second,
        marks,
    } = outcome.report;
    show_message(page, &outcome.desk, first);
    show_message(page, &outcome.desk, second);
    show_marks(page, marks);
    show_wall(page, &outcome.desk);
}

// The exercise: what happens, one after the other.

// A seat that asks with a priority, a seat that leaves, and any other event.
#[derive(Clone, Copy)]
enum Happening {
    Asks(u8, u8),
    Leaves(u8),
    Comes(Event),
}

// As the log has it, and what it is.
#[derive(Clone, Copy)]
struct Row(&'static str, Happening);

const EXERCISE: [Row; 13] = [
    Row("a  the call starts", Happening::Comes(Event::Start)),
    Row("b  0 asks 5", Happening::Asks(0, 5)),
    Row("c  1 asks 5", Happening::Asks(1, 5)),
    Row("d  2 asks 6", Happening::Asks(2, 6)),
    Row("e  1 asks 6", Happening::Asks(1, 6)),
    Row("f  3 asks 199", Happening::Asks(3, 199)),
    Row("g  3 asks 200", Happening::Asks(3, 200)),
    Row("h  2 releases", Happening::Comes(Event::Release(12))),
    Row("i  3 asks 200", Happening::Asks(3, 200)),
    Row(
        "j  T3 fires",
        Happening::Comes(Event::Expiry(Some(Timer::T3))),
    ),
    Row(
        "k  T20 fires",
        Happening::Comes(Event::Expiry(Some(Timer::T20))),
    ),
    Row(
        "k  T20 fires again",
        Happening::Comes(Event::Expiry(Some(Timer::T20))),
    ),
    Row("l  1 leaves", Happening::Leaves(1)),
];

const AROUND: [Row; 2] = [
    Row(
        "the call stops, the sequence number 65535",
        Happening::Comes(Event::Stop),
    ),
    Row(
        "the call starts, the sequence number goes on from 65535",
        Happening::Comes(Event::Start),
    ),
];

// A Request as it comes over the wire, with a Floor Priority.
fn request(seat: u8, priority: u8) -> [u8; 16] {
    let ssrc = 10 + seat % 16;
    [
        0x80, 204, 0, 3, 0, 0, 0, ssrc, b'M', b'C', b'P', b'T', 0, 2, priority, 0,
    ]
}

// What a step comes to: it leaves seats and identities as they are.
fn stepped(desk: Desk, step: Step) -> Outcome {
    Outcome {
        desk: Desk {
            core: step.core,
            ..desk
        },
        report: step.report,
        answer: step.answer,
    }
}

fn happen(desk: Desk, what: Happening) -> Outcome {
    match what {
        Happening::Asks(seat, priority) => {
            let packet = request(seat, priority);
            stepped(desk, packet_events::hear(desk.core, desk.hall, &packet))
        }
        Happening::Leaves(seat) => events::leave_call(desk.core, desk.hall, desk.names, seat),
        Happening::Comes(event) => stepped(desk, events::make_step(desk.core, desk.hall, event)),
    }
}

// Plays some rows, one after the other.
fn play(page: &mut Printout, desk: Desk, rows: &[Row]) -> Desk {
    let mut now = desk;
    for Row(title, what) in rows {
        let outcome = happen(now, *what);
        writeln!(page, "{title}");
        show_outcome(page, &outcome);
        now = outcome.desk;
    }
    now
}

// The desk on the bench: level 200, line limit 2, C7 and C20 limits 2; what the paper leaves open: desk SSRC 1, duration 30 seconds,
// normal level 0.
fn empty() -> Desk {
    Desk {
        core: events::fresh_core(),
        hall: hall::empty_hall(hall::settings_of(1, 200, 2, 2, 2, 30, 0)),
        names: identities::no_names(),
    }
}

// Who sits down: the identity, and whether the seat negotiated queueing.
#[derive(Clone, Copy)]
struct Pupil(&'static [u8], bool);

const PUPILS: [Pupil; 4] = [
    Pupil(b"test1", true),
    Pupil(b"test10", true),
    Pupil(b"test2", true),
    Pupil(b"test3", false),
];

fn class() -> Desk {
    let mut desk = empty();
    for (Pupil(identity, queueing), ssrc) in PUPILS.iter().zip(10..) {
        let flags = Flags {
            queueing: *queueing,
            receive_only: false,
        };
        let joined = joining::join_call(
            desk.hall,
            desk.names,
            identity,
            hall::newcomer_of(ssrc, 255, flags),
        );
        desk = Desk {
            hall: joined.hall,
            names: joined.names,
            ..desk
        };
    }
    desk
}

// Starts and stops the call until the sequence number is 65,535.
fn around(desk: Desk) -> Desk {
    let mut core = desk.core;
    for _ in 0..65536 {
        if core.sequence == 65535 {
            break;
        }
        let stopped = events::make_step(core, desk.hall, Event::Stop);
        core = events::make_step(stopped.core, desk.hall, Event::Start).core;
    }
    Desk { core, ..desk }
}

fn main(rt: HostRuntime) -> io::Result<()> {
    let mut page = Page::new(rt.stdout());
    writeln!(
        page,
        "Thursday's exercise: level 200, line limit 2, C7 and C20 limits 2"
    );
    writeln!(
        page,
        "seats 0 test1, 1 test10, 2 test2, 3 test3; all but seat 3 queue\n"
    );
    let desk = play(&mut page, class(), &EXERCISE);
    play(&mut page, around(desk), &AROUND);
    page.close()
}
