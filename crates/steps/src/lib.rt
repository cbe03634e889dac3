// What a step of the desk is made of: the core that it leaves, and its report of messages and marks (document 01, "The desk"). The words
// that the rules are written with stand in specs/.
#![tactic(auto)]

ghost use Rattle.std.specs.Prelude.{◌≡◌};
ghost use Rattle.steps.specs.Words.{◌in_phase◌, ◌with_line◌, next, ◌⇒◌, silence, is_nothing, report_of, answered, done, ◌sends◌, ◌marks_struck◌, ◌marks_ended◌, marked};

use hall::Answer;
use line::{Entry, Line};

// What runs in Taken beside T1. Three cases side by side: an Option would want a second enum, of two, inside.
#[derive(Clone, Copy)]
pub enum AlsoRuns {
    NoMore,
    T2,
    T20,
}

// Idle says whether T7 runs beside T4; Taken and Revoking have their holder, with the priority it was given the floor at; Revoking has
// the cause. The timers that run follow.
#[derive(Clone, Copy)]
pub enum Phase {
    Stopped,
    Idle(bool),
    Taken(Entry, AlsoRuns),
    Revoking(Entry, u16),
}

#[derive(Clone, Copy)]
pub struct Core {
    pub phase: Phase,
    pub line: Line,
    pub sequence: u16,
    pub c7: u8,
    pub c20: u8,
}

// An outgoing message: Granted has its priority, Taken who was given the floor and the sequence number, Deny and Revoke their cause, Idle
// the sequence number, Info (Queue Position Info) the place and the priority.
// Nothing is a kind too, and no Option around one: a report has two places for messages, and each has its kind and its number.
#[derive(Clone, Copy)]
pub enum Kind {
    Nothing,
    Granted(u8),
    Taken(u8, u16),
    Deny(u16),
    Idle(u16),
    Revoke(u16),
    Info(u8, u8),
}

#[derive(Clone, Copy)]
pub struct Sending {
    pub kind: Kind,
    pub to: [bool; 16],
}

// How the floor was given. Three cases side by side, as a report has them: an Option would want a second enum, of two, inside.
#[derive(Clone, Copy)]
pub enum Given {
    NotGiven,
    AtOnce(u8),
    OutOfLine(u8),
}

#[derive(Clone, Copy)]
pub struct Marks {
    pub placed: Option<u8>,
    pub struck: [bool; 16],
    pub ended: Option<u8>,
    pub given: Given,
}

#[derive(Clone, Copy)]
pub struct Report {
    pub first: Sending,
    pub second: Sending,
    pub marks: Marks,
}

// A refusal leaves its core and an empty report too, and every law of a step speaks of them (ways, marks): the answer stands beside them.
// It stands last: fields lie in this order, and a small one in front of a large one makes every copy of the whole dearer.
#[derive(Clone, Copy)]
pub struct Step {
    pub core: Core,
    pub report: Report,
    pub answer: Answer,
}

// The causes of Deny, in the words of TS 24.380.
pub const ANOTHER_HAS_PERMISSION: u16 = 1;

pub const ONLY_ONE_PARTICIPANT: u16 = 3;

pub const RECEIVE_ONLY: u16 = 5;

pub const QUEUE_FULL: u16 = 7;
// The causes of Revoke.
pub const MEDIA_BURST_TOO_LONG: u16 = 2;

pub const MEDIA_BURST_PREEMPTED: u16 = 4;

// What a step reports. A report is built at once, and all are built here: a step that is built and then changed is copied whole each time.

pub fn no_message() -> Sending
    ensures { result ≡ silence }
{
    Sending {
        kind: Kind::Nothing,
        to: [false; 16],
    }
}

// The report with these messages, and with no mark but these two: who is struck off and whose floor ends is marked afterwards.
pub fn report_of(first: Sending, second: Sending, placed: Option<u8>, given: Given) -> Report
    ensures { result ≡ report_of first second placed given }
{
    let marks = Marks {
        placed,
        struck: [false; 16],
        ended: None,
        given,
    };
    Report {
        first,
        second,
        marks,
    }
}

pub fn answer(core: Core, answer: Answer) -> Step
    ensures { result ≡ answered core answer }
{
    let report = report_of(no_message(), no_message(), None, Given::NotGiven);
    Step {
        core,
        report,
        answer,
    }
}

fn is_nothing(kind: Kind) -> bool
    ensures { result ≡ is_nothing kind }
{
    matches!(kind, Kind::Nothing)
}

pub fn send(step: Step, kind: Kind, to: [bool; 16]) -> Step
    ensures { result ≡ (step sends kind ⇒ to) }
{
    let message = Sending { kind, to };
    let report = if is_nothing(step.report.first.kind) {
        Report {
            first: message,
            ..step.report
        }
    } else {
        Report {
            second: message,
            ..step.report
        }
    };
    Step { report, ..step }
}

// A step that is done, with one message.
pub fn say(core: Core, kind: Kind, to: [bool; 16]) -> Step
    ensures { result ≡ (done core sends kind ⇒ to) }
{
    let first = Sending { kind, to };
    let report = report_of(first, no_message(), None, Given::NotGiven);
    Step {
        core,
        report,
        answer: Ok(()),
    }
}

fn with_marks(step: Step, marks: Marks) -> Step
    ensures { result ≡ marked step marks }
{
    let report = Report {
        marks,
        ..step.report
    };
    Step { report, ..step }
}

pub fn mark_struck(step: Step, seats: [bool; 16]) -> Step
    ensures { result ≡ (step marks_struck seats) }
{
    let marks = Marks {
        struck: seats,
        ..step.report.marks
    };
    with_marks(step, marks)
}

pub fn mark_ended(step: Step, seat: u8) -> Step
    ensures { result ≡ (step marks_ended seat) }
{
    let marks = Marks {
        ended: Some(seat),
        ..step.report.marks
    };
    with_marks(step, marks)
}

// The core with one thing changed, a word of the rules each (specs/Words).

pub fn in_phase(core: Core, phase: Phase) -> Core
    ensures { result ≡ (core in_phase phase) }
{
    Core { phase, ..core }
}

pub fn with_line(core: Core, line: Line) -> Core
    ensures { result ≡ (core with_line line) }
{
    Core { line, ..core }
}

#[tactic(auto, unfolding(crate::specs::Words::next))]
pub fn next_sequence(n: u16) -> u16
    ensures { result ≡ next n }
{
    n.wrapping_add(1)
}
