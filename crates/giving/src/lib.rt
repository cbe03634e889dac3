// The floor is given, ends, passes on to the head of the line, is revoked (document 01, "The desk").
#![tactic(auto)]

ghost use Rattle.std.specs.Prelude.{◌≡◌};
ghost use Rattle.line.specs.Line.{waiting};
ghost use Rattle.steps.specs.Words.{◌marks_given◌};
ghost use Rattle.giving.specs.Floor.{holds, given, given_at_once, given_out_of_line, enters_idle, passes_on, floor_ends, revokes, granted_again};

use hall::Hall;
use line::Entry;
use steps::{AlsoRuns, Core, Given, Kind, Phase, Sending, Step};

pub fn is_holder(phase: Phase, seat: u8) -> bool
    ensures { result ≡ holds phase seat }
{
    match phase {
        Phase::Taken(e, _) | Phase::Revoking(e, _) => e.seat == seat,
        Phase::Stopped | Phase::Idle(_) => false,
    }
}

#[tactic(auto, unfolding(crate::specs::Floor::given))]
fn give(core: Core, hall: Hall, e: Entry, beside: AlsoRuns, mark: Given) -> Step
    ensures { result ≡ (given core hall e beside marks_given mark) }
{
    let sequence = steps::next_sequence(core.sequence);
    let first = Sending {
        kind: Kind::Granted(e.priority),
        to: hall::only_seat(e.seat),
    };
    let second = Sending {
        kind: Kind::Taken(e.seat, sequence),
        to: hall::all_others(hall, e.seat),
    };
    Step {
        core: Core {
            phase: Phase::Taken(e, beside),
            sequence,
            ..core
        },
        report: steps::report_of(first, second, None, mark),
        answer: Ok(()),
    }
}

#[tactic(auto, unfolding(crate::specs::Floor::given_at_once))]
pub fn give_at_once(core: Core, hall: Hall, e: Entry) -> Step
    ensures { result ≡ given_at_once core hall e }
{
    give(core, hall, e, AlsoRuns::NoMore, Given::AtOnce(e.seat))
}

#[tactic(auto, unfolding(crate::specs::Floor::given_out_of_line))]
fn give_out_of_line(core: Core, hall: Hall, e: Entry) -> Step
    ensures { result ≡ given_out_of_line core hall e }
{
    let counting = Core { c20: 1, ..core };
    give(counting, hall, e, AlsoRuns::T20, Given::OutOfLine(e.seat))
}

#[tactic(auto, unfolding(crate::specs::Floor::enters_idle))]
pub fn enter_idle(core: Core, hall: Hall) -> Step
    ensures { result ≡ enters_idle core hall }
{
    let sequence = steps::next_sequence(core.sequence);
    let idle = Core {
        phase: Phase::Idle(true),
        sequence,
        c7: 1,
        ..core
    };
    steps::say(idle, Kind::Idle(sequence), hall.present)
}

#[tactic(auto, using(crate::proofs::Passes::passes_none, crate::proofs::Passes::passes_head))]
fn pass_on(core: Core, hall: Hall) -> Step
    ensures { result ≡ passes_on core hall (waiting core.line) }
{
    let line = core.line;
    if line::count(line) == 0 {
        return enter_idle(core, hall);
    }
    let head = line::entry_at(line, 0);
    let leaving = hall::only_seat(head.seat);
    let rest = line::struck(line, leaving);
    give_out_of_line(steps::with_line(core, rest), hall, head)
}

#[tactic(auto, unfolding(crate::specs::Floor::floor_ends))]
pub fn end_floor(core: Core, hall: Hall, seat: u8) -> Step
    ensures { result ≡ floor_ends core hall seat }
{
    let step = pass_on(core, hall);
    steps::mark_ended(step, seat)
}

#[tactic(auto, unfolding(crate::specs::Floor::revokes))]
pub fn revoke(step: Step, e: Entry, cause: u16) -> Step
    ensures { result ≡ revokes step e cause }
{
    let turned = Step {
        core: steps::in_phase(step.core, Phase::Revoking(e, cause)),
        ..step
    };
    steps::send(turned, Kind::Revoke(cause), hall::only_seat(e.seat))
}

pub fn grant_again(core: Core, e: Entry) -> Step
    ensures { result ≡ granted_again core e }
{
    steps::say(core, Kind::Granted(e.priority), hall::only_seat(e.seat))
}
