// What happens when a timer fires, and Stop, which T4 is as (document 01, "The desk").
#![tactic(auto)]

ghost use Rattle.std.specs.Prelude.{◌≡◌};
ghost use Rattle.giving.specs.Floor.{floor_ends};
ghost use Rattle.firing.specs.Firing.{halted, stops, ends_in, revokes_in, idle_again, revokes_again, grants_or_ends, grants_again, fires, expires};

use hall::{Hall, Refusal};
use line::Entry;
use steps::{Core, Kind, Phase, Step};
use timers::Timer;

#[tactic(auto, unfolding(crate::specs::Firing::halted))]
fn halt(core: Core) -> Step
    ensures { result ≡ halted core }
{
    let seats = line::seats_of(core.line);
    let stopped = Core {
        phase: Phase::Stopped,
        line: line::nobody_waits(),
        ..core
    };
    let step = steps::answer(stopped, Ok(()));
    steps::mark_struck(step, seats)
}

#[tactic(auto, unfolding(crate::specs::Firing::stops))]
pub fn stop_call(core: Core) -> Step
    ensures { result ≡ stops core core.phase }
{
    match core.phase {
        Phase::Stopped => steps::answer(core, Err(Refusal::CallStopped)),
        Phase::Idle(_) => halt(core),
        Phase::Taken(e, _) | Phase::Revoking(e, _) => steps::mark_ended(halt(core), e.seat),
    }
}

#[tactic(auto, unfolding(crate::specs::Firing::ends_in))]
fn end_in(core: Core, hall: Hall) -> Step
    ensures { result ≡ ends_in core hall core.phase }
{
    match core.phase {
        Phase::Taken(e, _) | Phase::Revoking(e, _) => giving::end_floor(core, hall, e.seat),
        _ => steps::answer(core, Err(Refusal::NotExpected)),
    }
}

#[tactic(auto, unfolding(crate::specs::Firing::revokes_in))]
fn revoke_in(core: Core) -> Step
    ensures { result ≡ revokes_in core core.phase }
{
    match core.phase {
        Phase::Taken(e, _) => {
            let step = steps::answer(core, Ok(()));
            giving::revoke(step, e, steps::MEDIA_BURST_TOO_LONG)
        }
        _ => steps::answer(core, Err(Refusal::NotExpected)),
    }
}

#[tactic(auto, using(words::specs::Choice::if_yes, words::specs::Choice::if_no), unfolding(crate::specs::Firing::idle_again))]
fn idle_again(core: Core, hall: Hall) -> Step
    ensures { result ≡ idle_again core hall }
{
    let limit = hall.settings.c7;
    if core.c7 < limit {
        let sequence = steps::next_sequence(core.sequence);
        let counted = Core {
            sequence,
            c7: core.c7 + 1,
            ..core
        };
        steps::say(counted, Kind::Idle(sequence), hall.present)
    } else {
        let quiet = steps::in_phase(core, Phase::Idle(false));
        steps::answer(quiet, Ok(()))
    }
}

#[tactic(auto, unfolding(crate::specs::Firing::revokes_again))]
fn revoke_again(core: Core) -> Step
    ensures { result ≡ revokes_again core core.phase }
{
    match core.phase {
        Phase::Revoking(e, cause) => {
            let to = hall::only_seat(e.seat);
            steps::say(core, Kind::Revoke(cause), to)
        }
        _ => steps::answer(core, Err(Refusal::NotExpected)),
    }
}

// A function of its own, so that the hall is copied only where the floor does end.
fn end_at_limit(core: Core, hall: Hall, seat: u8) -> Step
    ensures { result ≡ floor_ends core hall seat }
{
    giving::end_floor(core, hall, seat)
}

// C20 counts one more, below its limit.
#[tactic(auto, using(words::specs::Choice::if_yes, words::specs::Choice::if_no), unfolding(crate::specs::Firing::grants_or_ends))]
fn grant_or_end(core: Core, hall: Hall, e: Entry) -> Step
    ensures { result ≡ grants_or_ends core hall e }
{
    let limit = hall.settings.c20;
    if core.c20 < limit {
        let counted = Core {
            c20: core.c20 + 1,
            ..core
        };
        giving::grant_again(counted, e)
    } else {
        end_at_limit(core, hall, e.seat)
    }
}

#[tactic(auto, unfolding(crate::specs::Firing::grants_again))]
fn grant_in(core: Core, hall: Hall) -> Step
    ensures { result ≡ grants_again core hall core.phase }
{
    match core.phase {
        Phase::Taken(e, _) => grant_or_end(core, hall, e),
        _ => steps::answer(core, Err(Refusal::NotExpected)),
    }
}

#[tactic(auto, unfolding(crate::specs::Firing::fires))]
fn fire(core: Core, hall: Hall, timer: Option<Timer>) -> Step
    ensures { result ≡ fires core hall timer }
{
    match timer {
        Some(Timer::T1 | Timer::T3) => end_in(core, hall),
        Some(Timer::T2) => revoke_in(core),
        Some(Timer::T4) => stop_call(core),
        Some(Timer::T7) => idle_again(core, hall),
        Some(Timer::T8) => revoke_again(core),
        Some(Timer::T20) => grant_in(core, hall),
        None => steps::answer(core, Err(Refusal::NotExpected)),
    }
}

#[tactic(auto, using(words::specs::Choice::if_yes, words::specs::Choice::if_no), unfolding(crate::specs::Firing::expires))]
pub fn expire(core: Core, hall: Hall, timer: Option<Timer>) -> Step
    ensures { result ≡ expires core hall timer }
{
    if timers::is_stopped(core.phase) {
        return steps::answer(core, Err(Refusal::CallStopped));
    }
    let running = timers::running_timers(core.phase);
    if timers::is_running(running, timer) {
        fire(core, hall, timer)
    } else {
        steps::answer(core, Err(Refusal::NotExpected))
    }
}
