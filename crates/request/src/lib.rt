// Request, by its rules 1 to 6 (document 01, "The desk"). The rules stand in specs/Request; rules 4 and 5 end alike, by rule 6, so that
// `asks_again` and `placed` are one function here, `stand`: specs/Cut has what is there for the sake of such cuts.
#![tactic(auto, using(std::proofs::lemmas::Bool::Decides::nat_tests), unfolding(crate::proofs::Laws::asking))]

ghost use Rattle.std.specs.Prelude.{◌≡◌};
ghost use Rattle.steps.specs.Words.{◌placing◌};
ghost use Rattle.request.specs.Request.{is_idle, waits, priority_in, full, holder_at_least, presses, denied, info_of, holder_asks, informed, pressed, rule6, stays_or_moves, idle_request, request};
ghost use Rattle.request.specs.Cut.{info_for, line_after, mark_after, stands, refusal_of, asks};

use hall::{Hall, Refusal};
use line::{Entry, Line};
use steps::{Core, Given, Kind, Phase, Sending, Step};

fn is_idle(phase: Phase) -> bool
    ensures { result ≡ is_idle phase }
{
    matches!(phase, Phase::Idle(_))
}

pub fn is_waiting(core: Core, seat: u8) -> bool
    ensures { result ≡ waits core seat }
{
    line::place_of(core.line, seat) < line::count(core.line)
}

fn priority_in(line: Line, seat: u8) -> u8
    ensures { result ≡ priority_in line seat }
{
    let place = line::place_of(line, seat);
    line::entry_at(line, place).priority
}

fn is_full(core: Core, hall: Hall) -> bool
    ensures { result ≡ full core hall }
{
    usize::from(hall.settings.limit) <= line::count(core.line)
}

fn holder_at_least(level: u8, phase: Phase) -> bool
    ensures { result ≡ holder_at_least level phase }
{
    match phase {
        Phase::Taken(e, _) | Phase::Revoking(e, _) => level <= e.priority,
        Phase::Stopped | Phase::Idle(_) => false,
    }
}

fn is_press(core: Core, hall: Hall, asker: Entry) -> bool
    ensures { result ≡ presses core hall asker.seat asker.priority }
{
    let level = hall.settings.level;
    level <= asker.priority
        && !holder_at_least(level, core.phase)
        && !line::another_at_least(core.line, asker.seat, level)
}

fn deny(core: Core, seat: u8, cause: u16) -> Step
    ensures { result ≡ denied core seat cause }
{
    steps::say(core, Kind::Deny(cause), hall::only_seat(seat))
}

pub fn info_of(line: Line, seat: u8) -> Kind
    ensures { result ≡ info_of line seat }
{
    let place = line::place_of(line, seat);
    if place < line::count(line) {
        let e = line::entry_at(line, place);
        Kind::Info(place as u8 + 1, e.priority)
    } else {
        Kind::Info(255, 0)
    }
}

fn holder_asks(core: Core) -> Step
    ensures { result ≡ holder_asks core core.phase }
{
    match core.phase {
        Phase::Taken(e, _) => giving::grant_again(core, e),
        _ => steps::answer(core, Err(Refusal::NotExpected)),
    }
}

// What Info says, and to whom, for an asker that may not have negotiated queueing.
fn info_for(line: Line, seat: u8, queueing: bool) -> Sending
    ensures { result ≡ info_for line seat queueing }
{
    if queueing {
        Sending {
            kind: info_of(line, seat),
            to: hall::only_seat(seat),
        }
    } else {
        steps::no_message()
    }
}

fn inform(core: Core, hall: Hall, seat: u8, placed: Option<u8>) -> Step
    ensures { result ≡ (informed core hall seat placing placed) }
{
    let queueing = hall::negotiated_queueing(hall, seat);
    let first = info_for(core.line, seat, queueing);
    let report = steps::report_of(first, steps::no_message(), placed, Given::NotGiven);
    Step {
        core,
        report,
        answer: Ok(()),
    }
}

fn press_on(step: Step, phase: Phase, press: bool) -> Step
    ensures { result ≡ pressed step phase press }
{
    match phase {
        Phase::Taken(e, _) if press => giving::revoke(step, e, steps::MEDIA_BURST_PREEMPTED),
        _ => step,
    }
}

#[tactic(auto, using(crate::proofs::Laws::pressed_placing), unfolding(crate::specs::Request::rule6))]
fn rule_6(core: Core, hall: Hall, seat: u8, press: bool, placed: Option<u8>) -> Step
    ensures { result ≡ (rule6 core hall seat press placing placed) }
{
    press_on(inform(core, hall, seat, placed), core.phase, press)
}

fn stay_or_move(line: Line, asker: Entry) -> Line
    ensures { result ≡ stays_or_moves line asker.seat asker.priority }
{
    if priority_in(line, asker.seat) == asker.priority {
        return line;
    }
    let others = line::struck(line, hall::only_seat(asker.seat));
    line::entered(others, asker)
}

fn line_after(line: Line, waits: bool, asker: Entry) -> Line
    ensures { result ≡ line_after line waits asker.seat asker.priority }
{
    if waits {
        stay_or_move(line, asker)
    } else {
        line::entered(line, asker)
    }
}

fn mark_after(waits: bool, seat: u8) -> Option<u8>
    ensures { result ≡ mark_after waits seat }
{
    if waits { None } else { Some(seat) }
}

// Who waits and who comes end alike, by rule 6: one way for both.
#[tactic(auto, using(crate::proofs::Laws::stands_alike))]
fn stand(core: Core, hall: Hall, asker: Entry, press: bool, waits: bool) -> Step
    ensures { result ≡ stands core hall asker.seat asker.priority press waits }
{
    let next = line_after(core.line, waits, asker);
    let changed = steps::with_line(core, next);
    let placed = mark_after(waits, asker.seat);
    rule_6(changed, hall, asker.seat, press, placed)
}

fn idle_request(core: Core, hall: Hall, asker: Entry) -> Step
    ensures { result ≡ idle_request core hall asker.seat asker.priority }
{
    if hall::is_alone(hall, asker.seat) {
        deny(core, asker.seat, steps::ONLY_ONE_PARTICIPANT)
    } else {
        giving::give_at_once(core, hall, asker)
    }
}

// The cause by which a newcomer is denied its place; who waits already has none.
fn refusal(core: Core, hall: Hall, seat: u8, press: bool, waits: bool) -> Option<u16>
    ensures { result ≡ refusal_of core hall seat press waits }
{
    if waits {
        None
    } else if !press && !hall::negotiated_queueing(hall, seat) {
        Some(steps::ANOTHER_HAS_PERMISSION)
    } else if is_full(core, hall) {
        Some(steps::QUEUE_FULL)
    } else {
        None
    }
}

fn ask(core: Core, hall: Hall, asker: Entry) -> Step
    ensures { result ≡ asks core hall asker.seat asker.priority (presses core hall asker.seat asker.priority) }
{
    let press = is_press(core, hall, asker);
    let waits = is_waiting(core, asker.seat);
    match refusal(core, hall, asker.seat, press, waits) {
        Some(cause) => deny(core, asker.seat, cause),
        None => stand(core, hall, asker, press, waits),
    }
}

pub fn request_floor(core: Core, hall: Hall, seat: u8, priority: u8) -> Step
    ensures { result ≡ request core hall seat priority }
{
    let asker = line::entry_of(seat, priority);
    if giving::is_holder(core.phase, seat) {
        holder_asks(core)
    } else if hall::receives_only(hall, seat) {
        deny(core, seat, steps::RECEIVE_ONLY)
    } else if is_idle(core.phase) {
        idle_request(core, hall, asker)
    } else {
        ask(core, hall, asker)
    }
}
