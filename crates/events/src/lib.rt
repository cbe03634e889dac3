// The events of a call: start, stop, leave, the packets, media, and the timers (document 01, "The desk"). Each is a rule of specs/ and one
// function, here or in `request` and `firing`.
#![tactic(auto)]

ghost use Rattle.std.specs.Prelude.{◌≡◌, Ok, Err};
ghost use Rattle.words.specs.Choice.{when◌then◌else◌};
ghost use Rattle.steps.specs.Words.{answered, refused};
ghost use Rattle.giving.specs.Floor.{holds, floor_ends};
ghost use Rattle.request.specs.Request.{waits};
ghost use Rattle.events.specs.Events.{whole_desk, outcome, fresh, starts, caller_of, struck_off, asks_place, talks, step, leave};

use hall::{Answer, Hall, Refusal};
use identities::Names;
use steps::{AlsoRuns, Core, Phase, Report, Step};
use timers::Timer;

// A seat's events come with its SSRC: Request with the priority that it asks for, Release and Queue Position Request, any other packet,
// media.
#[derive(Clone, Copy)]
pub enum Event {
    Start,
    Stop,
    Expiry(Option<Timer>),
    Request(u32, Option<u8>),
    Release(u32),
    Position(u32),
    Media(u32),
    Other(u32),
}

// The whole desk.
#[derive(Clone, Copy)]
pub struct Desk {
    pub core: Core,
    pub hall: Hall,
    pub names: Names,
}

// What anything that happens to a desk comes to: its answer, the whole desk that it leaves, its report. As in a step, a refusal has all three.
#[derive(Clone, Copy)]
pub struct Outcome {
    pub desk: Desk,
    pub report: Report,
    pub answer: Answer,
}

#[tactic(auto, unfolding(crate::specs::Events::fresh))]
pub fn fresh_core() -> Core
    ensures { result ≡ fresh }
{
    Core {
        phase: Phase::Stopped,
        line: line::nobody_waits(),
        sequence: 0,
        c7: 0,
        c20: 0,
    }
}

#[tactic(auto, unfolding(crate::specs::Events::starts))]
fn start_call(core: Core, hall: Hall) -> Step
    ensures { result ≡ starts core hall core.phase }
{
    match core.phase {
        Phase::Stopped => giving::enter_idle(core, hall),
        _ => steps::answer(core, Err(Refusal::NotExpected)),
    }
}

// Who speaks: a seat, or why nobody is heard.
#[tactic(auto, using(words::specs::Choice::if_yes, words::specs::Choice::if_no), unfolding(crate::specs::Events::caller_of))]
fn caller_of(core: Core, hall: Hall, ssrc: u32) -> Result<u8, Refusal>
    ensures { result ≡ caller_of core hall ssrc }
{
    if timers::is_stopped(core.phase) {
        return Err(Refusal::CallStopped);
    }
    hall::seat_of(hall, ssrc).ok_or(Refusal::NoSuchSeat)
}

#[tactic(auto, unfolding(crate::specs::Events::struck_off))]
fn strike_off(core: Core, seat: u8) -> Step
    ensures { result ≡ struck_off core seat }
{
    let seats = hall::only_seat(seat);
    let shorter = steps::with_line(core, line::struck(core.line, seats));
    let step = steps::answer(shorter, Ok(()));
    steps::mark_struck(step, seats)
}

// Who holds the floor or waits gives that up; who does neither has this answer.
#[tactic(auto, using(words::specs::Choice::if_yes, words::specs::Choice::if_no))]
fn give_way(core: Core, hall: Hall, seat: u8, otherwise: Answer) -> Step
    ensures { result ≡ (when holds core.phase seat then floor_ends core hall seat
        else when waits core seat then struck_off core seat
        else answered core otherwise) }
{
    if giving::is_holder(core.phase, seat) {
        return giving::end_floor(core, hall, seat);
    }
    if request::is_waiting(core, seat) {
        strike_off(core, seat)
    } else {
        steps::answer(core, otherwise)
    }
}

#[tactic(auto, unfolding(crate::specs::Events::asks_place))]
fn tell_place(core: Core, seat: u8) -> Step
    ensures { result ≡ asks_place core seat }
{
    let info = request::info_of(core.line, seat);
    steps::say(core, info, hall::only_seat(seat))
}

#[tactic(auto, using(words::specs::Choice::if_yes, words::specs::Choice::if_no), unfolding(crate::specs::Events::talks))]
fn talk(core: Core, seat: u8) -> Step
    ensures { result ≡ talks core seat core.phase }
{
    match core.phase {
        Phase::Taken(e, _) if e.seat == seat => {
            let talking = steps::in_phase(core, Phase::Taken(e, AlsoRuns::T2));
            steps::answer(talking, Ok(()))
        }
        Phase::Revoking(e, _) if e.seat == seat => steps::answer(core, Ok(())),
        _ => steps::answer(core, Err(Refusal::NotExpected)),
    }
}

// A seat that is heard does what its rule says; who is not has the refusal. A rule is handed core and hall: were they captured, every step
// would copy both first, a start too, that hears nobody.
fn heard<F: FnOnce(Core, Hall, u8) -> Step>(core: Core, hall: Hall, ssrc: u32, rule: F) -> Step
    requires { F.IsAlwaysCallable rule }
    ensures sits { (s : _) → caller_of core hall ssrc ≡ Ok s → F.post rule core hall s result }
    ensures refused { (r : _) → caller_of core hall ssrc ≡ Err r → result ≡ refused core r }
{
    match caller_of(core, hall, ssrc) {
        Ok(seat) => rule(core, hall, seat),
        Err(refusal) => steps::answer(core, Err(refusal)),
    }
}

// One step of the desk: every event but join and leave.
#[tactic(auto, unfolding(crate::specs::Events::step, crate::specs::Events::releases))]
pub fn make_step(core: Core, hall: Hall, event: Event) -> Step
    ensures { result ≡ step core hall event }
{
    match event {
        Event::Start => start_call(core, hall),
        Event::Stop => firing::stop_call(core),
        Event::Expiry(t) => firing::expire(core, hall, t),
        Event::Request(x, wish) => heard(core, hall, x, |core, hall, seat| {
            let priority = hall::effective_priority(hall, seat, wish);
            request::request_floor(core, hall, seat, priority)
        }),
        Event::Release(x) => heard(core, hall, x, |core, hall, seat| {
            give_way(core, hall, seat, Err(Refusal::NotExpected))
        }),
        Event::Position(x) => heard(core, hall, x, |core, _, seat| tell_place(core, seat)),
        Event::Media(x) => heard(core, hall, x, |core, _, seat| talk(core, seat)),
        Event::Other(x) => heard(core, hall, x, |core, _, _| {
            steps::answer(core, Err(Refusal::NotExpected))
        }),
    }
}

fn outcome_of(step: Step, hall: Hall, names: Names) -> Outcome
    ensures { result ≡ outcome step hall names }
{
    Outcome {
        desk: Desk {
            core: step.core,
            hall,
            names,
        },
        report: step.report,
        answer: step.answer,
    }
}

// Leave: what is sent goes to those who stay.
#[tactic(auto, using(words::specs::Choice::if_yes, words::specs::Choice::if_no), unfolding(crate::specs::Events::leave, crate::specs::Events::leave_floor))]
pub fn leave_call(core: Core, hall: Hall, names: Names, seat: u8) -> Outcome
    ensures { result ≡ leave (whole_desk core hall names) seat }
{
    if !hall::is_present(hall, seat) {
        let step = steps::answer(core, Err(Refusal::NoSuchSeat));
        return outcome_of(step, hall, names);
    }
    let rest = hall::vacate(hall, seat);
    let step = give_way(core, rest, seat, Ok(()));
    let named = identities::with_name(names, seat, identities::NO_NAME);
    outcome_of(step, rest, named)
}
