// Which clocks a step of the desk starts anew, and which it stops. specs/Clocks.antt has the rule, for each timer.
#![tactic(auto)]

ghost use Rattle.std.specs.Prelude.{◌≡◌, Some};
ghost use Rattle.clocks.specs.Clocks.{runs_for_holder, is_started, starts_anew, stopped_timers};

use timers::{Running, Timer, is_running};

// The timers for which a test holds.
fn timers_with<F: Fn(Timer) -> bool>(test: F) -> Running
    requires { F.IsAlwaysCallable test }
    ensures t1 { F.post test Timer.T1 result.t1 }
    ensures t2 { F.post test Timer.T2 result.t2 }
    ensures t3 { F.post test Timer.T3 result.t3 }
    ensures t4 { F.post test Timer.T4 result.t4 }
    ensures t7 { F.post test Timer.T7 result.t7 }
    ensures t8 { F.post test Timer.T8 result.t8 }
    ensures t20 { F.post test Timer.T20 result.t20 }
{
    Running {
        t1: test(Timer::T1),
        t2: test(Timer::T2),
        t3: test(Timer::T3),
        t4: test(Timer::T4),
        t7: test(Timer::T7),
        t8: test(Timer::T8),
        t20: test(Timer::T20),
    }
}

fn runs_for_holder(timer: Timer) -> bool
    ensures { result ≡ runs_for_holder (Some timer) }
{
    matches!(timer, Timer::T1 | Timer::T20)
}

fn is_started(
    before: Running,
    after: Running,
    fired: Option<Timer>,
    given: bool,
    timer: Timer,
) -> bool
    ensures { result ≡ is_started before after fired given (Some timer) }
{
    let t = Some(timer);
    let again = (given && runs_for_holder(timer)) || fired == t;
    is_running(after, t) && (!is_running(before, t) || again)
}

// The clocks to start anew once a step is made: `fired` is the timer that fired, if one did.
#[tactic(auto, unfolding(crate::specs::Clocks::starts_anew))]
pub fn starts_anew(before: Running, after: Running, fired: Option<Timer>, given: bool) -> Running
    ensures { result ≡ starts_anew before after fired given }
{
    timers_with(|t| is_started(before, after, fired, given, t))
}

// The clocks to stop.
#[tactic(auto, unfolding(crate::specs::Clocks::stopped_timers))]
pub fn stopped(before: Running, after: Running) -> Running
    ensures { result ≡ stopped_timers before after }
{
    timers_with(|t| is_running(before, Some(t)) && !is_running(after, Some(t)))
}
