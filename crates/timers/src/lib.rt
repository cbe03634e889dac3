// The timers of a call: their numbers, and which run (document 01, "The desk"). What happens when one fires stands in `firing`.
#![tactic(auto)]

ghost use Rattle.std.specs.Prelude.{◌≡◌};
ghost use Rattle.timers.specs.Timers.{timer_named, running, runs, is_stopped};

use steps::{AlsoRuns, Phase};

#[derive(Clone, Copy, PartialEq, Eq)]
pub enum Timer {
    T1,
    T2,
    T3,
    T4,
    T7,
    T8,
    T20,
}

#[derive(Clone, Copy, PartialEq, Eq)]
pub struct Running {
    pub t1: bool,
    pub t2: bool,
    pub t3: bool,
    pub t4: bool,
    pub t7: bool,
    pub t8: bool,
    pub t20: bool,
}

const NONE_RUNNING: Running = Running {
    t1: false,
    t2: false,
    t3: false,
    t4: false,
    t7: false,
    t8: false,
    t20: false,
};

// The timer that a number names, if one has it. An Option and no TryFrom: what names no timer is no error, but fires like any other and is
// refused as one that does not run.
#[tactic(auto, using(words::specs::Choice::if_yes, words::specs::Choice::if_no), unfolding(crate::specs::Timers::timer_named))]
pub fn timer_named(n: u32) -> Option<Timer>
    ensures { result ≡ timer_named n }
{
    match n {
        1 => Some(Timer::T1),
        2 => Some(Timer::T2),
        3 => Some(Timer::T3),
        4 => Some(Timer::T4),
        7 => Some(Timer::T7),
        8 => Some(Timer::T8),
        20 => Some(Timer::T20),
        _ => None,
    }
}

pub fn running_timers(phase: Phase) -> Running
    ensures { result ≡ running phase }
{
    match phase {
        Phase::Stopped => NONE_RUNNING,
        Phase::Idle(t7) => Running {
            t4: true,
            t7,
            ..NONE_RUNNING
        },
        Phase::Taken(_, beside) => Running {
            t1: true,
            t2: matches!(beside, AlsoRuns::T2),
            t20: matches!(beside, AlsoRuns::T20),
            ..NONE_RUNNING
        },
        Phase::Revoking(_, _) => Running {
            t1: true,
            t3: true,
            t8: true,
            ..NONE_RUNNING
        },
    }
}

// Whether this timer runs. What a number names that no timer has never does.
pub fn is_running(running: Running, timer: Option<Timer>) -> bool
    ensures { result ≡ runs running timer }
{
    match timer {
        Some(Timer::T1) => running.t1,
        Some(Timer::T2) => running.t2,
        Some(Timer::T3) => running.t3,
        Some(Timer::T4) => running.t4,
        Some(Timer::T7) => running.t7,
        Some(Timer::T8) => running.t8,
        Some(Timer::T20) => running.t20,
        None => false,
    }
}

pub fn is_stopped(phase: Phase) -> bool
    ensures { result ≡ is_stopped phase }
{
    matches!(phase, Phase::Stopped)
}
