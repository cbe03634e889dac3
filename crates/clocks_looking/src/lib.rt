// Which clocks C programs start anew and stop after a step: crate clocks, between sets of timers as numbers. specs/ClockSets.antt has what
// each answers.
#![tactic(auto)]

ghost use Rattle.std.specs.Prelude.{◌≡◌, ◌<◌};
ghost use Rattle.clocks_looking.specs.ClockSets.{timer_set, running_in, starts_on, stops_on};

use message::Refusal;
use timers::Running;

// A set of timers as a number: bit 1 for T1, .., bit 20 for T20.
pub fn timer_set(t: Running) -> u32
    ensures value { result ≡ timer_set t }
    ensures upper_bound { result < 2147483648 }
{
    let first = u32::from(t.t1) * 2
        + u32::from(t.t2) * 4
        + u32::from(t.t3) * 8
        + u32::from(t.t4) * 16;
    first + u32::from(t.t7) * 128 + u32::from(t.t8) * 256 + u32::from(t.t20) * 1048576
}

// The set that a number says: bit 1 for T1, .., bit 20 for T20.
#[tactic(auto, unfolding(crate::specs::ClockSets::running_in))]
pub fn running_in(set: u32) -> Running
    ensures { result ≡ running_in set }
{
    let has = |weight: u32| set / weight % 2 == 1;
    Running {
        t1: has(2),
        t2: has(4),
        t3: has(8),
        t4: has(16),
        t7: has(128),
        t8: has(256),
        t20: has(1048576),
    }
}

// The clocks to start anew after the step that this is the report of.
pub fn starts_on(before: u32, after: u32, fired: u32, report: &[u8]) -> i32
    ensures { result ≡ starts_on before after fired report.now }
{
    if report.len() == report_octets::REPORT_SIZE && report[report_octets::HOW_PLACE] <= 2 {
        let given = report[report_octets::HOW_PLACE] != 0;
        let set = clocks::starts_anew(
            running_in(before),
            running_in(after),
            timers::timer_named(fired),
            given,
        );
        signed::found(timer_set(set))
    } else {
        signed::refused(Refusal::Unreadable)
    }
}

// The clocks to stop.
pub fn stops_on(before: u32, after: u32) -> i32
    ensures { result ≡ stops_on before after }
{
    let set = clocks::stopped(running_in(before), running_in(after));
    signed::found(timer_set(set))
}
