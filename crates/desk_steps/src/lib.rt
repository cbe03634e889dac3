// A step on the desk in lent octets: what it brought about is written unless it was refused or there is no room for its report.
// specs/Steps.antt has what each leaves.
#![tactic(auto)]

ghost use Rattle.std.specs.Prelude.{◌≡◌, ◌≤◌, length, true};
ghost use Rattle.std.specs.Fn.{FnOnceReturnsAtMut};
ghost use Rattle.hall.specs.Answers.{answer_number};
ghost use Rattle.report_octets.specs.Places.{report_size};
ghost use Rattle.report_octets.specs.Report.{octets_of_report};
ghost use Rattle.desk_octets.specs.Form.{core_at, hall_at};
ghost use Rattle.desk_test.specs.Lent.{formed};
ghost use Rattle.steps.specs.declared.Step.{Step};
ghost use Rattle.desk_steps.specs.Steps.{SteppedAt, NoneStepped, step_leaves, settles, outcome_on, step_on, event_on, seat_numbered};

use events::{Event, Outcome};
use hall::{Answer, Hall};
use message::Refusal;
use report_octets::REPORT_SIZE;
use steps::{Core, Report, Step};

// What a step brought about is written, the desk by `write`, unless it was refused or there is no room for its report.
fn settled<W: FnOnce(&mut [u8])>(
    desk: &mut [u8],
    report: &mut [u8],
    answer: Answer,
    said: Report,
    write: W,
) -> i32
    requires in_form { formed desk.old ≡ true }
    requires writes { (lent : _) → lent.now ≡ desk.now → W.pre write lent }
    ensures leaves { step_leaves result desk.new report.new ≡ settles desk.old report.old (answer_number answer) desk.new (octets_of_report said) }
    ensures written { answer_number answer ≡ 0 → report_size ≤ length report.old → FnOnceReturnsAtMut W.FnOnce write desk.old tt desk.new }
{
    // by its number, as `settles` of specs/ goes: a packet that was not read may have any
    let n = hall::number_of(answer);
    if n != 0 {
        return signed::refusal(n);
    }
    if report.len() < REPORT_SIZE {
        return signed::refused(Refusal::NoRoom);
    }
    write(desk);
    report_octets::put_report(report, said);
    0
}

// A step changed the core alone.
pub fn settle(desk: &mut [u8], report: &mut [u8], step: Step) -> i32
    requires { formed desk.old ≡ true }
    ensures { step_leaves result desk.new report.new ≡ step_on desk.old report.old step }
{
    settled(
        desk,
        report,
        step.answer,
        step.report,
        |desk| core_writing::put_core(desk, step.core),
    )
}

// An outcome changed the seats too.
pub fn settle_outcome(desk: &mut [u8], report: &mut [u8], outcome: Outcome) -> i32
    requires { formed desk.old ≡ true }
    ensures { step_leaves result desk.new report.new ≡ outcome_on desk.old report.old outcome }
{
    let after = outcome.desk;
    settled(
        desk,
        report,
        outcome.answer,
        outcome.report,
        |desk| desk_writing::put_desk(desk, after.core, after.hall, after.names),
    )
}

// The step that is made of a desk, once the octets are known to be one's.
pub fn step_with<S: FnOnce(Core, Hall) -> Step>(desk: &mut [u8], report: &mut [u8], step: S) -> i32
    requires { formed desk.now ≡ true → S.pre step (core_at desk.now) (hall_at desk.now) }
    ensures made { SteppedAt desk.old report.old (S.post step (core_at desk.old) (hall_at desk.old)) result desk.new report.new }
    ensures no_desk { NoneStepped desk.old report.old result desk.new report.new }
{
    if !desk_test::is_desk(desk) {
        return signed::refusal(signed::NO_DESK);
    }
    let made = step(desk_reading::core_at(desk), desk_reading::hall_at(desk));
    settle(desk, report, made)
}

pub fn event_on(desk: &mut [u8], report: &mut [u8], event: Event) -> i32
    ensures { step_leaves result desk.new report.new ≡ event_on desk.old report.old event }
{
    step_with(
        desk,
        report,
        |core, hall| events::make_step(core, hall, event),
    )
}

// A number that no seat has stands for every such number.
#[tactic(auto, using(words::specs::Choice::if_yes, words::specs::Choice::if_no), unfolding(crate::specs::Steps::seat_numbered))]
pub fn seat_numbered(seat: u32) -> u8
    ensures { result ≡ seat_numbered seat }
{
    if seat < 16 { seat as u8 } else { 16 }
}
