// Whose button is the machine answering? Runs 5,000 events out of a stored seed through the proved steps, counts the marks as demand 3 says
// (crate `demands`, specs/Demands.antt, statements 1 and 4), and prints both sides for each seat.
#![tactic(auto)]

ghost use Rattle.std.specs.Prelude.{◌<◌};

use events::{Desk, Event, Outcome};
use hall::Flags;
use printing::{Page, Printout};
use std::{array, io};
use steps::{Core, Given, Marks};

// How often a seat was marked: as placed, as given the floor out of the line and at once, as struck off, as ended.
#[derive(Clone, Copy)]
struct Account {
    placed: u32,
    out_of_line: u32,
    at_once: u32,
    struck: u32,
    ended: u32,
}

const EMPTY: Account = Account {
    placed: 0,
    out_of_line: 0,
    at_once: 0,
    struck: 0,
    ended: 0,
};

// One more, where it is so.
fn counted(n: u32, is_so: bool) -> u32 {
    n.saturating_add(u32::from(is_so))
}

impl Account {
    // One report more: what its marks say of this seat.
    fn after(&self, seat: u8, marks: &Marks) -> Account {
        let out_of_line = matches!(marks.given, Given::OutOfLine(s) if s == seat);
        let at_once = matches!(marks.given, Given::AtOnce(s) if s == seat);
        Account {
            placed: counted(self.placed, marks.placed == Some(seat)),
            out_of_line: counted(self.out_of_line, out_of_line),
            at_once: counted(self.at_once, at_once),
            struck: counted(
                self.struck,
                marks.struck.get(usize::from(seat)) == Some(&true),
            ),
            ended: counted(self.ended, marks.ended == Some(seat)),
        }
    }
}

// A join has no mark.
fn joins(desk: Desk, who: u8, how: u8) -> Outcome
    requires { who < 16 }
{
    let flags = Flags {
        queueing: how % 4 > 0,
        receive_only: how % 16 == 15,
    };
    let newcomer = hall::newcomer_of(10 + u32::from(who), 255, flags);
    let identity = [b's', b'e', b'a', b't', b'a' + who];
    let joined = joining::join_call(desk.hall, desk.names, &identity, newcomer);
    Outcome {
        desk: Desk {
            core: desk.core,
            hall: joined.hall,
            names: joined.names,
        },
        report: steps::answer(desk.core, Ok(())).report,
        answer: joined.answer,
    }
}

// The timers' numbers, so that some fire more often than others.
const TIMERS: [u32; 26] = [
    1, 1, 1, 1, 1, 1, 2, 2, 2, 2, 3, 3, 3, 3, 4, 7, 7, 7, 8, 8, 8, 20, 20, 20, 20, 20,
];

// What three numbers pick: what happens, one thing more often than another, to which seat, and how.
fn happen(desk: Desk, what: u8, who: u8, how: u8) -> Outcome
    requires { who < 16 }
{
    let ssrc = 10 + u32::from(who);
    let event = match what {
        0..=13 => Event::Request(ssrc, Some(how)),
        14..=16 => Event::Release(ssrc),
        17 => Event::Position(ssrc),
        18 => Event::Other(ssrc),
        19..=20 => Event::Media(ssrc),
        21..=25 => Event::Expiry(timers::timer_named(TIMERS[usize::from(how / 10)])),
        26 => return events::leave_call(desk.core, desk.hall, desk.names, who),
        27..=29 => return joins(desk, who, how),
        _ if how < 32 => Event::Stop,
        _ => Event::Start,
    };
    let step = events::make_step(desk.core, desk.hall, event);
    Outcome {
        desk: Desk {
            core: step.core,
            ..desk
        },
        report: step.report,
        answer: step.answer,
    }
}

// The night: the desk, and what was counted for each seat up to now.
#[derive(Clone, Copy)]
struct Night {
    desk: Desk,
    accounts: [Account; 16],
}

fn fresh() -> Night {
    Night {
        desk: Desk {
            core: events::fresh_core(),
            hall: hall::empty_hall(hall::settings_of(1, 200, 6, 2, 2, 30, 0)),
            names: identities::no_names(),
        },
        accounts: [EMPTY; 16],
    }
}

fn next_turn(night: Night, seed: u64) -> Night {
    let what = (seed / 65536 % 32) as u8;
    let who = (seed / 4194304 % 16) as u8;
    let outcome = happen(night.desk, what, who, (seed / 256 % 256) as u8);
    let marks = outcome.report.marks;
    Night {
        desk: outcome.desk,
        accounts: array::from_fn(|seat| night.accounts[seat].after(seat as u8, &marks)),
    }
}

// The numbers that the events come from: each out of the one before it.
fn run(seed: u64) -> Night {
    let mut night = fresh();
    let mut s = seed;
    for _ in 0..5000 {
        s = (s % 2147483648 * 1103515245 + 12345) % 2147483648;
        night = next_turn(night, s);
    }
    night
}

// A seat's account: both sides, with what they are made of.
fn show(page: &mut Printout, seat: u8, account: Account, core: Core) {
    let Account {
        placed,
        out_of_line,
        at_once,
        struck,
        ended,
    } = account;
    let waits = u32::from(request::is_waiting(core, seat));
    let holds = u32::from(giving::is_holder(core.phase, seat));
    writeln!(page, "seat {seat}");
    writeln!(
        page,
        "  placed {placed} = {out_of_line} given out of the line + {struck} struck off + {waits} waiting"
    );
    compare(page, [placed, 0], [out_of_line, struck, waits]);
    writeln!(
        page,
        "  given {out_of_line} out of the line + {at_once} at once = {ended} ended + {holds} holding"
    );
    compare(page, [out_of_line, at_once], [ended, holds, 0]);
}

fn compare(page: &mut Printout, left: [u32; 2], right: [u32; 3]) {
    let [a, b] = left.map(u64::from);
    let [c, d, e] = right.map(u64::from);
    if a + b != c + d + e {
        writeln!(page, "  THE SIDES DIFFER");
    }
}

fn main(rt: HostRuntime) -> io::Result<()> {
    let mut page = Page::new(rt.stdout());
    writeln!(
        page,
        "5,000 events out of seed 24388: what the marks say of each seat\n"
    );
    let night = run(24388);
    for (account, seat) in night.accounts.iter().zip(0..) {
        show(&mut page, seat, *account, night.desk.core);
    }
    page.close()
}
