// Loads a sheet (document 01, "The sheet", 41 to 45): a fresh desk with its settings and seats, or the first refusal that applies.
#![tactic(auto)]

ghost use Rattle.std.specs.Prelude.{◌≡◌, ◌+◌, ◌≤◌, length};
ghost use Rattle.hall.specs.Seats.{empty_hall};
ghost use Rattle.identities.specs.Identity.{no_names};
ghost use Rattle.sheet.specs.Layout.{seat_head, tail_size};
ghost use Rattle.loading.specs.Loading.{who_is, laid_out, read_seats, seat_all, settled, Loads};
ghost use Rattle.loading.specs.Walk.{turn_at};

use events::Desk;
use hall::{Hall, Newcomer, Settings};
use identities::Names;
use sheet::Refusal;

// The seats of a sheet read and seated so far: where the next begins, and the hall and the names then.
#[derive(Clone, Copy)]
pub struct Turn {
    pub next: usize,
    pub hall: Hall,
    pub names: Names,
}

#[tactic(auto, unfolding(crate::specs::Loading::who_is))]
fn who_is(s: &[u8], at: usize) -> Newcomer
    requires { at + seat_head ≤ length s.now }
    ensures { result ≡ who_is s.now at }
{
    Newcomer {
        ssrc: octets::number32(s, at + sheet::SSRC_WITHIN),
        highest: s[at + sheet::HIGHEST_WITHIN],
        flags: seat_octets::flags_of(s[at]),
    }
}

// 45, the layout: whether the seat that begins at `at` has no flag but the two, and ends before the settings. Its first octets, up to the
// identity, can be looked at only where they lie before the settings.
#[tactic(auto, using(std::proofs::lemmas::Bool::Decides::nat_tests), unfolding(crate::specs::Loading::laid_out))]
fn laid_out(s: &[u8], at: usize) -> bool
    requires { tail_size ≤ length s.now }
    ensures { result ≡ laid_out s.now at }
{
    let end = s.len() - sheet::TAIL_SIZE;
    at <= end
        && sheet::SEAT_HEAD <= end - at
        && s[at + sheet::LENGTH_WITHIN] as usize <= end - at - sheet::SEAT_HEAD
        && s[at] <= seat_octets::FLAGS_TOP
}

// Reads the seat that begins where the last one ended, and has it join.
#[tactic(auto, using(crate::proofs::Loads::laid_fits), unfolding(crate::proofs::Loads::turning))]
fn take_next(s: &[u8], turn: Turn) -> Option<Turn>
    requires { tail_size ≤ length s.now }
    ensures { result ≡ turn_at s.now turn }
{
    let at = turn.next;
    if !laid_out(s, at) {
        return None;
    }
    let from = at + sheet::SEAT_HEAD;
    let next = from + s[at + sheet::LENGTH_WITHIN] as usize;
    let joined = joining::join_call(turn.hall, turn.names, &s[from..next], who_is(s, at));
    joined.seat?;
    Some(Turn {
        next,
        hall: joined.hall,
        names: joined.names,
    })
}

// 45: all seats, in sheet order, into an empty hall.
fn take_seats(s: &[u8], settings: Settings, count: u8) -> Result<Desk, Refusal>
    requires { tail_size ≤ length s.now }
    ensures { result ≡ seat_all (empty_hall settings) no_names (read_seats count s.now 0) }
{
    let mut turn = Turn {
        next: 0,
        hall: hall::empty_hall(settings),
        names: identities::no_names(),
    };
    for _seat in 0..count {
        turn = take_next(s, turn).ok_or(Refusal::SeatAtFault)?;
    }
    if turn.next != s.len() - sheet::TAIL_SIZE {
        return Err(Refusal::SeatAtFault);
    }
    Ok(Desk {
        core: events::fresh_core(),
        hall: turn.hall,
        names: turn.names,
    })
}

// 44 and 45, once the trailer is in order.
#[tactic(auto, unfolding(crate::proofs::Loads::settling))]
fn settle(s: &[u8]) -> Result<Desk, Refusal>
    requires { tail_size ≤ length s.now }
    ensures { result ≡ settled s.now }
{
    let at = s.len() - sheet::TAIL_SIZE;
    let settings = seat_octets::settings_in(s, at);
    if !hall::in_range(settings) || !seat_octets::zeros_fit(s, at) {
        return Err(Refusal::OutsideRange);
    }
    take_seats(s, settings, sheet::seat_count(s))
}

// Loads a sheet: a fresh desk with its settings and its seats, numbered from 0 in sheet order, or the first refusal that applies.
#[tactic(auto, using(sheet::proofs::Frames::framed), unfolding(crate::specs::Loading::loading))]
pub fn load(s: &[u8]) -> Result<Desk, Refusal>
    ensures { Loads s.now result }
{
    sheet::judge_trailer(s)?;
    settle(s)
}
