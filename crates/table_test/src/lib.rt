// Whether octets hold what the table of docs/FORMS.md says (the definitions are those of crate desk_octets). A test of a column has no
// early exit, so that it runs on many octets at once.
#![tactic(auto)]

ghost use Rattle.std.specs.Prelude.{◌≡◌, ◌+◌, ◌≤◌, length};
ghost use Rattle.desk_octets.specs.Form.{up_to, phase_fits, letters_fit, core_fits, hall_fits, canonical};
ghost use Rattle.desk_octets.specs.Places.{desk_size};

use desk_octets::{
    CAUSE_PLACE, COUNT_PLACE, COUNT_ZERO, DESK_SIZE, FLAGS_COLUMN, FLAGS_ZEROS, HELD_AT_PLACE,
    HOLDER_PLACE, LENGTHS_COLUMN, PHASE_PLACE, PRIORITIES_ZERO, SETTINGS_END, SETTINGS_START,
    TAKEN_COLUMN, TIMERS_PLACE, WAITING_ZERO,
};
use line::Entry;

#[tactic(auto, unfolding(desk_octets::specs::Form::up_to))]
pub fn up_to(s: &[u8], top: u8, at: usize, count: usize) -> bool
    requires { at + count ≤ length s.now }
    ensures { result ≡ up_to top s.now at count }
{
    desk_octets::all_below(count, |i| s[at + i] <= top)
}

#[tactic(auto, unfolding(desk_octets::specs::Form::phase_fits), using(words::specs::Choice::if_yes, words::specs::Choice::if_no))]
fn phase_fits(kind: u8, timers: u8, holder: Entry, cause: u16) -> bool
    ensures { result ≡ phase_fits kind timers holder cause }
{
    match kind {
        0 => (timers == 0) & (holder.seat == 0) & (holder.priority == 0) & (cause == 0),
        1 => (timers <= 1) & (holder.seat == 0) & (holder.priority == 0) & (cause == 0),
        2 => (timers <= 2) & (cause == 0),
        3 => timers == 0,
        _ => false,
    }
}

#[tactic(auto, unfolding(desk_octets::specs::Form::letters_fit))]
fn letters_fit(s: &[u8]) -> bool
    requires { desk_size ≤ length s.now }
    ensures { result ≡ letters_fit s.now }
{
    (s[0] == 70) & (s[1] == 68) & (s[2] == 1) & (s[3] == 0)
}

#[tactic(auto, unfolding(desk_octets::specs::Form::core_fits))]
fn core_fits(s: &[u8]) -> bool
    requires { desk_size ≤ length s.now }
    ensures { result ≡ core_fits s.now }
{
    let holder = Entry {
        seat: s[HOLDER_PLACE],
        priority: s[HELD_AT_PLACE],
    };
    let cause = octets::number16(s, CAUSE_PLACE);
    let phase = phase_fits(s[PHASE_PLACE], s[TIMERS_PLACE], holder, cause);
    phase
        & (s[COUNT_PLACE] <= 15)
        & (s[COUNT_ZERO] == 0)
        & (s[WAITING_ZERO] == 0)
        & (s[PRIORITIES_ZERO] == 0)
}

#[tactic(auto, unfolding(desk_octets::specs::Form::hall_fits))]
fn hall_fits(s: &[u8]) -> bool
    requires { desk_size ≤ length s.now }
    ensures { result ≡ hall_fits s.now }
{
    let present = up_to(s, 1, TAKEN_COLUMN, 16);
    let flags = up_to(s, seat_octets::FLAGS_TOP, FLAGS_COLUMN, 16);
    let behind_flags = up_to(s, 0, FLAGS_ZEROS, 16);
    let unused = seat_octets::unused_zero(s, SETTINGS_START);
    let behind_settings = up_to(s, 0, SETTINGS_END, 4);
    present & flags & behind_flags & unused & behind_settings
}

#[tactic(auto, unfolding(desk_octets::specs::Form::canonical, desk_octets::specs::Form::names_fit))]
pub fn is_canonical(s: &[u8]) -> bool
    ensures { result ≡ canonical s.now }
{
    if s.len() != DESK_SIZE {
        return false;
    }
    let letters = letters_fit(s);
    let core = core_fits(s);
    let hall = hall_fits(s);
    let names = up_to(s, 62, LENGTHS_COLUMN, 16);
    letters & core & hall & names
}
