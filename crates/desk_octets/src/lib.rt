// The places of the desk in lent octets (docs/FORMS.md has the table), as code names them; specs/Places.antt has the same names. What
// stands there is in specs/Form.antt; crates desk_reading, core_writing, desk_writing and table_test read, write and test it.
#![tactic(auto)]

ghost use Rattle.std.specs.Prelude.{◌≡◌, ℕ, ◌<◌, Bool};
ghost use Rattle.words.specs.Below.{all_below};

pub const DESK_SIZE: usize = 1200;

pub const PHASE_PLACE: usize = 4;

pub const TIMERS_PLACE: usize = 5;

pub const HOLDER_PLACE: usize = 6;

pub const HELD_AT_PLACE: usize = 7;

pub const CAUSE_PLACE: usize = 8;

pub const SEQUENCE_PLACE: usize = 10;

pub const C7_PLACE: usize = 12;

pub const C20_PLACE: usize = 13;

pub const COUNT_PLACE: usize = 14;

pub const COUNT_ZERO: usize = 15;

pub const WAITING_COLUMN: usize = 16;

pub const WAITING_ZERO: usize = 31;

pub const PRIORITIES_COLUMN: usize = 32;

pub const PRIORITIES_ZERO: usize = 47;

pub const TAKEN_COLUMN: usize = 48;

pub const SSRCS_COLUMN: usize = 64;

pub const HIGHEST_COLUMN: usize = 128;

pub const FLAGS_COLUMN: usize = 144;

pub const FLAGS_ZEROS: usize = 160;

pub const SETTINGS_START: usize = 176;

pub const LIMIT_PLACE: usize = SETTINGS_START + seat_octets::LIMIT_WITHIN;

pub const C7_LIMIT_PLACE: usize = SETTINGS_START + seat_octets::C7_WITHIN;

pub const C20_LIMIT_PLACE: usize = SETTINGS_START + seat_octets::C20_WITHIN;

pub const SETTINGS_END: usize = SETTINGS_START + seat_octets::SETTINGS_SIZE;

pub const LENGTHS_COLUMN: usize = 192;

pub const IDENTITIES_COLUMN: usize = 208;

// Whether a test passes at every number below n. It has no early exit, so that a test of octets is made of many of them at once.
pub fn all_below<F: Fn(usize) -> bool>(n: usize, test: F) -> bool
    requires { (i : ℕ) → i < n → F.pre test i }
    ensures { (f : ℕ → Bool) → ((i : ℕ) (b : Bool) → i < n → F.post test i b → b ≡ f i)
        → result ≡ all_below f n }
{
    let mut ok = true;
    for i in 0..n {
        let here = test(i);
        ok = here & ok;
    }
    ok
}
