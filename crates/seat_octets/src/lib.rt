// A seat's flags and the settings of a desk as octets, the same on a sheet and among a desk's octets. specs/Layout.antt has them as a
// table.
#![tactic(auto)]

ghost use Rattle.std.specs.Prelude.{◌≡◌, ◌+◌, ◌≤◌, length};
ghost use Rattle.octets.specs.Octets.{over};
ghost use Rattle.seat_octets.specs.Layout.{flags_octet, flags_of, settings_size, settings_octets, settings_in, unused_zero, zeros_fit};

use hall::{Flags, Settings};

// The greatest octet that says flags.
pub const FLAGS_TOP: u8 = 3;

// How many octets the settings have, and where things stand among them, behind the SSRC.
pub const SETTINGS_SIZE: usize = 12;

pub const LEVEL_WITHIN: usize = 4;

pub const LIMIT_WITHIN: usize = 5;

pub const C7_WITHIN: usize = 6;

pub const C20_WITHIN: usize = 7;

pub const DURATION_WITHIN: usize = 8;

pub const NORMAL_WITHIN: usize = 10;

pub const UNUSED_WITHIN: usize = 11;

// Two functions, and no From either way: neither the flags nor the octet is a type of this crate.

#[tactic(auto, unfolding(crate::proofs::Bits::octet_of_flags))]
pub fn flags_octet(flags: Flags) -> u8
    ensures { result ≡ flags_octet flags }
{
    u8::from(flags.queueing) + 2 * u8::from(flags.receive_only)
}

#[tactic(auto, unfolding(crate::specs::Layout::flags_of))]
pub fn flags_of(octet: u8) -> Flags
    ensures { result ≡ flags_of octet }
{
    Flags {
        queueing: octet % 2 == 1,
        receive_only: octet / 2 % 2 == 1,
    }
}

#[tactic(auto, using(octets::proofs::Over::over_more), unfolding(crate::proofs::SettingsLaws::laid))]
pub fn put_settings(room: &mut [u8], at: usize, settings: Settings)
    requires { at + settings_size ≤ length room.old }
    ensures { room.new ≡ over room.old at (settings_octets settings) }
{
    octets::put32(room, at, settings.ssrc);
    octets::put_pair(room, at + LEVEL_WITHIN, settings.level, settings.limit);
    octets::put_pair(room, at + C7_WITHIN, settings.c7, settings.c20);
    octets::put16(room, at + DURATION_WITHIN, settings.duration);
    octets::put_pair(room, at + NORMAL_WITHIN, settings.normal, 0);
}

#[tactic(auto, unfolding(crate::specs::Layout::settings_in))]
pub fn settings_in(s: &[u8], at: usize) -> Settings
    requires { at + settings_size ≤ length s.now }
    ensures { result ≡ settings_in s.now at }
{
    Settings {
        ssrc: octets::number32(s, at),
        level: s[at + LEVEL_WITHIN],
        limit: s[at + LIMIT_WITHIN],
        c7: s[at + C7_WITHIN],
        c20: s[at + C20_WITHIN],
        duration: octets::number16(s, at + DURATION_WITHIN),
        normal: s[at + NORMAL_WITHIN],
    }
}

// Whether the octet that no setting has is zero.
#[tactic(auto, unfolding(crate::specs::Layout::unused_zero))]
pub fn unused_zero(s: &[u8], at: usize) -> bool
    requires { at + settings_size ≤ length s.now }
    ensures { result ≡ unused_zero s.now at }
{
    s[at + UNUSED_WITHIN] == 0
}

// Whether the two zeros of a sheet are zero.
#[tactic(auto, unfolding(crate::specs::Layout::zeros_fit))]
pub fn zeros_fit(s: &[u8], at: usize) -> bool
    requires { at + settings_size ≤ length s.now }
    ensures { result ≡ zeros_fit s.now at }
{
    octets::number16(s, at + NORMAL_WITHIN) == 0
}
