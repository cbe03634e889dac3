// The seats of a desk judged in its octets, with no identity decoded: specs/Seated.antt has the test, a definition for each function here;
// proofs/Seated.antt has that it is the test of the seats that the octets stand for.
#![tactic(auto)]

ghost use Rattle.std.specs.Prelude.{◌≡◌, true, ◌+◌, ◌≤◌, ◌<◌, length};
ghost use Rattle.octets.specs.Octets.{nth_octet};
ghost use Rattle.desk_octets.specs.Form.{hall_at, names_at, hall_fits, names_fit};
ghost use Rattle.seats_test.specs.Seats.{seats_sound};
ghost use Rattle.seats_test.specs.Seated.{ssrc_in_octets, has_ssrc_of, has_name_of, ssrc_first, name_first, zeros_behind, taken_fits, free_fits, seat_fits};
ghost use Rattle.desk_octets.specs.Places.{lengths_column, desk_size};

use desk_octets::{
    FLAGS_COLUMN, HIGHEST_COLUMN, IDENTITIES_COLUMN, LENGTHS_COLUMN, SETTINGS_START, SSRCS_COLUMN,
    TAKEN_COLUMN,
};

// A seat among octets whose seats hold what the table says, and its SSRC.
#[derive(Clone, Copy)]
struct Seat<'a> {
    octets: &'a [u8],
    at: usize,
    ssrc: u32,
    ghost whole: { desk_size ≤ length octets.now },
    ghost within: { at < 16 },
    ghost lengths: { nth_octet octets.now (lengths_column + at) ≤ 62 },
    ghost own: { ssrc ≡ ssrc_in_octets octets.now at },
}

impl Seat<'_> {
    #[tactic(auto, unfolding(crate::specs::Seated::zeros_behind))]
    fn behind_is_zero(&self) -> bool
        ensures { result ≡ zeros_behind self.now.octets.now self.now.at }
    {
        let start = IDENTITIES_COLUMN + 62 * self.at;
        let len = octets::wide(self.octets[LENGTHS_COLUMN + self.at]);
        if len <= 46 {
            identity_octets::zero_from(self.octets, start, len)
        } else {
            table_test::up_to(self.octets, 0, start + len, 62 - len)
        }
    }

    // The seat against those before it.

    #[tactic(auto, unfolding(crate::specs::Seated::has_ssrc_of))]
    fn has_ssrc_too(&self, other: usize) -> bool
        requires { other < 16 }
        ensures { result ≡ has_ssrc_of self.now.octets.now self.now.ssrc other }
    {
        let taken = self.octets[TAKEN_COLUMN + other] == 1;
        let same = octets::number32(self.octets, SSRCS_COLUMN + 4 * other) == self.ssrc;
        taken & same
    }

    #[tactic(auto, unfolding(crate::specs::Seated::ssrc_first))]
    fn ssrc_is_first(&self) -> bool
        ensures { result ≡ ssrc_first self.now.octets.now self.now.at }
    {
        desk_octets::all_below(self.at, |other| !self.has_ssrc_too(other))
    }

    #[tactic(auto, unfolding(crate::specs::Seated::has_name_of))]
    fn has_name_too(&self, other: usize) -> bool
        requires { other < 16 }
        ensures { result ≡ has_name_of self.now.octets.now self.now.at other }
    {
        let taken = self.octets[TAKEN_COLUMN + other] == 1;
        let as_long = self.octets[LENGTHS_COLUMN + other] == self.octets[LENGTHS_COLUMN + self.at];
        if taken & as_long {
            identity_octets::same_name(
                self.octets,
                IDENTITIES_COLUMN + 62 * other,
                IDENTITIES_COLUMN + 62 * self.at,
            )
        } else {
            false
        }
    }

    #[tactic(auto, unfolding(crate::specs::Seated::name_first))]
    fn name_is_first(&self) -> bool
        ensures { result ≡ name_first self.now.octets.now self.now.at }
    {
        desk_octets::all_below(self.at, |other| !self.has_name_too(other))
    }

    #[tactic(auto, unfolding(crate::specs::Seated::taken_fits))]
    fn taken_fits(&self) -> bool
        ensures { result ≡ taken_fits self.now.octets.now self.now.at }
    {
        let own = self.ssrc == octets::number32(self.octets, SETTINGS_START);
        let by_ssrc = self.ssrc_is_first();
        let named = 1 <= self.octets[LENGTHS_COLUMN + self.at];
        let by_name = self.name_is_first();
        !own & by_ssrc & named & by_name
    }

    #[tactic(auto, unfolding(crate::specs::Seated::free_fits))]
    fn free_fits(&self) -> bool
        ensures { result ≡ free_fits self.now.octets.now self.now.at }
    {
        let no_ssrc = self.ssrc == 0;
        let no_priority = self.octets[HIGHEST_COLUMN + self.at] == 0;
        let no_flags = self.octets[FLAGS_COLUMN + self.at] == 0;
        let no_name = self.octets[LENGTHS_COLUMN + self.at] == 0;
        no_ssrc & no_priority & no_flags & no_name
    }

    #[tactic(auto, using(crate::proofs::Laws::taken_whole, crate::proofs::Laws::not_taken_whole))]
    fn fits(&self) -> bool
        ensures { result ≡ seat_fits self.now.octets.now self.now.at }
    {
        if self.octets[TAKEN_COLUMN + self.at] == 1 {
            self.behind_is_zero() & self.taken_fits()
        } else {
            let start = IDENTITIES_COLUMN + 62 * self.at;
            identity_octets::none_at(self.octets, start) & self.free_fits()
        }
    }
}

#[tactic(auto, using(desk_octets::proofs::Facts::fits_length))]
fn seat_fits(s: &[u8], at: usize) -> bool
    requires desk_size_in_bounds { desk_size ≤ length s.now }
    requires names_part { names_fit s.now ≡ true }
    requires within { at < 16 }
    ensures { result ≡ seat_fits s.now at }
{
    let ssrc = octets::number32(s, SSRCS_COLUMN + 4 * at);
    let seat = Seat {
        octets: s,
        at,
        ssrc,
    };
    seat.fits()
}

// Whether the seats and the settings that octets stand for are sound.
pub fn seats_are_sound(s: &[u8]) -> bool
    requires desk_size_in_bounds { desk_size ≤ length s.now }
    requires hall_part { hall_fits s.now ≡ true }
    requires names_part { names_fit s.now ≡ true }
    ensures { result ≡ seats_sound (hall_at s.now) (names_at s.now) }
{
    let settings = desk_reading::settings_at(s);
    let ranged = hall::in_range(settings);
    let seats = desk_octets::all_below(16, |at| seat_fits(s, at));
    ranged & seats
}
