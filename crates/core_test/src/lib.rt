// The test of a desk: whether it keeps what every desk keeps that steps can reach from a fresh one. Those pass; so do some that no steps
// reach, for instance one in Idle with C7 at 0. specs/Test.antt has the test; proofs/Sound.antt has that it passes exactly the sound desks.
// The floor and the line are judged here, in the octets where they rest, so that nothing is decoded twice; the seats in crate `seats_test`.
#![tactic(auto)]

ghost use Rattle.std.specs.Prelude.{◌≡◌, true, ◌≤◌, ◌<◌, length};
ghost use Rattle.octets.specs.Octets.{nth_octet};
ghost use Rattle.words.specs.Below.{all_below};
ghost use Rattle.hall.specs.Seats.{is_present};
ghost use Rattle.desk_octets.specs.Form.{core_at, hall_at, core_fits};
ghost use Rattle.core_test.specs.Test.{in_order, place_sound, place_behind, line_sound, holder_sound, floor_sound, core_sound};
ghost use Rattle.core_test.specs.Line.{line_in, is_another};
ghost use Rattle.desk_octets.specs.Places.{holder_place, count_place, desk_size};

use desk_octets::{
    C7_LIMIT_PLACE, C7_PLACE, C20_LIMIT_PLACE, C20_PLACE, CAUSE_PLACE, COUNT_PLACE, HOLDER_PLACE,
    LIMIT_PLACE, PHASE_PLACE, PRIORITIES_COLUMN, TAKEN_COLUMN, WAITING_COLUMN,
};

// Octets whose core holds what the table says, and how many wait in their line.
#[derive(Clone, Copy)]
struct Lent<'a> {
    octets: &'a [u8],
    waiting: usize,
    ghost whole: { desk_size ≤ length octets.now },
    ghost fits: { core_fits octets.now ≡ true },
    ghost counted: { waiting ≡ nth_octet octets.now count_place },
    ghost few: { waiting ≤ 15 },
}

impl Lent<'_> {
    #[tactic(auto, using(desk_octets::proofs::InOctets::present_is, desk_octets::proofs::InOctets::no_seat))]
    fn is_present(&self, seat: u8) -> bool
        ensures { result ≡ is_present (hall_at self.now.octets.now) seat }
    {
        let at = octets::wide(seat);
        at < 16 && self.octets[TAKEN_COLUMN + at] == 1
    }

    // Whether the first n places have other seats than this one.
    fn are_others(&self, seat: u8, n: usize) -> bool
        requires { n ≤ 15 }
        ensures { result ≡ all_below (is_another self.now.octets.now seat) n }
    {
        desk_octets::all_below(n, |i| self.octets[WAITING_COLUMN + i] != seat)
    }

    // The line, place by place.

    #[tactic(auto, using(crate::proofs::InOctets::order_in, crate::proofs::InOctets::order_last))]
    fn is_in_order(&self, i: usize) -> bool
        requires { i < self.now.waiting }
        ensures { result ≡ in_order (line_in self.now.octets.now) i }
    {
        let next = i + 1;
        if next < self.waiting {
            self.octets[PRIORITIES_COLUMN + next] <= self.octets[PRIORITIES_COLUMN + i]
        } else {
            true
        }
    }

    #[tactic(auto, using(crate::proofs::InOctets::first_in, crate::proofs::InOctets::seat_at), unfolding(crate::specs::Test::place_sound))]
    fn place_is_sound(&self, i: usize) -> bool
        requires { i < self.now.waiting }
        ensures { result ≡ place_sound (hall_at self.now.octets.now) (line_in self.now.octets.now) i }
    {
        let seat = self.octets[WAITING_COLUMN + i];
        let ordered = self.is_in_order(i);
        let once = self.are_others(seat, i);
        let present = self.is_present(seat);
        ordered & once & present
    }

    fn places_are_sound(&self) -> bool
        ensures { result
            ≡ all_below (place_sound (hall_at self.now.octets.now) (line_in self.now.octets.now)) self.now.waiting }
    {
        desk_octets::all_below(self.waiting, |i| self.place_is_sound(i))
    }

    // Behind the fifteen places stands a zero, so that sixteen are asked: whole vectors.
    fn places_behind(&self) -> bool
        ensures { result ≡ all_below (place_behind (core_at self.now.octets.now).line) 15 }
    {
        let zero = |place: usize| self.octets[place] == 0;
        desk_octets::all_below(16, |i| {
            (i < self.waiting) | (zero(WAITING_COLUMN + i) & zero(PRIORITIES_COLUMN + i))
        })
    }

    #[tactic(auto, using(crate::proofs::InOctets::line_is))]
    fn line_is_sound(&self) -> bool
        ensures { result ≡ line_sound (hall_at self.now.octets.now) (core_at self.now.octets.now).line }
    {
        let places = self.places_are_sound();
        let behind = self.places_behind();
        let within = self.waiting <= octets::wide(self.octets[LIMIT_PLACE]);
        places & within & behind
    }

    // The floor and the counters.

    #[tactic(auto, using(crate::proofs::InOctets::apart_in))]
    fn holder_is_sound(&self) -> bool
        ensures { result
            ≡ holder_sound (hall_at self.now.octets.now) (line_in self.now.octets.now)
            (nth_octet self.now.octets.now holder_place) }
    {
        let seat = self.octets[HOLDER_PLACE];
        let present = self.is_present(seat);
        let apart = self.are_others(seat, self.waiting);
        present & apart
    }

    #[tactic(auto, using(crate::proofs::InOctets::floors))]
    fn floor_is_sound(&self) -> bool
        ensures { result
            ≡ floor_sound (hall_at self.now.octets.now) (line_in self.now.octets.now)
            (core_at self.now.octets.now).phase }
    {
        match self.octets[PHASE_PLACE] {
            0 | 1 => self.waiting == 0,
            2 => self.holder_is_sound(),
            _ => {
                let cause = octets::number16(self.octets, CAUSE_PLACE);
                self.holder_is_sound() & ((cause == 2) | (cause == 4))
            }
        }
    }
}

// Whether the core that octets stand for is sound.
#[tactic(auto, using(crate::proofs::InOctets::few_wait, crate::proofs::InOctets::core_is))]
pub fn core_is_sound(s: &[u8]) -> bool
    requires desk_size_in_bounds { desk_size ≤ length s.now }
    requires fits { core_fits s.now ≡ true }
    ensures { result ≡ core_sound (hall_at s.now) (core_at s.now) }
{
    let waiting = octets::wide(s[COUNT_PLACE]);
    let lent = Lent { octets: s, waiting };
    let line = lent.line_is_sound();
    let floor = lent.floor_is_sound();
    let c7 = s[C7_PLACE] <= s[C7_LIMIT_PLACE];
    let c20 = s[C20_PLACE] <= s[C20_LIMIT_PLACE];
    line & floor & c7 & c20
}
