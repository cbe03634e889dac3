// What one seat puts on a sheet (document 01, "The sheet"): how many octets that is, and the octets. specs/Seat.antt has it of any seat of a
// hall, taken or free; the whole sheet stands in `saving`.
#![tactic(auto)]

ghost use Rattle.std.specs.Prelude.{◌≡◌, ◌+◌, ◌≤◌, ◌<◌, length};
ghost use Rattle.octets.specs.Octets.{over};
ghost use Rattle.identities.specs.Identity.{octets_of};
ghost use Rattle.sheet.specs.Layout.{seat_head, who_sits, octets_of_seat};
ghost use Rattle.seat_saving.specs.Seat.{octets_at_seat};

use hall::{Hall, Newcomer};
use identities::{Name, Names};

// What the hall says of a seat.
pub fn who_sits(hall: Hall, seat: u8) -> Newcomer
    requires { seat < 16 }
    ensures { result ≡ who_sits hall seat }
{
    let s = seat as usize;
    Newcomer {
        ssrc: hall.ssrcs[s],
        highest: hall.highest[s],
        flags: hall::flags_at(hall, seat),
    }
}

// How many octets a seat of the hall has on the sheet; a free one has none.
#[tactic(auto, using(sheet::proofs::Sizes::length_seat), unfolding(crate::proofs::Seat::opened))]
pub fn octets_at(hall: Hall, names: Names, seat: u8) -> usize
    ensures { (result ≡ length (octets_at_seat hall names seat)) × (result ≤ 69) }
{
    if hall::is_present(hall, seat) {
        let name = identities::name_at(names, seat);
        sheet::SEAT_HEAD + identities::name_length(name)
    } else {
        0
    }
}

// Writes one seat at `at`, and says where it ends.
#[tactic(auto, using(octets::proofs::Over::over_more), unfolding(crate::proofs::Seat::opened))]
pub fn put_seat(room: &mut [u8], at: usize, who: Newcomer, name: Name) -> usize
    requires { at + seat_head + length (octets_of name) ≤ length room.old }
    ensures value { result ≡ at + seat_head + length (octets_of name) }
    ensures room_after { room.new ≡ over room.old at (octets_of_seat (record { who = who; identity = octets_of name })) }
{
    let n = identities::name_length(name);
    octets::put_pair(room, at, seat_octets::flags_octet(who.flags), who.highest);
    octets::put32(room, at + sheet::SSRC_WITHIN, who.ssrc);
    room[at + sheet::LENGTH_WITHIN] = n as u8;
    copying::put_part(room, at + sheet::SEAT_HEAD, &name.octets, 0, n);
    at + sheet::SEAT_HEAD + n
}

// Writes what a seat of the hall, taken or free, puts on the sheet, and says where that ends.
#[tactic(auto, using(sheet::proofs::Sizes::length_seat, octets::proofs::Over::over_none), unfolding(crate::proofs::Seat::opened))]
pub fn put_taken(room: &mut [u8], at: usize, hall: Hall, names: Names, seat: u8) -> usize
    requires { (seat < 16) × (at + length (octets_at_seat hall names seat) ≤ length room.old) }
    ensures value { result ≡ at + length (octets_at_seat hall names seat) }
    ensures room_after { room.new ≡ over room.old at (octets_at_seat hall names seat) }
{
    if hall::is_present(hall, seat) {
        put_seat(
            room,
            at,
            who_sits(hall, seat),
            identities::name_at(names, seat),
        )
    } else {
        at
    }
}
