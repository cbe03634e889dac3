// Saves the seats and settings of a desk as a sheet (document 01, "The sheet", and 13; document 02, #101, 48).
#![tactic(auto)]

ghost use Rattle.std.specs.Prelude.{◌≡◌, ◌≤◌, length, IfOk};
ghost use Rattle.octets.specs.Octets.{over};
ghost use Rattle.sheet.specs.Layout.{seats_octets, seats_of, longest_sheet};
ghost use Rattle.saving.specs.Saving.{saving_refusal_number, room_after, Saves};
ghost use Rattle.saving.specs.Walk.{Measured};

use hall::Hall;
use identities::Names;

// Why there is no sheet; specs/Saving.antt has the paper's number of each.
#[derive(Clone, Copy, PartialEq, Eq)]
pub enum Refusal {
    // The normal level is not 0, and a sheet has no place for it.
    CannotHold,
    NoRoom,
}

impl From<Refusal> for u8 {
    ghost from_gives = { λ refusal n. n ≡ saving_refusal_number refusal };

    fn from(refusal: Refusal) -> u8 {
        match refusal {
            Refusal::CannotHold => 48,
            Refusal::NoRoom => 13,
        }
    }
}

// How many octets the seats have on the sheet, and how many seats are taken.
#[derive(Clone, Copy)]
pub struct Extent {
    pub octets: usize,
    pub count: u8,
}

// The hall and its names stay two parameters: a step of a running call takes the hall alone, and would have to take a struct of both apart.

// How far the sheet's seats reach, seat by seat.
#[tactic(auto, using(crate::proofs::Walks::rest_all))]
fn extent_of(hall: Hall, names: Names) -> Extent
    ensures { Measured hall names result }
{
    let mut octets = 0;
    let mut count = 0;
    for seat in 0..16 {
        octets += seat_saving::octets_at(hall, names, seat);
        count += u8::from(hall::is_present(hall, seat));
    }
    Extent { octets, count }
}

// Writes all seats, from the room's beginning on.
fn put_seats(room: &mut [u8], hall: Hall, names: Names)
    requires { length (seats_octets (seats_of hall names)) ≤ length room.old }
    ensures { room.new ≡ over room.old 0 (seats_octets (seats_of hall names)) }
{
    let mut at = 0;
    for seat in 0..16 {
        at = seat_saving::put_taken(room, at, hall, names, seat);
    }
}

// Saves the seats and settings into the room; where a sheet cannot hold them, or with too little room, it writes nothing.
pub fn save(hall: Hall, names: Names, room: &mut [u8]) -> Result<usize, Refusal>
    ensures saves { Saves hall names room.old result }
    ensures room_after { room.new ≡ room_after hall names room.old }
    ensures result_bound { IfOk result (λ n. n ≤ longest_sheet) }
{
    let settings = hall.settings;
    if settings.normal != 0 {
        return Err(Refusal::CannotHold);
    }
    let extent = extent_of(hall, names);
    let at = extent.octets;
    if room.len() < at + sheet::TAIL_SIZE {
        return Err(Refusal::NoRoom);
    }
    put_seats(room, hall, names);
    seat_octets::put_settings(room, at, settings);
    sheet::put_trailer(
        room,
        at + seat_octets::SETTINGS_SIZE,
        at as u16,
        extent.count,
    );
    Ok(at + sheet::TAIL_SIZE)
}
