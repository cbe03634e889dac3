// A seat of a desk in lent octets, written into a lent room as the sheet lays it out, and its settings, as the desk's octets have them.
// specs/Showing.antt has what each answers, and what is left in the room.
#![tactic(auto)]

ghost use Rattle.std.specs.Prelude.{◌≡◌, true, false, ◌<◌, ◌≤◌, length, MatchOption};
ghost use Rattle.std.specs.Fn.{FnOnceReturnsAtMut};
ghost use Rattle.message.specs.Answers.{Answer};
ghost use Rattle.signed.specs.Signed.{signed};
ghost use Rattle.hall.specs.Seats.{is_present};
ghost use Rattle.seat_octets.specs.Layout.{settings_octets};
ghost use Rattle.seat_looking.specs.Showing.{shown, taken_shown, seat_shown, settings_shown};

use hall::{Hall, Settings};
use identities::Names;

// The seat of that number, if somebody sits there. C programs give any number: one that no seat has is a seat where nobody sits.
fn taken(hall: Hall, seat: u32) -> Option<u8>
    ensures { MatchOption result (is_present hall seat ≡ false) (λ s. (s ≡ seat) × (seat < 16) × (is_present hall seat ≡ true)) }
{
    u8::try_from(seat)
        .ok()
        .filter(|s| hall::is_present(hall, *s))
}

// Has `write` put n octets into the room, and answers how many they are; 13, and nothing is written, where the room is too short.
fn shown<W: FnOnce(&mut [u8])>(room: &mut [u8], n: usize, write: W) -> i32
    requires fits { n < 2147483648 }
    requires writes { n ≤ length room.now → ((lent : _) → lent.now ≡ room.now → W.pre write lent) }
    ensures written { n ≤ length room.old → (result ≡ signed (Answer.result n)) × FnOnceReturnsAtMut W.FnOnce write room.old tt room.new }
    ensures no_room { length room.old < n → (result ≡ signed (Answer.refused 13)) × (room.new ≡ room.old) }
{
    if room.len() < n {
        return signed::refused(message::Refusal::NoRoom);
    }
    write(room);
    signed::found(n as u32)
}

fn show_seat(hall: Hall, names: Names, seat: u32, room: &mut [u8]) -> i32
    ensures { (result, room.new) ≡ taken_shown hall names seat room.old }
{
    let Some(seat) = taken(hall, seat) else {
        return signed::refused(hall::Refusal::NoSuchSeat);
    };
    let n = seat_saving::octets_at(hall, names, seat);
    shown(room, n, |room| {
        seat_saving::put_taken(room, 0, hall, names, seat);
    })
}

fn show_settings(settings: Settings, room: &mut [u8]) -> i32
    ensures { (result, room.new) ≡ shown (settings_octets settings) room.old }
{
    shown(
        room,
        seat_octets::SETTINGS_SIZE,
        |room| seat_octets::put_settings(room, 0, settings),
    )
}

// Writes a seat: 7 octets and its identity.
pub fn seat_on(desk: &[u8], seat: u32, room: &mut [u8]) -> i32
    ensures { (result, room.new) ≡ seat_shown desk.now seat room.old }
{
    desk_looking::from_desk(desk, room, |room| {
        let hall = desk_reading::hall_at(desk);
        let names = desk_reading::names_at(desk);
        show_seat(hall, names, seat, room)
    })
}

// Writes the settings: 12 octets.
pub fn settings_on(desk: &[u8], room: &mut [u8]) -> i32
    ensures { (result, room.new) ≡ settings_shown desk.now room.old }
{
    desk_looking::from_desk(
        desk,
        room,
        |room| show_settings(desk_reading::settings_at(desk), room),
    )
}
