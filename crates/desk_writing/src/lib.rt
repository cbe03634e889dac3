// The octets of the seats, the settings and the identities, written at their places a column at a time, and those of a whole desk
// (docs/FORMS.md; the definitions are those of crate desk_octets); the rest of the room is untouched. That the room is as long as a desk
// is asked at each function: a type that holds it would ask more of callers.
#![tactic(auto)]

ghost use Rattle.std.specs.Prelude.{◌≡◌, ◌+◌, ◌≤◌, length};
ghost use Rattle.octets.specs.Octets.{over};
ghost use Rattle.identities.specs.Identity.{name_at};
ghost use Rattle.desk_octets.specs.Columns.{rows};
ghost use Rattle.desk_octets.specs.Form.{word_column, hall_octets, name_octets, names_octets};
ghost use Rattle.desk_octets.specs.Form.{octets_of_desk};
ghost use Rattle.desk_octets.specs.Places.{taken_column, lengths_column, identities_column, desk_size};

use desk_octets::{
    FLAGS_COLUMN, FLAGS_ZEROS, HIGHEST_COLUMN, IDENTITIES_COLUMN, LENGTHS_COLUMN, SETTINGS_END,
    SETTINGS_START, SSRCS_COLUMN, TAKEN_COLUMN,
};
use hall::Hall;
use identities::{Name, Names};
use steps::Core;

// Rows and no column, and so are the identities: one function for both would take each row by value and lay it again.
fn put_words(room: &mut [u8], at: usize, words: [u32; 16])
    requires { at + 64 ≤ length room.old }
    ensures { room.new ≡ over room.old at (word_column words) }
{
    for i in 0..16 {
        octets::put32(room, at + 4 * i, words[i]);
    }
}

pub fn put_hall(room: &mut [u8], hall: Hall)
    requires { desk_size ≤ length room.old }
    ensures { room.new ≡ over room.old taken_column (hall_octets hall) }
{
    let present = hall.present;
    let highest = hall.highest;
    let flags = hall.flags;
    core_writing::put_column(room, TAKEN_COLUMN, 16, |i| {
        core_writing::flag_octet(present[i])
    });
    put_words(room, SSRCS_COLUMN, hall.ssrcs);
    copying::put_part(room, HIGHEST_COLUMN, &highest, 0, 16);
    core_writing::put_column(room, FLAGS_COLUMN, 16, |i| {
        seat_octets::flags_octet(flags[i])
    });
    copying::put_zeros(room, FLAGS_ZEROS, 16);
    seat_octets::put_settings(room, SETTINGS_START, hall.settings);
    copying::put_zeros(room, SETTINGS_END, 4);
}

fn put_name(room: &mut [u8], at: usize, name: Name)
    requires { at + 62 ≤ length room.old }
    ensures { room.new ≡ over room.old at (name_octets name) }
{
    copying::put_part(room, at, &name.octets, 0, 62);
}

fn put_identities(room: &mut [u8], names: Names)
    requires { desk_size ≤ length room.old }
    ensures { room.new ≡ over room.old identities_column (rows (λ s. name_octets (name_at names s)) 0 16) }
{
    for seat in 0..16 {
        put_name(room, IDENTITIES_COLUMN + 62 * seat, names.of[seat]);
    }
}

pub fn put_names(room: &mut [u8], names: Names)
    requires { desk_size ≤ length room.old }
    ensures { room.new ≡ over room.old lengths_column (names_octets names) }
{
    core_writing::put_column(room, LENGTHS_COLUMN, 16, |seat| {
        identities::name_length(names.of[seat]) as u8
    });
    put_identities(room, names);
}

// Writes a whole desk into the first 1,200 octets of a room.
pub fn put_desk(room: &mut [u8], core: Core, hall: Hall, names: Names)
    requires { desk_size ≤ length room.old }
    ensures { room.new ≡ over room.old 0 (octets_of_desk core hall names) }
{
    core_writing::put_letters(room);
    core_writing::put_core(room, core);
    put_hall(room, hall);
    put_names(room, names);
}
