// Saves the class's sheet, prints it octet by octet, damages it in each way that loading looks for, and prints the answer to each.
#![tactic(auto)]

ghost use Rattle.std.specs.Prelude.{◌≡◌, ◌+◌, ◌-◌, ◌≤◌, min, length};
ghost use Rattle.lab_sheet.specs.Rows.{rows_width};

use events::Desk;
use hall::{Flags, NO_FLAGS};
use printing::{Letters, Octets, Page, Printout};
use saving::Refusal::{CannotHold, NoRoom};
use std::fmt::{self, Display};
use std::io;

// Octets enough for the longest sheet, which has 1,124.
const SHEET_ROOM: usize = 1152;

// A sheet as a person would want to see it: the offset, the octets, and what they are.

// What stands in a sheet: one octet, whose number is shown, or so many.
#[derive(Clone, Copy)]
enum Row {
    Octet(&'static str),
    Octets(&'static str, usize),
}

const SEAT: [Row; 3] = [
    Row::Octet("highest priority"),
    Row::Octets("SSRC", 4),
    Row::Octet("identity length"),
];

const SETTINGS: [Row; 7] = [
    Row::Octets("SSRC of the desk", 4),
    Row::Octet("pre-emptive level"),
    Row::Octet("line limit"),
    Row::Octet("C7 limit"),
    Row::Octet("C20 limit"),
    Row::Octets("duration", 2),
    Row::Octets("zeros", 2),
];

const TRAILER: [Row; 5] = [
    Row::Octets("offset of settings", 2),
    Row::Octets("offset of seats", 2),
    Row::Octet("seat count"),
    Row::Octet("form"),
    Row::Octets("letters FS", 2),
];

// An octet of the sheet; 0 past its end.
fn octet_at(s: &[u8], at: usize) -> u8 {
    s.get(at).copied().unwrap_or(0)
}

// The octets of a line, up to eight, and their offset.
#[derive(Clone, Copy)]
struct Line<'a> {
    at: usize,
    octets: &'a [u8],
}

impl Display for Line<'_> {
    fn fmt<W: fmt::Write>(&self, f: &mut fmt::Formatter<W>) -> fmt::Result {
        let rest = 3 * 8usize.saturating_sub(self.octets.len());
        write!(f, "{:>4} {}{:rest$}  ", self.at, Octets(self.octets), "")
    }
}

// How far the sheet has been printed.
#[derive(Drop)]
struct Dump<'a> {
    sheet: &'a [u8],
    at: usize,
}

impl<'a> Dump<'a> {
    // The next octets, so many, as far as the sheet has them: behind them it goes on.
    #[tactic(auto, using(printing::proofs::Printed::part_length))]
    fn line(&mut self, count: usize) -> Line<'a>
        ensures at { self.new.at ≡ self.old.at + min count (length self.old.sheet.now - self.old.at) }
        ensures sheet { self.new.sheet ≡ self.old.sheet }
    {
        let at = self.at;
        let octets = printing::part(self.sheet, at, count);
        self.at = at.saturating_add(octets.len());
        Line { at, octets }
    }
}

// Rows; behind them it goes on, where the sheet has them.
fn dump_rows(page: &mut Printout, dump: &mut Dump, rows: &[Row])
    ensures at { dump.old.at + rows_width rows.now ≤ length dump.old.sheet.now → dump.new.at ≡ dump.old.at + rows_width rows.now }
    ensures sheet { dump.new.sheet ≡ dump.old.sheet }
{
    for row in rows {
        match *row {
            Row::Octet(name) => {
                let line = dump.line(1);
                writeln!(page, "{line}{name} {}", octet_at(line.octets, 0));
            }
            Row::Octets(name, count) => {
                let line = dump.line(count);
                writeln!(page, "{line}{name}");
            }
        }
    }
}

fn flags_named(octet: u8) -> &'static str {
    let flags = seat_octets::flags_of(octet);
    match (flags.queueing, flags.receive_only) {
        (false, false) => "none",
        (true, false) => "queueing",
        (false, true) => "receive only",
        (true, true) => "queueing, receive only",
    }
}

// One seat; its identity stands eight octets to a line, with its letters. The next begins behind it.
fn dump_seat(page: &mut Printout, dump: &mut Dump)
    ensures { dump.old.at + 7 ≤ length dump.old.sheet.now → (dump.old.at + 7 ≤ dump.new.at) × (dump.new.at ≤ dump.old.at + 262) }
{
    writeln!(page, "seat");
    let line = dump.line(1);
    writeln!(
        page,
        "{line}flags: {}",
        flags_named(octet_at(line.octets, 0))
    );
    let length = octet_at(dump.sheet, dump.at.saturating_add(5));
    dump_rows(page, dump, &SEAT);
    for letters in printing::part(dump.sheet, dump.at, usize::from(length)).chunks(8) {
        writeln!(page, "{}  {}", dump.line(letters.len()), Letters(letters));
    }
}

// The whole sheet.
fn dump_sheet(page: &mut Printout, sheet: &[u8]) {
    if sheet.len() < 20 {
        return;
    }
    let mut dump = Dump { sheet, at: 0 };
    for _ in 0..sheet::seat_count(sheet) {
        dump_seat(page, &mut dump);
    }
    writeln!(page, "settings");
    dump_rows(page, &mut dump, &SETTINGS);
    writeln!(page, "trailer");
    dump_rows(page, &mut dump, &TRAILER);
}

// The classes.

// The desk's SSRC is 1, the level 200, the line limit 2, C7 and C20 limits 2, a grant 30 seconds.
fn nobody_at(normal: u8) -> Desk {
    Desk {
        core: events::fresh_core(),
        hall: hall::empty_hall(hall::settings_of(1, 200, 2, 2, 2, 30, normal)),
        names: identities::no_names(),
    }
}

// Somebody joins.
fn sit(desk: Desk, identity: &[u8], ssrc: u32, flags: Flags) -> Desk {
    let joined = joining::join_call(
        desk.hall,
        desk.names,
        identity,
        hall::newcomer_of(ssrc, 255, flags),
    );
    Desk {
        hall: joined.hall,
        names: joined.names,
        ..desk
    }
}

const QUEUEING: Flags = Flags {
    queueing: true,
    ..NO_FLAGS
};

const RECEIVE_ONLY: Flags = Flags {
    receive_only: true,
    ..NO_FLAGS
};

const BOTH: Flags = Flags {
    queueing: true,
    receive_only: true,
};

#[derive(Clone, Copy)]
struct Pupil(&'static [u8], Flags);

const PUPILS: [Pupil; 6] = [
    Pupil(b"sip:test1@bench", QUEUEING),
    Pupil(b"sip:test2@bench", QUEUEING),
    Pupil(b"sip:gone@bench", QUEUEING),
    Pupil(b"sip:test10@bench", NO_FLAGS),
    Pupil(
        b"nnnnnnnnnnnnnnnnnnnnnnnnnnnnnnnnnnnnnnnnnnnnnnnnnnnnnnnnnnnnn",
        RECEIVE_ONLY,
    ),
    Pupil(
        b"nnnnnnnnnnnnnnnnnnnnnnnnnnnnnnnnnnnnnnnnnnnnnnnnnnnnnnnnnnnnnn",
        BOTH,
    ),
];

// Six join, among them names of 61 and 62 octets. Then seat 2 leaves, and the sheet closes the gap.
fn class() -> Desk {
    let mut desk = nobody_at(0);
    for (Pupil(identity, flags), ssrc) in PUPILS.iter().zip(10..) {
        desk = sit(desk, identity, ssrc, *flags);
    }
    events::leave_call(desk.core, desk.hall, desk.names, 2).desk
}

// Sixteen seats with names of 62 octets: the longest sheet.
fn everybody() -> Desk {
    let mut desk = nobody_at(0);
    let mut identity = [b'n'; 62];
    for seat in 0..16u8 {
        identity[0] = b'a' + seat;
        desk = sit(desk, &identity, 100 + u32::from(seat), QUEUEING);
    }
    desk
}

// Saving and loading, with the answer printed.

// What is said of a sheet that is loaded.
#[derive(Clone, Copy)]
struct Verdict(Result<Desk, sheet::Refusal>);

impl Display for Verdict {
    fn fmt<W: fmt::Write>(&self, f: &mut fmt::Formatter<W>) -> fmt::Result {
        let Err(refusal) = self.0 else {
            return f.write_str("accepted");
        };
        let reason = match refusal {
            sheet::Refusal::NotASheet => "under 20 octets or no FS",
            sheet::Refusal::OtherForm => "form",
            sheet::Refusal::WrongPlaces => "count, or an offset",
            sheet::Refusal::OutsideRange => "a setting",
            sheet::Refusal::SeatAtFault => "a seat",
        };
        write!(
            f,
            "refused {}: {reason}",
            sheet::verdict_number(Err(refusal))
        )
    }
}

fn load(page: &mut Printout, title: &str, s: &[u8]) {
    writeln!(page, "{title}: {}", Verdict(loading::load(s)));
}

// How many octets there are; 0 where it was refused.
fn save(page: &mut Printout, desk: &Desk, room: &mut [u8]) -> usize {
    match saving::save(desk.hall, desk.names, room) {
        Ok(n) => {
            writeln!(page, "saved, {n} octets");
            return n;
        }
        Err(CannotHold) => writeln!(page, "refused 48: no sheet holds a normal level but 0"),
        Err(NoRoom) => writeln!(page, "refused 13: the room is too short"),
    }
    0
}

// One octet of the class's sheet that is damaged, and which it is then. The sheet has 224 octets: five seats, the second from 22 on; settings
// from 204 on; the trailer from 216 on.
#[derive(Clone, Copy)]
struct Damage(&'static str, usize, u8);

const DAMAGES: [Damage; 24] = [
    Damage("no F", 222, b'f'),
    Damage("no S", 223, b'T'),
    Damage("form 2", 221, 2),
    Damage("form 0", 221, 0),
    Damage("count 17", 220, 17),
    Damage("settings one further", 217, 205),
    Damage("seats not at the front", 219, 1),
    Damage("level 0", 208, 0),
    Damage("line limit 16", 209, 16),
    Damage("C7 limit 0", 210, 0),
    Damage("C20 limit 0", 211, 0),
    Damage("duration 0", 213, 0),
    Damage("first zero is 1", 214, 1),
    Damage("second zero is 1", 215, 1),
    Damage("flag bit 2", 0, 5),
    Damage("flag bit 7", 0, 129),
    Damage("identity length 0", 6, 0),
    Damage("identity length 63", 6, 63),
    Damage("identity runs into the settings", 6, 255),
    Damage("identity present already", 37, b'1'),
    Damage("SSRC present already", 27, 10),
    Damage("SSRC of the desk", 5, 1),
    Damage("one seat fewer", 220, 4),
    Damage("one seat more", 220, 6),
];

fn load_damaged(page: &mut Printout, sheet: &[u8], damage: Damage) {
    let Damage(title, at, octet) = damage;
    let mut room = [0; SHEET_ROOM];
    let n = sheet.len().min(room.len());
    room[..n].copy_from_slice(&sheet[..n]);
    if at < n {
        room[at] = octet;
    }
    load(page, title, &room[..n]);
}

// The class's sheet, printed, damaged and cut.
fn lesson(page: &mut Printout, class: &Desk) {
    let mut room = [0; SHEET_ROOM];
    let n = save(page, class, &mut room);
    let sheet = printing::part(&room, 0, n);
    dump_sheet(page, sheet);
    writeln!(page, "\nDamaged:");
    for damage in DAMAGES {
        load_damaged(page, sheet, damage);
    }
    load(page, "no octets", &[]);
    load(page, "19 octets", printing::part(sheet, 0, 19));
    load(page, "first octet missing", printing::part(sheet, 1, n));
    load(page, "whole", sheet);
}

// Loads a sheet, saves it again, and compares.
fn again(page: &mut Printout, sheet: &[u8]) {
    let mut room = [0; SHEET_ROOM];
    let loaded = loading::load(sheet);
    writeln!(page, "loaded: {}", Verdict(loaded));
    let Ok(desk) = loaded else {
        return;
    };
    write!(page, "saved again: ");
    let n = save(page, &desk, &mut room);
    let octets = if printing::part(&room, 0, n) == sheet {
        "the same"
    } else {
        "other"
    };
    writeln!(page, "{octets} octets");
}

// Saves into so many octets.
fn save_into(page: &mut Printout, desk: &Desk, room: &mut [u8], n: usize) {
    write!(page, "in {n} octets: ");
    let n = n.min(room.len());
    save(page, desk, &mut room[..n]);
}

// A sheet saved with room enough, in one octet less than it has, and in just as many. The octet behind it was 7.
fn rooms(page: &mut Printout, title: &str, desk: &Desk) {
    let mut room = [7; SHEET_ROOM];
    write!(page, "\n{title}: ");
    let n = save(page, desk, &mut room);
    writeln!(page, "the octet behind it: {}", octet_at(&room, n));
    if n == 0 {
        return;
    }
    save_into(page, desk, &mut room, n - 1);
    save_into(page, desk, &mut room, n);
    again(page, printing::part(&room, 0, n));
}

// A desk that no sheet can hold, saved with room enough and with none: 48 comes before 13.
fn unsaved(page: &mut Printout, title: &str, desk: &Desk) {
    let mut room = [7; SHEET_ROOM];
    write!(page, "\n{title}: ");
    save(page, desk, &mut room);
    save_into(page, desk, &mut room, 0);
}

fn main(rt: HostRuntime) -> io::Result<()> {
    let mut page = Page::new(rt.stdout());
    let class = class();
    write!(page, "The class: ");
    lesson(&mut page, &class);
    rooms(&mut page, "Rooms, and back again", &class);
    rooms(&mut page, "Nobody", &nobody_at(0));
    rooms(&mut page, "Everybody", &everybody());
    unsaved(&mut page, "Nobody, at normal level 100", &nobody_at(100));
    page.close()
}
