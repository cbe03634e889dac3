// The wall screen's list (document 01, "The desk"): the line, as a list of entries in lent room, in any phase. `fill` is thin: how many
// entries are shown, and the answer, are functions of their own.
#![tactic(auto)]

ghost use Rattle.std.specs.Prelude.{◌≡◌, length};
ghost use Rattle.line.specs.Line.{waiting};
ghost use Rattle.screen.specs.Screen.{shown_in, list_answer, shown_answer, filled, listing};

use line::{Entry, Line};

// How many entries are written to a room of this many places: all who wait, or none where it is too short for them.
#[tactic(auto, using(words::specs::Choice::if_yes, words::specs::Choice::if_no), unfolding(crate::specs::Screen::shown_in))]
pub fn shown_in(line: Line, places: usize) -> usize
    ensures { result ≡ shown_in (waiting line) places }
{
    let n = line::count(line);
    if n <= places { n } else { 0 }
}

// What is answered for a room of this many places: how many wait, all of whom are in the room; or none for refusal 13.
#[tactic(auto, using(words::specs::Choice::if_yes, words::specs::Choice::if_no), unfolding(crate::specs::Screen::list_answer))]
pub fn answer(line: Line, places: usize) -> Option<usize>
    ensures { shown_answer result ≡ list_answer (waiting line) places }
{
    let n = line::count(line);
    if n <= places { Some(n) } else { None }
}

// Writes the line to the room. Places past the line are untouched, and all are where the room is too short.
pub fn fill(line: Line, room: &mut [Entry]) -> Option<usize>
    ensures { (shown_answer result ≡ list_answer (waiting line) (length room.old)) × (room.new ≡ filled (waiting line) room.old) }
{
    let places = room.len();
    let n = shown_in(line, places);
    room[..n].copy_from_slice(&line.entries[..n]);
    answer(line, places)
}

// Room for the longest line.
pub type Listing = [Entry; 15];

// The list for a caller with no room of its own: all who wait, and empty entries behind them.
pub fn listed(line: Line) -> Listing
    ensures { result ≡ listing (waiting line) }
{
    let mut room = [line::EMPTY; 15];
    fill(line, &mut room);
    room
}
