// The line: seats waiting for the floor, highest priority first, earlier first among equals (document 01, "The desk"). What each
// function gives is said of the list of entries that the array and the length stand for: specs/Line.antt.
#![tactic(auto)]

ghost use Rattle.std.specs.Prelude.{◌≡◌, ◌≤◌, ◌<◌, ◌++◌, ◌∷◌, [], true, false, length, take, drop, get_or, set};
ghost use Rattle.line.specs.Line.{entry_of, waiting, line_of, empty, before, ahead, enter, another_at_least, without, seat_set};

// A seat in line, and the holder of the floor: who, and the effective priority that it waits at, or was given the floor at.
#[derive(Clone, Copy)]
pub struct Entry {
    pub seat: u8,
    pub priority: u8,
}

// No one's entry.
pub const EMPTY: Entry = Entry {
    seat: 0,
    priority: 0,
};

// A set of seats.
pub type Seats = [bool; 16];

// Those who wait are the first `len` entries: an array with its length, since the desk has no heap.
#[derive(Clone, Copy)]
pub struct Line {
    pub entries: [Entry; 15],
    pub len: usize,
}

#[tactic(auto, unfolding(crate::specs::Line::line_of))]
pub fn nobody_waits() -> Line
    ensures { result ≡ line_of [] }
{
    Line {
        entries: [EMPTY; 15],
        len: 0,
    }
}

// An entry from its parts: what makes one comes through here.
pub fn entry_of(seat: u8, priority: u8) -> Entry
    ensures { result ≡ entry_of seat priority }
{
    Entry { seat, priority }
}

// Who waits, in order.
fn waiting(line: &Line) -> &[Entry]
    ensures { (result.now ≡ waiting line.now) × (length result.now ≤ 15) }
{
    &line.entries[..line.len.min(15)]
}

// How many wait.
pub fn count(line: Line) -> usize
    ensures { (result ≡ length (waiting line)) × (result ≤ 15) }
{
    waiting(&line).len()
}

// Who waits at a place, 0 being the head; no one's entry past the end.
pub fn entry_at(line: Line, place: usize) -> Entry
    ensures { result ≡ get_or (waiting line) place empty }
{
    waiting(&line).get(place).copied().unwrap_or(EMPTY)
}

// How many wait before this seat; everybody, if it is not in line.
pub fn place_of(line: Line, seat: u8) -> usize
    ensures { result ≡ before seat (waiting line) }
{
    let those = waiting(&line);
    those
        .iter()
        .position(|e| e.seat == seat)
        .unwrap_or(those.len())
}

// How many a newcomer of this priority goes behind.
fn place_for(line: Line, priority: u8) -> usize
    ensures { result ≡ ahead priority (waiting line) }
{
    let those = waiting(&line);
    those
        .iter()
        .position(|e| e.priority < priority)
        .unwrap_or(those.len())
}

// Whether another seat waits at this priority or above.
pub fn another_at_least(line: Line, seat: u8, priority: u8) -> bool
    ensures { result ≡ another_at_least seat priority (waiting line) }
{
    waiting(&line)
        .iter()
        .any(|e| e.seat != seat && priority <= e.priority)
}

// The entry at a place once `e` stands behind `k` of those who wait.
fn entry_after(those: &[Entry], k: usize, e: Entry, place: usize) -> Entry
    requires { (k ≤ length those.now) × (place ≤ length those.now) }
    ensures { result ≡ get_or (take k those.now ++ e ∷ drop k those.now) place empty }
{
    if place < k {
        those[place]
    } else if place == k {
        e
    } else {
        those[place - 1]
    }
}

// By a loop as far as the line goes: array::from_fn, over all fifteen, took a request in line from 2,362 instructions to 2,721.
fn insert(line: Line, k: usize, e: Entry) -> Line
    requires { k ≤ length (waiting line) }
    ensures { result ≡ line_of (take k (waiting line) ++ e ∷ drop k (waiting line)) }
{
    let those = waiting(&line);
    let len = (those.len() + 1).min(15);
    let mut entries = [EMPTY; 15];
    for place in 0..len {
        entries[place] = entry_after(those, k, e, place);
    }
    Line { entries, len }
}

// The line with a newcomer in its place: behind all of at least its priority.
pub fn entered(line: Line, e: Entry) -> Line
    ensures { result ≡ line_of (enter e (waiting line)) }
{
    let k = place_for(line, e.priority);
    insert(line, k, e)
}

// Whether a seat is in a set.
fn has(seats: Seats, seat: u8) -> bool
    ensures { result ≡ get_or seats seat false }
{
    seats.get(usize::from(seat)).copied().unwrap_or(false)
}

// The line once the seats of a set are struck off: the others close up.
pub fn struck(line: Line, seats: Seats) -> Line
    ensures { (result ≡ line_of (without seats (waiting line))) × (waiting result ≡ without seats (waiting line)) }
{
    let mut entries = [EMPTY; 15];
    let mut len = 0;
    for e in waiting(&line) {
        if !has(seats, e.seat) {
            entries[len] = *e;
            len += 1;
        }
    }
    Line { entries, len }
}

// One more seat in the set.
fn add(seats: &mut [bool], seat: u8)
    ensures { seats.new ≡ set seats.old seat true }
{
    let s = usize::from(seat);
    if s < seats.len() {
        seats[s] = true;
    }
}

// The seats in line, as a set.
#[tactic(auto, unfolding(crate::specs::Line::seat_set))]
pub fn seats_of(line: Line) -> Seats
    ensures { result ≡ seat_set (waiting line) }
{
    let mut seats = [false; 16];
    for e in waiting(&line) {
        add(&mut seats, e.seat);
    }
    seats
}
