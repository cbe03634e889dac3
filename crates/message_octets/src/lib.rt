// A message as 40 octets (docs/FORMS.md, "A message"), for C programs: its identities and its phrase are places in a source that is lent
// beside it. A packet is read into such octets here; crate message_writing writes a message out of them.
#![tactic(auto)]

ghost use Rattle.std.specs.Prelude.{◌≡◌, ℕ, List, [], ◌∷◌, ◌+◌, ◌%◌, ◌≤◌, ◌<◌, length, get_or, replicate, refl, is_some, unwrap_or};
ghost use Rattle.octets.specs.Octets.{be16, be32, octets16, octets32, over};
ghost use Rattle.octets.proofs.Numbers.{length16, length32};
ghost use Rattle.walk.specs.Walk.{Reach};
ghost use Rattle.header.specs.Header.{header_size};
ghost use Rattle.message_octets.specs.Places.{priority_place, permission_place, phrase_place, message_size};
ghost use Rattle.message_octets.specs.Held.{worth_if, no_place, no_part, place_at, part_in_four, first_octets, next_octets, part_octets, held_octets, read_held, kept_in, read_answer};
ghost use Rattle.message_octets.specs.Laying.{Blank, Lays, first_worth, next_worth, parts_worth, head_by, message_by};
ghost use Rattle.message_octets.specs.Zeros.{zeros16, zeros32, zeros_part, four_long};

use message::{MessageType, Part, QueueInfo, Refusal};

// Where each thing stands in the octets of a message, and how many there are: in a field's place its number, in a part's place where it starts
// and, two octets further, how many octets it has.
pub const TYPE: usize = 0;

pub const ACK: usize = 1;

pub const FIELDS: usize = 2;

pub const SSRC: usize = 4;

pub const PRIORITY: usize = 8;

pub const MESSAGE_TYPE: usize = 9;

pub const DURATION: usize = 10;

pub const CAUSE: usize = 12;

pub const QUEUE: usize = 14;

pub const PERMISSION: usize = 16;

pub const SEQUENCE: usize = 18;

pub const SOURCE: usize = 20;

pub const INDICATOR: usize = 22;

pub const SSRC_FIELD: usize = 24;

pub const PHRASE: usize = 28;

pub const GRANTED: usize = 32;

pub const USER: usize = 36;

pub const MESSAGE_SIZE: usize = 40;

// What the bit of each field is worth: 2 to the field's ID.
pub const HAS_PRIORITY: u16 = 1 << 0;

pub const HAS_DURATION: u16 = 1 << 1;

pub const HAS_CAUSE: u16 = 1 << 2;

pub const HAS_QUEUE: u16 = 1 << 3;

pub const HAS_GRANTED: u16 = 1 << 4;

pub const HAS_PERMISSION: u16 = 1 << 5;

pub const HAS_USER: u16 = 1 << 6;

pub const HAS_SEQUENCE: u16 = 1 << 8;

pub const HAS_SOURCE: u16 = 1 << 10;

pub const HAS_MESSAGE_TYPE: u16 = 1 << 12;

pub const HAS_INDICATOR: u16 = 1 << 13;

pub const HAS_SSRC_FIELD: u16 = 1 << 14;

// What stands at a place among the octets of a message: a number of one, two or four octets, a place in line with its priority, or a part of
// the source.
pub trait Placed: Copy {
    // the octets that it stands as, how many they are, and what stands where a field is absent
    ghost octets: { Self → List ℕ };

    ghost size: { ℕ };

    ghost absent: { Self };

    // what octets hold at a place
    ghost held: { List ℕ → ℕ → Self };

    fn get(s: &[u8], at: usize) -> Self
        requires { at + size ≤ length s.now }
        ensures { result ≡ held s.now at };

    fn put(self, room: &mut [u8], at: usize)
        requires { at + size ≤ length room.old }
        ensures { room.new ≡ over room.old at (octets self) };

    ghost long: { (x : Self) → length (octets x) ≡ size };

    ghost zeros: { octets absent ≡ replicate size 0 };
}

impl Placed for u8 {
    ghost octets = { λ n. n ∷ [] };

    ghost size = { 1 };

    ghost absent = { 0 };

    ghost held = { λ s at. get_or s at 0 };

    ghost long = { λ n. refl };

    ghost zeros = { refl };

    fn get(s: &[u8], at: usize) -> u8 {
        s[at]
    }

    fn put(self, room: &mut [u8], at: usize) {
        room[at] = self;
    }
}

impl Placed for u16 {
    ghost octets = { octets16 };

    ghost size = { 2 };

    ghost absent = { 0 };

    ghost held = { be16 };

    ghost long = { length16 };

    ghost zeros = { zeros16 };

    fn get(s: &[u8], at: usize) -> u16 {
        octets::number16(s, at)
    }

    fn put(self, room: &mut [u8], at: usize) {
        octets::put16(room, at, self);
    }
}

impl Placed for u32 {
    ghost octets = { octets32 };

    ghost size = { 4 };

    ghost absent = { 0 };

    ghost held = { be32 };

    ghost long = { length32 };

    ghost zeros = { zeros32 };

    fn get(s: &[u8], at: usize) -> u32 {
        octets::number32(s, at)
    }

    fn put(self, room: &mut [u8], at: usize) {
        octets::put32(room, at, self);
    }
}

impl Placed for QueueInfo {
    ghost octets = { λ q. q.place ∷ q.priority ∷ [] };

    ghost size = { 2 };

    ghost absent = { no_place };

    ghost held = { λ s at. record { place = get_or s at 0; priority = get_or s (at + 1) 0 } };

    ghost long = { λ q. refl };

    ghost zeros = { refl };

    fn get(s: &[u8], at: usize) -> QueueInfo {
        QueueInfo {
            place: s[at],
            priority: s[at + 1],
        }
    }

    fn put(self, room: &mut [u8], at: usize) {
        octets::put_pair(room, at, self.place, self.priority);
    }
}

// A part is where it starts and how many octets it has, each in 16 bits: a packet has at most 1,024 octets.
impl Placed for Part {
    ghost octets = { part_in_four };

    ghost size = { 4 };

    ghost absent = { no_part };

    ghost held = { place_at };

    ghost long = { four_long };

    ghost zeros = { zeros_part };

    fn get(s: &[u8], at: usize) -> Part {
        Part {
            from: octets::number16(s, at) as usize,
            count: octets::number16(s, at + 2) as usize,
        }
    }

    fn put(self, room: &mut [u8], at: usize) {
        octets::put16(room, at, (self.from % 65536) as u16);
        octets::put16(room, at + 2, (self.count % 65536) as u16);
    }
}

// A packet's message is laid into zeros: what it lacks is there already. Each field that it has adds the worth of its bit to that of the
// fields before it.
fn lay<T: Placed>(room: &mut [u8], to: usize, field: Option<T>, has: u16, worth: u16) -> u16
    requires blank { Blank room.old to × (to + T.size ≤ message_size) }
    requires worth_bound { has + worth < 65536 }
    ensures lays { Lays room.old to (T.octets (unwrap_or field T.absent)) room.new }
    ensures value { result ≡ has + worth_if (is_some field) worth }
    ensures upper_bound { result ≤ has + worth }
{
    let Some(x) = field else {
        return has;
    };
    x.put(room, to);
    has + worth
}

// The fields of one row of the octets, from the starts of a packet that was judged.
fn lay_first(room: &mut [u8], s: &[u8], starts: &[usize; 16]) -> u16
    requires blank { Blank room.old priority_place }
    requires reach { Reach s.now (λ i. get_or starts.now i 0) }
    ensures lays { (k : MessageType) → Lays room.old priority_place (first_octets (message_by k s.now starts.now)) room.new }
    ensures value { (k : MessageType) → result ≡ first_worth (message_by k s.now starts.now) }
{
    let priority = reading::octet_at(s, starts[0]);
    let has = lay(room, PRIORITY, priority, 0, HAS_PRIORITY);
    let message_type = reading::octet_at(s, starts[12]);
    let has = lay(room, MESSAGE_TYPE, message_type, has, HAS_MESSAGE_TYPE);
    let duration = reading::word_at(s, starts[1]);
    let has = lay(room, DURATION, duration, has, HAS_DURATION);
    let cause = reading::cause_at(s, starts[2]).map(|reject| reject.cause);
    let has = lay(room, CAUSE, cause, has, HAS_CAUSE);
    let queue = reading::queue_at(s, starts[3]);
    lay(room, QUEUE, queue, has, HAS_QUEUE)
}

fn lay_next(room: &mut [u8], s: &[u8], starts: &[usize; 16], has: u16) -> u16
    requires blank { Blank room.old permission_place }
    requires reach { Reach s.now (λ i. get_or starts.now i 0) }
    requires has_bound { has + 25888 < 65536 }
    ensures lays { (k : MessageType) → Lays room.old permission_place (next_octets (message_by k s.now starts.now)) room.new }
    ensures value { (k : MessageType) → result ≡ next_worth has (message_by k s.now starts.now) }
{
    let permission = reading::word_at(s, starts[5]);
    let has = lay(room, PERMISSION, permission, has, HAS_PERMISSION);
    let sequence = reading::word_at(s, starts[8]);
    let has = lay(room, SEQUENCE, sequence, has, HAS_SEQUENCE);
    let source = reading::word_at(s, starts[10]);
    let has = lay(room, SOURCE, source, has, HAS_SOURCE);
    let indicator = reading::word_at(s, starts[13]);
    let has = lay(room, INDICATOR, indicator, has, HAS_INDICATOR);
    let ssrc = reading::number_at(s, starts[14]);
    lay(room, SSRC_FIELD, ssrc, has, HAS_SSRC_FIELD)
}

// The phrase has no bit of its own: that of its field was added where the cause was laid.
fn lay_parts(room: &mut [u8], s: &[u8], starts: &[usize; 16], has: u16) -> u16
    requires blank { Blank room.old phrase_place }
    requires reach { Reach s.now (λ i. get_or starts.now i 0) }
    requires has_bound { has + 80 < 65536 }
    ensures lays { (k : MessageType) → Lays room.old phrase_place (part_octets (message_by k s.now starts.now)) room.new }
    ensures value { (k : MessageType) → result ≡ parts_worth has (message_by k s.now starts.now) }
{
    let phrase = reading::cause_at(s, starts[2]).map(|reject| reject.phrase);
    let has = lay(room, PHRASE, phrase, has, 0);
    let has = lay(
        room,
        GRANTED,
        reading::part_at(s, starts[4]),
        has,
        HAS_GRANTED,
    );
    lay(room, USER, reading::part_at(s, starts[6]), has, HAS_USER)
}

fn put_head(room: &mut [u8], s: &[u8], kind: MessageType, fields: u16)
    requires { (header_size ≤ length s.now) × (message_size ≤ length room.old) }
    ensures { room.new ≡ over room.old 0 (head_by kind s.now fields) }
{
    octets::put_pair(room, TYPE, message::type_number(kind), s[0] / 16 % 2);
    octets::put16(room, FIELDS, fields);
    octets::put32(room, SSRC, octets::number32(s, header::SSRC));
}

// Writes a packet's message into the first 40 octets of a room.
fn put_held(room: &mut [u8], s: &[u8], kind: MessageType, starts: &[usize; 16])
    requires message_size_in_bounds { message_size ≤ length room.old }
    requires reach { Reach s.now (λ i. get_or starts.now i 0) }
    ensures { room.new ≡ over room.old 0 (held_octets (message_by kind s.now starts.now)) }
{
    copying::put_zeros(room, 0, MESSAGE_SIZE);
    let has = lay_first(room, s, starts);
    let has = lay_next(room, s, starts, has);
    let has = lay_parts(room, s, starts, has);
    put_head(room, s, kind, has);
}

// Reads a packet into a room for a message, or refuses it: the reader's refusals come before NoRoom.
pub fn read_held(packet: &[u8], room: &mut [u8]) -> Result<(), Refusal>
    ensures value { read_answer result ≡ read_held packet.now (length room.old) }
    ensures room_after { room.new ≡ kept_in packet.now room.old }
{
    let mut starts = [0usize; 16];
    let kind = reading::judge(packet, &mut starts)?;
    if room.len() < MESSAGE_SIZE {
        return Err(Refusal::NoRoom);
    }
    put_held(room, packet, kind, &starts);
    Ok(())
}
