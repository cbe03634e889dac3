// Reading (document 01, "The packet" and "What is answered to packets", 1 to 11; document 02, #107, 14): the header, all fields as the reader
// that rests on the packet hands them out, and then the message.
#![tactic(auto)]

ghost use Rattle.std.specs.Prelude.{◌≡◌, List, ℕ, ◌+◌, ◌-◌, ◌≤◌, length, get_or};
ghost use Rattle.message.specs.Message.{said, complete};
ghost use Rattle.walk.specs.Walk.{Reach};
ghost use Rattle.reading.specs.Reading.{octet_at, word_at, number_at, queue_at, part_at, cause_at, message_at, Reads};
ghost use Rattle.reading.specs.Judging.{Judges};
ghost use Rattle.reading.specs.Parts.{part_in, start_in, further};

use message::{Has, Message, MessageType, Part, QueueInfo, Refusal, RejectCause};

// What a message has of a field whose content starts at `at`; nothing where that is 0. A line each, for contents of six kinds.
#[tactic(auto, using(std::proofs::lemmas::Bool::Decides::nat_tests), unfolding(crate::proofs::Judges::placing))]
pub fn octet_at(s: &[u8], at: usize) -> Option<u8>
    requires { at + 2 ≤ length s.now }
    ensures { result ≡ octet_at s.now at }
{
    (at != 0).then(|| s[at])
}

#[tactic(auto, using(std::proofs::lemmas::Bool::Decides::nat_tests), unfolding(crate::proofs::Judges::placing))]
pub fn word_at(s: &[u8], at: usize) -> Option<u16>
    requires { at + 2 ≤ length s.now }
    ensures { result ≡ word_at s.now at }
{
    (at != 0).then(|| octets::number16(s, at))
}

#[tactic(auto, using(std::proofs::lemmas::Bool::Decides::nat_tests), unfolding(crate::proofs::Judges::placing))]
pub fn number_at(s: &[u8], at: usize) -> Option<u32>
    requires { at + 4 ≤ length s.now }
    ensures { result ≡ number_at s.now at }
{
    (at != 0).then(|| octets::number32(s, at))
}

#[tactic(auto, using(std::proofs::lemmas::Bool::Decides::nat_tests), unfolding(crate::proofs::Judges::placing))]
pub fn queue_at(s: &[u8], at: usize) -> Option<QueueInfo>
    requires { at + 2 ≤ length s.now }
    ensures { result ≡ queue_at s.now at }
{
    (at != 0).then(|| QueueInfo {
        place: s[at],
        priority: s[at + 1],
    })
}

#[tactic(auto, using(std::proofs::lemmas::Bool::Decides::nat_tests), unfolding(crate::proofs::Judges::placing))]
pub fn part_at(s: &[u8], at: usize) -> Option<Part>
    requires { at + 2 ≤ length s.now }
    ensures { result ≡ part_at s.now at }
{
    (at != 0).then(|| Part {
        from: at,
        count: s[at - 1] as usize,
    })
}

#[tactic(auto, using(std::proofs::lemmas::Bool::Decides::nat_tests), unfolding(crate::proofs::Judges::placing))]
pub fn cause_at(s: &[u8], at: usize) -> Option<RejectCause>
    requires at_in_bounds { at + 2 ≤ length s.now }
    requires bound { (at ≡ 0 → ⊥) → 2 ≤ get_or s.now (at - 1) 0 }
    ensures { result ≡ cause_at s.now at }
{
    (at != 0).then(|| RejectCause {
        cause: octets::number16(s, at),
        phrase: Part {
            from: at + 2,
            count: s[at - 1] as usize - 2,
        },
    })
}

// The message of a packet of this type, from the starts of its fields' contents.
fn message_at(s: &[u8], kind: MessageType, starts: &[usize; 16]) -> Message
    requires { Reach s.now (λ i. get_or starts.now i 0) }
    ensures { result ≡ message_at kind s.now (λ i. get_or starts.now i 0) }
{
    Message {
        kind: kind,
        ack: s[0] / 16 % 2 == 1,
        ssrc: octets::number32(s, header::SSRC),
        priority: octet_at(s, starts[0]),
        duration: word_at(s, starts[1]),
        cause: cause_at(s, starts[2]),
        queue: queue_at(s, starts[3]),
        granted: part_at(s, starts[4]),
        permission: word_at(s, starts[5]),
        user: part_at(s, starts[6]),
        sequence: word_at(s, starts[8]),
        source: word_at(s, starts[10]),
        message_type: octet_at(s, starts[12]),
        indicator: word_at(s, starts[13]),
        ssrc_field: number_at(s, starts[14]),
    }
}

// Whether every field that a type requires has been noted.
fn has_all(kind: MessageType, starts: &[usize; 16]) -> bool
    ensures { (s : List ℕ) → result ≡ complete (said (message_at kind s (λ i. get_or starts.now i 0)) s) }
{
    let has = Has {
        duration: starts[1] != 0,
        cause: starts[2] != 0,
        queue: starts[3] != 0,
        granted: starts[4] != 0,
        sequence: starts[8] != 0,
        source: starts[10] != 0,
        message_type: starts[12] != 0,
    };
    message::has_required(kind, has)
}

// Judges a packet: checks 1 to 8 of its first twelve octets, 9, 14 and 10 of each field, then 11. It notes where its fields' contents start,
// in an array that is lent: with its type they are its message, of which a caller makes what it needs.
pub fn judge(s: &[u8], starts: &mut [usize; 16]) -> Result<MessageType, Refusal>
    ensures { Judges s.now result starts.new }
{
    let opened = header::opened(s);
    let Ok(kind) = opened else {
        walk::forget(starts);
        return opened;
    };
    walk::all_starts(s, starts)?;
    if !has_all(kind, starts) {
        walk::forget(starts);
        return Err(Refusal::Missing);
    }
    Ok(kind)
}

// Reads a packet: its message, or the first refusal that applies.
pub fn read(s: &[u8]) -> Result<Message, Refusal>
    ensures { Reads s.now result }
{
    let mut starts = [0usize; 16];
    let kind = judge(s, &mut starts)?;
    Ok(message_at(s, kind, &starts))
}

// The part of the packet that holds an identity or a phrase, itself and no copy of it; an empty part where the packet has none there.
pub fn part_in(s: &[u8], p: Option<Part>) -> &[u8]
    ensures value { result.now ≡ part_in s.now p }
    ensures place { result.ref_ptr ≡ further (start_in s.now p) s.entry.ref_ptr }
{
    match p {
        Some(part) if part.from <= s.len() && part.count <= s.len() - part.from =>
            &s[part.from..part.from + part.count],
        _ => &s[0..0],
    }
}
