// Whether a reader would accept a message, held as the struct has it beside a source (document 01, "What is answered to packets", 12).
#![tactic(auto)]

ghost use Rattle.std.specs.Prelude.{◌≡◌, ◌+◌, leb};
ghost use Rattle.message.specs.Message.{part_lies, phrase_lies, lies};
ghost use Rattle.readable.specs.Readable.{readable};
ghost use Rattle.readable.specs.Fitting.{phrase_fits, identity_fits, content_fits, fitting};

use message::{Message, Part, RejectCause};

// Whether a part lies within `len` octets. Its numbers may be any, so no sum of them is made.
#[tactic(auto, using(std::proofs::lemmas::Bool::Decides::nat_tests))]
fn within(part: Part, len: usize) -> bool
    ensures { result ≡ leb (part.from + part.count) len }
{
    part.from <= len && part.count <= len - part.from
}

// Whether what a field holds is in the source.
pub fn part_lies(p: Option<Part>, src: &[u8]) -> bool
    ensures { result ≡ part_lies src.now p }
{
    p.is_none_or(|part| within(part, src.len()))
}

pub fn phrase_lies(c: Option<RejectCause>, src: &[u8]) -> bool
    ensures { result ≡ phrase_lies src.now c }
{
    c.is_none_or(|reject| within(reject.phrase, src.len()))
}

// Whether the identities and the phrase are in the source.
#[tactic(auto, unfolding(message::specs::Message::lies))]
fn lies(m: Message, src: &[u8]) -> bool
    ensures { result ≡ lies m src.now }
{
    part_lies(m.granted, src) && part_lies(m.user, src) && phrase_lies(m.cause, src)
}

// L of a cause is 2 more than its phrase, and at most 255.
pub fn phrase_fits(c: Option<RejectCause>) -> bool
    ensures { result ≡ phrase_fits c }
{
    c.is_none_or(|reject| reject.phrase.count <= 253)
}

// L of an identity is 1 to 62.
pub fn identity_fits(p: Option<Part>) -> bool
    ensures { result ≡ identity_fits p }
{
    p.is_none_or(|part| 1 <= part.count && part.count <= 62)
}

// Whether a number is one that the table allows, by the test that the reader has.
pub fn content_fits(id: u8, w: Option<u16>) -> bool
    ensures { result ≡ content_fits id w }
{
    w.is_none_or(|n| !message::at_fault(id, n))
}

// Whether no field is against the table. Only these five can be: the others have one length, and any content.
#[tactic(auto, unfolding(crate::specs::Fitting::fitting))]
fn all_fit(m: Message) -> bool
    ensures { result ≡ fitting m }
{
    phrase_fits(m.cause)
        && identity_fits(m.granted)
        && content_fits(5, m.permission)
        && identity_fits(m.user)
        && content_fits(10, m.source)
}

// Whether a reader would accept the message.
#[tactic(auto, using(crate::proofs::Fits::readable_by))]
pub fn readable(m: Message, src: &[u8]) -> bool
    ensures { result ≡ readable m src.now }
{
    lies(m, src) && all_fit(m) && message::complete(m)
}
