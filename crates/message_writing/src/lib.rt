// A message that 40 octets hold (docs/FORMS.md, "A message") written as a packet, for C programs: straight out of the octets, its identities
// and its phrase out of a source that is lent beside them. No message is made on the way.
#![tactic(auto)]

ghost use Rattle.std.specs.Prelude.{◌≡◌, ◌&&◌, ◌+◌, ◌≤◌, ◌<◌, length};
ghost use Rattle.std.specs.Bool.{then_some};
ghost use Rattle.octets.specs.Octets.{be16, nth_octet, Laid};
ghost use Rattle.message.specs.Types.{typed};
ghost use Rattle.message.specs.Message.{required, has_all, part_lies, phrase_lies, lies};
ghost use Rattle.field_writing.specs.Wire.{body};
ghost use Rattle.readable.specs.Fitting.{Short, FieldsFit, phrase_fits, identity_fits, content_fits, fitting};
ghost use Rattle.writing.specs.Puts.{front_fields, rest_fields, front_size, rest_size};
ghost use Rattle.header.specs.Header.{header_size};
ghost use Rattle.message_octets.specs.Places.{type_place, fields_place, message_size};
ghost use Rattle.message_octets.specs.Held.{bit_of, is_set, place_at, unlisted_field, held_at, WritesOf};
ghost use Rattle.message_writing.specs.Writes.{cause_held, message_in, has_required, readable_in, short_size, text_size};

use field_writing::{field_size, put_field};
use message::{Has, MessageType, Part, QueueInfo, Refusal, RejectCause};
use message_octets::{
    ACK, CAUSE, DURATION, FIELDS, GRANTED, HAS_CAUSE, HAS_DURATION, HAS_GRANTED, HAS_INDICATOR,
    HAS_MESSAGE_TYPE, HAS_PERMISSION, HAS_PRIORITY, HAS_QUEUE, HAS_SEQUENCE, HAS_SOURCE,
    HAS_SSRC_FIELD, HAS_USER, INDICATOR, MESSAGE_SIZE, MESSAGE_TYPE, PERMISSION, PHRASE, PRIORITY,
    Placed, QUEUE, SEQUENCE, SOURCE, SSRC, SSRC_FIELD, TYPE, USER,
};

// The octets of a message, and their sixteen bits for the fields that it has.
#[derive(Clone, Copy)]
struct Held<'a> {
    octets: &'a [u8],
    fields: u16,
    ghost whole: { length octets.now ≡ message_size },
    ghost own: { fields ≡ be16 octets.now fields_place },
}

impl Held<'_> {
    fn is_set(&self, worth: u16) -> bool
        requires { 0 < worth }
        ensures { result ≡ bit_of self.now.fields worth }
    {
        self.fields / worth % 2 == 1
    }

    // What the octets hold of a field, if the bit of this worth says that the message has it.
    fn field<T: Placed>(&self, worth: u16, at: usize) -> Option<T>
        requires { (0 < worth) × (at + T.size ≤ message_size) }
        ensures { result ≡ then_some (bit_of self.now.fields worth) (T.held self.now.octets.now at) }
    {
        self.is_set(worth).then(|| T::get(self.octets, at))
    }

    // The cause stands at one place, where its phrase is at another.
    fn cause(&self) -> Option<RejectCause>
        ensures { result ≡ cause_held self.now.octets.now self.now.fields }
    {
        self.is_set(HAS_CAUSE).then(|| RejectCause {
            cause: octets::number16(self.octets, CAUSE),
            phrase: Part::get(self.octets, PHRASE),
        })
    }

    // Whether a bit is set for an ID that is not in the table: 7, 9, 11 or 15.
    fn has_unlisted(&self) -> bool
        ensures { result ≡ unlisted_field self.now.fields }
    {
        self.is_set(128) | self.is_set(512) | self.is_set(2048) | self.is_set(32768)
    }

    // Whether the bits of all fields that a type requires are set.
    fn has_all(&self, kind: MessageType) -> bool
        ensures { result ≡ has_all (is_set self.now.fields) (required kind) }
    {
        let has = Has {
            duration: self.is_set(HAS_DURATION),
            cause: self.is_set(HAS_CAUSE),
            queue: self.is_set(HAS_QUEUE),
            granted: self.is_set(HAS_GRANTED),
            sequence: self.is_set(HAS_SEQUENCE),
            source: self.is_set(HAS_SOURCE),
            message_type: self.is_set(HAS_MESSAGE_TYPE),
        };
        message::has_required(kind, has)
    }

    // Whether the type is listed, and the message has what it requires.
    fn has_required(&self) -> bool
        ensures { result ≡ has_required (typed (nth_octet self.now.octets.now type_place)) self.now.fields }
    {
        let Some(kind) = message::typed_by(self.octets[TYPE]) else {
            return false;
        };
        self.has_all(kind)
    }

    // Whether a field lies in the source and is as the table asks.

    fn part_fits(&self, worth: u16, at: usize, src: &[u8]) -> bool
        requires { (0 < worth) × (at + 4 ≤ message_size) }
        ensures { result
            ≡ (part_lies src.now (then_some (bit_of self.now.fields worth) (place_at self.now.octets.now at))
            && identity_fits (then_some (bit_of self.now.fields worth) (place_at self.now.octets.now at))) }
    {
        let part = self.field(worth, at);
        readable::part_lies(part, src) && readable::identity_fits(part)
    }

    fn cause_fits(&self, src: &[u8]) -> bool
        ensures { result
            ≡ (phrase_lies src.now (cause_held self.now.octets.now self.now.fields)
            && phrase_fits (cause_held self.now.octets.now self.now.fields)) }
    {
        let cause = self.cause();
        readable::phrase_lies(cause, src) && readable::phrase_fits(cause)
    }

    fn word_fits(&self, worth: u16, at: usize, id: u8) -> bool
        requires { (0 < worth) × (at + 2 ≤ message_size) }
        ensures { result ≡ content_fits id (then_some (bit_of self.now.fields worth) (be16 self.now.octets.now at)) }
    {
        readable::content_fits(id, self.field(worth, at))
    }

    // Whether the identities and the phrase are in the source, and no field is against the table.
    #[tactic(auto, using(crate::proofs::Laws::fits_order), unfolding(crate::specs::Writes::message_in, message_octets::specs::Held::message_with, message::specs::Message::lies, readable::specs::Fitting::fitting))]
    fn all_fit(&self, src: &[u8]) -> bool
        ensures { result
            ≡ (lies (message_in self.now.octets.now self.now.fields) src.now
            && fitting (message_in self.now.octets.now self.now.fields)) }
    {
        self.cause_fits(src)
            && self.part_fits(HAS_GRANTED, GRANTED, src)
            && self.word_fits(HAS_PERMISSION, PERMISSION, 5)
            && self.part_fits(HAS_USER, USER, src)
            && self.word_fits(HAS_SOURCE, SOURCE, 10)
    }

    // Whether the octets hold a message that a reader would accept.
    fn is_readable(&self, src: &[u8]) -> bool
        ensures { result ≡ readable_in (held_at self.now.octets.now) src.now }
    {
        if 1 < self.octets[ACK] {
            return false;
        }
        if self.has_unlisted() {
            return false;
        }
        self.has_required() && self.all_fit(src)
    }

    // The octets that all fields of one length take.
    #[tactic(auto, unfolding(crate::proofs::Forms::by_form))]
    fn short_size(&self) -> usize
        ensures value { result ≡ short_size (message_in self.now.octets.now self.now.fields) }
        ensures upper_bound { result ≤ 40 }
    {
        field_size(self.field::<u8>(HAS_PRIORITY, PRIORITY))
            + field_size(self.field::<u16>(HAS_DURATION, DURATION))
            + field_size(self.field::<QueueInfo>(HAS_QUEUE, QUEUE))
            + field_size(self.field::<u16>(HAS_PERMISSION, PERMISSION))
            + field_size(self.field::<u16>(HAS_SEQUENCE, SEQUENCE))
            + field_size(self.field::<u16>(HAS_SOURCE, SOURCE))
            + field_size(self.field::<u8>(HAS_MESSAGE_TYPE, MESSAGE_TYPE))
            + field_size(self.field::<u16>(HAS_INDICATOR, INDICATOR))
            + field_size(self.field::<u32>(HAS_SSRC_FIELD, SSRC_FIELD))
    }

    // The octets that the fields with a text take.
    #[tactic(auto, unfolding(crate::proofs::Forms::by_form))]
    fn text_size(&self) -> usize
        requires { Short (message_in self.now.octets.now self.now.fields) }
        ensures value { result ≡ text_size (message_in self.now.octets.now self.now.fields) }
        ensures upper_bound { result ≤ 388 }
    {
        field_size(self.cause())
            + field_size(self.field::<Part>(HAS_GRANTED, GRANTED))
            + field_size(self.field::<Part>(HAS_USER, USER))
    }

    // The octets of the whole packet. Where it has no field there is nothing to sum.
    fn size(&self) -> usize
        requires { Short (message_in self.now.octets.now self.now.fields) }
        ensures { result
            ≡ header_size + (front_size (message_in self.now.octets.now self.now.fields)
            + rest_size (message_in self.now.octets.now self.now.fields)) }
    {
        if self.fields == 0 {
            return header::HEADER;
        }
        header::HEADER + self.short_size() + self.text_size()
    }

    // Lays the fields 0 to 5, in ascending order.
    #[tactic(auto, unfolding(crate::proofs::Forms::by_form))]
    fn put_front(&self, room: &mut [u8], at: usize, src: &[u8]) -> usize
        requires fields_fit { FieldsFit (message_in self.now.octets.now self.now.fields) src.now }
        requires src_in_bounds { at + length (body (front_fields (message_in self.now.octets.now self.now.fields) src.now))
            ≤ length room.old }
        ensures { Laid room.old at (body (front_fields (message_in self.now.octets.now self.now.fields) src.now)) room.new result }
    {
        let priority = self.field::<u8>(HAS_PRIORITY, PRIORITY);
        let at = put_field(room, at, src, 0, priority);
        let duration = self.field::<u16>(HAS_DURATION, DURATION);
        let at = put_field(room, at, src, 1, duration);
        let cause = self.cause();
        let at = put_field(room, at, src, 2, cause);
        let queue = self.field::<QueueInfo>(HAS_QUEUE, QUEUE);
        let at = put_field(room, at, src, 3, queue);
        let granted = self.field::<Part>(HAS_GRANTED, GRANTED);
        let at = put_field(room, at, src, 4, granted);
        let permission = self.field::<u16>(HAS_PERMISSION, PERMISSION);
        put_field(room, at, src, 5, permission)
    }

    // Lays the fields 6 to 14, in ascending order.
    #[tactic(auto, unfolding(crate::proofs::Forms::by_form))]
    fn put_rest(&self, room: &mut [u8], at: usize, src: &[u8]) -> usize
        requires fields_fit { FieldsFit (message_in self.now.octets.now self.now.fields) src.now }
        requires src_in_bounds { at + length (body (rest_fields (message_in self.now.octets.now self.now.fields) src.now))
            ≤ length room.old }
        ensures { Laid room.old at (body (rest_fields (message_in self.now.octets.now self.now.fields) src.now)) room.new result }
    {
        let user = self.field::<Part>(HAS_USER, USER);
        let at = put_field(room, at, src, 6, user);
        let sequence = self.field::<u16>(HAS_SEQUENCE, SEQUENCE);
        let at = put_field(room, at, src, 8, sequence);
        let source = self.field::<u16>(HAS_SOURCE, SOURCE);
        let at = put_field(room, at, src, 10, source);
        let message_type = self.field::<u8>(HAS_MESSAGE_TYPE, MESSAGE_TYPE);
        let at = put_field(room, at, src, 12, message_type);
        let indicator = self.field::<u16>(HAS_INDICATOR, INDICATOR);
        let at = put_field(room, at, src, 13, indicator);
        let ssrc = self.field::<u32>(HAS_SSRC_FIELD, SSRC_FIELD);
        put_field(room, at, src, 14, ssrc)
    }
}

// Writes the message that octets hold as a packet, its identities and its phrase out of the lent source. The type and the Ack bit are
// numbers in their octets, so that the packet's first octet is a sum of them.
pub fn write_held(held: &[u8], source: &[u8], room: &mut [u8]) -> Result<usize, Refusal>
    ensures { WritesOf (held_at held.now) source.now room.old result room.new }
{
    if held.len() != MESSAGE_SIZE {
        return Err(Refusal::Unreadable);
    }
    let fields = octets::number16(held, FIELDS);
    let message = Held {
        octets: held,
        fields,
    };
    if !message.is_readable(source) {
        return Err(Refusal::Unreadable);
    }
    let size = message.size();
    if room.len() < size {
        return Err(Refusal::NoRoom);
    }
    let first = 128 + 16 * held[ACK] + held[TYPE];
    let ssrc = octets::number32(held, SSRC);
    header::put_header(room, first, ssrc, size);
    let at = message.put_front(room, header::HEADER, source);
    message.put_rest(room, at, source);
    Ok(size)
}
