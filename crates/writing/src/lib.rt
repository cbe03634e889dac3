// The writer (document 01, "The packet" and "What is answered to packets", 12 and 13).
#![tactic(auto)]

ghost use Rattle.std.specs.Prelude.{◌≡◌, ◌+◌, ◌≤◌, length};
ghost use Rattle.octets.specs.Octets.{Laid};
ghost use Rattle.header.specs.Header.{header_size};
ghost use Rattle.readable.specs.Fitting.{Short, FieldsFit};
ghost use Rattle.field_writing.specs.Wire.{body};
ghost use Rattle.writing.specs.Writing.{Writes};
ghost use Rattle.writing.specs.Puts.{front_fields, rest_fields, front_size, rest_size};

use message::{Message, Refusal};

// The octets that the fields 0 to 5 take. Fields hold six kinds of content, and no array or iterator holds them all: they are named.
fn front_size(m: Message) -> usize
    requires { Short m }
    ensures { result ≡ front_size m }
{
    field_writing::field_size(m.priority)
        + field_writing::field_size(m.duration)
        + field_writing::field_size(m.cause)
        + field_writing::field_size(m.queue)
        + field_writing::field_size(m.granted)
        + field_writing::field_size(m.permission)
}

// The octets that the fields 6 to 14 take.
fn rest_size(m: Message) -> usize
    requires { Short m }
    ensures { result ≡ rest_size m }
{
    field_writing::field_size(m.user)
        + field_writing::field_size(m.sequence)
        + field_writing::field_size(m.source)
        + field_writing::field_size(m.message_type)
        + field_writing::field_size(m.indicator)
        + field_writing::field_size(m.ssrc_field)
}

// The octets of the whole packet.
fn size_of(m: Message) -> usize
    requires { Short m }
    ensures { result ≡ header_size + (front_size m + rest_size m) }
{
    header::HEADER + (front_size(m) + rest_size(m))
}

// Lays the fields 0 to 5, in ascending order.
#[tactic(auto, unfolding(crate::proofs::Spares::by_table))]
fn put_front(room: &mut [u8], at: usize, src: &[u8], m: Message) -> usize
    requires fields_fit { FieldsFit m src.now }
    requires src_in_bounds { at + length (body (front_fields m src.now)) ≤ length room.old }
    ensures { Laid room.old at (body (front_fields m src.now)) room.new result }
{
    let at = field_writing::put_field(room, at, src, 0, m.priority);
    let at = field_writing::put_field(room, at, src, 1, m.duration);
    let at = field_writing::put_field(room, at, src, 2, m.cause);
    let at = field_writing::put_field(room, at, src, 3, m.queue);
    let at = field_writing::put_field(room, at, src, 4, m.granted);
    field_writing::put_field(room, at, src, 5, m.permission)
}

// Lays the fields 6 to 14, in ascending order.
#[tactic(auto, unfolding(crate::proofs::Spares::by_table))]
fn put_rest(room: &mut [u8], at: usize, src: &[u8], m: Message) -> usize
    requires fields_fit { FieldsFit m src.now }
    requires src_in_bounds { at + length (body (rest_fields m src.now)) ≤ length room.old }
    ensures { Laid room.old at (body (rest_fields m src.now)) room.new result }
{
    let at = field_writing::put_field(room, at, src, 6, m.user);
    let at = field_writing::put_field(room, at, src, 8, m.sequence);
    let at = field_writing::put_field(room, at, src, 10, m.source);
    let at = field_writing::put_field(room, at, src, 12, m.message_type);
    let at = field_writing::put_field(room, at, src, 13, m.indicator);
    field_writing::put_field(room, at, src, 14, m.ssrc_field)
}

// Writes a message into the lent room, its identities and its phrase out of the lent source, and answers how many octets it has. A
// refusal, 12 before 13, writes nothing; the room past the packet is left as it was.
pub fn write(m: Message, src: &[u8], room: &mut [u8]) -> Result<usize, Refusal>
    ensures { Writes m src.now room.old result room.new }
{
    if !readable::readable(m, src) {
        return Err(Refusal::Unreadable);
    }
    let size = size_of(m);
    if room.len() < size {
        return Err(Refusal::NoRoom);
    }
    let first = header::first_octet(m.kind, m.ack);
    header::put_header(room, first, m.ssrc, size);
    let at = put_front(room, header::HEADER, src, m);
    put_rest(room, at, src, m);
    Ok(size)
}
