// The reader that rests on a packet and hands out one field at a time (document 01, "The packet"): a struct that holds the packet and a
// place in it. Each function over it is thin: it takes the struct apart and leaves every decision to a function on the slice and the
// number. `reading` walks every packet through it; whoever has a packet and a place, and no reader, calls `handed`.
#![tactic(auto)]

ghost use Rattle.std.specs.Prelude.{◌≡◌};
ghost use Rattle.header.specs.Header.{header_size};
ghost use Rattle.field.specs.Fields.{step_at};
ghost use Rattle.reader.specs.Reader.{behind};

use field::FieldStep;

#[derive(Clone, Copy)]
pub struct Reader<'a> {
    pub packet: &'a [u8],
    pub at: usize,
}

// The place behind what stands at a place, once that is known. At the end and at a fault there is none to pass, and the place stays.
fn place_behind(step: FieldStep, at: usize) -> usize
    ensures { result ≡ behind step at }
{
    match step {
        FieldStep::Field(f) => f.next,
        FieldStep::Skipped(f) => f.next,
        FieldStep::End => at,
        FieldStep::PastTheEnd => at,
        FieldStep::AgainstTheTable(_) => at,
    }
}

// A reader rests on the packet's first field, behind the name.
pub fn rest<'a>(packet: &'a [u8]) -> Reader<'a>
    ensures { (result.packet ≡ packet.entry) × (result.at ≡ header_size) }
{
    Reader {
        packet,
        at: header::HEADER,
    }
}

// The field where the reader stands.
pub fn next<'a>(r: Reader<'a>) -> FieldStep
    ensures { result ≡ step_at r.entry.packet.now r.entry.at }
{
    field::field_at(r.packet, r.at)
}

// The reader moved on behind what it handed out.
pub fn moved<'a>(r: Reader<'a>, step: FieldStep) -> Reader<'a>
    ensures { (result.packet ≡ r.entry.packet) × (result.at ≡ behind step r.entry.at) }
{
    let at = place_behind(step, r.at);
    Reader {
        packet: r.packet,
        at,
    }
}

// What a reader hands out that stands at a place of the packet.
pub fn handed(packet: &[u8], at: usize) -> FieldStep
    ensures { result ≡ step_at packet.now at }
{
    next(Reader { packet, at })
}
