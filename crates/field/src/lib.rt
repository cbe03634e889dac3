// One field of a packet, judged on the packet and a place in it (document 01, "The packet" and "What is answered to packets", 9 and 10).
#![tactic(auto)]

ghost use Rattle.std.specs.Prelude.{◌≡◌, ◌+◌, ◌≤◌, ◌<◌, ◌^◌, length};
ghost use Rattle.message.specs.Table.{padded};
ghost use Rattle.field.specs.Fields.{step_at};

// A field: its ID, where its content starts, its length, and where the next field starts.
#[derive(Clone, Copy)]
pub struct FieldFound {
    pub id: u8,
    pub start: usize,
    pub len: usize,
    pub next: usize,
}

// What stands at a place of a packet: a field of the table, one that is skipped, the packet's end, or a field that is at fault. One that is
// against the table is told with its ID: whoever knows that it came before gives 14 in place of 10.
#[derive(Clone, Copy)]
pub enum FieldStep {
    Field(FieldFound),
    Skipped(FieldFound),
    End,
    PastTheEnd,
    AgainstTheTable(u8),
}

// An ID from here on is at fault.
const HIGH: u8 = 192;

// The octets of the shortest field: its ID, its length, and content or padding up to a multiple of 4.
const SHORTEST: usize = 4;

// Where the next field starts: behind all that this one takes, counted from its ID.
fn after(at: usize, len: u8) -> usize
    requires { at < 2 ^ 63 }
    ensures { result ≡ at + padded len }
{
    at + message::padded(len as usize)
}

// Judges a field, where as many octets are left as the shortest has.
fn judged_at(s: &[u8], at: usize) -> FieldStep
    requires { at + 4 ≤ length s.now }
    ensures { result ≡ step_at s.now at }
{
    let id = s[at];
    if HIGH <= id {
        return FieldStep::AgainstTheTable(id);
    }
    let len = s[at + 1];
    let next = after(at, len);
    if s.len() < next {
        return FieldStep::PastTheEnd;
    }
    let found = FieldFound {
        id: id,
        start: at + 2,
        len: len as usize,
        next: next,
    };
    // the table is asked once whether it has the ID: what is handed out says so, and nobody asks again
    if message::is_listed(id) {
        if message::against(id, len, octets::number16(s, at + 2)) {
            return FieldStep::AgainstTheTable(id);
        }
        return FieldStep::Field(found);
    }
    FieldStep::Skipped(found)
}

// Where fewer octets are left: the packet's end, or a field that is cut short.
fn cut_at(s: &[u8], at: usize) -> FieldStep
    requires { length s.now < at + 4 }
    ensures { result ≡ step_at s.now at }
{
    if s.len() <= at {
        return FieldStep::End;
    }
    let id = s[at];
    if HIGH <= id {
        return FieldStep::AgainstTheTable(id);
    }
    FieldStep::PastTheEnd
}

// Judges the field that starts at a place, by itself.
pub fn field_at(s: &[u8], at: usize) -> FieldStep
    ensures { result ≡ step_at s.now at }
{
    if s.len() < SHORTEST {
        return cut_at(s, at);
    }
    // whether the packet ends here is asked only where fewer octets are left, so that a field costs one comparison less
    if at <= s.len() - SHORTEST {
        return judged_at(s, at);
    }
    cut_at(s, at)
}
