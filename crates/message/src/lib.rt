// A message, its types and the table of its fields (document 01, "The packet" and "What is answered to packets").
#![tactic(auto)]

ghost use Rattle.std.specs.Prelude.{◌≡◌, true, List, ℕ, ◌≤◌, ok_or};
ghost use Rattle.message.specs.Types.{typed, type_number};
ghost use Rattle.message.specs.Table.{listed, row_lengths, at_fault, against, padded, padding};
ghost use Rattle.message.specs.Answers.{refusal_number};
ghost use Rattle.message.specs.declared.Refusal.TheVariants.{UnlistedType};
ghost use Rattle.message.specs.Message.{said, required, has_all, complete};
ghost use Rattle.message.specs.Asked.{has_id};

// The ten types.
#[derive(Clone, Copy, PartialEq, Eq)]
pub enum MessageType {
    Request,
    Granted,
    Taken,
    Deny,
    Release,
    Idle,
    Revoke,
    QueuePositionRequest,
    QueuePositionInfo,
    Ack,
}

// What a field can hold beside a number: a place in line with its priority, a part of the lent source (where it begins, and how many
// octets it has), a cause with its phrase, such a part.
#[derive(Clone, Copy, PartialEq, Eq)]
pub struct QueueInfo {
    pub place: u8,
    pub priority: u8,
}

#[derive(Clone, Copy, PartialEq, Eq)]
pub struct Part {
    pub from: usize,
    pub count: usize,
}

#[derive(Clone, Copy, PartialEq, Eq)]
pub struct RejectCause {
    pub cause: u16,
    pub phrase: Part,
}

// A message as it is held: its fields in the table's order, identities and phrase as parts of a source that is lent beside it.
#[derive(Clone, Copy)]
pub struct Message {
    pub kind: MessageType,
    pub ack: bool,
    pub ssrc: u32,
    pub priority: Option<u8>,
    pub duration: Option<u16>,
    pub cause: Option<RejectCause>,
    pub queue: Option<QueueInfo>,
    pub granted: Option<Part>,
    pub permission: Option<u16>,
    pub user: Option<Part>,
    pub sequence: Option<u16>,
    pub source: Option<u16>,
    // field 12, "Message Type"
    pub message_type: Option<u8>,
    pub indicator: Option<u16>,
    // field 14, "SSRC"; the header's is `ssrc`
    pub ssrc_field: Option<u32>,
}

// The refusals 1 to 13 of document 01 in its order, and 14 of document 02, #107; `refusal_number` of specs/ gives each its number.
#[derive(Clone, Copy, PartialEq, Eq)]
pub enum Refusal {
    TooShort,
    TooLong,
    NotVersion2,
    Padded,
    NotApplication,
    WrongLength,
    NotNamed,
    UnlistedType,
    PastTheEnd,
    AgainstTheTable,
    Missing,
    Unreadable,
    NoRoom,
    Repeated,
}

// The type that a number names: 7 and 11 to 15 are not listed.
impl TryFrom<u8> for MessageType {
    type Error = Refusal;

    ghost try_from_gives = { λ low answer. answer ≡ ok_or (typed low) UnlistedType };

    fn try_from(low: u8) -> Result<Self, Refusal> {
        match low {
            0 => Ok(MessageType::Request),
            1 => Ok(MessageType::Granted),
            2 => Ok(MessageType::Taken),
            3 => Ok(MessageType::Deny),
            4 => Ok(MessageType::Release),
            5 => Ok(MessageType::Idle),
            6 => Ok(MessageType::Revoke),
            8 => Ok(MessageType::QueuePositionRequest),
            9 => Ok(MessageType::QueuePositionInfo),
            10 => Ok(MessageType::Ack),
            _ => Err(Refusal::UnlistedType),
        }
    }
}

// The number that names a type.
impl From<MessageType> for u8 {
    ghost from_gives = { λ kind n. n ≡ type_number kind };

    fn from(kind: MessageType) -> u8 {
        match kind {
            MessageType::Request => 0,
            MessageType::Granted => 1,
            MessageType::Taken => 2,
            MessageType::Deny => 3,
            MessageType::Release => 4,
            MessageType::Idle => 5,
            MessageType::Revoke => 6,
            MessageType::QueuePositionRequest => 8,
            MessageType::QueuePositionInfo => 9,
            MessageType::Ack => 10,
        }
    }
}

// Both by name.
pub fn typed_by(low: u8) -> Option<MessageType>
    ensures { result ≡ typed low }
{
    MessageType::try_from(low).ok()
}

pub fn type_number(kind: MessageType) -> u8
    ensures { result ≡ type_number kind }
{
    u8::from(kind)
}

impl From<Refusal> for u8 {
    ghost from_gives = { λ refusal n. n ≡ refusal_number refusal };

    fn from(refusal: Refusal) -> u8 {
        match refusal {
            Refusal::TooShort => 1,
            Refusal::TooLong => 2,
            Refusal::NotVersion2 => 3,
            Refusal::Padded => 4,
            Refusal::NotApplication => 5,
            Refusal::WrongLength => 6,
            Refusal::NotNamed => 7,
            Refusal::UnlistedType => 8,
            Refusal::PastTheEnd => 9,
            Refusal::AgainstTheTable => 10,
            Refusal::Missing => 11,
            Refusal::Unreadable => 12,
            Refusal::NoRoom => 13,
            Refusal::Repeated => 14,
        }
    }
}

// The number of a refusal.
pub fn refusal_number(r: Refusal) -> u8
    ensures { result ≡ refusal_number r }
{
    u8::from(r)
}

// The least and the greatest length of a field.
#[derive(Clone, Copy, PartialEq, Eq)]
struct Lengths {
    least: u8,
    greatest: u8,
}

// Of one with two octets, of a cause with its phrase, of an identity, of an SSRC and its spare octets, and of one that is skipped by its
// length: that any will do marks it, since no field of the table has these.
const PAIR: Lengths = Lengths {
    least: 2,
    greatest: 2,
};

const CAUSE: Lengths = Lengths {
    least: 2,
    greatest: 255,
};

const IDENTITY: Lengths = Lengths {
    least: 1,
    greatest: 62,
};

const SSRC: Lengths = Lengths {
    least: 6,
    greatest: 6,
};

const SKIPPED: Lengths = Lengths {
    least: 0,
    greatest: 255,
};

// The table, a row for each ID that it reaches. It is no const, which would be copied at each use; as an Option a row costs six instructions
// more for each field that is read.
static LENGTHS: [Lengths; 16] = [
    PAIR, // 0, Floor Priority
    PAIR, // 1, Duration
    CAUSE, // 2, Reject Cause
    PAIR, // 3, Queue Info
    IDENTITY, // 4, Granted Party's Identity
    PAIR, // 5, Permission to Request
    IDENTITY, // 6, User ID
    SKIPPED, // 7
    PAIR, // 8, Message Sequence-Number
    SKIPPED, // 9
    PAIR, // 10, Source
    SKIPPED, // 11
    PAIR, // 12, Message Type
    PAIR, // 13, Floor Indicator
    SSRC, // 14, SSRC
    SKIPPED, // 15
];

// What the table says of an ID. Every other one below 192 is skipped by its length: one that has the mark, and all from 16 on.
#[tactic(auto, using(std::proofs::lemmas::Bool::Decides::nat_tests), unfolding(crate::proofs::Rows::judging))]
fn lengths_of(id: u8) -> Lengths
    ensures { result ≡ row_lengths id }
{
    if id < 16 {
        return LENGTHS[id as usize];
    }
    SKIPPED
}

// Whether the table has an ID. This is the one place that says so.
pub fn is_listed(id: u8) -> bool
    ensures { result ≡ listed id }
{
    lengths_of(id) != SKIPPED
}

// Whether a field's content is at fault: only IDs 5 and 10 can be.
#[tactic(auto, using(std::proofs::lemmas::Bool::Decides::nat_tests), unfolding(crate::proofs::Rows::judging))]
pub fn at_fault(id: u8, number: u16) -> bool
    ensures { result ≡ at_fault id number }
{
    match id {
        5 => 1 < number,
        10 => 3 < number,
        _ => false,
    }
}

// Whether the length of a field of the table, or the number that its content begins with, is against the table.
#[tactic(auto, using(std::proofs::lemmas::Bool::Decides::nat_tests), unfolding(crate::specs::Table::against))]
pub fn against(id: u8, len: u8, number: u16) -> bool
    requires { listed id ≡ true }
    ensures { result ≡ against id len number }
{
    let row = lengths_of(id);
    len < row.least || row.greatest < len || at_fault(id, number)
}

// How many octets a field of this length takes: its ID, its length, its content and its padding. Reader and writer ask here.
#[tactic(auto, unfolding(crate::proofs::Paddings::filling))]
pub fn padded(len: usize) -> usize
    requires { len ≤ 255 }
    ensures { result ≡ padded len }
{
    2 + len + padding(len)
}

// How many of them are padding, "to a multiple of 4 counted from its ID". The ID and the length are 2 octets, so 2 + len are there. Filled
// up to a multiple of 4 they are (2 + len + 3) / 4 * 4: division cuts off, and with 3 more it cuts off nothing that is there. The padding
// is what came to them: 2, 1, 0, 3 octets for a length of 0, 1, 2, 3, and so on around. No other function knows this formula.
#[tactic(auto, unfolding(crate::specs::Table::padding))]
pub fn padding(len: usize) -> usize
    requires { len ≤ 255 }
    ensures { result ≡ padding len }
{
    (2 + len + 3) / 4 * 4 - (2 + len)
}

// Which of the fields that some type requires a message has.
#[derive(Clone, Copy)]
pub struct Has {
    pub duration: bool,
    pub cause: bool,
    pub queue: bool,
    pub granted: bool,
    pub sequence: bool,
    pub source: bool,
    pub message_type: bool,
}

// Whether every field that a type requires is there: the one place that knows which these are.
#[tactic(auto, unfolding(crate::proofs::Required::requiring))]
pub fn has_required(kind: MessageType, has: Has) -> bool
    ensures { result ≡ has_all (has_id has) (required kind) }
{
    match kind {
        MessageType::Request => true,
        MessageType::Granted => has.duration,
        MessageType::Taken => has.granted,
        MessageType::Deny => has.cause,
        MessageType::Release => true,
        MessageType::Idle => has.sequence,
        MessageType::Revoke => has.cause,
        MessageType::QueuePositionRequest => true,
        MessageType::QueuePositionInfo => has.queue,
        MessageType::Ack => has.source & has.message_type,
    }
}

// Whether a message has every field that its type requires.
pub fn complete(m: Message) -> bool
    ensures { (src : List ℕ) → result ≡ complete (said m src) }
{
    let has = Has {
        duration: m.duration.is_some(),
        cause: m.cause.is_some(),
        queue: m.queue.is_some(),
        granted: m.granted.is_some(),
        sequence: m.sequence.is_some(),
        source: m.source.is_some(),
        message_type: m.message_type.is_some(),
    };
    has_required(m.kind, has)
}
