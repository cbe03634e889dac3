// Reads packets from standard input, a line each, and prints what each is, as a lab sheet: its octets, the message with its fields or
// the refusal with its number, and what the writer makes of a message that was read. Then the edges of the writer.
//
// A line is a title, a colon, and the packet's octets in hexadecimal, a space before each; ` 00*254` stands for 254 octets of 00.
#![tactic(auto)]

ghost use Rattle.std.specs.Prelude.{◌≤◌};

use message::{Message, MessageType, Part, QueueInfo, Refusal, RejectCause};
use printing::{Letters, Octets, Page, Printout};
use std::fmt::{self, Display};
use std::io::{self, Read};

// A line of the sheet: its title and its octets.

// The hexadecimal digit at a place; 0 where there is none.
fn digit(s: &[u8], at: usize) -> u8
    ensures { result ≤ 15 }
{
    match s.get(at).copied() {
        Some(c @ b'0'..=b'9') => c - b'0',
        Some(c @ b'A'..=b'F') => c - b'A' + 10,
        _ => 0,
    }
}

// The number in the decimal digits of a text, the first four; 1 where it has none.
fn times(s: &[u8]) -> usize {
    let mut n = None;
    for c in printing::part(s, 0, 4) {
        if !c.is_ascii_digit() {
            break;
        }
        n = Some(n.unwrap_or(0) % 1000 * 10 + usize::from(c - b'0'));
    }
    n.unwrap_or(1)
}

// Puts an octet into a room, so often as the number behind its star says, as far as there is room; the next place.
fn take(s: &[u8], room: &mut [u8], at: usize) -> usize {
    let end = at
        .saturating_add(times(printing::part(s, 3, 4)))
        .min(room.len());
    if at < end {
        room[at..end].fill(digit(s, 0) * 16 + digit(s, 1));
    }
    end
}

// The octets of a text, a space between them; how many there are.
fn octets_in(s: &[u8], room: &mut [u8]) -> usize {
    let mut count = 0;
    for octet in printing::pieces(s, b' ') {
        count = take(octet, room, count);
    }
    count
}

// A packet as a person would want to see it.

// Octets in hexadecimal, at most so many of them.
#[derive(Clone, Copy)]
struct First<'a>(&'a [u8], usize);

impl Display for First<'_> {
    fn fmt<W: fmt::Write>(&self, f: &mut fmt::Formatter<W>) -> fmt::Result {
        let First(s, most) = *self;
        let more = if most < s.len() { " .." } else { "" };
        write!(f, "    {}{more}", Octets(printing::part(s, 0, most)))
    }
}

// Why a packet or a message is refused.
#[derive(Clone, Copy)]
struct Refused(Refusal);

impl Display for Refused {
    fn fmt<W: fmt::Write>(&self, f: &mut fmt::Formatter<W>) -> fmt::Result {
        let reason = match self.0 {
            Refusal::TooShort => "fewer than 12 octets",
            Refusal::TooLong => "more than 1,024 octets",
            Refusal::NotVersion2 => "version not 2",
            Refusal::Padded => "P set",
            Refusal::NotApplication => "octet 1 not 204",
            Refusal::WrongLength => "the length word does not fit the octets",
            Refusal::NotNamed => "name not MCPT",
            Refusal::UnlistedType => "type not listed",
            Refusal::PastTheEnd => "a padded field runs past the end",
            Refusal::AgainstTheTable => "a field against the table",
            Refusal::Missing => "a required field is missing",
            Refusal::Unreadable => "no reader would accept it",
            Refusal::NoRoom => "the room is too short",
            Refusal::Repeated => "a second field with its ID",
        };
        write!(f, "refused {}: {reason}", u8::from(self.0))
    }
}

// A type by its name.
#[derive(Clone, Copy)]
struct Named(MessageType);

impl Display for Named {
    fn fmt<W: fmt::Write>(&self, f: &mut fmt::Formatter<W>) -> fmt::Result {
        f.write_str(match self.0 {
            MessageType::Request => "Request",
            MessageType::Granted => "Granted",
            MessageType::Taken => "Taken",
            MessageType::Deny => "Deny",
            MessageType::Release => "Release",
            MessageType::Idle => "Idle",
            MessageType::Revoke => "Revoke",
            MessageType::QueuePositionRequest => "Queue Position Request",
            MessageType::QueuePositionInfo => "Queue Position Info",
            MessageType::Ack => "Ack",
        })
    }
}

// What fields hold that hold more than a number: a place in line, an identity, and a cause with its phrase. The latter two are parts of the
// packet that stands beside them.

#[derive(Clone, Copy)]
struct Place(QueueInfo);

impl Display for Place {
    fn fmt<W: fmt::Write>(&self, f: &mut fmt::Formatter<W>) -> fmt::Result {
        write!(f, "place {}, priority {}", self.0.place, self.0.priority)
    }
}

#[derive(Clone, Copy)]
struct Identity<'a>(Part, &'a [u8]);

impl Display for Identity<'_> {
    fn fmt<W: fmt::Write>(&self, f: &mut fmt::Formatter<W>) -> fmt::Result {
        let Identity(part, s) = *self;
        write!(
            f,
            "{} ({} octets)",
            Letters(reading::part_in(s, Some(part))),
            part.count
        )
    }
}

#[derive(Clone, Copy)]
struct Cause<'a>(RejectCause, &'a [u8]);

impl Display for Cause<'_> {
    fn fmt<W: fmt::Write>(&self, f: &mut fmt::Formatter<W>) -> fmt::Result {
        let Cause(cause, s) = *self;
        let between = if 0 < cause.phrase.count { ", " } else { "" };
        write!(
            f,
            "{}{between}{}",
            cause.cause,
            Letters(reading::part_in(s, Some(cause.phrase)))
        )
    }
}

// A field of the table, if the message has it.
fn show_field<T: Display + Drop>(page: &mut Printout, id: u8, name: &str, content: Option<T>) {
    if let Some(content) = content {
        writeln!(page, "{id:>8} {name:<26}{content}");
    }
}

// The fields that a message has, in the table's order.
fn show_fields(page: &mut Printout, m: &Message, s: &[u8]) {
    show_field(page, 0, "Floor Priority", m.priority);
    show_field(page, 1, "Duration", m.duration);
    show_field(
        page,
        2,
        "Reject Cause",
        m.cause.map(|cause| Cause(cause, s)),
    );
    show_field(page, 3, "Queue Info", m.queue.map(Place));
    show_field(
        page,
        4,
        "Granted Party's Identity",
        m.granted.map(|part| Identity(part, s)),
    );
    show_field(page, 5, "Permission to Request", m.permission);
    show_field(page, 6, "User ID", m.user.map(|part| Identity(part, s)));
    show_field(page, 8, "Message Sequence-Number", m.sequence);
    show_field(page, 10, "Source", m.source);
    show_field(page, 12, "Message Type", m.message_type);
    show_field(page, 13, "Floor Indicator", m.indicator);
    show_field(page, 14, "SSRC", m.ssrc_field);
}

// Writes the message again, and says whether that gives the same octets, and if not, which.
fn show_again(page: &mut Printout, m: Message, s: &[u8]) {
    let mut room = [0; 440];
    write!(page, "     written again ");
    match writing::write(m, s, &mut room) {
        Ok(n) if printing::part(&room, 0, n) == s => writeln!(
            page,
            "({n} octets): the same octets"
        ),
        Ok(n) => writeln!(
            page,
            "({n} octets):\n{} ",
            First(printing::part(&room, 0, n), 64)
        ),
        Err(refusal) => writeln!(page, "{}", Refused(refusal)),
    }
}

// The message, with its type, whether an Ack is asked for, and the sender, and what the writer makes of it.
fn show_message(page: &mut Printout, m: Message, s: &[u8]) {
    let asked = if m.ack { ", an Ack is asked for" } else { "" };
    writeln!(page, "     {}{asked}, SSRC {}", Named(m.kind), m.ssrc);
    show_fields(page, &m, s);
    show_again(page, m, s);
}

fn show_packet(page: &mut Printout, s: &[u8]) {
    writeln!(page, "{} ({} octets)", First(s, 32), s.len());
    match reading::read(s) {
        Ok(m) => show_message(page, m, s),
        Err(refusal) => writeln!(page, "     {}", Refused(refusal)),
    }
    writeln!(page);
}

// Prints one line of the sheet.
fn show_entry(page: &mut Printout, n: usize, line: &[u8]) {
    let mut room = [0; 1100];
    let colon = printing::find(line, 0, b':');
    write!(page, "{n}  ");
    page.text(&line[..colon]);
    writeln!(page);
    let count = octets_in(printing::part(line, colon + 2, line.len()), &mut room);
    show_packet(page, printing::part(&room, 0, count));
}

// The edges of the writer: messages that no packet could have brought, and rooms at and below the size of the result.

// A message of a type, with no field.
fn bare(kind: MessageType) -> Message {
    Message {
        kind,
        ack: false,
        ssrc: 1,
        priority: None,
        duration: None,
        cause: None,
        queue: None,
        granted: None,
        permission: None,
        user: None,
        sequence: None,
        source: None,
        message_type: None,
        indicator: None,
        ssrc_field: None,
    }
}

// A message with every field, its identities and its phrase parts of one source.
fn full(identity: usize, phrase: usize, permission: u16, source: u16) -> Message {
    Message {
        kind: MessageType::Ack,
        ack: true,
        ssrc: 0xFFFF_FFFF,
        priority: Some(255),
        duration: Some(65535),
        cause: Some(RejectCause {
            cause: 65535,
            phrase: Part {
                from: 0,
                count: phrase,
            },
        }),
        queue: Some(QueueInfo {
            place: 255,
            priority: 254,
        }),
        granted: Some(Part {
            from: 1,
            count: identity,
        }),
        permission: Some(permission),
        user: Some(Part {
            from: 2,
            count: identity,
        }),
        sequence: Some(65535),
        source: Some(source),
        message_type: Some(10),
        indicator: Some(0x8000),
        ssrc_field: Some(0x0102_0304),
    }
}

// Writes into the first octets of a space, and prints the answer and how the space begins then.
fn show_edge(page: &mut Printout, title: &str, m: Message, room: usize) {
    let mut space = [0xEE; 512];
    let end = room.min(space.len());
    write!(page, "  {title}: ");
    match writing::write(m, &[b'x'; 300], &mut space[..end]) {
        Ok(n) => writeln!(page, "written ({n} octets)"),
        Err(refusal) => writeln!(page, "{}", Refused(refusal)),
    }
    writeln!(page, "{} ", First(&space, 20));
}

fn show_edges(page: &mut Printout) {
    writeln!(page, "The writer's edges");
    show_edge(
        page,
        "Release in a room of 12",
        bare(MessageType::Release),
        12,
    );
    show_edge(
        page,
        "Release in a room of 11",
        bare(MessageType::Release),
        11,
    );
    show_edge(
        page,
        "Granted without a duration",
        bare(MessageType::Granted),
        512,
    );
    show_edge(
        page,
        "every field, in a room of 440",
        full(62, 253, 1, 3),
        440,
    );
    show_edge(
        page,
        "every field, in a room of 439",
        full(62, 253, 1, 3),
        439,
    );
    show_edge(page, "identities of 61", full(61, 253, 1, 3), 512);
}

fn show_refused_edges(page: &mut Printout) {
    writeln!(page, "What no reader would accept");
    show_edge(page, "identities of 63", full(63, 0, 0, 0), 512);
    show_edge(page, "identities of 0", full(0, 0, 0, 0), 512);
    show_edge(page, "a phrase of 254", full(1, 254, 0, 0), 512);
    show_edge(page, "permission 2", full(1, 0, 2, 0), 512);
    show_edge(page, "source 4", full(1, 0, 0, 4), 512);
    show_edge(page, "12 before 13", full(1, 0, 0, 4), 0);
}

// So many octets of the sheet are read.
const SHEET_ROOM: u64 = 65536;

fn main(rt: HostRuntime) -> io::Result<()> {
    let mut page = Page::new(rt.stdout());
    let mut sheet = Vec::new(rt.alloc());
    rt.reader().take(SHEET_ROOM).read_to_end(&mut sheet)?;
    for (line, n) in printing::pieces(sheet.as_slice(), b'\n').zip(1..) {
        show_entry(&mut page, n, line);
    }
    show_edges(&mut page);
    show_refused_edges(&mut page);
    page.close()
}
