// A packet as an event of the call (document 01, "The desk").
#![tactic(auto)]

ghost use Rattle.std.specs.Prelude.{◌≡◌, ◌+◌, ◌≤◌, length};
ghost use Rattle.octets.specs.Octets.{be32};
ghost use Rattle.reading.specs.Reading.{octet_at};
ghost use Rattle.packet_events.specs.PacketEvents.{event_by, refusal_in, hears};

use events::Event;
use hall::{Hall, Refusal};
use message::MessageType;
use steps::{Core, Step};

// The event that a message is: Request, Release and Queue Position Request have a rule, all others get 23 if they are heard at all.
fn event_by(kind: MessageType, ssrc: u32, asked: Option<u8>) -> Event
    ensures { result ≡ event_by kind ssrc asked }
{
    match kind {
        MessageType::Request => Event::Request(ssrc, asked),
        MessageType::Release => Event::Release(ssrc),
        MessageType::QueuePositionRequest => Event::Position(ssrc),
        _ => Event::Other(ssrc),
    }
}

// The event that a packet is which was read: of its message only the type, the SSRC and the priority asked for make it.
fn event_at(packet: &[u8], kind: MessageType, priority: usize) -> Event
    requires in_bounds { 8 ≤ length packet.now }
    requires priority_in_bounds { priority + 2 ≤ length packet.now }
    ensures { result ≡ event_by kind (be32 packet.now 4) (octet_at packet.now priority) }
{
    let asked = reading::octet_at(packet, priority);
    event_by(kind, octets::number32(packet, 4), asked)
}

// The number of the reader's refusal; 0 where it read.
fn refusal_in(answer: Result<MessageType, message::Refusal>) -> u8
    ensures { result ≡ refusal_in answer }
{
    match answer {
        Ok(_) => 0,
        Err(r) => message::refusal_number(r),
    }
}

// A packet comes in: only one that was read becomes an event.
#[tactic(auto, unfolding(crate::specs::PacketEvents::hears, crate::specs::PacketEvents::event_of, reading::specs::Reading::message_at))]
pub fn hear(core: Core, hall: Hall, packet: &[u8]) -> Step
    ensures { result ≡ hears core hall packet.now }
{
    let mut starts = [0usize; 16];
    let answer = reading::judge(packet, &mut starts);
    let Ok(kind) = answer else {
        return steps::answer(core, Err(Refusal::NotRead(refusal_in(answer))));
    };
    let event = event_at(packet, kind, starts[0]);
    events::make_step(core, hall, event)
}
