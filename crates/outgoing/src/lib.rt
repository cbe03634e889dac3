// An outgoing message as a packet (document 01, "The desk").
#![tactic(auto)]

ghost use Rattle.std.specs.Prelude.{◌≡◌, None, Some};
ghost use Rattle.outgoing.specs.Outgoing.{carrying, bare_cause, outgoing, Sends};

use hall::Settings;
use message::{Message, MessageType, Part, QueueInfo, Refusal, RejectCause};
use steps::Kind;

// A message with no field, no phrase and no Ack bit.
fn bare(kind: MessageType, ssrc: u32) -> Message
    ensures { result ≡ carrying kind ssrc None None None None None None None }
{
    Message {
        kind,
        ack: false,
        ssrc,
        priority: None,
        duration: None,
        cause: None,
        queue: None,
        granted: None,
        permission: None,
        user: None,
        sequence: None,
        source: None,
        message_type: None,
        indicator: None,
        ssrc_field: None,
    }
}

// Deny and Revoke have a cause and no phrase.
fn caused(kind: MessageType, ssrc: u32, cause: u16) -> Message
    ensures { result ≡ carrying kind ssrc None None (Some (bare_cause cause)) None None None None }
{
    let phrase = Part { from: 0, count: 0 };
    Message {
        cause: Some(RejectCause { cause, phrase }),
        ..bare(kind, ssrc)
    }
}

// The packet that an outgoing message is, if there is one; the identity that Taken names has `count` octets.
#[tactic(auto, unfolding(crate::specs::Outgoing::outgoing))]
fn to_send(settings: Settings, kind: Kind, count: usize) -> Option<Message>
    ensures { result ≡ outgoing settings kind count }
{
    let ssrc = settings.ssrc;
    let message = match kind {
        Kind::Nothing => return None,
        Kind::Granted(priority) => Message {
            priority: Some(priority),
            duration: Some(settings.duration),
            ..bare(MessageType::Granted, ssrc)
        },
        Kind::Taken(_, sequence) => Message {
            granted: Some(Part { from: 0, count }),
            permission: Some(1),
            sequence: Some(sequence),
            ..bare(MessageType::Taken, ssrc)
        },
        Kind::Deny(why) => caused(MessageType::Deny, ssrc, why),
        Kind::Idle(sequence) => Message {
            sequence: Some(sequence),
            ..bare(MessageType::Idle, ssrc)
        },
        Kind::Revoke(why) => caused(MessageType::Revoke, ssrc, why),
        Kind::Info(place, priority) => Message {
            queue: Some(QueueInfo { place, priority }),
            ..bare(MessageType::QueuePositionInfo, ssrc)
        },
    };
    Some(message)
}

// Writes an outgoing message as a packet. `identity` is that of the seat that Taken names; it rests where the desk keeps it.
pub fn send(
    settings: Settings,
    kind: Kind,
    identity: &[u8],
    room: &mut [u8],
) -> Result<usize, Refusal>
    ensures { Sends settings kind identity.now room.old result room.new }
{
    match to_send(settings, kind, identity.len()) {
        None => Ok(0),
        Some(m) => writing::write(m, identity, room),
    }
}
