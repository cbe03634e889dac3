// A packet's first twelve octets (document 01, "The packet"), read, which is checks 1 to 8 ("What is answered to packets"), and written.
#![tactic(auto)]

ghost use Rattle.std.specs.Prelude.{◌≡◌, ◌≤◌, length};
ghost use Rattle.octets.specs.Octets.{over};
ghost use Rattle.header.specs.Header.{header_size, longest_packet, ends, first_octet, headed};
ghost use Rattle.header.specs.Opening.{Opens};

use message::{MessageType, Refusal};

// Where the length, SSRC and the name stand; the fields stand behind them.
const LENGTH: usize = 2;

pub const SSRC: usize = 4;

const NAME: usize = 8;

pub const HEADER: usize = 12;

// The name MCPT, big-endian.
const MCPT: u32 = 0x4D43_5054;

// Where a packet ends, by what its length says.
#[tactic(auto, unfolding(crate::specs::Header::ends))]
pub fn packet_end(s: &[u8]) -> usize
    requires { 4 ≤ length s.now }
    ensures { result ≡ ends s.now }
{
    4 * (octets::number16(s, LENGTH) as usize + 1)
}

// Checks 1 to 8, in that order; then the packet is one of a type.
#[tactic(auto, using(std::proofs::lemmas::Bool::Decides::nat_tests), unfolding(crate::proofs::Openings::checks))]
pub fn opened(s: &[u8]) -> Result<MessageType, Refusal>
    ensures { Opens s.now result }
{
    if s.len() < HEADER {
        return Err(Refusal::TooShort);
    }
    if 1024 < s.len() {
        return Err(Refusal::TooLong);
    }
    let first = s[0];
    if first / 64 != 2 {
        return Err(Refusal::NotVersion2);
    }
    let second = s[1];
    if first / 32 % 2 == 1 {
        return Err(Refusal::Padded);
    }
    if second != 204 {
        return Err(Refusal::NotApplication);
    }
    if packet_end(s) != s.len() {
        return Err(Refusal::WrongLength);
    }
    if octets::number32(s, NAME) != MCPT {
        return Err(Refusal::NotNamed);
    }
    MessageType::try_from(first % 16)
}

// Version 2, P not set, the Ack bit and the type.
#[tactic(auto, unfolding(crate::proofs::Headers::laying))]
pub fn first_octet(kind: MessageType, ack: bool) -> u8
    ensures { result ≡ first_octet kind ack }
{
    128 + 16 * u8::from(ack) + message::type_number(kind)
}

// Lays the header of a packet that has this first octet and `size` octets in all: its length is told in 32-bit words less one.
pub fn put_header(room: &mut [u8], first: u8, ssrc: u32, size: usize)
    requires header_size_le_size { (header_size ≤ size) × (size ≤ longest_packet) }
    requires header_size_in_bounds { header_size ≤ length room.old }
    ensures { room.new ≡ over room.old 0 (headed first ssrc size) }
{
    octets::put_pair(room, 0, first, 204);
    octets::put16(room, LENGTH, (size / 4 - 1) as u16);
    octets::put32(room, SSRC, ssrc);
    octets::put32(room, NAME, MCPT);
}
