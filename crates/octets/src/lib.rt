// Big-endian numbers among octets. Nothing here knows of packets.
#![tactic(auto)]

ghost use Rattle.std.specs.Prelude.{◌≡◌, [], ◌∷◌, ◌+◌, ◌≤◌, length};
ghost use Rattle.octets.specs.Octets.{be16, be32, octets16, octets32, over};

// An octet as a number that counts or places.
pub fn wide(x: u8) -> usize
    ensures { result ≡ x }
{
    x as usize
}

// The number in the two octets from `at` on.
pub fn number16(s: &[u8], at: usize) -> u16
    requires { at + 2 ≤ length s.now }
    ensures { result ≡ be16 s.now at }
{
    (s[at] as u16) * 256 + (s[at + 1] as u16)
}

// The number in the four octets from `at` on.
pub fn number32(s: &[u8], at: usize) -> u32
    requires { at + 4 ≤ length s.now }
    ensures { result ≡ be32 s.now at }
{
    (number16(s, at) as u32) * 65536 + (number16(s, at + 2) as u32)
}

// Writes two octets at `at`.
pub fn put_pair(room: &mut [u8], at: usize, first: u8, second: u8)
    requires { at + 2 ≤ length room.old }
    ensures { room.new ≡ over room.old at (first ∷ second ∷ []) }
{
    room[at] = first;
    room[at + 1] = second;
}

// Writes a number as two octets at `at`.
pub fn put16(room: &mut [u8], at: usize, n: u16)
    requires { at + 2 ≤ length room.old }
    ensures { room.new ≡ over room.old at (octets16 n) }
{
    put_pair(room, at, (n / 256) as u8, (n % 256) as u8);
}

// Writes a number as four octets at `at`.
pub fn put32(room: &mut [u8], at: usize, n: u32)
    requires { at + 4 ≤ length room.old }
    ensures { room.new ≡ over room.old at (octets32 n) }
{
    put16(room, at, (n / 65536) as u16);
    put16(room, at + 2, (n % 65536) as u16);
}
