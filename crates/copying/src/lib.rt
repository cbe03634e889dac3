// Copies of octets: a part of some laid over a room, and zeros. Nothing here knows of packets.
#![tactic(auto)]

ghost use Rattle.std.specs.Prelude.{◌≡◌, ◌+◌, ◌≤◌, length, replicate};
ghost use Rattle.octets.specs.Octets.{part, over};

// Copies N octets through a block of their own, which nothing else can reach: a machine then moves them at once, and calls nothing for it.
#[tactic(auto, using(octets::proofs::Over::length_part), unfolding(octets::specs::Octets::over, octets::specs::Octets::part))]
fn put_block<const N: usize>(room: &mut [u8], at: usize, s: &[u8], from: usize)
    requires at_in_bounds { at + N ≤ length room.old }
    requires from_in_bounds { from + N ≤ length s.now }
    ensures { room.new ≡ over room.old at (part s.now from N) }
{
    let mut block = [0; N];
    block.copy_from_slice(&s[from..from + N]);
    room[at..at + N].copy_from_slice(&block);
}

// Copies two blocks of N octets, one where the part starts and one where it ends.
fn put_ends<const N: usize>(room: &mut [u8], at: usize, s: &[u8], from: usize, count: usize)
    requires block_in_count { N ≤ count }
    requires count_in_blocks { count ≤ N + N }
    requires count_in_bounds { at + count ≤ length room.old }
    requires count_in_bounds_2 { from + count ≤ length s.now }
    ensures { room.new ≡ over room.old at (part s.now from count) }
{
    let last = count - N;
    put_block::<N>(room, at, s, from);
    put_block::<N>(room, at + last, s, from + last);
}

// Copies blocks of 64 octets. The last ends where the part ends, and writes again some of what stands there already. A `while`, by
// what is left: where LLVM can count the turns it unrolls the loop, and sets up more than it spares.
fn put_long(room: &mut [u8], at: usize, s: &[u8], from: usize, count: usize)
    requires le_count { 64 ≤ count }
    requires count_in_bounds { at + count ≤ length room.old }
    requires count_in_bounds_2 { from + count ≤ length s.now }
    ensures { room.new ≡ over room.old at (part s.now from count) }
{
    let mut i = 0;
    while 64 < count - i {
        put_block::<64>(room, at + i, s, from + i);
        i += 64;
    }
    let last = count - 64;
    put_block::<64>(room, at + last, s, from + last);
}

// Copies the part of `s` that begins at `from` and has `count` octets into the room at `at`. By copy_from_slice it would call memmove, which no
// other function of the archive for C needs. Not inlined: the writer calls it for each of three parts, and would set up three loops.
#[inline(never)]
pub fn put_part(room: &mut [u8], at: usize, s: &[u8], from: usize, count: usize)
    requires count_in_bounds { at + count ≤ length room.old }
    requires count_in_bounds_2 { from + count ≤ length s.now }
    ensures { room.new ≡ over room.old at (part s.now from count) }
{
    match count {
        64.. => put_long(room, at, s, from, count),
        32.. => put_ends::<32>(room, at, s, from, count),
        16.. => put_ends::<16>(room, at, s, from, count),
        8.. => put_ends::<8>(room, at, s, from, count),
        4.. => put_ends::<4>(room, at, s, from, count),
        2.. => put_ends::<2>(room, at, s, from, count),
        1 => put_block::<1>(room, at, s, from),
        0 => {}
    }
}

// Writes `count` zero octets at `at`.
#[tactic(auto, unfolding(octets::specs::Octets::over))]
pub fn put_zeros(room: &mut [u8], at: usize, count: usize)
    requires { at + count ≤ length room.old }
    ensures { room.new ≡ over room.old at (replicate count 0) }
{
    room[at..at + count].fill(0);
}
