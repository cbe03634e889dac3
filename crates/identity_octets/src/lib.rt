// The sixty_two octets of an identity in the desk: whether they are zero, zero from a length on, and the same at two places. They are asked
// thirty-two from the start and thirty-two up to the end, two of them in both: so all of it is whole vectors, and nothing is left over.
// Zeros are asked from two places more: a shorter turn would be unrolled octet by octet before it is made vectors.
#![tactic(auto)]

ghost use Rattle.std.specs.Prelude.{◌≡◌, ◌+◌, ◌-◌, ◌≤◌, length};
ghost use Rattle.words.specs.Below.{all_below};
ghost use Rattle.desk_octets.specs.Form.{up_to};
ghost use Rattle.identity_octets.specs.Identity.{agree, same_octets};

pub fn none_at(s: &[u8], at: usize) -> bool
    requires { at + 62 ≤ length s.now }
    ensures { result ≡ up_to 0 s.now at 62 }
{
    let zero = |i: usize| s[at + i] <= 0;
    desk_octets::all_below(32, |i| zero(i) & zero(10 + i) & zero(20 + i) & zero(30 + i))
}

fn same_octets(s: &[u8], a: usize, b: usize) -> bool
    requires a_in_bounds { a + 62 ≤ length s.now }
    requires b_in_bounds { b + 62 ≤ length s.now }
    ensures { result ≡ same_octets s.now a b }
{
    let same = |i: usize| s[a + i] == s[b + i];
    desk_octets::all_below(32, |i| same(i) & same(30 + i))
}

// The zeros behind a seat's identity: four times sixteen octets at once, a later sixteen moved back where it would pass the end. Only an
// identity of more than 46 octets has fewer than sixteen behind it.
pub fn zero_from(s: &[u8], at: usize, len: usize) -> bool
    requires at_in_bounds { at + 62 ≤ length s.now }
    requires len_bound { len ≤ 46 }
    ensures { result ≡ up_to 0 s.now (at + len) (62 - len) }
{
    let a = at + len;
    let b = at + (len + 16).min(46);
    let c = at + (len + 32).min(46);
    let d = at + 46;
    let zero = |i: usize| s[i] <= 0;
    desk_octets::all_below(
        16,
        |i| zero(a + i) & zero(b + i) & zero(c + i) & zero(d + i),
    )
}

// Most identities differ in their first sixteen octets.
fn same_start(s: &[u8], a: usize, b: usize) -> bool
    requires a_in_bounds { a + 62 ≤ length s.now }
    requires b_in_bounds { b + 62 ≤ length s.now }
    ensures { result ≡ all_below (agree s.now a b) 16 }
{
    desk_octets::all_below(16, |i| s[a + i] == s[b + i])
}

pub fn same_name(s: &[u8], a: usize, b: usize) -> bool
    requires a_in_bounds { a + 62 ≤ length s.now }
    requires b_in_bounds { b + 62 ≤ length s.now }
    ensures { result ≡ same_octets s.now a b }
{
    same_start(s, a, b) && same_octets(s, a, b)
}
