// Identities, and the names of those who sit in a hall (document 01, "The desk"). Whether two identities are the same is tested here and
// nowhere else.
#![tactic(auto)]

ghost use Rattle.std.specs.Prelude.{◌≡◌, ◌≤◌, length};
ghost use Rattle.identities.specs.Identity.{octets_of, name_of, no_names, name_at, with_name, same, seat_named, length_allowed};

use hall::Hall;

// An identity: an array with its length, since the desk has no heap.
#[derive(Clone, Copy)]
pub struct Name {
    pub octets: [u8; 62],
    pub len: usize,
}

#[derive(Clone, Copy)]
pub struct Names {
    pub of: [Name; 16],
}

// A free seat's.
pub const NO_NAME: Name = Name {
    octets: [0; 62],
    len: 0,
};

#[tactic(auto, unfolding(crate::specs::Identity::no_names))]
pub fn no_names() -> Names
    ensures { result ≡ no_names }
{
    Names { of: [NO_NAME; 16] }
}

// How long a name is, and its octets.

pub fn name_length(name: Name) -> usize
    ensures { (result ≡ length (octets_of name)) × (result ≤ 62) }
{
    name.len.min(62)
}

fn octets_of(name: &Name) -> &[u8]
    ensures { result.now ≡ octets_of name.now }
{
    &name.octets[..name_length(*name)]
}

pub fn name_at(names: Names, seat: u8) -> Name
    ensures { result ≡ name_at names seat }
{
    hall::column_at(names.of, seat, NO_NAME)
}

#[tactic(auto, unfolding(crate::specs::Identity::with_name))]
pub fn with_name(names: Names, seat: u8, name: Name) -> Names
    ensures { result ≡ with_name names seat name }
{
    Names {
        of: hall::with_value(names.of, seat, name),
    }
}

pub fn name_of(identity: &[u8]) -> Name
    ensures { result ≡ name_of identity.now }
{
    let mut octets = [0; 62];
    let kept = identity.len().min(62);
    octets[..kept].copy_from_slice(&identity[..kept]);
    Name {
        octets,
        len: identity.len(),
    }
}

// Whether a name is this identity, octet for octet.
fn is_same(name: &Name, identity: &[u8]) -> bool
    ensures { result ≡ same (octets_of name.now) identity.now }
{
    octets_of(name) == identity
}

// Whether the name at a seat is this identity. It is read where it lies: by value all names would be copied for each seat.
fn is_named(names: &Names, seat: u8, identity: &[u8]) -> bool
    ensures { result ≡ same (octets_of (name_at names.now seat)) identity.now }
{
    let s = usize::from(seat);
    if s < 16 {
        return is_same(&names.of[s], identity);
    }
    let nobody = NO_NAME;
    is_same(&nobody, identity)
}

pub fn seat_named(hall: Hall, names: Names, identity: &[u8]) -> Option<u8>
    ensures { result ≡ seat_named hall names identity.now }
{
    (0..16).find(|s: &u8| hall::is_present(hall, *s) && is_named(&names, *s, identity))
}

// 25.
#[tactic(auto, using(std::proofs::lemmas::Bool::Decides::nat_tests), unfolding(crate::specs::Identity::length_allowed))]
pub fn allowed_length(identity: &[u8]) -> bool
    ensures { result ≡ length_allowed identity.now }
{
    let n = identity.len();
    1 <= n && n <= 62
}
