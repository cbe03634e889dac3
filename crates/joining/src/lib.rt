// Join (document 01, "The desk"): whoever takes a seat, at a running call or from a sheet, comes through here.
#![tactic(auto, using(std::proofs::lemmas::Bool::Decides::nat_tests), unfolding(crate::proofs::Joins::joining))]

ghost use Rattle.std.specs.Prelude.{◌≡◌};
ghost use Rattle.hall.specs.Seats.{free_seat};
ghost use Rattle.joining.specs.Join.{join, seated, not_joined, ssrc_taken};

use hall::{Answer, Hall, Newcomer, Refusal};
use identities::Names;

// The answer, the seat that was taken, if any, and the hall and the names then: no Result, since who asked goes on with both either way.
#[derive(Clone, Copy)]
pub struct Joined {
    pub answer: Answer,
    pub seat: Option<u8>,
    pub hall: Hall,
    pub names: Names,
}

// 27.
fn ssrc_taken(hall: Hall, ssrc: u32) -> bool
    ensures { result ≡ ssrc_taken hall ssrc }
{
    ssrc == hall.settings.ssrc || hall::seat_of(hall, ssrc).is_some()
}

// The one way to take a seat: the lowest free one, if there is one.
fn take_seat(hall: Hall, names: Names, identity: &[u8], who: Newcomer) -> Joined
    ensures { result ≡ seated hall names identity.now who (free_seat hall) }
{
    let Some(seat) = hall::free_seat(hall) else {
        return not_joined(hall, names, Refusal::AllSeatsTaken);
    };
    let name = identities::name_of(identity);
    Joined {
        answer: Ok(()),
        seat: Some(seat),
        hall: hall::with_seat(hall, seat, true, who),
        names: identities::with_name(names, seat, name),
    }
}

fn not_joined(hall: Hall, names: Names, refusal: Refusal) -> Joined
    ensures { result ≡ not_joined hall names refusal }
{
    Joined {
        answer: Err(refusal),
        seat: None,
        hall,
        names,
    }
}

pub fn join_call(hall: Hall, names: Names, identity: &[u8], who: Newcomer) -> Joined
    ensures { result ≡ join hall names identity.now who }
{
    if !identities::allowed_length(identity) {
        return not_joined(hall, names, Refusal::IdentityLength);
    }
    if identities::seat_named(hall, names, identity).is_some() {
        return not_joined(hall, names, Refusal::IdentityPresent);
    }
    if ssrc_taken(hall, who.ssrc) {
        return not_joined(hall, names, Refusal::SsrcPresent);
    }
    take_seat(hall, names, identity, who)
}
