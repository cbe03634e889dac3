// An answer as C programs are told it: a number of 0 or more for what is done, minus the number of a refusal for what is not. Every
// exported function answers so, and comes through here.
#![tactic(auto)]

ghost use Rattle.std.specs.Prelude.{◌≡◌, ◌<◌, IfOk, MatchResult};
ghost use Rattle.message.specs.Answers.{Answer};
ghost use Rattle.signed.specs.Signed.{told_as, signed, RefusedBy};

// Octets that are no desk's: a refusal of the face alone, so no enum below has it.
pub const NO_DESK: u8 = 20;

pub fn found(n: u32) -> i32
    requires { n < 2147483648 }
    ensures { result ≡ signed (Answer.result n) }
{
    n as i32
}

// Minus a number of the paper: 0, which is done, stays 0.
pub fn refusal(n: u8) -> i32
    ensures { result ≡ told_as n }
{
    0 - (n as i32)
}

// Minus the number that a refusal has.
pub fn refused<E>(refusal_of: E) -> i32
where
    u8: From<E>,
    ensures { RefusedBy (⟦<u8 as From<E>>⟧.from_gives refusal_of) result }
{
    refusal(u8::from(refusal_of))
}

// What is done as a number of 0 or more; what is refused as its refusal is.
pub fn told<E>(answer: Result<usize, E>) -> i32
where
    u8: From<E>,
    requires { IfOk answer (λ n. n < 2147483648) }
    ensures { MatchResult answer (λ n. result ≡ signed (Answer.result n)) (λ e. RefusedBy (⟦<u8 as From<E>>⟧.from_gives e) result) }
{
    match answer {
        Ok(n) => n as i32,
        Err(e) => refused(e),
    }
}
