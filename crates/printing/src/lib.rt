// What the programs print with: a page, and what is printed on it by more than `write!` knows: octets in hexadecimal, letters, the seats of
// a set. Each says the text that it is printed as. And how the programs cut up what they print of.
#![tactic(auto)]

ghost use Rattle.std.specs.Prelude.{◌≡◌, ℕ, ◌+◌, ◌-◌, ◌<◌, ◌≤◌, length, slice_range, IsSome, IsOk, MatchOption, Err, Some, None, IfSome};
ghost use Rattle.std.specs.Io.KnownBytes.{Appends};
ghost use Rattle.std.specs.Iterator.{at_most};
ghost use Rattle.octets.specs.Octets.{part as part·of};
ghost use Rattle.printing.specs.Printed.{piece_start, index_of, count_in, octets_text, letter, letters_text, seats_text, Pieces, IsPiece};

use std::fmt::{self, Display};
use std::io::{self, Stdout, Write};

// What is printed on: what it is written to, and the first error that this answered. Nothing is written behind an error; the program ends
// with it.
#[derive(Drop)]
pub struct Page<W> {
    to: W,
    failure: Option<io::Error>,
}

// The page of a program.
pub type Printout = Page<Stdout>;

impl<W> Page<W> {
    // A page on which nothing has failed.
    pub fn new(to: W) -> Page<W>
        ensures { result.failure ≡ None }
    {
        Page { to, failure: None }
    }

    // The first error of what the page was written to, if there was one: no other error comes.
    pub fn close(self) -> io::Result<()>
    where
        W: Drop,
        ensures { MatchOption self.failure (IsOk result) (λ e. result ≡ Err e) }
    {
        let Page { to: _, failure } = self;
        match failure {
            None => Ok(()),
            Some(e) => Err(e),
        }
    }
}

impl<W: Write> Page<W> {
    // Octets as they are; how many they are. Where nothing has failed by the end, the page has got all of them and no others; one that had
    // failed stays as it was.
    pub fn text(&mut self, s: &[u8]) -> usize
        ensures count { result ≡ length s.now }
        ensures failed { IsSome self.old.failure → self.new ≡ self.old }
        ensures written { self.new.failure ≡ None → Appends (W.contents self.old.to) (W.contents self.new.to) s.now }
    {
        if self.failure.is_none() {
            self.failure = self.to.write_all(s).err();
        }
        s.len()
    }

    // What `write!` prints on a page, with the same promise of the text that it is.
    pub fn write_fmt<D: Display + Drop>(&mut self, text: D)
        ensures failed { IsSome self.old.failure → self.new ≡ self.old }
        ensures written { self.new.failure ≡ None → IfSome (D.output text) (Appends (W.contents self.old.to) (W.contents self.new.to)) }
    {
        if self.failure.is_none() {
            self.failure = self.to.write_fmt(text).err();
        }
    }
}

// Octets in hexadecimal, a space before each.
#[derive(Clone, Copy)]
pub struct Octets<'a>(pub &'a [u8]);

impl Display for Octets<'_> {
    ghost output = { λ octets. Some (octets_text octets.0.now) };

    fn fmt<W: fmt::Write>(&self, f: &mut fmt::Formatter<W>) -> fmt::Result {
        for &octet in self.0 {
            write!(f, " {octet:02x}")?;
        }
        Ok(())
    }
}

// Octets as text, where they are letters; a point for each that is none.
#[derive(Clone, Copy)]
pub struct Letters<'a>(pub &'a [u8]);

impl Display for Letters<'_> {
    ghost output = { λ letters. Some (letters_text letters.0.now) };

    fn fmt<W: fmt::Write>(&self, f: &mut fmt::Formatter<W>) -> fmt::Result {
        for &octet in self.0 {
            f.write_char(letter(octet))?;
        }
        Ok(())
    }
}

fn letter(octet: u8) -> char
    ensures { result ≡ letter octet }
{
    if 32 <= octet && octet < 127 {
        char::from(octet)
    } else {
        '.'
    }
}

// The seats of a set, a space before each, or nobody.
#[derive(Clone, Copy)]
pub struct Seats(pub [bool; 16]);

impl Seats {
    // How many they are.
    #[tactic(auto, using(crate::proofs::Printed::counted))]
    pub fn count(&self) -> usize
        ensures { result ≡ count_in self.now.0 16 }
    {
        self.0.iter().filter(|is_in| **is_in).count()
    }
}

impl Display for Seats {
    ghost output = { λ seats. Some (seats_text seats.0) };

    fn fmt<W: fmt::Write>(&self, f: &mut fmt::Formatter<W>) -> fmt::Result {
        if self.count() == 0 {
            return f.write_str(" nobody");
        }
        for (seat, is_in) in self.0.iter().enumerate() {
            if *is_in {
                write!(f, " {seat}")?;
            }
        }
        Ok(())
    }
}

// How many octets stand before the first mark; all of them, where there is none.
fn before_mark(s: &[u8], mark: u8) -> usize
    ensures count { result ≡ index_of mark s.now }
    ensures bound { result ≤ length s.now }
{
    s.iter().position(|b| *b == mark).unwrap_or(s.len())
}

// Where a mark stands first, from a place on; the end, where there is none.
pub fn find(s: &[u8], from: usize, mark: u8) -> usize
    requires { from ≤ length s.now }
    ensures place { result ≡ from + index_of mark (slice_range s.now from (length s.now)) }
    ensures begin { from ≤ result }
    ensures end { result ≤ length s.now }
{
    from + before_mark(&s[from..], mark)
}

// So many octets from a place on, as far as there are any: none from the end on.
#[tactic(auto, unfolding(octets::specs::Octets::part))]
pub fn part(s: &[u8], from: usize, count: usize) -> &[u8]
    ensures { result.now ≡ part·of s.now from count }
{
    let rest = &s[from.min(s.len())..];
    &rest[..count.min(rest.len())]
}

// The pieces of some octets, one after the other: a mark ends each, and the last may be without it.
#[derive(Clone, Copy)]
pub struct Cut<'a> {
    pub s: &'a [u8],
    pub mark: u8,
    // how many pieces were handed out, and where the next begins
    pub taken: usize,
    pub from: usize,
    ghost place: { from ≡ piece_start mark s.now taken },
    ghost begin: { (k : ℕ) → k < taken → piece_start mark s.now k < length s.now },
}

pub fn pieces(s: &[u8], mark: u8) -> Cut<'_>
    ensures octets { result.s.now ≡ s.now }
    ensures mark { result.mark ≡ mark }
    ensures taken { result.taken ≡ 0 }
{
    Cut {
        s,
        mark,
        taken: 0,
        from: 0,
    }
}

impl<'a> Iterator for Cut<'a> {
    type Item = &'a [u8];

    ghost remaining = { λ cut. at_most (length cut.s.now + 1 - cut.from) };

    ghost next_gives = { λ old r new. MatchOption r
        (Pieces old.mark old.s.now old.taken × (new ≡ old))
        (λ piece. IsPiece old.mark old.s.now old.taken piece.now × (new.s ≡ old.s) × (new.mark ≡ old.mark) × (new.taken ≡ old.taken + 1)) };

    fn next(&mut self) -> Option<&'a [u8]> {
        if self.s.len() <= self.from {
            return None;
        }
        let end = find(self.s, self.from, self.mark);
        let piece = &self.s[self.from..end];
        *self = Cut {
            s: self.s,
            mark: self.mark,
            taken: self.taken + 1,
            from: end + 1,
        };
        Some(piece)
    }
}
