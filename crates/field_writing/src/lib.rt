// One field written: how many octets it takes, and laid at a place (document 01, "The packet").
#![tactic(auto)]

ghost use Rattle.std.specs.Prelude.{◌≡◌, ℕ, List, Bool, true, [], ◌∷◌, ◌++◌, ◌+◌, ◌≤◌, length, leb, refl, option_map, IfSome};
ghost use Rattle.octets.specs.Octets.{octets16, octets32, part, over, Laid};
ghost use Rattle.octets.proofs.Numbers.{length16, length32};
ghost use Rattle.message.specs.Table.{padding, row_of};
ghost use Rattle.field_writing.specs.Wire.{optional};
ghost use Rattle.field_writing.specs.Puts.{size_of};
ghost use Rattle.field_writing.specs.Contents.{part_counts, cause_counts, octet_spared, number_spared, none_spared};

use message::{Part, QueueInfo, RejectCause};

// What a field of the table can hold. The text that some have lies in a source that is lent beside them.
pub trait Content: Copy {
    // its octets, without the spare ones, and how many they are; how many spare octets are behind them
    ghost octets: { List ℕ → Self → List ℕ };

    ghost count: { Self → ℕ };

    ghost SPARE: { ℕ };

    // whether its text lies in the source
    ghost lies: { List ℕ → Self → Bool };

    const SPARE: usize;

    fn count(self) -> usize
        requires { count self ≤ 255 }
        ensures { result ≡ count self };

    fn put(self, room: &mut [u8], at: usize, src: &[u8])
        requires lies { lies src.now self ≡ true }
        requires fits { at + count self ≤ length room.old }
        ensures { room.new ≡ over room.old at (octets src.now self) };

    ghost counts: { (src : List ℕ) (x : Self) → lies src x ≡ true → length (octets src x) ≡ count x };

    // the spare octets and the padding behind them are as many as the padding would be without spare ones
    ghost spared: { (x : Self) → SPARE + padding (count x + SPARE) ≡ padding (count x) };
}

impl Content for u8 {
    ghost octets = { λ src n. n ∷ [] };

    ghost count = { λ n. 1 };

    ghost SPARE = { 1 };

    ghost lies = { λ src n. true };

    ghost counts = { λ src n h. refl };

    ghost spared = { λ n. octet_spared };

    const SPARE: usize = 1;

    fn count(self) -> usize {
        1
    }

    fn put(self, room: &mut [u8], at: usize, _src: &[u8]) {
        room[at] = self;
    }
}

impl Content for u16 {
    ghost octets = { λ src n. octets16 n };

    ghost count = { λ n. 2 };

    ghost SPARE = { 0 };

    ghost lies = { λ src n. true };

    ghost counts = { λ src n h. length16 n };

    ghost spared = { λ n. none_spared 2 };

    const SPARE: usize = 0;

    fn count(self) -> usize {
        2
    }

    fn put(self, room: &mut [u8], at: usize, _src: &[u8]) {
        octets::put16(room, at, self);
    }
}

impl Content for u32 {
    ghost octets = { λ src n. octets32 n };

    ghost count = { λ n. 4 };

    ghost SPARE = { 2 };

    ghost lies = { λ src n. true };

    ghost counts = { λ src n h. length32 n };

    ghost spared = { λ n. number_spared };

    const SPARE: usize = 2;

    fn count(self) -> usize {
        4
    }

    fn put(self, room: &mut [u8], at: usize, _src: &[u8]) {
        octets::put32(room, at, self);
    }
}

impl Content for QueueInfo {
    ghost octets = { λ src q. q.place ∷ q.priority ∷ [] };

    ghost count = { λ q. 2 };

    ghost SPARE = { 0 };

    ghost lies = { λ src q. true };

    ghost counts = { λ src q h. refl };

    ghost spared = { λ q. none_spared 2 };

    const SPARE: usize = 0;

    fn count(self) -> usize {
        2
    }

    fn put(self, room: &mut [u8], at: usize, _src: &[u8]) {
        octets::put_pair(room, at, self.place, self.priority);
    }
}

impl Content for Part {
    ghost octets = { λ src p. part src p.from p.count };

    ghost count = { λ p. p.count };

    ghost SPARE = { 0 };

    ghost lies = { λ src p. leb (p.from + p.count) (length src) };

    ghost counts = { λ src p h. part_counts src p h };

    ghost spared = { λ p. none_spared p.count };

    const SPARE: usize = 0;

    fn count(self) -> usize {
        self.count
    }

    fn put(self, room: &mut [u8], at: usize, src: &[u8]) {
        copying::put_part(room, at, src, self.from, self.count);
    }
}

impl Content for RejectCause {
    ghost octets = { λ src c. octets16 c.cause ++ part src c.phrase.from c.phrase.count };

    ghost count = { λ c. c.phrase.count + 2 };

    ghost SPARE = { 0 };

    ghost lies = { λ src c. leb (c.phrase.from + c.phrase.count) (length src) };

    ghost counts = { λ src c h. cause_counts src c h };

    ghost spared = { λ c. none_spared (c.phrase.count + 2) };

    const SPARE: usize = 0;

    fn count(self) -> usize {
        self.phrase.count + 2
    }

    fn put(self, room: &mut [u8], at: usize, src: &[u8]) {
        octets::put16(room, at, self.cause);
        self.phrase.put(room, at + 2, src);
    }
}

// How many octets a field takes, none where the message lacks it: the whole result is known before anything is written.
pub fn field_size<T: Content>(held: Option<T>) -> usize
    requires { IfSome held (λ x. T.count x ≤ 255) }
    ensures { result ≡ size_of T.count held }
{
    match held {
        None => 0,
        Some(x) => message::padded(x.count()),
    }
}

// Lays a field at `at`, if the message has it, and answers where it ends.
pub fn put_field<T: Content>(
    room: &mut [u8],
    at: usize,
    src: &[u8],
    id: u8,
    held: Option<T>,
) -> usize
    requires spare { (row_of id).spare ≡ T.SPARE }
    requires short { IfSome held (λ x. T.count x + T.SPARE ≤ 255) }
    requires lies { IfSome held (λ x. T.lies src.now x ≡ true) }
    requires fits { at + length (optional id (option_map (T.octets src.now) held)) ≤ length room.old }
    ensures { Laid room.old at (optional id (option_map (T.octets src.now) held)) room.new result }
{
    let Some(x) = held else {
        return at;
    };
    let count = x.count();
    let spare = T::SPARE;
    let end = at + message::padded(count);
    // the last four octets are zeros at first: what is laid over them leaves the spare octets and the padding
    octets::put32(room, end - 4, 0);
    octets::put_pair(room, at, id, (count + spare) as u8);
    x.put(room, at + 2, src);
    end
}
