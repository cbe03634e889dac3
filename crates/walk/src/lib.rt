// All fields of a packet (document 01, "The packet" and "What is answered to packets", 9 and 10; document 02, #107, 14), as the reader that
// rests on the packet hands them out: where the content of each field of the table starts, in an array with a place for each ID below 16.
// The array is also the memory of what came before: no walk looks back over the packet.
#![tactic(auto)]

ghost use Rattle.std.specs.Prelude.{◌≡◌, not};
ghost use Rattle.field.specs.Fields.{fields_in};
ghost use Rattle.walk.specs.Walk.{has_come, noted, is_passed, noted_step, ended_by, no_starts, Walked};

use field::FieldStep;
use message::Refusal;

// Whether a field with this ID has been noted. From 16 on the table has none.
fn has_come(starts: &[usize; 16], id: u8) -> bool
    ensures { result ≡ has_come starts.now id }
{
    id < 16 && starts[id as usize] != 0
}

// Notes where the content of a field starts, if none with its ID came before; whether that is so.
#[tactic(auto, using(std::proofs::lemmas::Bool::Decides::nat_tests), unfolding(crate::proofs::Walks::noting))]
fn note(starts: &mut [usize; 16], id: u8, start: usize) -> bool
    ensures { (result ≡ not (has_come starts.old id)) × (starts.new ≡ noted starts.old id start) }
{
    if has_come(starts, id) {
        return false;
    }
    if id < 16 {
        starts[id as usize] = start;
    }
    true
}

// Notes what was handed out, where it is a field of the table that may stand there; whether the walk goes on behind it. A field that is
// skipped is not noted, and may come again.
pub fn noted_field(starts: &mut [usize; 16], step: FieldStep) -> bool
    ensures { (result ≡ is_passed starts.old step) × (starts.new ≡ noted_step starts.old step) }
{
    match step {
        FieldStep::Field(f) => note(starts, f.id, f.start),
        FieldStep::Skipped(_) => true,
        FieldStep::End => false,
        FieldStep::PastTheEnd => false,
        FieldStep::AgainstTheTable(_) => false,
    }
}

// How a walk ended, by what was handed out last and by what was noted before it. A field that could not be noted is a second one; at one
// that is skipped no walk ends.
#[tactic(auto, using(words::specs::Choice::if_yes, words::specs::Choice::if_no))]
pub fn ended(starts: &[usize; 16], step: FieldStep) -> Result<(), Refusal>
    ensures { result ≡ ended_by starts.now step }
{
    match step {
        FieldStep::Field(_) => Err(Refusal::Repeated),
        FieldStep::Skipped(_) | FieldStep::End => Ok(()),
        FieldStep::PastTheEnd => Err(Refusal::PastTheEnd),
        FieldStep::AgainstTheTable(id) if has_come(starts, id) => Err(Refusal::Repeated),
        FieldStep::AgainstTheTable(_) => Err(Refusal::AgainstTheTable),
    }
}

// Forgets all starts.
pub fn forget(starts: &mut [usize; 16])
    ensures { starts.new ≡ no_starts }
{
    *starts = [0usize; 16];
}

// Walks over all fields, as the reader that rests on the packet hands them out, and notes where their contents start; at a fault all starts
// are forgotten. The array is lent: handed out in an `Ok` it was copied twice, and reading missed its bars of speed (docs/DESIGN-PASS.md). What
// was handed out last tells how the walk ended: so this is no `for`, which would keep it.
pub fn all_starts(s: &[u8], starts: &mut [usize; 16]) -> Result<(), Refusal>
    ensures { Walked (fields_in s.now) result starts.new }
{
    forget(starts);
    let mut r = reader::rest(s);
    loop {
        let step = reader::next(r);
        if !noted_field(starts, step) {
            let Err(refusal) = ended(starts, step) else {
                return Ok(());
            };
            forget(starts);
            return Err(refusal);
        }
        r = reader::moved(r, step);
    }
}
