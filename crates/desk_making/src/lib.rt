// A desk that is made, loaded or joined, written into lent octets unless it was refused or the room is too short for it. specs/Making.antt has
// what each leaves.
#![tactic(auto)]

ghost use Rattle.std.specs.Prelude.{◌≡◌, true};
ghost use Rattle.desk_making.specs.Making.{desk_written, narrowed, in_octets, held_settings, usable_settings, make_on, seat_taken};

use desk_octets::DESK_SIZE;
use hall::{Hall, Refusal, Settings};
use identities::Names;
use steps::Core;

// Settings as C programs hand them over, each a number of 32 bits.
#[derive(Clone, Copy)]
pub struct WideSettings {
    pub ssrc: u32,
    pub level: u32,
    pub limit: u32,
    pub c7: u32,
    pub c20: u32,
    pub duration: u32,
    pub normal: u32,
}

// Writes a desk, unless its number refuses it or the room is too short for it. What is done is answered by `done`.
pub fn write_desk(desk: &mut [u8], n: u8, done: u8, core: Core, hall: Hall, names: Names) -> i32
    ensures { (result, desk.new) ≡ desk_written desk.old n done core hall names }
{
    if n != 0 {
        return signed::refusal(n);
    }
    if desk.len() < DESK_SIZE {
        return signed::refused(message::Refusal::NoRoom);
    }
    desk_writing::put_desk(desk, core, hall, names);
    signed::found(u32::from(done))
}

// Whether each setting is one that its octets hold.
fn in_octets(wide: WideSettings) -> bool
    ensures { result ≡ in_octets (narrowed wide) }
{
    (wide.level < 256)
        & (wide.limit < 256)
        & (wide.c7 < 256)
        & (wide.c20 < 256)
        & (wide.duration < 65536)
        & (wide.normal < 256)
}

fn narrow(wide: WideSettings) -> Settings
    requires { in_octets (narrowed wide) ≡ true }
    ensures { result ≡ narrowed wide }
{
    hall::settings_of(
        wide.ssrc,
        wide.level as u8,
        wide.limit as u8,
        wide.c7 as u8,
        wide.c20 as u8,
        wide.duration as u16,
        wide.normal as u8,
    )
}

impl TryFrom<WideSettings> for Settings {
    type Error = Refusal;

    ghost try_from_gives = { λ wide r. r ≡ held_settings (narrowed wide) };

    #[tactic(auto, using(words::specs::Choice::if_yes, words::specs::Choice::if_no), unfolding(crate::specs::Making::held_settings))]
    fn try_from(wide: WideSettings) -> Result<Settings, Refusal> {
        if in_octets(wide) {
            Ok(narrow(wide))
        } else {
            Err(Refusal::OutsideRange)
        }
    }
}

// The settings that a desk can be made with.
#[tactic(auto, using(std::proofs::lemmas::Bool::Decides::nat_tests), unfolding(crate::proofs::Making::choosing))]
fn usable(wide: WideSettings) -> Result<Settings, Refusal>
    ensures { result ≡ usable_settings (narrowed wide) }
{
    let settings = Settings::try_from(wide)?;
    hall::check_settings(settings)?;
    Ok(settings)
}

// A fresh desk with these settings, unless they are outside their ranges.
pub fn make_desk(desk: &mut [u8], wide: WideSettings) -> i32
    ensures { (result, desk.new) ≡ make_on desk.old (narrowed wide) }
{
    match usable(wide) {
        Ok(settings) => write_desk(
            desk,
            0,
            0,
            events::fresh_core(),
            hall::empty_hall(settings),
            identities::no_names(),
        ),
        Err(refusal) => signed::refused(refusal),
    }
}

// The seat that a join took.
pub fn seat_taken(seat: Option<u8>) -> u8
    ensures { result ≡ seat_taken seat }
{
    seat.unwrap_or(0)
}
