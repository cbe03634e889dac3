// The C face: the desk rests in lent octets (docs/FORMS.md), and every exported function is its rule between decoding and encoding.
// specs/Promises.antt says what each answers and leaves, by the words of crates desk_steps, desk_making and desk_looking; every answer is
// told as crate signed tells it. include/floor.h is the manual.
#![tactic(auto)]

ghost use Rattle.hall.specs.Seats.{settings_of};
ghost use Rattle.floor.specs.Promises.{VersionPromise, MakePromise, JoinPromise, LeavePromise, StartPromise, StopPromise, PacketPromise, MediaPromise, TimerPromise, MessagePromise, ReadPromise, WritePromise, SavePromise, LoadPromise, ScreenPromise, PhasePromise, HolderPromise, HolderPriorityPromise, RunningPromise, SequencePromise, C7Promise, C20Promise, SeatsPromise, SeatBySsrcPromise, SeatByIdentityPromise, SeatPromise, SettingsPromise, StartsPromise, StopsPromise};

use desk_making::WideSettings;
use events::Event;
use hall::Flags;

// Which face this is. A header and an archive that answer the same number belong together.
const VERSION: u32 = 4;

pub fn floor_version() -> i32
    ensures { VersionPromise result }
{
    signed::found(VERSION)
}

// The call starts.
pub fn floor_start(desk: &mut [u8], report: &mut [u8]) -> i32
    ensures { StartPromise desk.old report.old result desk.new report.new }
{
    desk_steps::event_on(desk, report, Event::Start)
}

// The call stops.
pub fn floor_stop(desk: &mut [u8], report: &mut [u8]) -> i32
    ensures { StopPromise desk.old report.old result desk.new report.new }
{
    desk_steps::event_on(desk, report, Event::Stop)
}

// Media came in from this SSRC.
pub fn floor_media(desk: &mut [u8], ssrc: u32, report: &mut [u8]) -> i32
    ensures { MediaPromise desk.old ssrc report.old result desk.new report.new }
{
    desk_steps::event_on(desk, report, Event::Media(ssrc))
}

// A packet came in.
pub fn floor_packet(desk: &mut [u8], packet: &[u8], report: &mut [u8]) -> i32
    ensures { PacketPromise desk.old packet.now report.old result desk.new report.new }
{
    desk_steps::step_with(
        desk,
        report,
        |core, hall| packet_events::hear(core, hall, packet),
    )
}

// A timer fired.
pub fn floor_timer(desk: &mut [u8], timer: u32, report: &mut [u8]) -> i32
    ensures { TimerPromise desk.old timer report.old result desk.new report.new }
{
    let named = timers::timer_named(timer);
    desk_steps::event_on(desk, report, Event::Expiry(named))
}

// A seat leaves.
pub fn floor_leave(desk: &mut [u8], seat: u32, report: &mut [u8]) -> i32
    ensures { LeavePromise desk.old seat report.old result desk.new report.new }
{
    // a guard of its own, as in `floor_join`: this settles an outcome, that writes no report, so that a closure would serve one function
    if !desk_test::is_desk(desk) {
        return signed::refusal(signed::NO_DESK);
    }
    let core = desk_reading::core_at(desk);
    let hall = desk_reading::hall_at(desk);
    let names = desk_reading::names_at(desk);
    let outcome = events::leave_call(core, hall, names, desk_steps::seat_numbered(seat));
    desk_steps::settle_outcome(desk, report, outcome)
}

// Makes a fresh desk.
pub fn floor_make(
    desk: &mut [u8],
    ssrc: u32,
    level: u32,
    limit: u32,
    c7: u32,
    c20: u32,
    duration: u32,
    normal: u32,
) -> i32
    ensures { MakePromise desk.old (settings_of ssrc level limit c7 c20 duration normal) result desk.new }
{
    desk_making::make_desk(
        desk,
        WideSettings {
            ssrc,
            level,
            limit,
            c7,
            c20,
            duration,
            normal,
        },
    )
}

// Makes a fresh desk from a sheet.
pub fn floor_load(desk: &mut [u8], sheet: &[u8]) -> i32
    ensures { LoadPromise desk.old sheet.now result desk.new }
{
    match loading::load(sheet) {
        Ok(made) => desk_making::write_desk(desk, 0, 0, made.core, made.hall, made.names),
        Err(fault) => signed::refused(fault),
    }
}

// Takes the lowest free seat, and answers it.
pub fn floor_join(
    desk: &mut [u8],
    identity: &[u8],
    ssrc: u32,
    highest: u8,
    queueing: u8,
    receive_only: u8,
) -> i32
    ensures { JoinPromise desk.old identity.now ssrc highest queueing receive_only result desk.new }
{
    // a guard of its own, as in `floor_leave`: that settles an outcome, this writes no report, so that a closure would serve one function
    if !desk_test::is_desk(desk) {
        return signed::refusal(signed::NO_DESK);
    }
    let flags = Flags {
        queueing: queueing != 0,
        receive_only: receive_only != 0,
    };
    let who = hall::newcomer_of(ssrc, highest, flags);
    let core = desk_reading::core_at(desk);
    let hall = desk_reading::hall_at(desk);
    let names = desk_reading::names_at(desk);
    let joined = joining::join_call(hall, names, identity, who);
    let n = hall::number_of(joined.answer);
    let seat = desk_making::seat_taken(joined.seat);
    desk_making::write_desk(desk, n, seat, core, joined.hall, joined.names)
}

// Look-ups: a function for each, as floor.h has them; they differ in what is asked.

pub fn floor_phase(desk: &[u8]) -> i32
    ensures { PhasePromise desk.now result }
{
    desk_looking::on_desk(
        desk,
        |desk| signed::found(u32::from(core_writing::kind_octet(
            desk_reading::core_at(desk).phase,
        ))),
    )
}

pub fn floor_holder(desk: &[u8]) -> i32
    ensures { HolderPromise desk.now result }
{
    desk_looking::on_desk(
        desk,
        |desk| desk_looking::holder_seat(desk_reading::core_at(desk).phase),
    )
}

pub fn floor_holder_priority(desk: &[u8]) -> i32
    ensures { HolderPriorityPromise desk.now result }
{
    desk_looking::on_desk(
        desk,
        |desk| desk_looking::holder_priority(desk_reading::core_at(desk).phase),
    )
}

pub fn floor_running(desk: &[u8]) -> i32
    ensures { RunningPromise desk.now result }
{
    desk_looking::on_desk(
        desk,
        |desk| signed::found(clocks_looking::timer_set(timers::running_timers(
            desk_reading::core_at(desk).phase,
        ))),
    )
}

pub fn floor_sequence(desk: &[u8]) -> i32
    ensures { SequencePromise desk.now result }
{
    desk_looking::on_desk(
        desk,
        |desk| signed::found(u32::from(desk_reading::core_at(desk).sequence)),
    )
}

pub fn floor_c7(desk: &[u8]) -> i32
    ensures { C7Promise desk.now result }
{
    desk_looking::on_desk(
        desk,
        |desk| signed::found(u32::from(desk_reading::core_at(desk).c7)),
    )
}

pub fn floor_c20(desk: &[u8]) -> i32
    ensures { C20Promise desk.now result }
{
    desk_looking::on_desk(
        desk,
        |desk| signed::found(u32::from(desk_reading::core_at(desk).c20)),
    )
}

pub fn floor_seats(desk: &[u8]) -> i32
    ensures { SeatsPromise desk.now result }
{
    desk_looking::on_desk(
        desk,
        |desk| signed::found(u32::from(report_octets::mask_of(
            desk_reading::hall_at(desk).present,
        ))),
    )
}

pub fn floor_seat_by_ssrc(desk: &[u8], ssrc: u32) -> i32
    ensures { SeatBySsrcPromise desk.now ssrc result }
{
    desk_looking::on_desk(
        desk,
        |desk| desk_looking::seat_number(hall::seat_of(desk_reading::hall_at(desk), ssrc)),
    )
}

pub fn floor_seat_by_identity(desk: &[u8], identity: &[u8]) -> i32
    ensures { SeatByIdentityPromise desk.now identity.now result }
{
    desk_looking::on_desk(desk, |desk| {
        let hall = desk_reading::hall_at(desk);
        let names = desk_reading::names_at(desk);
        desk_looking::seat_number(identities::seat_named(hall, names, identity))
    })
}

// A seat as the sheet lays it out.
pub fn floor_seat(desk: &[u8], seat: u32, room: &mut [u8]) -> i32
    ensures { SeatPromise desk.now seat room.old result room.new }
{
    seat_looking::seat_on(desk, seat, room)
}

// The settings as the sheet lays them out.
pub fn floor_settings(desk: &[u8], room: &mut [u8]) -> i32
    ensures { SettingsPromise desk.now room.old result room.new }
{
    seat_looking::settings_on(desk, room)
}

// The clocks to start anew after a step.
pub fn floor_starts(before: u32, after: u32, fired: u32, report: &[u8]) -> i32
    ensures { StartsPromise before after fired report.now result }
{
    clocks_looking::starts_on(before, after, fired, report)
}

// The clocks to stop.
pub fn floor_stops(before: u32, after: u32) -> i32
    ensures { StopsPromise before after result }
{
    clocks_looking::stops_on(before, after)
}

// The line for the wall screen.
pub fn floor_screen(desk: &[u8], room: &mut [u8]) -> i32
    ensures { ScreenPromise desk.now room.old result room.new }
{
    desk_looking::from_desk(
        desk,
        room,
        |room| desk_looking::show(desk_reading::core_at(desk).line, room),
    )
}

// Saves seats and settings.
pub fn floor_save(desk: &[u8], room: &mut [u8]) -> i32
    ensures { SavePromise desk.now room.old result room.new }
{
    desk_looking::from_desk(desk, room, |room| {
        let hall = desk_reading::hall_at(desk);
        let names = desk_reading::names_at(desk);
        desk_looking::saved_number(saving::save(hall, names, room))
    })
}

// A report's message as its packet.
pub fn floor_message(desk: &[u8], report: &[u8], which: u32, room: &mut [u8]) -> i32
    ensures { MessagePromise desk.now report.now which room.old result room.new }
{
    desk_looking::from_desk(
        desk,
        room,
        |room| desk_looking::tell(desk, report_octets::message_in(report, which), room),
    )
}

// Reads a packet into a message's 40 octets.
pub fn floor_read(packet: &[u8], message: &mut [u8]) -> i32
    ensures { ReadPromise packet.now message.old result message.new }
{
    match message_octets::read_held(packet, message) {
        Ok(()) => 0,
        Err(refusal) => signed::refused(refusal),
    }
}

// Writes a message as a packet.
pub fn floor_write(message: &[u8], source: &[u8], room: &mut [u8]) -> i32
    ensures { WritePromise message.now source.now room.old result room.new }
{
    desk_looking::written_number(message_writing::write_held(message, source, room))
}
