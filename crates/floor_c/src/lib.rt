// The functions that C programs link, under their names: each calls its namesake of the crate floor and promises what that promises.
// include/floor.h is the manual.
#![tactic(auto)]

ghost use Rattle.hall.specs.Seats.{settings_of};
ghost use Rattle.floor.specs.Promises.{VersionPromise, MakePromise, JoinPromise, LeavePromise, StartPromise, StopPromise, PacketPromise, MediaPromise, TimerPromise, MessagePromise, ReadPromise, WritePromise, SavePromise, LoadPromise, ScreenPromise, PhasePromise, HolderPromise, HolderPriorityPromise, RunningPromise, SequencePromise, C7Promise, C20Promise, SeatsPromise, SeatBySsrcPromise, SeatByIdentityPromise, SeatPromise, SettingsPromise, StartsPromise, StopsPromise};

#[unsafe(no_mangle)]
pub extern "C" fn floor_version() -> i32
    ensures { VersionPromise result }
{
    floor::floor_version()
}

// The call starts.
#[unsafe(no_mangle)]
pub extern "C" fn floor_start(desk: &mut [u8], report: &mut [u8]) -> i32
    ensures { StartPromise desk.old report.old result desk.new report.new }
{
    floor::floor_start(desk, report)
}

// The call stops.
#[unsafe(no_mangle)]
pub extern "C" fn floor_stop(desk: &mut [u8], report: &mut [u8]) -> i32
    ensures { StopPromise desk.old report.old result desk.new report.new }
{
    floor::floor_stop(desk, report)
}

// Media came in from this SSRC.
#[unsafe(no_mangle)]
pub extern "C" fn floor_media(desk: &mut [u8], ssrc: u32, report: &mut [u8]) -> i32
    ensures { MediaPromise desk.old ssrc report.old result desk.new report.new }
{
    floor::floor_media(desk, ssrc, report)
}

// A packet came in.
#[unsafe(no_mangle)]
pub extern "C" fn floor_packet(desk: &mut [u8], packet: &[u8], report: &mut [u8]) -> i32
    ensures { PacketPromise desk.old packet.now report.old result desk.new report.new }
{
    floor::floor_packet(desk, packet, report)
}

// A timer fired.
#[unsafe(no_mangle)]
pub extern "C" fn floor_timer(desk: &mut [u8], timer: u32, report: &mut [u8]) -> i32
    ensures { TimerPromise desk.old timer report.old result desk.new report.new }
{
    floor::floor_timer(desk, timer, report)
}

// A seat leaves.
#[unsafe(no_mangle)]
pub extern "C" fn floor_leave(desk: &mut [u8], seat: u32, report: &mut [u8]) -> i32
    ensures { LeavePromise desk.old seat report.old result desk.new report.new }
{
    floor::floor_leave(desk, seat, report)
}

// Makes a fresh desk.
#[unsafe(no_mangle)]
pub extern "C" fn floor_make(
    desk: &mut [u8],
    ssrc: u32,
    level: u32,
    limit: u32,
    c7: u32,
    c20: u32,
    duration: u32,
    normal: u32,
) -> i32
    ensures { MakePromise desk.old (settings_of ssrc level limit c7 c20 duration normal) result desk.new }
{
    floor::floor_make(desk, ssrc, level, limit, c7, c20, duration, normal)
}

// Makes a fresh desk from a sheet.
#[unsafe(no_mangle)]
pub extern "C" fn floor_load(desk: &mut [u8], sheet: &[u8]) -> i32
    ensures { LoadPromise desk.old sheet.now result desk.new }
{
    floor::floor_load(desk, sheet)
}

// Takes the lowest free seat, and answers it.
#[unsafe(no_mangle)]
pub extern "C" fn floor_join(
    desk: &mut [u8],
    identity: &[u8],
    ssrc: u32,
    highest: u8,
    queueing: u8,
    receive_only: u8,
) -> i32
    ensures { JoinPromise desk.old identity.now ssrc highest queueing receive_only result desk.new }
{
    floor::floor_join(desk, identity, ssrc, highest, queueing, receive_only)
}

#[unsafe(no_mangle)]
pub extern "C" fn floor_phase(desk: &[u8]) -> i32
    ensures { PhasePromise desk.now result }
{
    floor::floor_phase(desk)
}

#[unsafe(no_mangle)]
pub extern "C" fn floor_holder(desk: &[u8]) -> i32
    ensures { HolderPromise desk.now result }
{
    floor::floor_holder(desk)
}

#[unsafe(no_mangle)]
pub extern "C" fn floor_holder_priority(desk: &[u8]) -> i32
    ensures { HolderPriorityPromise desk.now result }
{
    floor::floor_holder_priority(desk)
}

#[unsafe(no_mangle)]
pub extern "C" fn floor_running(desk: &[u8]) -> i32
    ensures { RunningPromise desk.now result }
{
    floor::floor_running(desk)
}

#[unsafe(no_mangle)]
pub extern "C" fn floor_sequence(desk: &[u8]) -> i32
    ensures { SequencePromise desk.now result }
{
    floor::floor_sequence(desk)
}

#[unsafe(no_mangle)]
pub extern "C" fn floor_c7(desk: &[u8]) -> i32
    ensures { C7Promise desk.now result }
{
    floor::floor_c7(desk)
}

#[unsafe(no_mangle)]
pub extern "C" fn floor_c20(desk: &[u8]) -> i32
    ensures { C20Promise desk.now result }
{
    floor::floor_c20(desk)
}

#[unsafe(no_mangle)]
pub extern "C" fn floor_seats(desk: &[u8]) -> i32
    ensures { SeatsPromise desk.now result }
{
    floor::floor_seats(desk)
}

#[unsafe(no_mangle)]
pub extern "C" fn floor_seat_by_ssrc(desk: &[u8], ssrc: u32) -> i32
    ensures { SeatBySsrcPromise desk.now ssrc result }
{
    floor::floor_seat_by_ssrc(desk, ssrc)
}

#[unsafe(no_mangle)]
pub extern "C" fn floor_seat_by_identity(desk: &[u8], identity: &[u8]) -> i32
    ensures { SeatByIdentityPromise desk.now identity.now result }
{
    floor::floor_seat_by_identity(desk, identity)
}

// A seat as the sheet lays it out.
#[unsafe(no_mangle)]
pub extern "C" fn floor_seat(desk: &[u8], seat: u32, room: &mut [u8]) -> i32
    ensures { SeatPromise desk.now seat room.old result room.new }
{
    floor::floor_seat(desk, seat, room)
}

// The settings as the sheet lays them out.
#[unsafe(no_mangle)]
pub extern "C" fn floor_settings(desk: &[u8], room: &mut [u8]) -> i32
    ensures { SettingsPromise desk.now room.old result room.new }
{
    floor::floor_settings(desk, room)
}

// The clocks to start anew after a step.
#[unsafe(no_mangle)]
pub extern "C" fn floor_starts(before: u32, after: u32, fired: u32, report: &[u8]) -> i32
    ensures { StartsPromise before after fired report.now result }
{
    floor::floor_starts(before, after, fired, report)
}

// The clocks to stop.
#[unsafe(no_mangle)]
pub extern "C" fn floor_stops(before: u32, after: u32) -> i32
    ensures { StopsPromise before after result }
{
    floor::floor_stops(before, after)
}

// The line for the wall screen.
#[unsafe(no_mangle)]
pub extern "C" fn floor_screen(desk: &[u8], room: &mut [u8]) -> i32
    ensures { ScreenPromise desk.now room.old result room.new }
{
    floor::floor_screen(desk, room)
}

// Saves seats and settings.
#[unsafe(no_mangle)]
pub extern "C" fn floor_save(desk: &[u8], room: &mut [u8]) -> i32
    ensures { SavePromise desk.now room.old result room.new }
{
    floor::floor_save(desk, room)
}

// A report's message as its packet.
#[unsafe(no_mangle)]
pub extern "C" fn floor_message(desk: &[u8], report: &[u8], which: u32, room: &mut [u8]) -> i32
    ensures { MessagePromise desk.now report.now which room.old result room.new }
{
    floor::floor_message(desk, report, which, room)
}

// Reads a packet into a message's 40 octets.
#[unsafe(no_mangle)]
pub extern "C" fn floor_read(packet: &[u8], message: &mut [u8]) -> i32
    ensures { ReadPromise packet.now message.old result message.new }
{
    floor::floor_read(packet, message)
}

// Writes a message as a packet.
#[unsafe(no_mangle)]
pub extern "C" fn floor_write(message: &[u8], source: &[u8], room: &mut [u8]) -> i32
    ensures { WritePromise message.now source.now room.old result room.new }
{
    floor::floor_write(message, source, room)
}
