// From the line to the table: a call takes bytes up to the next event and carries it out at once.
#![tactic(auto)]

ghost use Rattle.std.specs.Prelude.{Some, ◌≡◌, cond, ◌+◌, ◌≤◌, eqb, length, take, get_or};
ghost use Rattle.lists.specs.Write.{placed};
ghost use Rattle.stuffing.specs.Stuffing.{unstuff};
ghost use Rattle.reading.specs.Calls.{feed as call_feed, gap as call_gap};
ghost use Rattle.packet.specs.Packet.{body_of};
ghost use Rattle.reader_records.specs.Records.{lent};
ghost use Rattle.table_registers.specs.Registers.{table_size};
ghost use Rattle.device_dispatch.specs.Reactions.{own_id};
ghost use Rattle.device_status.specs.Status.{silence as status_silence};
ghost use Rattle.device.specs.Device.{carry_out};
ghost use Rattle.answers.specs.Refusals.{number_of};
ghost use Rattle.board.specs.Board.{addressed, lent_refusal, carried_if_any, board_of, outcome};
ghost use Rattle.board.specs.Numbers.{refused_step, board_step, buffer_left};
ghost use Rattle.board.specs.Inside.{event_by, Fits, buffer_by, body_to, received_by, came_of, step_after};

use answers::Refusal;
use device_codes::ErrorNumber;
use device_dispatch::Heard;
use device_instructions::{MAX_REGISTERED, RegisteredWrite};
use device_status::Reply;
use packet_front::{BROADCAST_ID, MAX_ID, MAX_PACKET};
use reader_core::{Event, MAX_HELD, Step};
use table_registers::{REG_ID, TABLE_BYTES};

// What a call returns: how many bytes it took; the event as of `dxl_feed`, or the number of a refusal as its kind; the instruction, if
// it is for this device, and its error number; the reply that waits; and the registered write from now on.
#[repr(C)]
#[derive(Clone, Copy)]
pub struct BoardStep {
    pub taken: usize,
    pub count: usize,
    pub kind: u8,
    pub id: u8,
    pub instruction: u8,
    pub error: u8,
    pub reply: Reply,
    pub registered: RegisteredWrite,
}

// The kinds of event, as C gets them.
pub const KIND_NONE: u8 = 0;

pub const KIND_PACKET: u8 = 1;

pub const KIND_BAD_CHECKSUM: u8 = 2;

impl BoardStep {
    // Nothing is carried out: these bytes were taken, and no event came.
    fn idle(taken: usize, registered: RegisteredWrite) -> Self
        ensures { result ≡ record { taken = taken; count = 0; kind = 0; id = 0; instruction = 0; error = 0; reply = status_silence; registered = registered } }
    {
        BoardStep {
            taken,
            count: 0,
            kind: KIND_NONE,
            id: 0,
            instruction: 0,
            error: 0,
            reply: device_status::silence(),
            registered,
        }
    }

    fn refused(refusal: Refusal, registered: RegisteredWrite) -> Self
        ensures { result ≡ refused_step (number_of refusal) registered }
    {
        BoardStep {
            kind: u8::from(refusal),
            ..BoardStep::idle(0, registered)
        }
    }
}

// The fault in what the caller lends, if any.
#[tactic(auto, unfolding(crate::specs::Board::lent_refusal, device::specs::Answers::state_refusal))]
fn refusal(held: usize, table: &[u8], registered: RegisteredWrite) -> Option<Refusal>
    requires { length table.now ≡ table_size }
    ensures { result ≡ lent_refusal held table.now registered }
{
    if MAX_HELD < held {
        return Some(Refusal::BadReader);
    }
    if MAX_ID < table[REG_ID] {
        return Some(Refusal::BadTableId);
    }
    if MAX_REGISTERED < registered.count {
        return Some(Refusal::BadRegistered);
    }
    None
}

// Whether an event with this ID is for this device: it has the own ID, or that of all devices.
fn is_for(table: &[u8], id: u8) -> bool
    requires { length table.now ≡ table_size }
    ensures { result ≡ addressed table.now id }
{
    id == table[REG_ID] || id == BROADCAST_ID
}

// The error number of a bad checksum: it is this device's fault only under its own ID.
fn checksum_error(table: &[u8], id: u8) -> u8
    requires { length table.now ≡ table_size }
    ensures { result ≡ cond (eqb id (own_id table.now)) 3 0 }
{
    if id == table[REG_ID] {
        ErrorNumber::Checksum as u8
    } else {
        0
    }
}

// Removes the stuffing of a packet, the first bytes of the buffer, where it stands. The body begins behind seven bytes, and the answer
// is where it ends then.
fn strip_packet(packet: &mut [u8], size: usize) -> usize
    requires { (9 ≤ size) × (size ≤ length packet.old) }
    ensures value { result ≡ 7 + length (unstuff (body_of (take size packet.old))) }
    ensures packet_after { packet.new ≡ placed packet.old 7 (unstuff (body_of (take size packet.old))) }
{
    let end = size - 2;
    7 + stuffing_in_place::unstuff_in_place(&mut packet[7..end])
}

// An event: what C is told of it, what the device hears in it, and where the body of a packet ends, which begins behind seven bytes.
#[derive(Clone, Copy)]
struct Received {
    kind: u8,
    id: u8,
    count: usize,
    heard: Heard,
    end: usize,
}

// The stuffing of a packet is removed; what is no packet has an empty body.
#[inline(always)]
fn receive(event: Event, packet: &mut [u8]) -> Received
    requires { Fits (Some event) packet.old }
    ensures value { result ≡ received_by event packet.old }
    ensures packet_after { packet.new ≡ buffer_by (Some event) packet.old }
{
    match event {
        Event::Packet { id, size } => Received {
            kind: KIND_PACKET,
            id,
            count: size,
            heard: Heard::Packet,
            end: strip_packet(packet, size),
        },
        Event::BadChecksum { id } => Received {
            kind: KIND_BAD_CHECKSUM,
            id,
            count: 0,
            heard: Heard::BadChecksum,
            end: 7,
        },
    }
}

// What came of an event: the instruction and its error number, the reply that waits, the registered write from now on.
#[derive(Clone, Copy)]
struct Came {
    instruction: u8,
    error: u8,
    reply: Reply,
    registered: RegisteredWrite,
}

impl Came {
    // Nothing, since it is for another device.
    fn passed(registered: RegisteredWrite) -> Self
        ensures { result ≡ record { instruction = 0; error = 0; reply = status_silence; registered = registered } }
    {
        Came {
            instruction: 0,
            error: 0,
            reply: device_status::silence(),
            registered,
        }
    }
}

// An event for this device is carried out; its body stands in the buffer.
#[inline(always)]
fn carry_out(
    table: &mut [u8; TABLE_BYTES],
    registered: RegisteredWrite,
    event: Received,
    packet: &[u8],
) -> Came
    requires { (7 ≤ event.end) × (event.end ≤ length packet.now) }
    ensures value { result ≡ came_of table.old registered event.heard event.id (body_to event.end packet.now) }
    ensures table_after { table.new ≡ (carry_out table.old registered event.heard event.id (body_to event.end packet.now)).table }
{
    let wrong = checksum_error(&table[..], event.id);
    let body = &packet[7..event.end];
    let mut kept = registered;
    let carried = device::carry_out_tested(table, &mut kept, event.heard, event.id, body);
    Came {
        instruction: body.first().copied().unwrap_or(0),
        error: match event.heard {
            Heard::Packet => carried.error,
            Heard::BadChecksum => wrong,
        },
        reply: carried.reply,
        registered: kept,
    }
}

// What follows a call of the reader: its event, if any, is carried out if it is for this device.
#[inline(always)]
fn follow(
    step: Step,
    packet: &mut [u8; MAX_PACKET],
    table: &mut [u8; TABLE_BYTES],
    registered: RegisteredWrite,
) -> BoardStep
    requires { Fits step.event packet.old }
    ensures value { result ≡ step_after table.old registered step.taken (event_by step.event packet.old) }
    ensures table_after { table.new ≡ (carried_if_any table.old registered (event_by step.event packet.old)).table }
    ensures packet_after { packet.new ≡ buffer_by step.event packet.old }
{
    let Some(event) = step.event else {
        return BoardStep::idle(step.taken, registered);
    };
    let event = receive(event, packet);
    let came = if is_for(&table[..], event.id) {
        carry_out(table, registered, event, &packet[..])
    } else {
        Came::passed(registered)
    };
    BoardStep {
        taken: step.taken,
        count: event.count,
        kind: event.kind,
        id: event.id,
        instruction: came.instruction,
        error: came.error,
        reply: came.reply,
        registered: came.registered,
    }
}

// A feeding call on a board in its parts: it takes the fewest bytes of the chunk that decide an event, or all of it, and carries the
// event out. Feed the rest again until a call gives no event, even if the rest is empty. [B1-B7]
pub fn feed(
    held: &mut [u8; MAX_HELD],
    count: &mut usize,
    chunk: &[u8],
    packet: &mut [u8; MAX_PACKET],
    table: &mut [u8; TABLE_BYTES],
    registered: RegisteredWrite,
) -> BoardStep
    ensures value { result ≡ board_step (board_of (lent held.old count.old) table.old registered) (call_feed chunk.now) }
    ensures count_after { (lent held.new count.new
        ≡ (outcome (board_of (lent held.old count.old) table.old registered) (call_feed chunk.now)).board.reader)
        × (table.new
        ≡ (outcome (board_of (lent held.old count.old) table.old registered) (call_feed chunk.now)).board.table)
        × (packet.new
        ≡ buffer_left (board_of (lent held.old count.old) table.old registered) (call_feed chunk.now) packet.old) }
{
    if let Some(fault) = refusal(*count, &table[..], registered) {
        return BoardStep::refused(fault, registered);
    }
    let Ok(step) = reader_core::feed_lean(held, *count, chunk, packet) else {
        unreachable!()
    };
    *count = step.held;
    follow(step, packet, table, registered)
}

// A gap call, likewise: the next event, with the held bytes as the end of the segment. Call it until nothing is left. [B1-B7]
pub fn gap(
    held: &mut [u8; MAX_HELD],
    count: &mut usize,
    packet: &mut [u8; MAX_PACKET],
    table: &mut [u8; TABLE_BYTES],
    registered: RegisteredWrite,
) -> BoardStep
    ensures value { result ≡ board_step (board_of (lent held.old count.old) table.old registered) call_gap }
    ensures count_after { (lent held.new count.new
        ≡ (outcome (board_of (lent held.old count.old) table.old registered) call_gap).board.reader)
        × (table.new
        ≡ (outcome (board_of (lent held.old count.old) table.old registered) call_gap).board.table)
        × (packet.new
        ≡ buffer_left (board_of (lent held.old count.old) table.old registered) call_gap packet.old) }
{
    if let Some(fault) = refusal(*count, &table[..], registered) {
        return BoardStep::refused(fault, registered);
    }
    let Ok(step) = reader_core::gap_lean(held, *count, packet) else {
        unreachable!()
    };
    *count = step.held;
    follow(step, packet, table, registered)
}
