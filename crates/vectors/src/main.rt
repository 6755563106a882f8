// Reads records from standard input, up to 65,536 bytes of it, and prints what the library makes of them. A record is a kind, a
// count, and as many bytes as it says:
//   0  a text, printed as it is
//   1  a new device: ID and position, low byte first, on a fresh control table; printed as `device ID POSITION`
//   2  a segment: prints its events, as `line` does, and after each the device's reply, `status SLOT BYTES` or `silent`, or
//      `refused` if its ID is above 252; then `stored ADDRESS VALUE` for each byte of the control table that has changed
// Reading stops at a record that is cut short or of another form. The last line, `end BYTES`, has the count of bytes before it.
// Before the first device the control table is all 0. A write that fails is passed over.
#![tactic(auto)]

ghost use Rattle.std.specs.Prelude.{◌<◌, length, IfSome};

use device_dispatch::Heard;
use device_instructions::RegisteredWrite;
use device_status::{MIN_REPLY, Reply};
use packet_front::{MAX_BODY, MAX_PACKET};
use reader_core::{Event, MAX_HELD, ProtocolTwo};
use table_registers::{REG_ID, TABLE_BYTES};

#[derive(Clone, Copy)]
enum Record<'a> {
    Text(&'a [u8]),
    Device { id: u8, position: u16 },
    Segment(&'a [u8]),
}

// The first record, and the input behind it; None where it is cut short or of another form.
fn first_record(input: &[u8]) -> Option<(Record<'_>, &[u8])>
    ensures { IfSome result (λ found. length found.1.now < length input.now) }
{
    let [kind, count, rest @ ..] = input else {
        return None;
    };
    let (bytes, rest) = rest.split_at_checked(usize::from(*count))?;
    let record = match (*kind, bytes) {
        (0, text) => Record::Text(text),
        (1, [id, low, high]) => Record::Device {
            id: *id,
            position: u16::from_le_bytes([*low, *high]),
        },
        (2, segment) => Record::Segment(segment),
        _ => return None,
    };
    Some((record, rest))
}

fn print_text(rt: &impl Print, text: &[u8]) {
    let _ = rt.write_all(text);
    let _ = rt.write_all(b"\n");
}

// A packet's body is never empty. Each part is a write of its own: one that fails takes none of the others with it.
fn print_packet(rt: &impl Print, id: u8, body: &[u8]) {
    let _ = print!(rt; "packet {id}");
    if let [instruction, parameters @ ..] = body {
        let _ = print!(rt; " {instruction} {}", parameters.len());
    }
    print_text(rt, b"");
}

fn print_status(rt: &impl Print, slot: usize, status: &[u8]) {
    let _ = print!(rt; "status {slot}");
    for byte in status {
        let _ = print!(rt; " {byte:02x}");
    }
    print_text(rt, b"");
}

// The reply is sent.
fn print_reply(rt: &impl Print, reply: Reply) {
    let mut out = [0u8; MIN_REPLY];
    let slot = reply.slot;
    match device_status::send(reply, &mut out) {
        Ok(0) => print_text(rt, b"silent"),
        Ok(n) => print_status(rt, slot, &out[..n.min(out.len())]),
        Err(_) => print_text(rt, b"refused"),
    }
}

fn print_changes(rt: &impl Print, before: &[u8; TABLE_BYTES], after: &[u8; TABLE_BYTES]) {
    for (address, (old, new)) in before.iter().zip(after).enumerate() {
        if old != new {
            let _ = println!(rt; "stored {address} {new}");
        }
    }
}

// The device that hears the segments: its control table, and the write that waits for Action.
#[derive(Clone, Copy)]
struct Device {
    table: [u8; TABLE_BYTES],
    registered: RegisteredWrite,
}

impl Device {
    fn blank() -> Self {
        Device {
            table: [0u8; TABLE_BYTES],
            registered: RegisteredWrite::none(),
        }
    }

    fn new(id: u8, position: u16) -> Self {
        let mut device = Device::blank();
        let _ = table_access::fresh(&mut device.table);
        let _ = table_access::measure(&mut device.table, i32::from(position), 0);
        device.table[REG_ID] = id;
        device
    }

    // It hears a packet's body or a bad checksum, and replies.
    fn answer(&mut self, rt: &impl Print, heard: Heard, id: u8, body: &[u8]) {
        let before = self.table;
        match device::carry_out(&mut self.table, &mut self.registered, heard, id, body) {
            Ok(carried) => print_reply(rt, carried.reply),
            Err(_) => print_text(rt, b"refused"),
        }
        print_changes(rt, &before, &self.table);
    }

    // A packet's body, unstuffed, has at most 1,022 bytes.
    fn hear_packet(&mut self, rt: &impl Print, id: u8, packet: &[u8]) {
        let mut body = [0u8; MAX_BODY];
        let n = packet::unstuff(packet, &mut body).unwrap_or(0);
        let body = &body[..n.min(body.len())];
        print_packet(rt, id, body);
        self.answer(rt, Heard::Packet, id, body);
    }

    fn hear_bad_checksum(&mut self, rt: &impl Print, id: u8) {
        let _ = println!(rt; "crc {id}");
        self.answer(rt, Heard::BadChecksum, id, b"");
    }

    fn hear(&mut self, rt: &impl Print, event: Event, packet: &[u8; MAX_PACKET]) {
        match event {
            Event::Packet { id, size } => self.hear_packet(
                rt,
                id,
                &packet[..size.min(packet.len())],
            ),
            Event::BadChecksum { id } => self.hear_bad_checksum(rt, id),
        }
    }

    // Feeds the segment until a call gives no event, and then ends it: gap calls until nothing is left. A loop must be bounded to
    // be proved to end: these would stop after 2^64 - 1 calls.
    fn hear_segment(&mut self, rt: &impl Print, segment: &[u8]) {
        let mut held = [0u8; MAX_HELD];
        let mut packet = [0u8; MAX_PACKET];
        let mut count = 0;
        let mut rest = segment;
        for _ in 0..u64::MAX {
            let Ok(step) = reader_core::feed::<ProtocolTwo, _, _>(
                &mut held,
                count,
                rest,
                &mut packet,
            ) else {
                return;
            };
            count = step.held;
            rest = &rest[step.taken.min(rest.len())..];
            let Some(event) = step.event else { break };
            self.hear(rt, event, &packet);
        }
        for _ in 0..u64::MAX {
            let Ok(step) = reader_core::gap::<ProtocolTwo, _, _>(&mut held, count, &mut packet)
            else {
                return;
            };
            count = step.held;
            let Some(event) = step.event else { break };
            self.hear(rt, event, &packet);
        }
    }

    fn follow(&mut self, rt: &impl Print, record: Record<'_>) {
        match record {
            Record::Text(text) => print_text(rt, text),
            Record::Device { id, position } => {
                *self = Device::new(id, position);
                let _ = println!(rt; "device {id} {position}");
            }
            Record::Segment(segment) => self.hear_segment(rt, segment),
        }
    }
}

// Returns the count of bytes in the records that were read.
fn follow_records(rt: &impl Print, input: &[u8]) -> usize {
    let mut device = Device::blank();
    let mut rest = input;
    while let Some((record, behind)) = first_record(rest) {
        device.follow(rt, record);
        rest = behind;
    }
    input.len() - rest.len()
}

fn main(rt: HostRuntime) {
    let mut buffer = [0u8; 65536];
    let n = match input::read(&mut rt.stdin(), &mut buffer) {
        Ok(n) => n,
        Err(failed) => failed.after,
    };
    let read = follow_records(&rt, &buffer[..n]);
    let _ = println!(rt; "end {read}");
}
