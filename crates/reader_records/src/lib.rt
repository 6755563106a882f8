// The streaming reader of Protocol 2.0 as a record: bytes go in as they come, in chunks of any size, and events come out. The
// calls here take the record by value and return it; `reader_core` does the work in place.
#![tactic(auto)]

ghost use Rattle.std.specs.Prelude.{◌≡◌, replicate};
ghost use Rattle.reading.specs.Calls.{feed as call_feed, gap as call_gap};
ghost use Rattle.reader_records.specs.Records.{step_on, left_by, packet_on, EveryProtocol};

use answers::Refusal;
use packet_front::MAX_PACKET;
use reader_core::{MAX_HELD, ProtocolTwo, Step};

// The reader's record, which lives as long as the device: the held bytes stand at the start, and the rest is 0.
#[repr(C)]
#[derive(Drop)]
pub struct Reader {
    pub bytes: [u8; MAX_HELD],
    pub count: usize,
}

// What a call returns: its step or the refusal, the packet's bytes followed by 0, and the record from now on.
#[derive(Drop)]
pub struct Fed {
    pub step: Result<Step, Refusal>,
    pub packet: [u8; MAX_PACKET],
    pub reader: Reader,
}

// A feeding call: takes the fewest bytes of the chunk that decide an event, or all of it. Feed the rest again until a call gives
// no event, even if the rest is empty: events may lie in the held bytes. [F1 F11 K3 K7 Q1-Q14]
pub fn feed(reader: Reader, chunk: &[u8]) -> Fed
    ensures step_value { (result.step ≡ step_on reader (call_feed chunk.now))
        × (result.packet ≡ packet_on reader (call_feed chunk.now) (replicate 1031 0))
        × (result.reader ≡ left_by reader (call_feed chunk.now)) }
    ensures every_protocol { EveryProtocol }
{
    let count = reader.count;
    let mut next = reader;
    let mut packet = [0u8; MAX_PACKET];
    let step = reader_core::feed::<ProtocolTwo, _, _>(&mut next.bytes, count, chunk, &mut packet);
    if let Ok(step) = step {
        next.count = step.held;
    }
    Fed {
        step,
        packet,
        reader: next,
    }
}

// A gap call: the next event, with the held bytes as the end of the segment. Call it until nothing is left. [F13 F14 V1]
pub fn gap(reader: Reader) -> Fed
    ensures step_value { (result.step ≡ step_on reader call_gap) × (result.packet ≡ packet_on reader call_gap (replicate 1031 0))
        × (result.reader ≡ left_by reader call_gap) }
    ensures every_protocol { EveryProtocol }
{
    let count = reader.count;
    let mut next = reader;
    let mut packet = [0u8; MAX_PACKET];
    let step = reader_core::gap::<ProtocolTwo, _, _>(&mut next.bytes, count, &mut packet);
    if let Ok(step) = step {
        next.count = step.held;
    }
    Fed {
        step,
        packet,
        reader: next,
    }
}
