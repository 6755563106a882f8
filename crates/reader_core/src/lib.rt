// The reader's feeding and gap calls, in place on the caller's held bytes and packet buffer.
#![tactic(auto)]

ghost use Rattle.std.specs.Prelude.{◌≡◌, refl, cond, [], ◌∷◌, ◌++◌, ◌+◌, ◌-◌, ◌^◌, ◌≤◌, ◌<◌, min, leb, length, take, drop, replicate};
ghost use Rattle.reading.specs.Reading.{closed};
ghost use Rattle.reading.specs.Calls.{first, fed, gapped, call};
ghost use Rattle.reading.specs.Calls.{feed as call_feed, gap as call_gap};
ghost use Rattle.reading.specs.Progress.{after_taking};
ghost use Rattle.packet_rules.specs.Answers.{answer_by};
ghost use Rattle.packet_protocols.specs.declared.Protocol.{Protocol};
ghost use Rattle.packet_protocols.specs.declared.Protocol.TheVariants.{Two, One, Mercury};
ghost use Rattle.packet_protocols.specs.Protocols.{rules_of, id_in};
ghost use Rattle.reader_scan.specs.Scan.{on_from, size_seen, answer_of, result_of};
ghost use Rattle.reader_core.specs.Results.{most_held, packet_bytes, step_for, held_for, packet_for, lean_held_for, lean_packet_for};
ghost use Rattle.reader_core.specs.Delivered.{event_with, size_in, Delivered, Stayed, Spared};

use answers::Refusal;
use packet_front::MAX_PACKET;
use packet_protocols::Protocol;
use packet_rules::Verdict;
use packet_v1::V1_MAX_PACKET;
use reader_scan::{Scanned, Stop};

// The most bytes that a reader holds between two calls: all but the last of the longest packet. [F1 F3 O14]
pub const MAX_HELD: usize = 1030;

pub const V1_MAX_HELD: usize = 258;

// An event: a packet with its ID and its byte count, or a bad checksum with its ID.
#[derive(Clone, Copy)]
pub enum Event {
    Packet { id: u8, size: usize },
    BadChecksum { id: u8 },
}

// What a call returns: how many bytes it took, how many are held now, and its event, if any (of a gap call without one, nothing is
// left).
#[derive(Clone, Copy)]
pub struct Step {
    pub taken: usize,
    pub held: usize,
    pub event: Option<Event>,
}

impl Step {
    // The byte count of the packet, if it is one.
    fn size(self) -> usize
        ensures { result ≡ size_in self.event }
    {
        match self.event {
            Some(Event::Packet { size, .. }) => size,
            Some(Event::BadChecksum { .. }) | None => 0,
        }
    }
}

// A protocol as a type, for the sizes of a reader's buffers: it holds at most HELD bytes, and the longest packet has PACKET.
pub trait Framing<const HELD: usize, const PACKET: usize> {
    ghost protocol: { Protocol };

    fn protocol() -> Protocol
        ensures { result ≡ protocol };

    ghost holds: { HELD ≡ most_held protocol };

    ghost has_room: { PACKET ≡ (rules_of protocol).longest };
}

pub struct ProtocolTwo;

impl Framing<MAX_HELD, MAX_PACKET> for ProtocolTwo {
    ghost protocol = { Two };

    fn protocol() -> Protocol {
        Protocol::Two
    }

    ghost holds = { refl };

    ghost has_room = { refl };
}

pub struct ProtocolOne;

impl Framing<V1_MAX_HELD, V1_MAX_PACKET> for ProtocolOne {
    ghost protocol = { One };

    fn protocol() -> Protocol {
        Protocol::One
    }

    ghost holds = { refl };

    ghost has_room = { refl };
}

pub struct ProtocolMercury;

impl Framing<V1_MAX_HELD, V1_MAX_PACKET> for ProtocolMercury {
    ghost protocol = { Mercury };

    fn protocol() -> Protocol {
        Protocol::Mercury
    }

    ghost holds = { refl };

    ghost has_room = { refl };
}

// Where reading goes on.
fn on_from(seen: Scanned) -> usize
    requires { on_from seen < 2 ^ 64 }
    ensures { result ≡ on_from seen }
{
    match seen {
        Scanned::Packet { at, count } => at + count,
        Scanned::BadChecksum { at, .. } => at + 1,
        Scanned::Waiting { at } => at,
    }
}

// The ID of the packet at the start of the buffer.
fn id_in(protocol: Protocol, packet: &[u8]) -> u8
    requires { length packet.now ≡ (rules_of protocol).longest }
    ensures { result ≡ id_in protocol packet.now }
{
    packet[protocol.id_offset()]
}

// The event for what was found in src. A packet's bytes are copied to the packet buffer, and its ID is read there.
fn report(protocol: Protocol, src: &[u8], seen: Scanned, packet: &mut [u8]) -> Option<Event>
    requires { (on_from seen ≤ length src.now) × (size_seen seen ≤ length packet.old) × (length packet.old ≡ (rules_of protocol).longest) }
    ensures value { result ≡ event_with (id_in protocol packet.new) (answer_of src.now seen) }
    ensures packet_after { (take (length (packet_bytes (answer_of src.now seen))) packet.new
        ≡ packet_bytes (answer_of src.now seen))
        × (drop (length (packet_bytes (answer_of src.now seen))) packet.new
        ≡ drop (length (packet_bytes (answer_of src.now seen))) packet.old) }
{
    match seen {
        Scanned::Packet { at, count } => {
            buffers::place(packet, 0, &src[at..at + count]);
            let id = id_in(protocol, packet);
            Some(Event::Packet { id, size: count })
        }
        Scanned::BadChecksum { id, .. } => Some(Event::BadChecksum { id }),
        Scanned::Waiting { .. } => None,
    }
}

// Gives the event and keeps the held bytes from where reading goes on.
fn deliver(
    protocol: Protocol,
    held: &mut [u8],
    seen: Scanned,
    end: usize,
    taken: usize,
    packet: &mut [u8],
) -> Step
    requires { (on_from seen ≤ end) × (end ≤ length held.old) × (size_seen seen ≤ length packet.old)
        × (length packet.old ≡ (rules_of protocol).longest) }
    ensures delivered { Delivered protocol (result_of (take end held.old) taken seen) result held.new packet.new }
    ensures stayed { Stayed result held.old packet.old held.new packet.new }
{
    let event = report(protocol, held, seen, packet);
    let on = on_from(seen);
    buffers::shift(held, on, end);
    Step {
        taken,
        held: end - on,
        event,
    }
}

// Gives the event and holds the chunk's bytes from where reading goes on. `before` bytes were taken before the chunk.
fn deliver_chunk(
    protocol: Protocol,
    held: &mut [u8],
    chunk: &[u8],
    seen: Scanned,
    end: usize,
    before: usize,
    packet: &mut [u8],
) -> Step
    requires { (on_from seen ≤ end) × (end ≤ length chunk.now) × (end - on_from seen ≤ length held.old)
        × (size_seen seen ≤ length packet.old) × (length packet.old ≡ (rules_of protocol).longest) × (before + end < 2 ^ 64) }
    ensures delivered { Delivered protocol (result_of (take end chunk.now) (before + end) seen) result held.new packet.new }
    ensures stayed { Stayed result held.old packet.old held.new packet.new }
{
    let event = report(protocol, chunk, seen, packet);
    let on = on_from(seen);
    buffers::place(held, 0, &chunk[on..end]);
    Step {
        taken: before + end,
        held: end - on,
        event,
    }
}

// The held bytes fill their buffer: with one byte more they are judged in the packet buffer. All but the first stay held.
fn judge_longest(protocol: Protocol, held: &mut [u8], byte: u8, packet: &mut [u8]) -> Verdict
    requires { (0 < length held.old) × (length packet.old ≡ length held.old + 1) }
    ensures value { result ≡ answer_by (rules_of protocol) (held.old ++ byte ∷ []) }
    ensures packet_after { (packet.new ≡ held.old ++ byte ∷ [])
        × (held.new ≡ drop 1 (held.old ++ byte ∷ [])) }
{
    let n = held.len();
    buffers::place(packet, 0, &held[..n]);
    packet[n] = byte;
    buffers::shift(held, 1, n);
    held[n - 1] = byte;
    protocol.judge(packet, 0)
}

// Reads the chunk from `from` on, where no bytes are held.
fn read_chunk(
    protocol: Protocol,
    held: &mut [u8],
    chunk: &[u8],
    from: usize,
    packet: &mut [u8],
) -> Step
    requires { (from ≤ length chunk.now) × (length held.old ≡ most_held protocol) × (length packet.old ≡ (rules_of protocol).longest) }
    ensures delivered { Delivered protocol (after_taking from (fed (rules_of protocol) [] (drop from chunk.now))) result
        held.new packet.new }
    ensures stayed { Stayed result held.old packet.old held.new packet.new }
{
    let ahead = reader_scan::advance(protocol, &chunk[from..]);
    let seen = ahead.seen;
    deliver_chunk(
        protocol,
        held,
        &chunk[from..],
        seen,
        ahead.end,
        from,
        packet,
    )
}

// Reads the held bytes first, then the chunk. Each round takes one byte past a full buffer.
fn feed_slices(
    protocol: Protocol,
    held: &mut [u8],
    count: usize,
    chunk: &[u8],
    packet: &mut [u8],
) -> Step
    requires { (count ≤ most_held protocol) × (length held.old ≡ most_held protocol) × (length packet.old ≡ (rules_of protocol).longest) }
    ensures delivered { Delivered protocol (fed (rules_of protocol) (take count held.old) chunk.now) result
        held.new packet.new }
    ensures spared { Spared (most_held protocol) count result held.old packet.old held.new packet.new }
{
    let mut n = count;
    let mut taken = 0;
    loop {
        match reader_scan::fill(protocol, held, n, &chunk[taken..]) {
            Stop::Done {
                seen,
                end,
                taken: more,
            } => return deliver(protocol, held, seen, end, taken + more, packet),
            Stop::Passed { taken: more } => return read_chunk(
                protocol,
                held,
                chunk,
                taken + more,
                packet,
            ),
            Stop::Full { taken: more } => taken += more,
        }
        let byte = chunk[taken];
        taken += 1;
        n = held.len();
        let (left, event) = match judge_longest(protocol, held, byte, packet) {
            Verdict::Packet(size) => {
                let id = id_in(protocol, packet);
                (0, Event::Packet { id, size })
            }
            Verdict::BadChecksum(id) => (n, Event::BadChecksum { id }),
            _ => continue,
        };
        return Step {
            taken,
            held: left,
            event: Some(event),
        };
    }
}

// Reads the held bytes as if the segment ended with them.
fn gap_slices(protocol: Protocol, held: &mut [u8], count: usize, packet: &mut [u8]) -> Step
    requires { (count ≤ most_held protocol) × (length held.old ≡ most_held protocol) × (length packet.old ≡ (rules_of protocol).longest) }
    ensures delivered { Delivered protocol (gapped (first (rules_of protocol) closed (take count held.old))) result
        held.new packet.new }
    ensures spared { Spared (most_held protocol) count result held.old packet.old held.new packet.new }
{
    let seen = reader_scan::scan_closed(protocol, &held[..count]);
    if let Scanned::Waiting { .. } = seen {
        return Step {
            taken: 0,
            held: 0,
            event: None,
        };
    }
    deliver(protocol, held, seen, count, 0, packet)
}

// Sets the bytes past the held ones, and past the packet's, to 0.
fn clear_rest(held: &mut [u8], packet: &mut [u8], step: Step)
    ensures { (held.new
        ≡ take step.held held.old ++ replicate (length held.old - step.held) 0)
        × (packet.new
        ≡ take (size_in step.event) packet.old ++ replicate (length packet.old - size_in step.event) 0) }
{
    buffers::clear(held, step.held);
    buffers::clear(packet, step.size());
}

// A feeding call on the caller's held bytes, of which there are `count`, and packet buffer. It takes the fewest bytes of the chunk
// that decide an event, or all of it. Feed the rest again until a call gives no event, even if the rest is empty: events may lie
// in the held bytes. A count above what can be held is refused, and then all stays as it is. [F2-F10 F15 F16 K2-K4 O14]
pub fn feed<P: Framing<HELD, PACKET>, const HELD: usize, const PACKET: usize>(
    held: &mut [u8; HELD],
    count: usize,
    chunk: &[u8],
    packet: &mut [u8; PACKET],
) -> Result<Step, Refusal>
    ensures { (result ≡ step_for P.protocol count (call (rules_of P.protocol) (take count held.old) (call_feed chunk.now)))
        × (held.new ≡ held_for P.protocol count held.old (call (rules_of P.protocol) (take count held.old) (call_feed chunk.now)))
        × (packet.new ≡ packet_for P.protocol count packet.old (call (rules_of P.protocol) (take count held.old) (call_feed chunk.now))) }
{
    if HELD < count {
        return Err(Refusal::BadReader);
    }
    let step = feed_slices(P::protocol(), held, count, chunk, packet);
    clear_rest(held, packet, step);
    Ok(step)
}

// A gap call, likewise: the next event, with the held bytes as the end of the segment. Call it until nothing is left.
// [F12-F16 K2-K4 O14]
pub fn gap<P: Framing<HELD, PACKET>, const HELD: usize, const PACKET: usize>(
    held: &mut [u8; HELD],
    count: usize,
    packet: &mut [u8; PACKET],
) -> Result<Step, Refusal>
    ensures { (result ≡ step_for P.protocol count (call (rules_of P.protocol) (take count held.old) call_gap))
        × (held.new ≡ held_for P.protocol count held.old (call (rules_of P.protocol) (take count held.old) call_gap))
        × (packet.new ≡ packet_for P.protocol count packet.old (call (rules_of P.protocol) (take count held.old) call_gap)) }
{
    if HELD < count {
        return Err(Refusal::BadReader);
    }
    let step = gap_slices(P::protocol(), held, count, packet);
    clear_rest(held, packet, step);
    Ok(step)
}

// Sets to 0 what a call on `count` held bytes may have left past those held now, and past the packet's bytes.
fn clear_reached(held: &mut [u8], count: usize, packet: &mut [u8], step: Step)
    requires { (count ≤ length held.old) × (step.held ≤ length held.old) × (step.held ≤ count + step.taken) }
    ensures { (held.new
        ≡ take step.held held.old ++ (replicate (min (length held.old) (count + step.taken) - step.held) 0
        ++ drop (count + step.taken) held.old))
        × (packet.new
        ≡ cond (leb (count + step.taken) (length held.old)) packet.old
        (take (size_in step.event) packet.old ++ replicate (length packet.old - size_in step.event) 0)) }
{
    let room = held.len() - count;
    let end = count + room.min(step.taken);
    buffers::clear(&mut held[step.held..end], 0);
    if room < step.taken {
        buffers::clear(packet, step.size());
    }
}

// A feeding call that clears no more than it has to. It answers what `feed` of Protocol 2.0 answers.
pub fn feed_lean(
    held: &mut [u8; MAX_HELD],
    count: usize,
    chunk: &[u8],
    packet: &mut [u8; MAX_PACKET],
) -> Result<Step, Refusal>
    ensures { (result ≡ step_for Two count (call (rules_of Two) (take count held.old) (call_feed chunk.now)))
        × (held.new ≡ lean_held_for Two count held.old (call (rules_of Two) (take count held.old) (call_feed chunk.now)))
        × (packet.new ≡ lean_packet_for Two count packet.old (call (rules_of Two) (take count held.old) (call_feed chunk.now))) }
{
    if MAX_HELD < count {
        return Err(Refusal::BadReader);
    }
    let step = feed_slices(Protocol::Two, held, count, chunk, packet);
    clear_reached(held, count, packet, step);
    Ok(step)
}

// A gap call, likewise.
pub fn gap_lean(
    held: &mut [u8; MAX_HELD],
    count: usize,
    packet: &mut [u8; MAX_PACKET],
) -> Result<Step, Refusal>
    ensures { (result ≡ step_for Two count (call (rules_of Two) (take count held.old) call_gap))
        × (held.new ≡ lean_held_for Two count held.old (call (rules_of Two) (take count held.old) call_gap))
        × (packet.new ≡ lean_packet_for Two count packet.old (call (rules_of Two) (take count held.old) call_gap)) }
{
    if MAX_HELD < count {
        return Err(Refusal::BadReader);
    }
    let step = gap_slices(Protocol::Two, held, count, packet);
    clear_reached(held, count, packet, step);
    Ok(step)
}
