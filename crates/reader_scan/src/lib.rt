// Looking for the first event in held bytes and in a chunk, in place.
#![tactic(auto)]

ghost use Rattle.std.specs.Prelude.{◌≡◌, ◌&&◌, [], ◌++◌, ◌+◌, ◌-◌, ◌≤◌, leb, ltb, min, length, take, drop};
ghost use Rattle.reading.specs.Reading.{open', closed};
ghost use Rattle.reading.specs.Calls.{fed};
ghost use Rattle.packet_protocols.specs.Protocols.{shape_of, rules_of};
ghost use Rattle.reader_scan.specs.Scan.{Seen, Wants, Ends, Filled};

use packet_protocols::Protocol;
use packet_rules::{Front, Verdict};

// What stands at the first offset that is not nothing. Waiting stands also at the end, where all has been passed.
#[derive(Clone, Copy)]
pub enum Scanned {
    Packet { at: usize, count: usize },
    BadChecksum { at: usize, id: u8 },
    Waiting { at: usize },
}

// The same, and how many bytes are wanted where some wait.
#[derive(Clone, Copy)]
struct Live {
    seen: Scanned,
    lacks: usize,
}

// What was seen of a segment up to its end.
#[derive(Clone, Copy)]
pub struct Window {
    pub seen: Scanned,
    pub end: usize,
}

// How held bytes stop, so many bytes of the chunk taken: with what was seen of them up to their end; or all of them have been
// passed; or they wait and fill their buffer.
#[derive(Clone, Copy)]
pub enum Stop {
    Done {
        seen: Scanned,
        end: usize,
        taken: usize,
    },
    Passed {
        taken: usize,
    },
    Full {
        taken: usize,
    },
}

// The bytes of s from `from` on, offset by offset; those before the next at which a packet may begin say nothing.
fn scan(protocol: Protocol, s: &[u8], from: usize) -> Live
    requires { from ≤ length s.now }
    ensures { Seen (rules_of protocol) open' s.now from result.seen × Wants (rules_of protocol) s.now result.seen result.lacks }
{
    let mut next = from;
    loop {
        let at = protocol.next_start(s, next);
        if s.len() <= at {
            return Live {
                seen: Scanned::Waiting { at },
                lacks: 0,
            };
        }
        let front = protocol.peek(&s[at..]);
        if let Front::Waiting(lacks) = front {
            return Live {
                seen: Scanned::Waiting { at },
                lacks,
            };
        }
        if let Front::Whole(size) = front {
            match protocol.judge_whole(&s[at..at + size]) {
                Verdict::Packet(count) => return Live {
                    seen: Scanned::Packet { at, count },
                    lacks: 0,
                },
                Verdict::BadChecksum(id) => return Live {
                    seen: Scanned::BadChecksum { at, id },
                    lacks: 0,
                },
                _ => {}
            }
        }
        next = at + 1;
    }
}

// The first event of a closed segment, or that it has none: what waits is passed like what says nothing, and fewer bytes than the
// shortest packet has are left alone. [K4]
pub fn scan_closed(protocol: Protocol, segment: &[u8]) -> Scanned
    ensures { Seen (rules_of protocol) closed segment.now 0 result }
{
    let mut from = 0;
    loop {
        let at = protocol.next_start(segment, from);
        if segment.len() <= at {
            return Scanned::Waiting { at };
        }
        if segment.len() - at < protocol.shortest() {
            return Scanned::Waiting { at: segment.len() };
        }
        if let Front::Whole(size) = protocol.peek(&segment[at..]) {
            match protocol.judge_whole(&segment[at..at + size]) {
                Verdict::Packet(count) => return Scanned::Packet { at, count },
                Verdict::BadChecksum(id) => return Scanned::BadChecksum { at, id },
                _ => {}
            }
        }
        from = at + 1;
    }
}

// The chunk, where no bytes are held. Each offset is looked at once, by all the bytes that follow; what is taken are those that
// settle the offsets up to the event. [K4]
pub fn advance(protocol: Protocol, chunk: &[u8]) -> Window
    ensures { (result.end ≤ length chunk.now)
        × Ends (rules_of protocol) [] chunk.now (take result.end chunk.now) result.end result.seen }
{
    let mut past = 0;
    let mut end = 0usize;
    loop {
        let at = protocol.next_start(chunk, past);
        if chunk.len() <= at {
            return Window {
                seen: Scanned::Waiting { at },
                end: chunk.len(),
            };
        }
        let front = protocol.peek(&chunk[at..]);
        // A match, not a second `if let`: so compiled, noise is passed by one test.
        match front {
            Front::Nothing => {}
            Front::Waiting(_) => return Window {
                seen: Scanned::Waiting { at },
                end: chunk.len(),
            },
            Front::Whole(size) => end = end.max(at + size),
        }
        if let Front::Whole(size) = front {
            match protocol.judge_whole(&chunk[at..at + size]) {
                Verdict::Packet(count) => return Window {
                    seen: Scanned::Packet { at, count },
                    end,
                },
                Verdict::BadChecksum(id) => return Window {
                    seen: Scanned::BadChecksum { at, id },
                    end,
                },
                _ => {}
            }
        }
        past = at + 1;
    }
}

// More bytes behind the window from `at` to `end`, which moves to the start where there is no room behind it. The answer is
// where the window begins then.
fn append(held: &mut [u8], at: usize, end: usize, bytes: &[u8]) -> usize
    requires { (at ≤ end) × (end ≤ length held.old) × (end - at + length bytes.now ≤ length held.old) }
    ensures { (result ≤ at) × (result + (end - at) + length bytes.now ≤ length held.old)
        × (drop result (take (result + (end - at) + length bytes.now) held.new)
        ≡ drop at (take end held.old) ++ bytes.now)
        × (drop (end + length bytes.now) held.new ≡ drop (end + length bytes.now) held.old) }
{
    if bytes.len() <= held.len() - end {
        buffers::place(held, end, bytes);
        return at;
    }
    buffers::shift(held, at, end);
    buffers::place(held, end - at, bytes);
    0
}

// Whether the bytes that wait were all taken from the chunk, and are fewer than the shortest packet has: they can be read there.
fn back_in_chunk(protocol: Protocol, waiting: usize, taken: usize) -> bool
    ensures { result ≡ (leb waiting taken && ltb waiting (shape_of protocol).shortest) }
{
    waiting <= taken && waiting < protocol.shortest()
}

// The held bytes, and where they wait as many of the chunk's as they wait for, as far as there is room. Once those that were held
// are passed, the few that wait go back to the chunk, and reading goes on there. What lies behind the bytes that were held and those
// that the whole call takes stays. [K2 K4]
pub fn fill(protocol: Protocol, held: &mut [u8], count: usize, chunk: &[u8]) -> Stop
    ensures filled { Filled (rules_of protocol) (take count held.old) chunk.now held.old held.new result }
    ensures held_unchanged { drop (count + (fed (rules_of protocol) (take count held.old) chunk.now).taken) held.new
        ≡ drop (count + (fed (rules_of protocol) (take count held.old) chunk.now).taken) held.old }
{
    let mut end = count.min(held.len());
    if end == 0 {
        return Stop::Passed { taken: 0 };
    }
    let mut at = 0;
    let mut taken = 0;
    loop {
        let Live { seen, lacks } = scan(protocol, &held[..end], at);
        let Scanned::Waiting { at: start } = seen else {
            return Stop::Done { seen, end, taken };
        };
        let left = chunk.len() - taken;
        if left == 0 {
            return Stop::Done { seen, end, taken };
        }
        let waiting = end - start;
        if back_in_chunk(protocol, waiting, taken) {
            return Stop::Passed {
                taken: taken - waiting,
            };
        }
        let room = held.len() - waiting;
        if room == 0 {
            return Stop::Full { taken };
        }
        let more = lacks.min(room).min(left);
        at = append(held, start, end, &chunk[taken..taken + more]);
        end = at + waiting + more;
        taken += more;
    }
}
