// A plain reader: the next event of a whole segment, which lies in one slice, by the rule of reading and nothing else. It keeps no
// bytes of its own.
#![tactic(auto)]

ghost use Rattle.std.specs.Prelude.{◌≡◌};
ghost use Rattle.reader_plain.specs.Next.{next_event};

use packet_protocols::Protocol;
use packet_rules::Verdict;

// An event: the offset where it begins, of a packet how many bytes it has, where reading goes on, and the ID.
#[derive(Clone, Copy)]
pub enum Event {
    Packet {
        offset: usize,
        count: usize,
        next: usize,
        id: u8,
    },
    BadChecksum {
        offset: usize,
        next: usize,
        id: u8,
    },
}

// The next event at the offset `from` or behind it, if there is one. At each offset stands a packet, or a bad checksum, or it is
// passed by one byte; so is one that waits for more bytes, since none follow a whole segment. [R1-R5]
pub fn next_event(segment: &[u8], from: usize) -> Option<Event>
    ensures { result ≡ next_event segment.now from }
{
    for offset in from..segment.len() {
        match Protocol::Two.judge(segment, offset) {
            Verdict::Packet(count) => return Some(Event::Packet {
                offset,
                count,
                next: offset + count,
                id: segment[offset + 4],
            }),
            Verdict::BadChecksum(id) => return Some(Event::BadChecksum {
                offset,
                next: offset + 1,
                id,
            }),
            Verdict::Waiting(_) | Verdict::Nothing => {}
        }
    }
    None
}
