// The packets of a segment by their IDs: marks in an index of all IDs, and the last packet for one ID.
#![tactic(auto)]

ghost use Rattle.std.specs.Prelude.{◌≡◌};
ghost use Rattle.std.specs.Iterator.{YieldsFirst, item_count};
ghost use Rattle.reading.specs.Reading.{reading};
ghost use Rattle.log_index.specs.Events.{events_left};
ghost use Rattle.packet.specs.Verdict.{protocol2};
ghost use Rattle.reader_plain.specs.Next.{next_event};
ghost use Rattle.log_index.specs.Last.{mark_of, last_in};
ghost use Rattle.log_index.specs.Marks.{marked};

use packet_protocols::Protocol;
use reader_plain::Event;

// How many numbers the index has: one for each ID that packets may have.
pub const INDEX_COUNT: usize = 254;

// The position of an ID in the index. [I5]
pub fn mark_of(id: u8) -> usize
    ensures { result ≡ mark_of id }
{
    if id < 253 { id as usize } else { 253 }
}

// The next event at the offset `from` or behind it, if there is one: the plain reader's, asked only where a packet may begin, since
// the search for that passes noise faster.
fn next_event(segment: &[u8], from: usize) -> Option<Event>
    ensures { result ≡ next_event segment.now from }
{
    let start = Protocol::Two.next_start(segment, from);
    reader_plain::next_event(segment, start)
}

// The events of a segment, from an offset on.
#[derive(Drop)]
struct Events<'a> {
    segment: &'a [u8],
    from: usize,
}

impl<'a> Iterator for Events<'a> {
    type Item = Event;

    ghost next_gives = { YieldsFirst (λ s. events_left s.segment.now s.from) };

    ghost remaining = { item_count (λ s. events_left s.segment.now s.from) };

    fn next(&mut self) -> Option<Event> {
        let event = next_event(self.segment, self.from)?;
        self.from = match event {
            Event::Packet { next, .. } => next,
            Event::BadChecksum { next, .. } => next,
        };
        Some(event)
    }
}

impl<'a> Events<'a> {
    fn of(segment: &'a [u8]) -> Events<'a>
        ensures segment { result.segment.now ≡ segment.now }
        ensures start { result.from ≡ 0 }
    {
        Events { segment, from: 0 }
    }
}

// Writes the number of a segment for each ID that has a packet in it. A bad checksum is no packet. [I5 I8]
pub fn mark(index: &mut [usize; INDEX_COUNT], segment: &[u8], number: usize)
    ensures { index.new ≡ marked number index.old (reading protocol2 segment.now) }
{
    for event in Events::of(segment) {
        if let Event::Packet { id, .. } = event {
            index[mark_of(id)] = number;
        }
    }
}

// The offset of the last packet with this ID in a segment. [I6]
pub fn last_in(segment: &[u8], wanted: u8) -> Option<usize>
    ensures { result ≡ last_in wanted segment.now }
{
    let mut last = None;
    for event in Events::of(segment) {
        if let Event::Packet { offset, id, .. } = event
            && id == wanted
        {
            last = Some(offset);
        }
    }
    last
}
