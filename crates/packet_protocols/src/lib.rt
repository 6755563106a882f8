// The protocols: what the bytes from an offset on are, by the packet rules of each. The shape of a packet is chosen by the
// protocol, and the tests on it stand once.
#![tactic(auto)]

ghost use Rattle.std.specs.Prelude.{◌≡◌, ◌+◌, ◌≤◌, length, drop};
ghost use Rattle.packet_rules.specs.Answers.{front_by, answer_by};
ghost use Rattle.packet_rules.specs.Starts.{before_start};
ghost use Rattle.packet_protocols.specs.Protocols.{shape_of, rules_of, id_offset, front_agrees_of, length_in, least_length, greatest_length, may_begin_of, whole_of};

use packet_rules::{Front, Verdict};

// Protocol 2.0, and those of the old boards: Protocol 1.0 and Mercury.
#[derive(Clone, Copy, PartialEq, Eq, Debug)]
pub enum Protocol {
    Two,
    One,
    Mercury,
}

// How a protocol lays out its packets.
#[derive(Clone, Copy)]
struct Layout {
    // how many bytes header, ID and length field have
    front: usize,
    // where the ID stands
    id_offset: usize,
    // how many bytes the shortest packet has
    shortest: usize,
    // the least and the greatest length that packets have
    least_length: usize,
    greatest_length: usize,
}

impl Protocol {
    fn layout(self) -> Layout
        ensures front { result.front ≡ (shape_of self).front }
        ensures id { result.id_offset ≡ id_offset self }
        ensures shortest { result.shortest ≡ (shape_of self).shortest }
        ensures least { result.least_length ≡ least_length self }
        ensures greatest { result.greatest_length ≡ greatest_length self }
    {
        match self {
            Protocol::Two => Layout {
                front: 7,
                id_offset: 4,
                shortest: packet_front::MIN_PACKET,
                least_length: 3,
                greatest_length: packet_front::MAX_LENGTH,
            },
            Protocol::One | Protocol::Mercury => Layout {
                front: 4,
                id_offset: 2,
                shortest: packet_v1::V1_MIN_PACKET,
                least_length: 2,
                greatest_length: packet_v1::V1_MAX_LENGTH,
            },
        }
    }

    // How many bytes the shortest packet has.
    pub fn shortest(self) -> usize
        ensures { result ≡ (shape_of self).shortest }
    {
        self.layout().shortest
    }

    // Where the ID stands in a packet.
    pub fn id_offset(self) -> usize
        ensures { result ≡ id_offset self }
    {
        self.layout().id_offset
    }

    // Whether the bytes that are there agree with header and ID.
    fn front_agrees(self, s: &[u8]) -> bool
        ensures { result ≡ front_agrees_of self s.now }
    {
        match self {
            Protocol::Two => packet_front::front_agrees(s),
            Protocol::One => packet_v1::front_agrees(packet_v1::LAST_OF_P1, s),
            Protocol::Mercury => packet_v1::front_agrees(packet_v1::LAST_OF_MERCURY, s),
        }
    }

    // The length field of bytes that have a front.
    fn length_in(self, s: &[u8]) -> usize
        requires { (shape_of self).front ≤ length s.now }
        ensures { result ≡ length_in self s.now }
    {
        match self {
            Protocol::Two => usize::from(packet_front::word(s[5], s[6])),
            Protocol::One | Protocol::Mercury => usize::from(s[3]),
        }
    }

    // What header, ID and length field say of the bytes from the slice's start on. [O1-O3 O6 O7 V8 V9 V11 V12]
    pub fn peek(self, s: &[u8]) -> Front
        ensures { result ≡ front_by (shape_of self) s.now }
    {
        if !self.front_agrees(s) {
            return Front::Nothing;
        }
        let layout = self.layout();
        let n = s.len();
        if n < layout.front {
            return Front::Waiting(layout.shortest - n);
        }
        let length = self.length_in(s);
        if !(layout.least_length..=layout.greatest_length).contains(&length) {
            return Front::Nothing;
        }
        let size = layout.front + length;
        if n < size {
            return Front::Waiting(size - n);
        }
        Front::Whole(size)
    }

    // Whether a packet may begin with these bytes.
    fn may_begin(self, s: &[u8]) -> bool
        ensures { result ≡ may_begin_of self s.now }
    {
        match self {
            Protocol::Two => packet_front::may_begin(s),
            Protocol::One | Protocol::Mercury => packet_v1::may_begin(s),
        }
    }

    // The first offset, from this one on, at which a packet may begin; the end where there is none, and the offset itself where it
    // is past the end. No packet begins before. [O6 V8]
    pub fn next_start(self, segment: &[u8], from: usize) -> usize
        ensures { result ≡ from + before_start (may_begin_of self) (drop from segment.now) }
    {
        // A `while`: as a `for` it takes a fifth more instructions on noise.
        let mut at = from;
        while at < segment.len() {
            if self.may_begin(&segment[at..]) {
                return at;
            }
            at += 1;
        }
        at
    }

    // The verdict on all bytes of a packet whose header, ID and length are right. [O5 O6]
    pub fn judge_whole(self, packet: &[u8]) -> Verdict
        ensures { result ≡ whole_of self packet.now }
    {
        match self {
            Protocol::Two => packet::judge_whole(packet),
            Protocol::One | Protocol::Mercury => packet_v1::judge_whole(packet),
        }
    }

    // The verdict on the bytes of a segment from an offset on, while the segment is open; past its end there are none. The
    // checksum is computed at most once, and only if all bytes of the packet are there.
    // [C4 M1 M2 O1-O7 P1-P5 P7-P10 S2 S4 S5 V3-V6 V8 V9 V11]
    #[inline]
    pub fn judge(self, segment: &[u8], offset: usize) -> Verdict
        ensures { result ≡ answer_by (rules_of self) (drop offset segment.now) }
    {
        let s = &segment[offset.min(segment.len())..];
        match self.peek(s) {
            Front::Nothing => Verdict::Nothing,
            Front::Waiting(lacks) => Verdict::Waiting(lacks),
            Front::Whole(size) => self.judge_whole(&s[..size]),
        }
    }
}
