// The front of a packet of Protocol 2.0: whether bytes agree with header and ID.
#![tactic(auto)]

ghost use Rattle.std.specs.Prelude.{◌≡◌, eqb};
ghost use Rattle.packet_rules.specs.Shape.{so_far};
ghost use Rattle.packet_front.specs.Front.{good_id};
ghost use Rattle.packet_front.specs.Front.{word as front_word};
ghost use Rattle.packet_front.specs.Header.{header_agrees, front_agrees, headed, may_begin};

// The largest ID of a device, and the one that addresses all.
pub const MAX_ID: u8 = 252;

pub const BROADCAST_ID: u8 = 254;

// Bytes of the shortest and of the longest packet, of the longest body, and the greatest length field. [P5]
pub const MIN_PACKET: usize = 10;

pub const MAX_PACKET: usize = 1031;

pub const MAX_BODY: usize = 1022;

pub const MAX_LENGTH: usize = 1024;

// A 16-bit number, low byte first.
pub fn word(low: u8, high: u8) -> u16
    ensures { result ≡ front_word low high }
{
    u16::from_le_bytes([low, high])
}

pub fn good_id(id: u8) -> bool
    ensures { result ≡ good_id id }
{
    id <= MAX_ID || id == BROADCAST_ID
}

// The header as a number, low byte first.
const HEADER: u32 = 0x00FDFFFF;

// Whether all of the header is there: its four bytes in one comparison.
fn has_header(s: &[u8]) -> bool
    ensures { result ≡ headed s.now }
{
    4 <= s.len() && u32::from_le_bytes([s[0], s[1], s[2], s[3]]) == HEADER
}

// Whether the bytes that are there agree with the header.
fn header_agrees(s: &[u8]) -> bool
    ensures { result ≡ header_agrees s.now }
{
    if 4 <= s.len() {
        has_header(s)
    } else {
        let front = [0xFF, 0xFF, 0xFD];
        front.starts_with(s)
    }
}

// And with the ID. [V8]
pub fn front_agrees(s: &[u8]) -> bool
    ensures { result ≡ front_agrees s.now }
{
    header_agrees(s) && s.get(4).is_none_or(|&id| good_id(id))
}

// Whether a packet may begin with these bytes. [V8]
pub fn may_begin(s: &[u8]) -> bool
    ensures { result ≡ may_begin s.now }
{
    !s.is_empty() && s[0] == 0xFF && (s.len() < 4 || has_header(s))
}
