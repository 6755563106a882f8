// Reading one packet of Protocol 1.0 or Mercury: whether bytes agree with header and ID, and the verdict on all its bytes. The two
// protocols differ in `last`, the largest ID of a device.
#![tactic(auto)]

ghost use Rattle.std.specs.Prelude.{◌≡◌, ◌+◌, ◌%◌, eqb};
ghost use Rattle.packet_rules.specs.Shape.{so_far};
ghost use Rattle.packet_rules.specs.Answers.{answer_for};
ghost use Rattle.packet_v1.specs.Packet.{up_to, sum};
ghost use Rattle.packet_v1.specs.Verdict.{front_agrees, may_begin, judged};

use packet_rules::Verdict;

// The largest ID of a device: in Protocol 1.0, and in Mercury.
pub const LAST_OF_P1: u8 = 253;

pub const LAST_OF_MERCURY: u8 = 252;

// Bytes of the shortest and of the longest packet, and the greatest length field. [O3]
pub const V1_MIN_PACKET: usize = 6;

pub const V1_MAX_PACKET: usize = 259;

pub const V1_MAX_LENGTH: usize = 255;

// Whether an ID is allowed where those of devices end with `last`. [O2]
pub fn good_id(last: u8, id: u8) -> bool
    ensures { result ≡ up_to last id }
{
    id <= last || id == packet_front::BROADCAST_ID
}

// Whether the bytes that are there agree with header and ID. [O1 O2 O6]
pub fn front_agrees(last: u8, s: &[u8]) -> bool
    ensures { result ≡ front_agrees (up_to last) s.now }
{
    s.get(0).is_none_or(|&b| b == 0xFF)
        && s.get(1).is_none_or(|&b| b == 0xFF)
        && s.get(2).is_none_or(|&id| good_id(last, id))
}

// Whether a packet may begin with these bytes. [O1 O6]
pub fn may_begin(s: &[u8]) -> bool
    ensures { result ≡ may_begin s.now }
{
    !s.is_empty() && s[0] == 0xFF
}

// The low byte of a sum that goes on over these bytes.
pub fn sum_from(start: u8, bytes: &[u8]) -> u8
    ensures { result ≡ (start + sum bytes.now) % 256 }
{
    bytes.iter().fold(start, |total, &b| total.wrapping_add(b))
}

// The verdict if all bytes of a packet are there and header, ID and length are right: its checksum decides. [O5 O6]
pub fn judge_whole(packet: &[u8]) -> Verdict
    ensures { result ≡ answer_for (judged packet.now) 0 }
{
    let n = packet.len();
    if n < V1_MIN_PACKET {
        return Verdict::Nothing;
    }
    let end = n - 1;
    if packet[end] != 255 - sum_from(0, &packet[2..end]) {
        return Verdict::BadChecksum(packet[2]);
    }
    Verdict::Packet(n)
}
