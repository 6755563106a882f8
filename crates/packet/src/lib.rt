// Reading one packet of Protocol 2.0: the verdict on all its bytes, and the body as a part of them.
#![tactic(auto)]

ghost use Rattle.std.specs.Prelude.{◌≡◌, ◌++◌};
ghost use Rattle.crc.specs.Crc.{crc_from};
ghost use Rattle.stuffing.specs.Answers.{removal_answer, removal_out};
ghost use Rattle.packet_front.specs.Front.{header};
ghost use Rattle.packet.specs.Packet.{body_of};
ghost use Rattle.packet.specs.Verdict.{whole_answer};

use answers::Refusal;
use packet_rules::Verdict;

// The body as a part of the packet, between length field and checksum; empty if there is no room for both. [S2 S7]
pub fn body(packet: &[u8]) -> &[u8]
    ensures { result.now ≡ body_of packet.now }
{
    if packet.len() < 9 {
        &packet[..0]
    } else {
        &packet[7..packet.len() - 2]
    }
}

// Writes the packet's body without its stuffing to the start of out; refused as `unstuff_into` is. [N3 N4 S7]
pub fn unstuff(packet: &[u8], out: &mut [u8]) -> Result<usize, Refusal>
    ensures value { result ≡ removal_answer (body_of packet.now) out.old }
    ensures out_after { out.new ≡ removal_out (body_of packet.now) out.old }
{
    stuffing::unstuff_into(body(packet), out)
}

// The checksum of FF FF FD 00.
const HEADER_CHECKSUM: u16 = 0x0e28;

// The checksum of the header and the bytes after it. It goes on from the header's, which is always the same.
pub fn checksum(rest: &[u8]) -> u16
    ensures { result ≡ crc_from 0 (header ++ rest.now) }
{
    crc16::update(HEADER_CHECKSUM, rest)
}

// The verdict on all bytes of a packet whose header, ID and length are right: the checksum first, then the stuffing. Fewer than
// the shortest packet has are nothing. [P7 P8 V4 V5]
pub fn judge_whole(packet: &[u8]) -> Verdict
    ensures { result ≡ whole_answer packet.now }
{
    let n = packet.len();
    if n < packet_front::MIN_PACKET {
        return Verdict::Nothing;
    }
    let end = n - 2;
    let crc = checksum(&packet[4..end]);
    if crc != packet_front::word(packet[end], packet[end + 1]) {
        return Verdict::BadChecksum(packet[4]);
    }
    let Some(_) = stuffing::check(body(packet)) else {
        return Verdict::Nothing;
    };
    Verdict::Packet(n)
}
