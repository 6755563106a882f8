// Exports that only the comparison tests and the benchmark call: parts that firmware does not need by themselves.
#![tactic(auto)]

ghost use Rattle.std.specs.Prelude.{◌≡◌, ◌∷◌, min, length, take, drop, replicate};
ghost use Rattle.lists.specs.Write.{overwritten};
ghost use Rattle.crc.specs.Crc.{crc_from};
ghost use Rattle.crc.specs.Laws.{ChecksumLaws};
ghost use Rattle.stuffing.specs.Stuffing.{stuff};
ghost use Rattle.stuffing.specs.Answers.{checked};
ghost use Rattle.reading.specs.Calls.{feed as call_feed};
ghost use Rattle.reading.specs.Progress.{Settles};
ghost use Rattle.packet_rules.specs.Answers.{answer_by, settled_by};
ghost use Rattle.packet.specs.Verdict.{shape, protocol2};
ghost use Rattle.packet_v1.specs.Packet.{last_of_p1, last_of_mercury};
ghost use Rattle.packet_v1.specs.Verdict.{protocol1, mercury};
ghost use Rattle.packet_v1.specs.Kept.{RulesKept};
ghost use Rattle.packet_protocols.specs.Protocols.{rules_of};
ghost use Rattle.reader_records.specs.Records.{step_on, left_by, lent, packet_on, EveryProtocol};
ghost use Rattle.numbers.specs.Exported.{step_numbers};
ghost use Rattle.capi_test.specs.Numbers.{test_number, verdict_numbers};

use numbers::StepNumbers;
use packet_front::MAX_PACKET;
use packet_protocols::Protocol;
use packet_rules::Verdict;
use reader_core::MAX_HELD;
use reader_records::Reader;

// A verdict as numbers. kind 0: nothing; 1: a packet of `count` bytes; 2: a bad checksum of `id`; 3: waiting for `count` bytes.
#[repr(C)]
#[derive(Clone, Copy)]
pub struct VerdictNumbers {
    pub kind: u8,
    pub id: u8,
    pub count: usize,
}

// The checksum by the leaf with sixteen numbers.
#[unsafe(no_mangle)]
pub extern "C" fn dxl_test_crc16_small(start: u16, bytes: &[u8]) -> u16
    ensures value { result ≡ crc_from start bytes.now }
    ensures checksum_laws { ChecksumLaws }
{
    crc16_small::update(start, bytes)
}

// The checksum by the leaf without a table.
#[unsafe(no_mangle)]
pub extern "C" fn dxl_test_crc16_fold(start: u16, bytes: &[u8]) -> u16
    ensures value { result ≡ crc_from start bytes.now }
    ensures checksum_laws { ChecksumLaws }
{
    crc16_fold::update(start, bytes)
}

// 1 if the body is well stuffed, otherwise 0.
#[unsafe(no_mangle)]
pub extern "C" fn dxl_test_well_stuffed(body: &[u8]) -> u8
    ensures { result ≡ test_number (checked body.now) }
{
    match stuffing::check(body) {
        Some(_) => 1,
        None => 0,
    }
}

#[unsafe(no_mangle)]
pub extern "C" fn dxl_test_stuff(first: u8, rest: &[u8], out: &mut [u8]) -> usize
    ensures value { result ≡ min (length out.old) (length (stuff (first ∷ rest.now))) }
    ensures out_after { out.new ≡ overwritten out.old (take (length out.old) (stuff (first ∷ rest.now))) }
{
    stuffing_writer::write_stuffed(first, rest, out)
}

// The verdict of a protocol.
fn verdict_of(protocol: Protocol, segment: &[u8], offset: usize) -> VerdictNumbers
    ensures { result ≡ verdict_numbers (answer_by (rules_of protocol) (drop offset segment.now)) }
{
    match protocol.judge(segment, offset) {
        Verdict::Nothing => VerdictNumbers {
            kind: 0,
            id: 0,
            count: 0,
        },
        Verdict::Packet(n) => VerdictNumbers {
            kind: 1,
            id: 0,
            count: n,
        },
        Verdict::BadChecksum(id) => VerdictNumbers {
            kind: 2,
            id,
            count: 0,
        },
        Verdict::Waiting(n) => VerdictNumbers {
            kind: 3,
            id: 0,
            count: n,
        },
    }
}

#[unsafe(no_mangle)]
pub extern "C" fn dxl_test_verdict(segment: &[u8], offset: usize) -> VerdictNumbers
    ensures value { result ≡ verdict_numbers (answer_by protocol2 (drop offset segment.now)) }
    ensures settles { Settles protocol2 (settled_by shape) }
{
    verdict_of(Protocol::Two, segment, offset)
}

// The verdict of Protocol 1.0. That its rules keep the laws of packet rules is promised too. [O8]
#[unsafe(no_mangle)]
pub extern "C" fn dxl_test_p1_verdict(segment: &[u8], offset: usize) -> VerdictNumbers
    ensures value { result ≡ verdict_numbers (answer_by protocol1 (drop offset segment.now)) }
    ensures rules_kept { RulesKept last_of_p1 }
{
    verdict_of(Protocol::One, segment, offset)
}

// The verdict of Mercury, likewise. [O8]
#[unsafe(no_mangle)]
pub extern "C" fn dxl_test_mercury_verdict(segment: &[u8], offset: usize) -> VerdictNumbers
    ensures value { result ≡ verdict_numbers (answer_by mercury (drop offset segment.now)) }
    ensures rules_kept { RulesKept last_of_mercury }
{
    verdict_of(Protocol::Mercury, segment, offset)
}

// What a feeding call by value returns: its step as numbers, the packet's bytes followed by 0, and the record from now on.
#[repr(C)]
#[derive(Drop)]
pub struct FedNumbers {
    pub step: StepNumbers,
    pub packet: [u8; MAX_PACKET],
    pub reader: Reader,
}

// The feeding call by value, on a record made of the held bytes and their count.
#[unsafe(no_mangle)]
pub extern "C" fn dxl_test_feed_value(
    held: &[u8; MAX_HELD],
    count: usize,
    chunk: &[u8],
) -> FedNumbers
    ensures step_value { result.step ≡ step_numbers (step_on (lent held.now count) (call_feed chunk.now)) }
    ensures packet_value { result.packet ≡ packet_on (lent held.now count) (call_feed chunk.now) (replicate 1031 0) }
    ensures reader_value { result.reader ≡ left_by (lent held.now count) (call_feed chunk.now) }
    ensures every_protocol { EveryProtocol }
{
    let bytes = *held;
    let fed = reader_records::feed(Reader { bytes, count }, chunk);
    let step = fed.step;
    let packet = fed.packet;
    let reader = fed.reader;
    FedNumbers {
        step: StepNumbers::from(step),
        packet,
        reader,
    }
}
