// The functions that C calls for the packets of Protocol 1.0 and Mercury, in an object of their own: firmware that calls none of
// them has none of their code. Otherwise as those of `capi`.
#![tactic(auto)]

ghost use Rattle.std.specs.Prelude.{◌≡◌, ◌∷◌};
ghost use Rattle.reading.specs.Calls.{feed as call_feed, gap as call_gap};
ghost use Rattle.packet_v1.specs.Packet.{up_to, last_of_p1, last_of_mercury};
ghost use Rattle.packet_encoder_v1.specs.Encoding.{encode_answer, encode_out};
ghost use Rattle.packet_encoder_v1.specs.RoundTrip.{RoundTrip};
ghost use Rattle.packet_protocols.specs.declared.Protocol.TheVariants.{One, Mercury};
ghost use Rattle.reader_records.specs.Records.{lent, step_in, left_in, packet_in, EveryProtocol};
ghost use Rattle.answers.specs.Answers.{exported};
ghost use Rattle.numbers.specs.Exported.{step_numbers};
ghost use Rattle.fits.specs.Fits.{StepsFit, CountsFit};

use numbers::StepNumbers;
use packet_v1::V1_MAX_PACKET;
use reader_core::{ProtocolMercury, ProtocolOne, V1_MAX_HELD};

// The encoder of Protocol 1.0: the packet's byte count, or minus a refusal number. [O9-O11]
#[unsafe(no_mangle)]
pub extern "C" fn dxl_p1_encode(
    id: u8,
    instruction: u8,
    params: &[u8],
    out: &mut [u8],
    at: usize,
) -> i64
    ensures value { result ≡ exported (encode_answer (up_to last_of_p1) id (instruction ∷ params.now) out.old at) }
    ensures out_after { out.new ≡ encode_out (up_to last_of_p1) id (instruction ∷ params.now) out.old at }
    ensures round_trip { RoundTrip (up_to last_of_p1) × CountsFit }
{
    answers::exported(packet_encoder_v1::encode(
        packet_v1::LAST_OF_P1,
        id,
        instruction,
        params,
        out,
        at,
    ))
}

// The encoder of Mercury, likewise. [O9-O11]
#[unsafe(no_mangle)]
pub extern "C" fn dxl_mercury_encode(
    id: u8,
    instruction: u8,
    params: &[u8],
    out: &mut [u8],
    at: usize,
) -> i64
    ensures value { result ≡ exported (encode_answer (up_to last_of_mercury) id (instruction ∷ params.now) out.old at) }
    ensures out_after { out.new ≡ encode_out (up_to last_of_mercury) id (instruction ∷ params.now) out.old at }
    ensures round_trip { RoundTrip (up_to last_of_mercury) × CountsFit }
{
    answers::exported(packet_encoder_v1::encode(
        packet_v1::LAST_OF_MERCURY,
        id,
        instruction,
        params,
        out,
        at,
    ))
}

// The feeding call of Protocol 1.0 on the record by its parts. Demand 3 of every protocol is promised too. [N9 O13 O15]
#[unsafe(no_mangle)]
pub extern "C" fn dxl_p1_feed(
    held: &mut [u8; V1_MAX_HELD],
    count: &mut usize,
    chunk: &[u8],
    packet: &mut [u8; V1_MAX_PACKET],
) -> StepNumbers
    ensures value { result ≡ step_numbers (step_in One (lent held.old count.old) (call_feed chunk.now)) }
    ensures count_after { lent held.new count.new ≡ left_in One (lent held.old count.old) (call_feed chunk.now) }
    ensures packet_after { packet.new ≡ packet_in One (lent held.old count.old) (call_feed chunk.now) packet.old }
    ensures every_protocol { EveryProtocol × StepsFit }
{
    let n = *count;
    let step = reader_core::feed::<ProtocolOne, _, _>(held, n, chunk, packet);
    if let Ok(step) = step {
        *count = step.held;
    }
    StepNumbers::from(step)
}

// The gap call of Protocol 1.0, likewise. [O13]
#[unsafe(no_mangle)]
pub extern "C" fn dxl_p1_gap(
    held: &mut [u8; V1_MAX_HELD],
    count: &mut usize,
    packet: &mut [u8; V1_MAX_PACKET],
) -> StepNumbers
    ensures value { result ≡ step_numbers (step_in One (lent held.old count.old) call_gap) }
    ensures count_after { lent held.new count.new ≡ left_in One (lent held.old count.old) call_gap }
    ensures packet_after { packet.new ≡ packet_in One (lent held.old count.old) call_gap packet.old }
    ensures every_protocol { EveryProtocol × StepsFit }
{
    let n = *count;
    let step = reader_core::gap::<ProtocolOne, _, _>(held, n, packet);
    if let Ok(step) = step {
        *count = step.held;
    }
    StepNumbers::from(step)
}

// The feeding call of Mercury, likewise. [N9 O13 O15]
#[unsafe(no_mangle)]
pub extern "C" fn dxl_mercury_feed(
    held: &mut [u8; V1_MAX_HELD],
    count: &mut usize,
    chunk: &[u8],
    packet: &mut [u8; V1_MAX_PACKET],
) -> StepNumbers
    ensures value { result ≡ step_numbers (step_in Mercury (lent held.old count.old) (call_feed chunk.now)) }
    ensures count_after { lent held.new count.new ≡ left_in Mercury (lent held.old count.old) (call_feed chunk.now) }
    ensures packet_after { packet.new ≡ packet_in Mercury (lent held.old count.old) (call_feed chunk.now) packet.old }
    ensures every_protocol { EveryProtocol × StepsFit }
{
    let n = *count;
    let step = reader_core::feed::<ProtocolMercury, _, _>(held, n, chunk, packet);
    if let Ok(step) = step {
        *count = step.held;
    }
    StepNumbers::from(step)
}

// The gap call of Mercury, likewise. [O13]
#[unsafe(no_mangle)]
pub extern "C" fn dxl_mercury_gap(
    held: &mut [u8; V1_MAX_HELD],
    count: &mut usize,
    packet: &mut [u8; V1_MAX_PACKET],
) -> StepNumbers
    ensures value { result ≡ step_numbers (step_in Mercury (lent held.old count.old) call_gap) }
    ensures count_after { lent held.new count.new ≡ left_in Mercury (lent held.old count.old) call_gap }
    ensures packet_after { packet.new ≡ packet_in Mercury (lent held.old count.old) call_gap packet.old }
    ensures every_protocol { EveryProtocol × StepsFit }
{
    let n = *count;
    let step = reader_core::gap::<ProtocolMercury, _, _>(held, n, packet);
    if let Ok(step) = step {
        *count = step.held;
    }
    StepNumbers::from(step)
}
