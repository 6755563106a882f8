// One exchange on the bus: from a packet as received to the device's answer.
#![tactic(auto)]

ghost use Rattle.std.specs.Prelude.{◌≡◌, true, unwrap_or};
ghost use Rattle.std.specs.Result.{result_unwrap_or};
ghost use Rattle.answers.specs.Answers.{answered};
ghost use Rattle.stuffing.specs.Stuffing.{well_stuffed};
ghost use Rattle.stuffing.specs.Answers.{removal_refusal};
ghost use Rattle.packet.specs.Packet.{body_of};
ghost use Rattle.device_status.specs.Status.{silence};
ghost use Rattle.device.specs.Results.{nothing_sent};
ghost use Rattle.device_packet.specs.Exchange.{id_heard, packet_answer, packet_reply, packet_registered, packet_table, packet_body, exchange_answer, exchange_registered, exchange_table, exchange_body, exchange_out};

use answers::Refusal;
use device::Sent;
use device_dispatch::Heard;
use device_instructions::RegisteredWrite;
use device_status::{MIN_REPLY, Reply};
use packet_protocols::Protocol;
use packet_rules::Front;

// An ID that no device has.
const NO_ID: u8 = 255;

// The packet's ID, if the bytes are exactly one well-formed packet. That their stuffing is right is known.
fn id_heard(packet: &[u8]) -> Option<u8>
    requires { well_stuffed (body_of packet.now) ≡ true }
    ensures { unwrap_or result 255 ≡ id_heard packet.now }
{
    let Front::Whole(n) = Protocol::Two.peek(packet) else {
        return None;
    };
    if n != packet.len() {
        return None;
    }
    let end = n - 2;
    let crc = packet::checksum(&packet[4..end]);
    if crc != packet_front::word(packet[end], packet[end + 1]) {
        return None;
    }
    Some(packet[4])
}

// The refusals of the removal, which come before the device's.
fn removal_refusal(packet: &[u8], body: &[u8]) -> Result<(), Refusal>
    ensures { result ≡ answered (removal_refusal (body_of packet.now) body.now) tt }
{
    let Some(n) = stuffing::check(packet::body(packet)) else {
        return Err(Refusal::BadStuffing);
    };
    if body.len() < n {
        return Err(Refusal::NoRoom);
    }
    Ok(())
}

// The first of two calls: writes the packet's body without its stuffing to the body buffer, and lets the device carry it out. Faults of
// the caller come first and change nothing: those of the removal, then the device's. The device's are tested first, so that the
// removal, which tests its own before it writes, goes over the body once. [D38 D39 D50 D51 N3 N4]
pub fn carry_out(
    table: &mut [u8],
    registered: &mut RegisteredWrite,
    packet: &[u8],
    body: &mut [u8],
) -> Result<Reply, Refusal>
    ensures refused_value { nothing_sent result ≡ packet_answer table.old registered.old packet.now body.old }
    ensures reply_value { result_unwrap_or result silence ≡ packet_reply table.old registered.old packet.now body.old }
    ensures registered_after { registered.new ≡ packet_registered table.old registered.old packet.now body.old }
    ensures table_after { table.new ≡ packet_table table.old registered.old packet.now body.old }
    ensures body_after { body.new ≡ packet_body table.old registered.old packet.now body.old }
{
    if let Err(fault) = device::state_refusal(&table[..], registered) {
        removal_refusal(packet, &body[..])?;
        return Err(fault);
    }
    let n = packet::unstuff(packet, body)?;
    let id = id_heard(packet).unwrap_or(NO_ID);
    let carried = device::carry_out(table, registered, Heard::Packet, id, &body[..n])?;
    Ok(carried.reply)
}

// The call in one: the test of the reply buffer, the first call and the second. [D38 D39 N3 N4 N10 N12 N14]
#[tactic(auto, unfolding(device::specs::Answers::call_refusal, device::specs::Answers::room_refusal))]
pub fn answer(
    table: &mut [u8],
    registered: &mut RegisteredWrite,
    packet: &[u8],
    body: &mut [u8],
    out: &mut [u8],
) -> Result<Sent, Refusal>
    ensures answer_value { result ≡ exchange_answer table.old registered.old packet.now body.old out.old }
    ensures registered_after { registered.new ≡ exchange_registered table.old registered.old packet.now body.old out.old }
    ensures table_after { table.new ≡ exchange_table table.old registered.old packet.now body.old out.old }
    ensures body_after { body.new ≡ exchange_body table.old registered.old packet.now body.old out.old }
    ensures out_after { out.new ≡ exchange_out table.old registered.old packet.now body.old out.old }
{
    if out.len() < MIN_REPLY {
        removal_refusal(packet, &body[..])?;
        device::state_refusal(&table[..], registered)?;
        return Err(Refusal::ShortReply);
    }
    let reply = carry_out(table, registered, packet, body)?;
    device::send(reply, out)
}
