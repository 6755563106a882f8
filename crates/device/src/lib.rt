// The device on the bus: what it hears is carried out, and answered in the caller's buffer.
#![tactic(auto)]

ghost use Rattle.std.specs.Prelude.{◌≡◌, ◌≤◌, length, IfOk};
ghost use Rattle.answers.specs.Answers.{answered};
ghost use Rattle.table_registers.specs.Registers.{table_size};
ghost use Rattle.device_replies.specs.Results.{told};
ghost use Rattle.device_status.specs.Sending.{status_answer, status_out};
ghost use Rattle.device.specs.Device.{carried, carry_out};
ghost use Rattle.device_dispatch.specs.Reactions.{reaction as reactions_reaction};
ghost use Rattle.device.specs.Answers.{with_slot, state_refusal, carried_answer, carried_reply, carried_registered, carried_error, carried_table, call_refusal, call_answer, call_registered, call_table, call_out};
ghost use Rattle.device.specs.Results.{number_in, reply_to, carried_of, nothing_sent, reply_in, error_in};

use answers::Refusal;
use device_dispatch::Heard;
use device_instructions::{Fault, MAX_REGISTERED, RegisteredWrite, ReplyData};
use device_replies::Reacted;
use device_status::{MIN_REPLY, Reply};
use packet_front::{BROADCAST_ID, MAX_ID};
use table_registers::{REG_HARDWARE_ERROR, REG_ID, REG_STATUS_RETURN_LEVEL, TABLE_BYTES};

// The error number, 0 for none.
fn number_in(outcome: Result<ReplyData, Fault>) -> u8
    ensures { result ≡ number_in outcome }
{
    match outcome {
        Ok(_) => 0,
        Err(fault) => u8::from(fault),
    }
}

// By the ID and the status return level from before the instruction, and the table from after it.
fn reply_to(table: &[u8], own: u8, level: u8, reacted: Reacted) -> Reply
    requires sized { length table.now ≡ table_size }
    requires short { IfOk reacted.outcome (λ d. d.count ≤ 8) }
    ensures { (w : _) → result ≡ reply_to table.now own level (told reacted w) }
{
    let Some(at) = reacted.reply else {
        return device_status::silence();
    };
    if level < at.level {
        return device_status::silence();
    }
    let error = number_in(reacted.outcome);
    let data = match reacted.outcome {
        Ok(data) => data,
        Err(_) => ReplyData::none(),
    };
    let bytes = data.bytes;
    Reply {
        speaks: 1,
        id: own,
        error: device_status::error_byte(error, table[REG_HARDWARE_ERROR]),
        count: data.count as u8,
        bytes,
        slot: at.slot,
    }
}

// A status that was sent: how many bytes it has, 0 for silence, and its reply slot.
#[derive(Clone, Copy, PartialEq, Eq, Debug)]
pub struct Sent {
    pub count: usize,
    pub slot: usize,
}

// What the first call leaves: the reply that waits, and the error number, 0 for none, also where it is not answered.
#[derive(Clone, Copy)]
pub struct CarriedOut {
    pub reply: Reply,
    pub error: u8,
}

// What was sent to the own ID, or to all devices.
fn execute(
    table: &mut [u8],
    registered: &mut RegisteredWrite,
    heard: Heard,
    all: bool,
    body: &[u8],
) -> CarriedOut
    requires { length table.old ≡ table_size }
    ensures value { result ≡ carried_of (carried table.old (reactions_reaction heard all table.old registered.old body.now)) }
    ensures registered_after { registered.new ≡ (reactions_reaction heard all table.old registered.old body.now).effect.registered }
    ensures table_after { table.new ≡ (reactions_reaction heard all table.old registered.old body.now).effect.table }
{
    let own = table[REG_ID];
    let level = table[REG_STATUS_RETURN_LEVEL];
    let reacted = device_dispatch::reaction(table, registered, heard, all, body);
    CarriedOut {
        reply: reply_to(&table[..], own, level, reacted),
        error: number_in(reacted.outcome),
    }
}

// One instruction is carried out, if it is for this device.
fn dispatch(
    table: &mut [u8],
    registered: &mut RegisteredWrite,
    heard: Heard,
    id: u8,
    body: &[u8],
) -> CarriedOut
    requires { length table.old ≡ table_size }
    ensures value { result ≡ carried_of (carry_out table.old registered.old heard id body.now) }
    ensures registered_after { registered.new ≡ (carry_out table.old registered.old heard id body.now).registered }
    ensures table_after { table.new ≡ (carry_out table.old registered.old heard id body.now).table }
{
    let own = id == table[REG_ID];
    if !own && id != BROADCAST_ID {
        return CarriedOut {
            reply: device_status::silence(),
            error: 0,
        };
    }
    execute(table, registered, heard, !own, body)
}

// The same on a table that has its size by its type, for a caller that has tested what the first call tests.
pub fn carry_out_tested(
    table: &mut [u8; TABLE_BYTES],
    registered: &mut RegisteredWrite,
    heard: Heard,
    id: u8,
    body: &[u8],
) -> CarriedOut
    ensures value { result ≡ carried_of (carry_out table.old registered.old heard id body.now) }
    ensures registered_after { registered.new ≡ (carry_out table.old registered.old heard id body.now).registered }
    ensures table_after { table.new ≡ (carry_out table.old registered.old heard id body.now).table }
{
    dispatch(table, registered, heard, id, body)
}

// The caller's fault in table and registered write. In their order: a table that is not 136 bytes long, an ID above 252 in it, a
// registered write of more than 8 bytes. [N5-N7]
#[tactic(auto, unfolding(crate::specs::Answers::state_refusal))]
pub fn state_refusal(table: &[u8], registered: &RegisteredWrite) -> Result<(), Refusal>
    ensures { result ≡ answered (state_refusal table.now registered.now) tt }
{
    if table.len() != TABLE_BYTES {
        return Err(Refusal::NotATable);
    }
    if MAX_ID < table[REG_ID] {
        return Err(Refusal::BadTableId);
    }
    if MAX_REGISTERED < registered.count {
        return Err(Refusal::BadRegistered);
    }
    Ok(())
}

// The first of two calls: the instruction is carried out, and its reply waits for its slot, the alert bit settled. Faults of the
// caller come first, whatever was heard, and change nothing; there is no reply then. [D50 D51 N5-N7]
pub fn carry_out(
    table: &mut [u8],
    registered: &mut RegisteredWrite,
    heard: Heard,
    id: u8,
    body: &[u8],
) -> Result<CarriedOut, Refusal>
    ensures refused_value { nothing_sent result ≡ carried_answer table.old registered.old }
    ensures reply_value { reply_in result ≡ carried_reply table.old registered.old heard id body.now }
    ensures error_value { error_in result ≡ carried_error table.old registered.old heard id body.now }
    ensures registered_after { registered.new ≡ carried_registered table.old registered.old heard id body.now }
    ensures table_after { table.new ≡ carried_table table.old registered.old heard id body.now }
{
    state_refusal(&table[..], registered)?;
    Ok(dispatch(table, registered, heard, id, body))
}

// The caller's fault in what is lent to the device call: the same, then a reply buffer under 32 bytes. [N8 N10]
#[tactic(auto, unfolding(crate::specs::Answers::call_refusal, crate::specs::Answers::room_refusal))]
pub fn call_refusal(table: &[u8], registered: &RegisteredWrite, out: &[u8]) -> Result<(), Refusal>
    ensures { result ≡ answered (call_refusal table.now registered.now out.now) tt }
{
    state_refusal(table, registered)?;
    if out.len() < MIN_REPLY {
        return Err(Refusal::ShortReply);
    }
    Ok(())
}

// The second: the reply is sent. Its count of bytes, with the reply slot, or a refusal; those of `device_status::send`. [D35 D52]
pub fn send(reply: Reply, out: &mut [u8]) -> Result<Sent, Refusal>
    ensures value { result ≡ with_slot (status_answer reply out.old) reply.slot }
    ensures out_after { out.new ≡ status_out reply out.old }
{
    let count = device_status::send(reply, out)?;
    let slot = reply.slot;
    Ok(Sent { count, slot })
}

// The device call: the test of the reply buffer, the first call and the second. Faults of the caller come first, whatever was heard,
// and change nothing. [D28-D30 D32 D33 D35-D37 D48 D49 G4 M4 N10-N12 N14]
pub fn hear(
    table: &mut [u8],
    registered: &mut RegisteredWrite,
    heard: Heard,
    id: u8,
    body: &[u8],
    out: &mut [u8],
) -> Result<Sent, Refusal>
    ensures answer_value { result ≡ call_answer table.old registered.old heard id body.now out.old }
    ensures registered_after { registered.new ≡ call_registered table.old registered.old heard id body.now out.old }
    ensures table_after { table.new ≡ call_table table.old registered.old heard id body.now out.old }
    ensures out_after { out.new ≡ call_out table.old registered.old heard id body.now out.old }
{
    call_refusal(&table[..], registered, &out[..])?;
    let carried = dispatch(table, registered, heard, id, body);
    send(carried.reply, out)
}
