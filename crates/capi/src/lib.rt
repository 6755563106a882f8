// The functions that C calls. Each passes its arguments on to a crate below and makes that crate's promise in numbers and byte
// slices; include/mednukals.h declares and documents them. A `&[u8]` is a pointer and a length in C.
#![tactic(auto)]

ghost use Rattle.std.specs.Prelude.{◌≡◌, ◌∷◌};
ghost use Rattle.answers.specs.Answers.{answered, exported};
ghost use Rattle.crc.specs.Crc.{crc_from};
ghost use Rattle.crc.specs.Laws.{ChecksumLaws};
ghost use Rattle.crc.specs.Flips.{flipped_checksum, FlippedChecksum};
ghost use Rattle.stuffing.specs.Answers.{removal_answer, removal_out};
ghost use Rattle.packet_encoder.specs.Encoding.{encode_answer, encode_out};
ghost use Rattle.packet_encoder.specs.RoundTrip.{RoundTrip};
ghost use Rattle.table_rules.specs.Outcomes.{size_refusal};
ghost use Rattle.table_rules.specs.LimitTests.{LimitTests};
ghost use Rattle.table_access.specs.Answers.{fresh_out, measure_out};
ghost use Rattle.reading.specs.Calls.{feed as call_feed, gap as call_gap};
ghost use Rattle.packet.specs.Burst.{BurstDetected};
ghost use Rattle.reader_records.specs.Records.{step_on, left_by, lent, packet_on, records, EveryProtocol};
ghost use Rattle.reader_plain.specs.Next.{next_event};
ghost use Rattle.reader_plain.specs.Plain.{PlainPromises};
ghost use Rattle.log_writer.specs.Writing.{write_answer, write_out, WritesSound};
ghost use Rattle.line_log.specs.Soundness.{check_refusal, SoundExactly};
ghost use Rattle.line_log.specs.Question.{question, LogPromises};
ghost use Rattle.log_salvage.specs.Salvage.{salvage_answer, salvage_out, salvage_report, Salvage};
ghost use Rattle.log_cases.specs.Cases.{SalvageCases};
ghost use Rattle.device_status.specs.Sending.{status_answer, status_out};
ghost use Rattle.device_status.specs.Sent.{ReplyWritten};
ghost use Rattle.device.specs.Answers.{carried_answer, carried_reply, carried_registered, carried_table, call_answer, call_registered, call_table, call_out};
ghost use Rattle.device.specs.Split.{Split};
ghost use Rattle.device.specs.Promises.{DevicePromises};
ghost use Rattle.device_packet.specs.Exchange.{packet_answer, packet_reply, packet_registered, packet_table, packet_body, exchange_answer, exchange_registered, exchange_table, exchange_body, exchange_out};
ghost use Rattle.device_calls.specs.Calls.{state_of, after_call};
ghost use Rattle.device_calls.specs.Calls.{fresh as call_fresh, measurement as call_measurement, device as call_device, exchange as call_exchange};
ghost use Rattle.device_calls.specs.Calls.{carry as call_carry, carry_packet as call_carry_packet};
ghost use Rattle.device_instructions.specs.declared.RegisteredWrite.{RegisteredWrite as Ghost-as-RegisteredWrite};
ghost use Rattle.device_calls.specs.Stays.{StaysAccepted};
ghost use Rattle.device_calls.specs.GoalWithinLimits.{GoalWithinLimits};
ghost use Rattle.device_packet.specs.Promises.{ExchangePromises};
ghost use Rattle.plan.specs.Planner.{plan_answer, plan_out};
ghost use Rattle.plan_laws.specs.Planned.{Planned};
ghost use Rattle.plan_heard.specs.PlanCarriedOut.{PlanCarriedOut};
ghost use Rattle.cases.specs.Cases.{CasesHold};
ghost use Rattle.numbers.specs.Exported.{step_numbers, next_numbers, device_numbers, carried_numbers, found_numbers, salvaged_numbers};
ghost use Rattle.fits.specs.Fits.{StepsFit, DeviceFits, EventFits, FoundFits, SalvagedFits, CountsFit};
ghost use Rattle.capi.specs.Kinds.{heard_by, id_of_kind};
ghost use Rattle.capi.specs.Plans.{CheckSays};
ghost use Rattle.capi.specs.Version.{version};

use device_dispatch::Heard;
use device_instructions::RegisteredWrite;
use device_status::Reply;
use numbers::{
    CarriedNumbers, DeviceNumbers, EventNumbers, FoundNumbers, SalvagedNumbers, StepNumbers,
};
use packet_front::MAX_PACKET;
use reader_core::{MAX_HELD, ProtocolTwo};
use reader_records::Reader;

pub const VERSION_MAJOR: u32 = 0;

pub const VERSION_MINOR: u32 = 1;

pub const VERSION_PATCH: u32 = 0;

// The version of the archive as one number: 1.2.3 is 10203. [G6]
#[unsafe(no_mangle)]
pub extern "C" fn dxl_version() -> u32
    ensures { result ≡ version }
{
    VERSION_MAJOR * 10_000 + VERSION_MINOR * 100 + VERSION_PATCH
}

// The checksum of the bytes, going on from an earlier one; 0 starts a packet's. The laws of checksums are promised too.
// [C5 C8 G5]
#[unsafe(no_mangle)]
pub extern "C" fn dxl_crc16(start: u16, bytes: &[u8]) -> u16
    ensures value { result ≡ crc_from start bytes.now }
    ensures checksum_laws { ChecksumLaws }
{
    crc16::update(start, bytes)
}

// The checksum after bits were flipped, from the one before. That it is the checksum of the changed bytes is promised too. [C9]
#[unsafe(no_mangle)]
pub extern "C" fn dxl_crc16_flipped(crc: u16, flips: &[u8], after: usize) -> u16
    ensures value { result ≡ flipped_checksum crc flips.now after }
    ensures flipped_checksum { FlippedChecksum }
{
    crc16_flips::flipped(crc, flips, after)
}

// The encoder: the packet's byte count, or minus a refusal number. [E1-E9 G5]
#[unsafe(no_mangle)]
pub extern "C" fn dxl_encode(
    id: u8,
    instruction: u8,
    params: &[u8],
    out: &mut [u8],
    at: usize,
) -> i64
    ensures value { result ≡ exported (encode_answer id (instruction ∷ params.now) out.old at) }
    ensures out_after { out.new ≡ encode_out id (instruction ∷ params.now) out.old at }
    ensures round_trip { RoundTrip × CountsFit }
{
    answers::exported(packet_encoder::encode(id, instruction, params, out, at))
}

// Removal of stuffing: the count of the unstuffed bytes, or minus a refusal number. [S8-S11]
#[unsafe(no_mangle)]
pub extern "C" fn dxl_unstuff(body: &[u8], out: &mut [u8]) -> i64
    ensures value { result ≡ exported (removal_answer body.now out.old) }
    ensures out_after { out.new ≡ removal_out body.now out.old }
    ensures counts_fit { CountsFit }
{
    answers::exported(stuffing::unstuff_into(body, out))
}

// The table as it comes from the factory: 0, or minus 21 for a table that is not 136 bytes long.
// [N13 T1 T4 T20]
#[unsafe(no_mangle)]
pub extern "C" fn dxl_fresh(table: &mut [u8]) -> i64
    ensures value { result ≡ exported (answered (size_refusal table.old) 0) }
    ensures table_after { table.new ≡ fresh_out table.old }
    ensures w_after { (w : Ghost-as-RegisteredWrite) → state_of table.new w ≡ after_call (state_of table.old w) call_fresh }
    ensures stays_accepted { StaysAccepted × GoalWithinLimits }
{
    answers::exported_done(table_access::fresh(table))
}

// Present position and hardware error: 0, or minus 21. [N13 T5]
#[unsafe(no_mangle)]
pub extern "C" fn dxl_measure(table: &mut [u8], position: i32, hardware_error: u8) -> i64
    ensures value { result ≡ exported (answered (size_refusal table.old) 0) }
    ensures table_after { table.new ≡ measure_out table.old position hardware_error }
    ensures w_after { (w : Ghost-as-RegisteredWrite) → state_of table.new w ≡ after_call (state_of table.old w) (call_measurement position hardware_error) }
    ensures stays_accepted { StaysAccepted × GoalWithinLimits }
{
    answers::exported_done(table_access::measure(table, position, hardware_error))
}

// A feeding call on a reader's record in parts, the held bytes and their count. It promises demand 3, and that a packet in which
// one byte or two neighbours were changed between length field and checksum is a bad checksum.
// [F5 F6 F9-F11 P11 V2 V7 V10]
#[unsafe(no_mangle)]
pub extern "C" fn dxl_feed(
    held: &mut [u8; MAX_HELD],
    count: &mut usize,
    chunk: &[u8],
    packet: &mut [u8; MAX_PACKET],
) -> StepNumbers
    ensures value { result ≡ step_numbers (step_on (lent held.old count.old) (call_feed chunk.now)) }
    ensures count_after { lent held.new count.new ≡ left_by (lent held.old count.old) (call_feed chunk.now) }
    ensures packet_after { packet.new ≡ packet_on (lent held.old count.old) (call_feed chunk.now) packet.old }
    ensures every_protocol { EveryProtocol × StepsFit }
    ensures burst_detected { BurstDetected }
{
    let n = *count;
    let step = reader_core::feed::<ProtocolTwo, _, _>(held, n, chunk, packet);
    if let Ok(step) = step {
        *count = step.held;
    }
    StepNumbers::from(step)
}

// A gap call, likewise. [F12-F14 V1]
#[unsafe(no_mangle)]
pub extern "C" fn dxl_gap(
    held: &mut [u8; MAX_HELD],
    count: &mut usize,
    packet: &mut [u8; MAX_PACKET],
) -> StepNumbers
    ensures value { result ≡ step_numbers (step_on (lent held.old count.old) call_gap) }
    ensures count_after { lent held.new count.new ≡ left_by (lent held.old count.old) call_gap }
    ensures packet_after { packet.new ≡ packet_on (lent held.old count.old) call_gap packet.old }
    ensures every_protocol { EveryProtocol × StepsFit }
{
    let n = *count;
    let step = reader_core::gap::<ProtocolTwo, _, _>(held, n, packet);
    if let Ok(step) = step {
        *count = step.held;
    }
    StepNumbers::from(step)
}

// A feeding call on a reader's record, in place: its held bytes are passed on without a copy. [F1 F5 N9 Q10 Q11]
#[unsafe(no_mangle)]
pub extern "C" fn dxl_reader_feed<'r, 'c, 'p>(
    reader: &'r mut Reader,
    chunk: &'c [u8],
    packet: &'p mut [u8; MAX_PACKET],
) -> StepNumbers
    ensures { (result ≡ step_numbers (step_on reader.old (call_feed chunk.now)))
        × (reader.new ≡ left_by reader.old (call_feed chunk.now))
        × (packet.new ≡ packet_on reader.old (call_feed chunk.now) packet.old)
        × EveryProtocol × StepsFit }
{
    let n = reader.count;
    let step = reader_core::feed::<ProtocolTwo, _, _>(&mut reader.bytes, n, chunk, packet);
    if let Ok(step) = step {
        reader.count = step.held;
    }
    StepNumbers::from(step)
}

// A gap call on a reader's record, likewise. [F12 N9 Q10]
#[unsafe(no_mangle)]
pub extern "C" fn dxl_reader_gap<'r, 'p>(
    reader: &'r mut Reader,
    packet: &'p mut [u8; MAX_PACKET],
) -> StepNumbers
    ensures { (result ≡ step_numbers (step_on reader.old call_gap))
        × (reader.new ≡ left_by reader.old call_gap)
        × (packet.new ≡ packet_on reader.old call_gap packet.old)
        × EveryProtocol × StepsFit }
{
    let n = reader.count;
    let step = reader_core::gap::<ProtocolTwo, _, _>(&mut reader.bytes, n, packet);
    if let Ok(step) = step {
        reader.count = step.held;
    }
    StepNumbers::from(step)
}

// The plain reader: the next event of a whole segment at an offset or behind it. That calls one after the other give the reading of
// the segment is promised too, and that the calls above give the same events, however the segment is cut. [P11 R1-R7]
#[unsafe(no_mangle)]
pub extern "C" fn dxl_next_event(segment: &[u8], from: usize) -> EventNumbers
    ensures value { result ≡ next_numbers (next_event segment.now from) }
    ensures plain_promises { PlainPromises records × EventFits }
    ensures burst_detected { BurstDetected }
{
    EventNumbers::from(reader_plain::next_event(segment, from))
}

// The writer of a log: its byte count, or minus a refusal number. That what is written is sound is promised too.
// [I4 I11-I15 N4 N14]
#[unsafe(no_mangle)]
pub extern "C" fn dxl_log_write(bytes: &[u8], lengths: &[u32], out: &mut [u8]) -> i64
    ensures value { result ≡ exported (write_answer bytes.now lengths.now out.old) }
    ensures out_after { out.new ≡ write_out bytes.now lengths.now out.old }
    ensures writes_sound { WritesSound × CountsFit }
{
    answers::exported(log_writer::write(bytes, lengths, out))
}

// Whether a file is a sound log: 0, or minus a refusal number. That it accepts the sound logs and no others is promised too.
// [I9 I16 I17 N15 N17]
#[unsafe(no_mangle)]
pub extern "C" fn dxl_log_check(file: &[u8]) -> i64
    ensures value { result ≡ exported (answered (check_refusal file.now) 0) }
    ensures sound_exactly { SoundExactly }
{
    answers::exported_done(line_log::check(file))
}

// The last packet for an ID: its segment and its offset there. On a sound log that is what a reading of every segment gives, and on
// any log it depends on header, directory, one index number and one segment: both are promised.
// [I7 I18-I20 N15 N16]
#[unsafe(no_mangle)]
pub extern "C" fn dxl_log_last(file: &[u8], id: u8) -> FoundNumbers
    ensures value { result ≡ found_numbers (question file.now id) }
    ensures log_promises { LogPromises × FoundFits }
{
    FoundNumbers::from(line_log::last(file, id))
}

// Salvage of a cut log: what is sound in it is written, and what was altered is reported. That what is written is a sound log of the
// kept segments, and that a sound log comes out as it was, are promised too, with worked examples.
// [I29-I31 N4 N14]
#[unsafe(no_mangle)]
pub extern "C" fn dxl_log_salvage(
    file: &[u8],
    out: &mut [u8],
    report: &mut [u32],
) -> SalvagedNumbers
    ensures value { result ≡ salvaged_numbers (salvage_answer file.now out.old report.old) }
    ensures out_after { out.new ≡ salvage_out file.now out.old report.old }
    ensures report_after { report.new ≡ salvage_report file.now out.old report.old }
    ensures salvage { Salvage × SalvageCases × SalvagedFits }
{
    SalvagedNumbers::from(log_salvage::salvage(file, out, report))
}

fn heard_by(kind: u8) -> Heard
    ensures { result ≡ heard_by kind }
{
    if kind == 1 {
        return Heard::Packet;
    }
    Heard::BadChecksum
}

fn id_of_kind(kind: u8, id: u8) -> u8
    ensures { result ≡ id_of_kind kind id }
{
    if kind == 1 {
        return id;
    }
    if kind == 2 {
        return id;
    }
    255
}

// Kind 1 is a packet, 2 a bad checksum. With any other kind nothing was heard: it counts as sent to an ID that no device has.
// [D35-D37 D40-D42 D49 N8 T18-T20]
#[unsafe(no_mangle)]
pub extern "C" fn dxl_device(
    table: &mut [u8],
    registered: RegisteredWrite,
    kind: u8,
    id: u8,
    body: &[u8],
    reply: &mut [u8],
) -> DeviceNumbers
    ensures value { result ≡ device_numbers
        (call_answer table.old registered (heard_by kind) (id_of_kind kind id) body.now reply.old)
        (call_registered table.old registered (heard_by kind) (id_of_kind kind id) body.now reply.old) }
    ensures table_after { (table.new ≡ call_table table.old registered (heard_by kind) (id_of_kind kind id) body.now reply.old)
        × (reply.new ≡ call_out table.old registered (heard_by kind) (id_of_kind kind id) body.now reply.old) }
    ensures device_promises { DevicePromises × StaysAccepted × GoalWithinLimits × LimitTests × DeviceFits }
    ensures registered_after { state_of table.new result.registered
        ≡ after_call (state_of table.old registered) (call_device (heard_by kind) (id_of_kind kind id) body.now reply.old) }
{
    let heard = heard_by(kind);
    let heard_id = id_of_kind(kind, id);
    let mut kept = registered;
    let answer = device::hear(table, &mut kept, heard, heard_id, body, reply);
    numbers::response(answer, kept)
}

// The device call on a packet as received; its body is written to `body` without its stuffing. What is no well-formed packet is
// met with silence. The theorems of `dxl_device` hold of it by `AsDevice`, and the worked examples are promised too. [D38 D39 O12]
#[unsafe(no_mangle)]
pub extern "C" fn dxl_exchange(
    table: &mut [u8],
    registered: RegisteredWrite,
    packet: &[u8],
    body: &mut [u8],
    reply: &mut [u8],
) -> DeviceNumbers
    ensures value { result ≡ device_numbers
        (exchange_answer table.old registered packet.now body.old reply.old)
        (exchange_registered table.old registered packet.now body.old reply.old) }
    ensures table_after { (table.new ≡ exchange_table table.old registered packet.now body.old reply.old)
        × (body.new ≡ exchange_body table.old registered packet.now body.old reply.old)
        × (reply.new ≡ exchange_out table.old registered packet.now body.old reply.old) }
    ensures device_promises { DevicePromises × ExchangePromises × StaysAccepted × GoalWithinLimits × CasesHold × DeviceFits }
    ensures registered_after { state_of table.new result.registered
        ≡ after_call (state_of table.old registered) (call_exchange packet.now body.old reply.old) }
{
    let mut kept = registered;
    let answer = device_packet::answer(table, &mut kept, packet, body, reply);
    numbers::response(answer, kept)
}

// The first of two calls: what was heard is carried out, and its reply waits for its slot. Kinds as of `dxl_device`, whose theorems
// hold of it by `Split`. [D50 D51 D54]
#[unsafe(no_mangle)]
pub extern "C" fn dxl_carry_out(
    table: &mut [u8],
    registered: RegisteredWrite,
    kind: u8,
    id: u8,
    body: &[u8],
) -> CarriedNumbers
    ensures value { result ≡ carried_numbers (carried_answer table.old registered)
        (carried_reply table.old registered (heard_by kind) (id_of_kind kind id) body.now)
        (carried_registered table.old registered (heard_by kind) (id_of_kind kind id) body.now) }
    ensures table_after { table.new ≡ carried_table table.old registered (heard_by kind) (id_of_kind kind id) body.now }
    ensures device_promises { DevicePromises × Split × StaysAccepted × GoalWithinLimits × LimitTests × DeviceFits }
    ensures registered_after { state_of table.new result.registered
        ≡ after_call (state_of table.old registered) (call_carry (heard_by kind) (id_of_kind kind id) body.now) }
{
    let heard = heard_by(kind);
    let heard_id = id_of_kind(kind, id);
    let mut kept = registered;
    let answer = device::carry_out(table, &mut kept, heard, heard_id, body);
    numbers::carried(answer.map(|carried| carried.reply), kept)
}

// The first call on a packet as received; its body is written to `body` without its stuffing. The theorems of `dxl_carry_out` hold
// of it by `AsDevice`. [D38 D39 D50 D54]
#[unsafe(no_mangle)]
pub extern "C" fn dxl_carry_out_packet(
    table: &mut [u8],
    registered: RegisteredWrite,
    packet: &[u8],
    body: &mut [u8],
) -> CarriedNumbers
    ensures value { result ≡ carried_numbers (packet_answer table.old registered packet.now body.old)
        (packet_reply table.old registered packet.now body.old)
        (packet_registered table.old registered packet.now body.old) }
    ensures table_after { (table.new ≡ packet_table table.old registered packet.now body.old)
        × (body.new ≡ packet_body table.old registered packet.now body.old) }
    ensures device_promises { DevicePromises × Split × ExchangePromises × StaysAccepted × GoalWithinLimits × DeviceFits }
    ensures registered_after { state_of table.new result.registered
        ≡ after_call (state_of table.old registered) (call_carry_packet packet.now body.old) }
{
    let mut kept = registered;
    let answer = device_packet::carry_out(table, &mut kept, packet, body);
    numbers::carried(answer, kept)
}

// The second: the status of a reply that has waited. Any reply is accepted but for its refusals. [D52-D54 N8]
#[unsafe(no_mangle)]
pub extern "C" fn dxl_status(reply: Reply, out: &mut [u8]) -> i64
    ensures value { result ≡ exported (status_answer reply out.old) }
    ensures out_after { out.new ≡ status_out reply out.old }
    ensures split { Split × ReplyWritten × CountsFit }
{
    answers::exported(device_status::send(reply, out))
}

// The planner: the plan's byte count, or minus a refusal number. That its plans are accepted, that no accepted plan has fewer
// packets, and what devices do that hear one, is promised too. [N19 N20 W6-W8 W10]
#[unsafe(no_mangle)]
pub extern "C" fn dxl_plan(goals: &[i32], out: &mut [u8]) -> i64
    ensures value { result ≡ exported (plan_answer goals.now out.old) }
    ensures out_after { out.new ≡ plan_out goals.now out.old }
    ensures planned { Planned × PlanCarriedOut × CountsFit }
{
    answers::exported(plan_writer::write_plan(goals, out))
}

// The test of anyone's plan: 1 exactly where the bytes are one, 0 where they are not, or minus a refusal number. What devices do
// that hear an accepted one is promised too. [N19 N20 W9 W10]
#[unsafe(no_mangle)]
pub extern "C" fn dxl_plan_check(goals: &[i32], plan: &[u8]) -> i64
    ensures check_says { CheckSays goals.now plan.now result }
    ensures plan_carried_out { PlanCarriedOut }
{
    numbers::tested(plan_check::check(goals, plan))
}
