// The reply, and its status packet.
#![tactic(auto)]

ghost use Rattle.std.specs.Prelude.{◌≡◌, ◌≤◌};
ghost use Rattle.packet_encoder.specs.Encoding.{encode_answer, encode_out};
ghost use Rattle.device_status.specs.Status.{silence as status_silence};
ghost use Rattle.device_status.specs.Status.{error_byte, status_body};
ghost use Rattle.device_status.specs.Sending.{status_answer, status_out};

use answers::Refusal;
use device_codes::Instruction;
use packet_front::MAX_ID;
use table_registers::MAX_DATA;

// The shortest reply buffer: every status has room in it.
pub const MIN_REPLY: usize = 32;

// The alert bit of the error byte.
pub const ERROR_ALERT: u8 = 0x80;

// The most data bytes of a reply, as its count has them.
pub const MAX_REPLY_DATA: u8 = MAX_DATA as u8;

// A status that waits for its reply slot (the paper's turn number): ID, error byte with its alert bit, data; or silence, where
// `speaks` and all else is 0. Any other mark speaks.
#[repr(C)]
#[derive(Clone, Copy)]
pub struct Reply {
    pub speaks: u8,
    pub id: u8,
    pub error: u8,
    pub count: u8,
    pub bytes: [u8; MAX_DATA],
    pub slot: usize,
}

pub fn silence() -> Reply
    ensures { result ≡ status_silence }
{
    Reply {
        speaks: 0,
        id: 0,
        error: 0,
        count: 0,
        bytes: [0u8; MAX_DATA],
        slot: 0,
    }
}

// The error number, with bit 7, the alert, set if the hardware error is not 0. [D29]
pub fn error_byte(error: u8, hardware: u8) -> u8
    ensures { result ≡ error_byte error hardware }
{
    if hardware == 0 {
        return error;
    }
    error % ERROR_ALERT + ERROR_ALERT
}

// Writes the status packet to the start of out.
fn write_status(reply: Reply, out: &mut [u8]) -> Result<usize, Refusal>
    requires { reply.count ≤ 8 }
    ensures value { result ≡ encode_answer reply.id (status_body reply) out.old 0 }
    ensures out_after { out.new ≡ encode_out reply.id (status_body reply) out.old 0 }
{
    let b = reply.bytes;
    let params = [reply.error, b[0], b[1], b[2], b[3], b[4], b[5], b[6], b[7]];
    let n = reply.count as usize + 1;
    let id = reply.id;
    packet_encoder::encode(id, Instruction::Status as u8, &params[..n], out, 0)
}

// Writes the status packet to the start of out; silence writes nothing, and counts 0. Refused, in this order, even for silence: an ID above 252,
// more than 8 bytes of data, a buffer under 32 bytes. A refusal writes nothing.
// [D28 D35-D37 D52 D53 N1 N2 N8 N10-N12 N14]
pub fn send(reply: Reply, out: &mut [u8]) -> Result<usize, Refusal>
    ensures value { result ≡ status_answer reply out.old }
    ensures out_after { out.new ≡ status_out reply out.old }
{
    if MAX_ID < reply.id {
        return Err(Refusal::BadId);
    }
    if MAX_REPLY_DATA < reply.count {
        return Err(Refusal::TooLong);
    }
    if out.len() < MIN_REPLY {
        return Err(Refusal::ShortReply);
    }
    if reply.speaks == 0 {
        return Ok(0);
    }
    write_status(reply, out)
}
