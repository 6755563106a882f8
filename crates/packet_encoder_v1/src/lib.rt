// The encoder of Protocol 1.0 and Mercury: writes the packet of an ID, an instruction or error byte and parameters into the
// caller's buffer.
#![tactic(auto)]

ghost use Rattle.std.specs.Prelude.{◌≡◌, [], ◌∷◌, ◌+◌, ◌≤◌, length};
ghost use Rattle.lists.specs.Write.{overwritten};
ghost use Rattle.packet_v1.specs.Packet.{up_to, checksum_of};
ghost use Rattle.packet_encoder_v1.specs.Writing.{packet_of};
ghost use Rattle.packet_encoder_v1.specs.Encoding.{encode_answer, encode_out};

use answers::Refusal;

// As many as a length of 255 counts, with the instruction and the checksum.
const MOST_PARAMETERS: usize = 253;

// Writes header, ID, length and instruction to the start of out.
fn write_front(id: u8, count: u8, instruction: u8, out: &mut [u8])
    requires { 5 ≤ length out.old }
    ensures { out.new ≡ overwritten out.old (0xFF ∷ 0xFF ∷ id ∷ count ∷ instruction ∷ []) }
{
    buffers::place(&mut out[..5], 0, &[0xFF, 0xFF, id, count, instruction]);
}

// The checksum, computed from what is written and not from the buffer, which has just been stored to.
fn checksum(id: u8, count: u8, instruction: u8, params: &[u8]) -> u8
    ensures { result ≡ checksum_of (id ∷ count ∷ instruction ∷ params.now) }
{
    let front = id.wrapping_add(count).wrapping_add(instruction);
    255 - packet_v1::sum_from(front, params)
}

// Writes the packet to the start of out, which has room for it.
fn write_packet(id: u8, instruction: u8, params: &[u8], out: &mut [u8])
    requires { (length params.now ≤ 253) × (length params.now + 6 ≤ length out.old) }
    ensures { out.new ≡ overwritten out.old (packet_of id (instruction ∷ params.now)) }
{
    let count = (params.len() + 2) as u8;
    write_front(id, count, instruction, out);
    buffers::place(out, 5, params);
    out[params.len() + 5] = checksum(id, count, instruction, params);
}

// Writes the packet with this ID, instruction or error byte and parameters to out from `at` on; the IDs of devices end with
// `last`. Refused, in this order: an ID that is not allowed, a length past 255, no room from `at` on (`at` may lie past the end).
// A refusal writes nothing. [N1 N2 N4 N10-N12 N14 O1-O5]
pub fn encode(
    last: u8,
    id: u8,
    instruction: u8,
    params: &[u8],
    out: &mut [u8],
    at: usize,
) -> Result<usize, Refusal>
    ensures value { result ≡ encode_answer (up_to last) id (instruction ∷ params.now) out.old at }
    ensures out_after { out.new ≡ encode_out (up_to last) id (instruction ∷ params.now) out.old at }
{
    if !packet_v1::good_id(last, id) {
        return Err(Refusal::BadId);
    }
    let n = params.len();
    if MOST_PARAMETERS < n {
        return Err(Refusal::TooLong);
    }
    if out.len().saturating_sub(at) < n + 6 {
        return Err(Refusal::NoRoom);
    }
    write_packet(id, instruction, params, &mut out[at..]);
    Ok(n + 6)
}
