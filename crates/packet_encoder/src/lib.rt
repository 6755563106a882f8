// The encoder of Protocol 2.0: writes the packet of an ID, an instruction and parameters into the caller's buffer.
#![tactic(auto)]

ghost use Rattle.std.specs.Prelude.{◌≡◌, ◌∷◌, ◌+◌, ◌≤◌, length, take, set, get_or};
ghost use Rattle.lists.specs.Write.{overwritten};
ghost use Rattle.stuffing.specs.Stuffing.{stuff};
ghost use Rattle.packet_front.specs.Front.{header};
ghost use Rattle.packet_encoder.specs.Writing.{front, with_checksum, packet_of};
ghost use Rattle.packet_encoder.specs.Encoding.{encode_answer, encode_out};

use answers::Refusal;

// Writes header, ID, length field and instruction, for a stuffed body of n bytes, to the start of out: as one array, so that the
// compiler makes one store of it, and the checksum does not wait for several.
fn write_front(id: u8, n: usize, instruction: u8, out: &mut [u8])
    requires { (n ≤ 1022) × (8 ≤ length out.old) }
    ensures { out.new ≡ overwritten (set out.old 7 instruction) (front id n) }
{
    let [low, high] = ((n + 2) as u16).to_le_bytes();
    let front = [0xFF, 0xFF, 0xFD, 0x00, id, low, high, instruction];
    buffers::place(&mut out[..8], 0, &front);
}

// Writes the checksum of the first `end` bytes, which begin with the header, right after them.
fn write_checksum(out: &mut [u8], end: usize)
    requires { (4 ≤ end) × (end + 2 ≤ length out.old) × (take 4 out.old ≡ header) }
    ensures { out.new ≡ overwritten out.old (with_checksum (take end out.old)) }
{
    let crc = packet::checksum(&out[4..end]);
    buffers::place(&mut out[end..end + 2], 0, &crc.to_le_bytes());
}

// Writes the stuffed body of n bytes to the start of out, which has room for it and begins with the instruction. Where nothing is
// added, the rest is copied.
fn write_body(instruction: u8, params: &[u8], n: usize, out: &mut [u8])
    requires { (n ≡ length (stuff (instruction ∷ params.now))) × (n ≤ length out.old) × (get_or out.old 0 0 ≡ instruction) }
    ensures { out.new ≡ overwritten out.old (stuff (instruction ∷ params.now)) }
{
    if n == params.len() + 1 {
        buffers::place(out, 1, params);
        return;
    }
    stuffing_writer::write_stuffed(instruction, params, out);
}

// Writes the packet to the start of out, which has room for it; n is the stuffed body's byte count.
fn write_packet(id: u8, instruction: u8, params: &[u8], n: usize, out: &mut [u8])
    requires { (n ≡ length (stuff (instruction ∷ params.now))) × (n ≤ 1022) × (n + 9 ≤ length out.old) }
    ensures { out.new ≡ overwritten out.old (packet_of id (instruction ∷ params.now)) }
{
    write_front(id, n, instruction, out);
    write_body(instruction, params, n, &mut out[7..]);
    write_checksum(out, n + 7);
}

// Writes the packet with this ID, instruction and parameters to out from `at` on. Refused, in this order: an ID that is not
// allowed, a length field past 1,024, no room from `at` on (`at` may lie past the end). A refusal writes nothing.
// [C4 N1 N2 N4 N10-N12 N14 P1-P9 S2]
pub fn encode(
    id: u8,
    instruction: u8,
    params: &[u8],
    out: &mut [u8],
    at: usize,
) -> Result<usize, Refusal>
    ensures value { result ≡ encode_answer id (instruction ∷ params.now) out.old at }
    ensures out_after { out.new ≡ encode_out id (instruction ∷ params.now) out.old at }
{
    if !packet_front::good_id(id) {
        return Err(Refusal::BadId);
    }
    let Some(n) = stuffing_writer::stuffed_len(instruction, params, packet_front::MAX_BODY) else {
        return Err(Refusal::TooLong);
    };
    if out.len().saturating_sub(at) < n + 9 {
        return Err(Refusal::NoRoom);
    }
    write_packet(id, instruction, params, n, &mut out[at..]);
    Ok(n + 9)
}
