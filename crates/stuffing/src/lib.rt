// Byte stuffing of packet bodies: the test, and unstuffing.
#![tactic(auto)]

ghost use Rattle.std.specs.Prelude.{◌≡◌, true, ◌≤◌, length};
ghost use Rattle.lists.specs.Write.{overwritten};
ghost use Rattle.stuffing.specs.Stuffing.{mark_at, well_stuffed, unstuff, NoFd};
ghost use Rattle.stuffing.specs.Answers.{checked, removal_answer, removal_out};

use answers::Refusal;

// Whether the byte at i ends FF FF FD, where `before` stands right before the bytes. It is tested first: it is rarely FD.
pub fn ends_mark(before: u8, bytes: &[u8], i: usize) -> bool
    ensures { result ≡ mark_at before bytes.now i }
{
    i < bytes.len()
        && bytes[i] == 0xFD
        && 0 < i
        && bytes[i - 1] == 0xFF
        && (if i == 1 { before } else { bytes[i - 2] }) == 0xFF
}

// How many bytes stand before the first FD, or before the last few, of which there are not four: four are looked at in a round.
fn fours_before_fd(body: &[u8]) -> usize
    ensures { (result ≤ length body.now) × NoFd body.now result }
{
    let mut n = 0;
    while 4 <= body.len() - n {
        if body[n] == 0xFD {
            return n;
        }
        if body[n + 1] == 0xFD {
            return n + 1;
        }
        if body[n + 2] == 0xFD {
            return n + 2;
        }
        if body[n + 3] == 0xFD {
            return n + 3;
        }
        n += 4;
    }
    n
}

// How many bytes stand before the first FD. Up to there nothing is stuffed. [S1]
pub fn before_fd(body: &[u8]) -> usize
    ensures { (result ≤ length body.now) × NoFd body.now result }
{
    for i in fours_before_fd(body)..body.len() {
        if body[i] == 0xFD {
            return i;
        }
    }
    body.len()
}

// The stuffing test: every FF FF FD is followed by FD within the body. A body that passes has this many bytes once unstuffed.
// [S3-S5 S7]
pub fn check(body: &[u8]) -> Option<usize>
    ensures { result ≡ checked body.now }
{
    let plain = before_fd(body);
    let mut n = plain;
    let mut i = plain;
    while i < body.len() {
        if ends_mark(0, body, i) {
            i += 1;
            if body.len() <= i {
                return None;
            }
            if body[i] != 0xFD {
                return None;
            }
        }
        n += 1;
        i += 1;
    }
    Some(n)
}

// Writes the body without its stuffing to the start of out, which has room for it.
fn write_unstuffed(body: &[u8], out: &mut [u8])
    requires { (well_stuffed body.now ≡ true) × (length (unstuff body.now) ≤ length out.old) }
    ensures { out.new ≡ overwritten out.old (unstuff body.now) }
{
    let mut j = 0;
    let mut i = 0;
    while i < body.len() {
        out[j] = body[i];
        j += 1;
        if ends_mark(0, body, i) {
            i += 1;
        }
        i += 1;
    }
}

// Writes the body without its stuffing to the start of out. Refused, in this order: a body that is not well stuffed, a buffer
// without room. A refusal writes nothing. A body that has no stuffing is copied. [N3 N4 N10-N12 N14 S6-S11]
pub fn unstuff_into(body: &[u8], out: &mut [u8]) -> Result<usize, Refusal>
    ensures value { result ≡ removal_answer body.now out.old }
    ensures out_after { out.new ≡ removal_out body.now out.old }
{
    let Some(n) = check(body) else {
        return Err(Refusal::BadStuffing);
    };
    if out.len() < n {
        return Err(Refusal::NoRoom);
    }
    if n == body.len() {
        buffers::place(out, 0, body);
    } else {
        write_unstuffed(body, out);
    }
    Ok(n)
}
