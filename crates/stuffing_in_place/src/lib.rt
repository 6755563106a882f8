// Removal of the stuffing of a body where it lies.
#![tactic(auto)]

ghost use Rattle.std.specs.Prelude.{◌≡◌, length};
ghost use Rattle.lists.specs.Write.{overwritten};
ghost use Rattle.stuffing.specs.Stuffing.{mark, unstuff};
ghost use Rattle.stuffing_in_place.specs.Plain.{Plain};

// Whether three bytes are FF FF FD. The last is tested first: it is rarely FD.
fn is_mark(a: u8, b: u8, c: u8) -> bool
    ensures { result ≡ mark a b c }
{
    c == 0xFD && b == 0xFF && a == 0xFF
}

// Where to begin with no byte before: two bytes before the first FD, since nothing is left out up to there, or at the end where there
// is none.
fn first_read(body: &[u8]) -> usize
    ensures { Plain body.now result }
{
    let plain = stuffing::before_fd(body);
    if plain == body.len() {
        return plain;
    }
    plain.saturating_sub(2)
}

// Leaves out the byte after each FF FF FD, and returns how many bytes are left; they stand at the start. The bytes after them stay.
pub fn unstuff_in_place(body: &mut [u8]) -> usize
    ensures value { result ≡ length (unstuff body.old) }
    ensures body_after { body.new ≡ overwritten body.old (unstuff body.old) }
{
    let mut a: u8 = 0;
    let mut b: u8 = 0;
    let start = first_read(&body[..]);
    let mut j = start;
    let mut i = start;
    while i < body.len() {
        let c = body[i];
        body[j] = c;
        j += 1;
        i += 1;
        if is_mark(a, b, c) {
            if body.len() <= i {
                return j;
            }
            a = c;
            b = body[i];
            i += 1;
        } else {
            a = b;
            b = c;
        }
    }
    j
}
