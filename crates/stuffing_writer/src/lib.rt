// The stuffed form of packet bodies: its length, and writing it.
#![tactic(auto)]

ghost use Rattle.std.specs.Prelude.{◌≡◌, ◌∷◌, min, length, take};
ghost use Rattle.lists.specs.Write.{overwritten};
ghost use Rattle.stuffing.specs.Stuffing.{stuff};
ghost use Rattle.stuffing_writer.specs.Answers.{length_within};

// The stuffed length of the body `first` followed by `rest`, if it is at most `most`. Bytes that are too many even without stuffing
// are not read. [E6 S1 S2]
pub fn stuffed_len(first: u8, rest: &[u8], most: usize) -> Option<usize>
    ensures { result ≡ length_within most (length (stuff (first ∷ rest.now))) }
{
    if most <= rest.len() {
        return None;
    }
    let mut n = rest.len() + 1;
    for i in 0..rest.len() {
        if stuffing::ends_mark(first, rest, i) {
            n += 1;
        }
    }
    if n <= most { Some(n) } else { None }
}

// Writes the stuffed form of the body `first` followed by `rest` to the start of out, as far as there is room, and returns how
// many bytes that are; those after them stay. [E9 N14 S1 S2]
pub fn write_stuffed(first: u8, rest: &[u8], out: &mut [u8]) -> usize
    ensures value { result ≡ min (length out.old) (length (stuff (first ∷ rest.now))) }
    ensures out_after { out.new ≡ overwritten out.old (take (length out.old) (stuff (first ∷ rest.now))) }
{
    if out.is_empty() {
        return 0;
    }
    out[0] = first;
    let mut j = 1;
    for i in 0..rest.len() {
        if out.len() <= j {
            return j;
        }
        out[j] = rest[i];
        j += 1;
        if stuffing::ends_mark(first, rest, i) {
            if out.len() <= j {
                return j;
            }
            out[j] = 0xFD;
            j += 1;
        }
    }
    j
}
