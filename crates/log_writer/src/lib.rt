// Writing a log: header, directory, index, and the segments as they are.
#![tactic(auto)]

ghost use Rattle.std.specs.Prelude.{◌≡◌, [], ◌+◌, ◌*◌, ◌≤◌, ◌<◌, eqb, length};
ghost use Rattle.lists.specs.Write.{overwritten, placed};
ghost use Rattle.log_index.specs.Last.{index};
ghost use Rattle.log_layout.specs.Log.{laid, numbers_of, segments_offset};
ghost use Rattle.log_writer.specs.Writing.{sum, cut, directory_by, written, write_answer, write_out};

use answers::Refusal;
use log_index::INDEX_COUNT;
use log_layout::{DIRECTORY, LOG_ENTRY, LOG_FRONT, LONGEST_FILE};

// Whether the lengths add up to `count`. They are taken from it one by one, so that no sum wraps.
fn adds_up(lengths: &[u32], count: usize) -> bool
    ensures { result ≡ eqb (sum lengths.now) count }
{
    let mut left = count;
    for &length in lengths {
        let n = length as usize;
        if left < n {
            return false;
        }
        left -= n;
    }
    left == 0
}

fn put_directory(out: &mut [u8], lengths: &[u32])
    requires { segments_offset (length lengths.now) + sum lengths.now ≤ length out.old }
    ensures { out.new ≡ placed out.old 16
        (laid (numbers_of (directory_by (segments_offset (length lengths.now)) lengths.now)) []) }
{
    let mut start = LOG_FRONT + LOG_ENTRY * lengths.len();
    for (i, &length) in lengths.iter().enumerate() {
        let n = length as usize;
        log_parts::put_entry(out, i, start, n);
        start += n;
    }
}

// The index of the segments, in one pass over their bytes.
fn index_of(bytes: &[u8], lengths: &[u32]) -> [usize; INDEX_COUNT]
    requires { sum lengths.now ≤ length bytes.now }
    ensures { result ≡ index (cut lengths.now bytes.now) }
{
    let mut index = [0; INDEX_COUNT];
    let mut rest = bytes;
    for (i, &length) in lengths.iter().enumerate() {
        let (segment, behind) = rest.split_at(length as usize);
        log_index::mark(&mut index, segment, i + 1);
        rest = behind;
    }
    index
}

fn put_log(out: &mut [u8], bytes: &[u8], lengths: &[u32])
    requires { (sum lengths.now ≡ length bytes.now) × (segments_offset (length lengths.now) + length bytes.now ≤ length out.old) }
    ensures { out.new ≡ overwritten out.old (written bytes.now lengths.now) }
{
    let offset = DIRECTORY + LOG_ENTRY * lengths.len();
    log_parts::put_header(out, lengths.len());
    put_directory(out, lengths);
    log_parts::put_index(out, lengths.len(), index_of(bytes, lengths));
    buffers::place(out, offset + 4 * INDEX_COUNT, bytes);
}

// The most segments whose directory a file has room for.
const MOST_SEGMENTS: usize = 536870782;

// Writes the log of the segments whose bytes are joined in `bytes` and whose lengths are `lengths`. Refused, in this order: lengths
// that do not add up to the bytes given, a file that would be too long, no room. A refusal writes nothing. [I11-I14 N15]
pub fn write(bytes: &[u8], lengths: &[u32], out: &mut [u8]) -> Result<usize, Refusal>
    ensures value { result ≡ write_answer bytes.now lengths.now out.old }
    ensures out_after { out.new ≡ write_out bytes.now lengths.now out.old }
{
    if !adds_up(lengths, bytes.len()) || MOST_SEGMENTS < lengths.len() {
        return Err(Refusal::BadLog);
    }
    let first = LOG_FRONT + LOG_ENTRY * lengths.len();
    if LONGEST_FILE - first < bytes.len() {
        return Err(Refusal::BadLog);
    }
    if out.len() < first + bytes.len() {
        return Err(Refusal::NoRoom);
    }
    put_log(out, bytes, lengths);
    Ok(first + bytes.len())
}
