// The parts of a log that are numbers, written into a buffer: header, an entry of the directory, index.
#![tactic(auto)]

ghost use Rattle.std.specs.Prelude.{◌≡◌, [], ◌∷◌, ◌+◌, ◌*◌, ◌≤◌, leb, length};
ghost use Rattle.lists.specs.Numbers.{bytes_of};
ghost use Rattle.lists.specs.Write.{placed};
ghost use Rattle.log_layout.specs.Log.{laid, header, index_offset, segments_offset};
ghost use Rattle.log_parts.specs.Parts.{put};

use log_index::INDEX_COUNT;
use log_layout::{DIRECTORY, LOG_ENTRY, LOG_FRONT};

// Whether a buffer has room for `front` bytes and a directory of so many entries.
fn has_room(size: usize, front: usize, entries: usize) -> bool
    ensures { result ≡ leb (front + 8 * entries) size }
{
    front <= size && entries <= (size - front) / LOG_ENTRY
}

// A number of 32 bits, low byte first.
fn put_number(out: &mut [u8], at: usize, value: usize)
    requires { at + 4 ≤ length out.old }
    ensures { out.new ≡ placed out.old at (bytes_of 4 value) }
{
    buffers::place(&mut out[at..at + 4], 0, &value.to_le_bytes()[..4]);
}

fn header_in(out: &mut [u8], segments: usize)
    requires { index_offset segments ≤ length out.old }
    ensures { out.new ≡ placed out.old 0 (laid (header segments) []) }
{
    put_number(out, 0, segments);
    put_number(out, 4, DIRECTORY);
    put_number(out, 8, INDEX_COUNT);
    put_number(out, 12, DIRECTORY + LOG_ENTRY * segments);
}

fn entry_in(out: &mut [u8], number: usize, start: usize, count: usize)
    requires { 24 + 8 * number ≤ length out.old }
    ensures { out.new ≡ placed out.old (16 + 8 * number) (laid (start ∷ count ∷ []) []) }
{
    let offset = DIRECTORY + LOG_ENTRY * number;
    put_number(out, offset, start);
    put_number(out, offset + 4, count);
}

// The header, where there is room for header and directory. [I2]
pub fn put_header(out: &mut [u8], segments: usize)
    ensures { out.new ≡ put (index_offset segments) out.old 0 (header segments) }
{
    if has_room(out.len(), DIRECTORY, segments) {
        header_in(out, segments);
    }
}

// The directory's entry of a segment, where there is room for the directory up to it. [I3]
pub fn put_entry(out: &mut [u8], number: usize, start: usize, count: usize)
    ensures { out.new ≡ put (24 + 8 * number) out.old (16 + 8 * number) (start ∷ count ∷ []) }
{
    if has_room(out.len(), DIRECTORY + LOG_ENTRY, number) {
        entry_in(out, number, start, count);
    }
}

// The index, where there is room for it behind header and directory. [I5]
pub fn put_index(out: &mut [u8], segments: usize, index: [usize; INDEX_COUNT])
    ensures { out.new ≡ put (segments_offset segments) out.old (index_offset segments) index }
{
    if !has_room(out.len(), LOG_FRONT, segments) {
        return;
    }
    let offset = DIRECTORY + LOG_ENTRY * segments;
    for (i, &number) in index.iter().enumerate() {
        put_number(out, offset + 4 * i, number);
    }
}
