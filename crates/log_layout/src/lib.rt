// The layout of a line log: its numbers, its segments, and the test of all that can be told without reading a segment.
#![tactic(auto)]

ghost use Rattle.std.specs.Prelude.{◌≡◌, ◌+◌, ◌*◌, nat_le, length, take, drop, get_or};
ghost use Rattle.std.specs.List.{list_all, range_with_len};
ghost use Rattle.log_index.specs.Last.{index_size};
ghost use Rattle.log_layout.specs.Log.{directory_offset, index_offset, segments_offset};
ghost use Rattle.log_layout.specs.Layout.{u32_at, entries, entry_of, extent_of, chained, header_right, laid_out};

use log_index::INDEX_COUNT;

// Where the directory begins, its bytes for each segment, the bytes of header and index together, and those of the longest file.
pub const DIRECTORY: usize = 16;

pub const LOG_ENTRY: usize = 8;

pub const LOG_FRONT: usize = 1032;

pub const LONGEST_FILE: usize = 4294967295;

// Start and length of a segment, as its entry in the directory has them. [I3]
#[derive(Clone, Copy, PartialEq, Eq, Debug)]
pub struct Extent {
    pub start: u32,
    pub count: u32,
}

impl Extent {
    // Where the segment ends, in 64 bits.
    pub fn end(self) -> usize
        ensures { result ≡ self.start + self.count }
    {
        self.start as usize + self.count as usize
    }

    // The segment, as far as the file has its bytes. [I3]
    pub fn bytes_in(self, file: &[u8]) -> &[u8]
        ensures { result.now ≡ take self.count (drop self.start file.now) }
    {
        segment(file, self.start as usize, self.count as usize)
    }
}

// Where the index stands, behind the directory of so many segments. [I5]
pub fn index_offset(count: u32) -> usize
    ensures { result ≡ index_offset count }
{
    DIRECTORY + LOG_ENTRY * count as usize
}

// Where the first of so many segments stands. [I4]
pub fn segments_offset(count: u32) -> usize
    ensures { result ≡ segments_offset count }
{
    LOG_FRONT + LOG_ENTRY * count as usize
}

// A byte, or 0 behind the end.
fn byte_at(s: &[u8], i: usize) -> u8
    ensures { result ≡ get_or s.now i 0 }
{
    s.get(i).copied().unwrap_or(0)
}

// The bytes from an offset on: none past the end.
fn behind(file: &[u8], offset: usize) -> &[u8]
    ensures { result.now ≡ drop offset file.now }
{
    file.get(offset..).unwrap_or(&file[..0])
}

// The number of 32 bits at an offset, low byte first. Bytes behind the file's end count as 0. [I1]
pub fn number_at(file: &[u8], offset: usize) -> u32
    ensures { result ≡ u32_at file.now offset }
{
    match file.get(offset..) {
        Some([a, b, c, d, ..]) => u32::from_le_bytes([*a, *b, *c, *d]),
        Some(cut) => u32::from_le_bytes([
            byte_at(cut, 0),
            byte_at(cut, 1),
            byte_at(cut, 2),
            byte_at(cut, 3),
        ]),
        None => 0,
    }
}

// The entry of a segment, by its number. [I3]
pub fn entry(file: &[u8], number: u32) -> Extent
    ensures { result ≡ extent_of (entry_of file.now number) }
{
    let offset = index_offset(number);
    Extent {
        start: number_at(file, offset),
        count: number_at(file, offset + 4),
    }
}

// A segment by its start and length, as far as the file has its bytes. [I3]
pub fn segment(file: &[u8], start: usize, count: usize) -> &[u8]
    ensures { result.now ≡ take count (drop start file.now) }
{
    let rest = behind(file, start);
    rest.get(..count).unwrap_or(rest)
}

// Whether the segments stand behind each other from the end of the index on, and the last ends the file. A start is compared before
// its length is added, so that no sum is larger than two numbers of 32 bits.
fn segments_chained(file: &[u8], count: u32) -> bool
    ensures { result ≡ chained (entries count (drop directory_offset file.now)) (segments_offset count) (length file.now) }
{
    let mut end = segments_offset(count);
    for number in 0..count {
        let next = entry(file, number);
        if next.start as usize != end {
            return false;
        }
        end = next.end();
    }
    end == file.len()
}

// Whether no index number is above the count of segments.
fn index_within(file: &[u8], count: u32) -> bool
    ensures { result ≡ list_all (λ i. nat_le (u32_at file.now (index_offset count + 4 * i)) count) (range_with_len 0 index_size) }
{
    let offset = index_offset(count);
    (0..INDEX_COUNT).all(|i| number_at(file, offset + 4 * i) <= count)
}

// The header, and the file's length as far as the header tells it.
#[tactic(auto, unfolding(crate::specs::Layout::header_right))]
fn header_right(file: &[u8]) -> bool
    ensures { result ≡ header_right file.now }
{
    let count = number_at(file, 0);
    file.len() <= LONGEST_FILE
        && segments_offset(count) <= file.len()
        && number_at(file, 4) as usize == DIRECTORY
        && number_at(file, 8) as usize == INDEX_COUNT
        && number_at(file, 12) as usize == index_offset(count)
}

// Whether a file is laid out as a log; what the index numbers mean is not tested. [I10]
#[tactic(auto, using(crate::proofs::Rounds::index_all), unfolding(crate::specs::Layout::laid_out))]
pub fn laid_out(file: &[u8]) -> bool
    ensures { result ≡ laid_out file.now }
{
    let count = number_at(file, 0);
    header_right(file) && segments_chained(file, count) && index_within(file, count)
}
