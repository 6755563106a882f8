// A line log: whether it is sound, and where the last packet for an ID stands.
#![tactic(auto)]

ghost use Rattle.std.specs.Prelude.{◌≡◌, ◌+◌, ◌*◌, Ok, nat_eq};
ghost use Rattle.std.specs.List.{list_all, enumerate_from};
ghost use Rattle.answers.specs.Answers.{answered};
ghost use Rattle.log_index.specs.Last.{nowhere, or_in, last_in, index};
ghost use Rattle.log_layout.specs.Log.{index_offset};
ghost use Rattle.log_layout.specs.Layout.{u32_at, count_in, entry_of, segment_by, segments_in};
ghost use Rattle.line_log.specs.Soundness.{check_refusal};
ghost use Rattle.line_log.specs.Question.{found, question, index_number_of};

use answers::Refusal;
use log_index::INDEX_COUNT;

// Where a packet stands: the number of its segment, from 0, and its offset in it.
#[derive(Clone, Copy, PartialEq, Eq, Debug)]
pub struct Place {
    pub segment: usize,
    pub offset: usize,
}

// The index of the segments as the directory has them, in one pass over their bytes.
fn index_of(file: &[u8]) -> [usize; INDEX_COUNT]
    ensures { result ≡ index (segments_in file.now) }
{
    let count = log_layout::number_at(file, 0);
    let mut index = [0; INDEX_COUNT];
    for number in 0..count {
        let segment = log_layout::entry(file, number).bytes_in(file);
        log_index::mark(&mut index, segment, number as usize + 1);
    }
    index
}

// Whether the file has these index numbers.
fn index_right(file: &[u8], index: &[usize; INDEX_COUNT]) -> bool
    ensures { result ≡ list_all (λ e. nat_eq (u32_at file.now (index_offset (count_in file.now) + 4 * e.0)) e.1) (enumerate_from 0 index.now) }
{
    let offset = log_layout::index_offset(log_layout::number_at(file, 0));
    index.iter().enumerate().all(|(i, &number)| {
        log_layout::number_at(file, offset + 4 * i) as usize == number
    })
}

// Whether a file is a sound log. The layout is tested first. [I10 I16]
#[tactic(auto, unfolding(crate::specs::Soundness::check_refusal))]
pub fn check(file: &[u8]) -> Result<(), Refusal>
    ensures { result ≡ answered (check_refusal file.now) tt }
{
    if !log_layout::laid_out(file) {
        return Err(Refusal::BadLog);
    }
    if !index_right(file, &index_of(file)) {
        return Err(Refusal::WrongIndex);
    }
    Ok(())
}

// The last packet for an ID in one segment, by its number.
fn last_named(file: &[u8], number: u32, id: u8) -> Option<Place>
    ensures { Ok result ≡ found (or_in nowhere number (last_in id (segment_by file.now (entry_of file.now number)))) }
{
    let entry = log_layout::entry(file, number);
    let offset = log_index::last_in(entry.bytes_in(file), id)?;
    Some(Place {
        segment: number as usize,
        offset,
    })
}

// The index number of an ID.
fn index_number(file: &[u8], id: u8) -> u32
    ensures { result ≡ index_number_of file.now id }
{
    let index = log_layout::index_offset(log_layout::number_at(file, 0));
    log_layout::number_at(file, index + 4 * log_index::mark_of(id))
}

// Where the last packet for an ID stands: in the segment that the index names, or nowhere. No other segment is read. [I18 I19]
pub fn last(file: &[u8], id: u8) -> Result<Option<Place>, Refusal>
    ensures { result ≡ question file.now id }
{
    if !log_layout::laid_out(file) {
        return Err(Refusal::BadLog);
    }
    if !packet_front::good_id(id) {
        return Err(Refusal::BadLogId);
    }
    let number = index_number(file, id);
    if number == 0 {
        return Ok(None);
    }
    Ok(last_named(file, number - 1, id))
}
