// The entries of a cut log's directory: which of them are kept, and the list of the others in the caller's report.
#![tactic(auto)]

ghost use Rattle.std.specs.Prelude.{◌≡◌, ◌*◌, ◌≤◌, length};
ghost use Rattle.lists.specs.Write.{overwritten};
ghost use Rattle.log_layout.specs.Log.{numbers_of};
ghost use Rattle.log_layout.specs.Layout.{entry_of};
ghost use Rattle.log_kept.specs.Kept.{entry_count, fault, reason, dropped_of};
ghost use Rattle.log_kept.specs.Sorting.{judged, counts, sort_answer, sort_report};

use answers::Refusal;
use log_layout::{Extent, LOG_ENTRY, LOG_FRONT};

// Why an entry is dropped, and the number of that in the report.
#[derive(Clone, Copy, PartialEq, Eq, Debug)]
pub enum Fault {
    BadStart = 1,
    BadEnd = 2,
}

// [I23]
impl From<Fault> for u32 {
    ghost from_gives = { λ fault number. number ≡ reason fault };

    fn from(fault: Fault) -> u32 {
        fault as u32
    }
}

// How many entries are kept, the bytes of their segments, and how many are dropped.
#[derive(Clone, Copy)]
pub struct Counts {
    pub kept: usize,
    pub bytes: usize,
    pub dropped: usize,
}

// The segment count: the header's, or less where the file has no room for as many. [I21]
pub fn entry_count(file: &[u8]) -> u32
    ensures { result ≡ entry_count file.now }
{
    let Some(behind) = file.len().checked_sub(LOG_FRONT) else {
        return 0;
    };
    let stated = log_layout::number_at(file, 0) as usize;
    stated.min(behind / LOG_ENTRY) as u32
}

// Whether an entry is kept that may start at `limit` or behind it. [I22 I23]
pub fn judge(file: &[u8], number: u32, limit: usize) -> Result<Extent, Fault>
    ensures { result ≡ judged (fault (length file.now) limit (entry_of file.now number)) (entry_of file.now number) }
{
    let entry = log_layout::entry(file, number);
    if (entry.start as usize) < limit {
        return Err(Fault::BadStart);
    }
    if file.len() < entry.end() {
        return Err(Fault::BadEnd);
    }
    Ok(entry)
}

fn list_dropped(file: &[u8], count: u32, report: &mut [u32]) -> Counts
    requires { 2 * count ≤ length report.old }
    ensures value { result ≡ counts file.now count }
    ensures report_after { report.new ≡ overwritten report.old (numbers_of (dropped_of file.now count)) }
{
    let mut limit = log_layout::segments_offset(count);
    let mut bytes = 0;
    let mut dropped = 0;
    for number in 0..count {
        match judge(file, number, limit) {
            Ok(kept) => {
                bytes += kept.count as usize;
                limit = kept.end();
            }
            Err(fault) => {
                report[2 * dropped] = number;
                report[2 * dropped + 1] = u32::from(fault);
                dropped += 1;
            }
        }
    }
    Counts {
        kept: count as usize - dropped,
        bytes,
        dropped,
    }
}

// Lists the dropped entries in the report, number and reason, where it has a row for every entry. [I21-I23 I25]
#[tactic(auto, unfolding(crate::specs::Sorting::sort_refusal))]
pub fn sort(file: &[u8], report: &mut [u32]) -> Result<Counts, Refusal>
    ensures value { result ≡ sort_answer file.now report.old }
    ensures report_after { report.new ≡ sort_report file.now report.old }
{
    let count = entry_count(file);
    if report.len() / 2 < count as usize {
        return Err(Refusal::NoRoom);
    }
    Ok(list_dropped(file, count, report))
}
