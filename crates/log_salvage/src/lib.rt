// Salvage of a cut log: what is sound in it is written as a log, and what was altered is reported.
#![tactic(auto)]

ghost use Rattle.std.specs.Prelude.{◌≡◌, not, nat_eq, count_by, [], ◌+◌, ◌*◌, ◌≤◌, length, take};
ghost use Rattle.std.specs.List.{enumerate_from};
ghost use Rattle.lists.specs.Write.{overwritten, placed};
ghost use Rattle.reading.specs.Promise.{joined};
ghost use Rattle.log_index.specs.Last.{index};
ghost use Rattle.log_layout.specs.Log.{laid, numbers_of, directory, log_of, index_offset, segments_offset};
ghost use Rattle.log_layout.specs.Layout.{u32_at, segments_by};
ghost use Rattle.line_log.specs.Soundness.{same_numbers};
ghost use Rattle.log_kept.specs.Kept.{entry_count, kept_of, kept_segments};
ghost use Rattle.log_kept.specs.Sorting.{counts};
ghost use Rattle.log_salvage.specs.Report.{salvaged, report_of};
ghost use Rattle.log_salvage.specs.Salvage.{figures, salvage_answer, salvage_out, salvage_report};

use answers::Refusal;
use log_index::INDEX_COUNT;
use log_kept::Counts;
use log_layout::{DIRECTORY, LOG_ENTRY, LOG_FRONT, LONGEST_FILE};

// The bytes written, and the report in numbers: dropped entries, index numbers that have changed, bytes behind the old index that
// are in no kept segment, and whether the header has changed.
#[derive(Clone, Copy)]
pub struct Figures {
    pub count: usize,
    pub dropped: usize,
    pub index: usize,
    pub leftover: usize,
    pub header: bool,
}

// Writes the directory of the kept entries and their segments, side by side, and makes their index.
fn pack(out: &mut [u8], file: &[u8], count: u32, kept: usize) -> [usize; INDEX_COUNT]
    requires { (kept ≡ length (kept_of file.now count)) × (segments_offset kept + length (joined (segments_by file.now (kept_of file.now count))) ≤ length out.old) }
    ensures value { result ≡ index (segments_by file.now (kept_of file.now count)) }
    ensures out_after { out.new ≡ placed
        (placed out.old 16 (laid (numbers_of (directory (segments_offset kept) (segments_by file.now (kept_of file.now count)))) []))
        (segments_offset kept) (joined (segments_by file.now (kept_of file.now count))) }
{
    let mut index = [0; INDEX_COUNT];
    let mut limit = log_layout::segments_offset(count);
    let mut at = LOG_FRONT + LOG_ENTRY * kept;
    let mut done = 0;
    for number in 0..count {
        if let Ok(extent) = log_kept::judge(file, number, limit) {
            let segment = extent.bytes_in(file);
            let length = extent.count as usize;
            log_parts::put_entry(out, done, at, length);
            buffers::place(out, at, segment);
            done += 1;
            log_index::mark(&mut index, segment, done);
            at += length;
            limit = extent.end();
        }
    }
    index
}

// Writes the log of the kept segments; its index.
fn put_log(out: &mut [u8], file: &[u8], count: u32, kept: usize) -> [usize; INDEX_COUNT]
    requires { (kept ≡ length (kept_of file.now count)) × (segments_offset kept + length (joined (segments_by file.now (kept_of file.now count))) ≤ length out.old) }
    ensures value { result ≡ index (segments_by file.now (kept_of file.now count)) }
    ensures out_after { out.new ≡ overwritten out.old (log_of (segments_by file.now (kept_of file.now count))) }
{
    log_parts::put_header(out, kept);
    let index = pack(out, file, count, kept);
    log_parts::put_index(out, kept, index);
    index
}

// How many numbers of the old index are not those of the new one.
fn index_changed(file: &[u8], count: u32, index: &[usize; INDEX_COUNT]) -> usize
    ensures { result ≡ count_by (λ e. not (nat_eq (u32_at file.now (index_offset count + 4 * e.0)) e.1)) (enumerate_from 0 index.now) }
{
    let offset = log_layout::index_offset(count);
    index
        .iter()
        .enumerate()
        .filter(|&(i, &number)| log_layout::number_at(file, offset + 4 * i) as usize != number)
        .count()
}

// Whether the first 16 bytes differ.
#[tactic(auto, using(crate::proofs::Rounds::pointwise_same))]
fn header_changed(file: &[u8], out: &[u8]) -> bool
    requires { (16 ≤ length file.now) × (16 ≤ length out.now) }
    ensures { result ≡ not (same_numbers (take 16 file.now) (take 16 out.now)) }
{
    file[..DIRECTORY] != out[..DIRECTORY]
}

// Writes the log and makes up the figures.
fn write_log(file: &[u8], out: &mut [u8], sorted: Counts) -> Figures
    requires { (sorted ≡ counts file.now (entry_count file.now)) × ((1032 ≤ length file.now) × (length file.now ≤ length out.old)) }
    ensures value { result ≡ figures (length (salvaged file.now)) (report_of file.now) }
    ensures out_after { out.new ≡ overwritten out.old (salvaged file.now) }
{
    let Counts {
        kept,
        bytes,
        dropped,
    } = sorted;
    let count = log_kept::entry_count(file);
    let index = put_log(out, file, count, kept);
    Figures {
        count: LOG_FRONT + LOG_ENTRY * kept + bytes,
        dropped,
        index: index_changed(file, count, &index),
        leftover: file.len() - log_layout::segments_offset(count) - bytes,
        header: header_changed(file, out),
    }
}

// Writes the log of what is sound in a file, and reports what was altered: the dropped entries in the caller's report, number and
// reason, and the rest in figures. [I21-I28 I31 N18]
#[tactic(auto, unfolding(crate::specs::Salvage::salvage_refusal))]
pub fn salvage(file: &[u8], out: &mut [u8], report: &mut [u32]) -> Result<Figures, Refusal>
    ensures value { result ≡ salvage_answer file.now out.old report.old }
    ensures out_after { out.new ≡ salvage_out file.now out.old report.old }
    ensures report_after { report.new ≡ salvage_report file.now out.old report.old }
{
    if !(LOG_FRONT..=LONGEST_FILE).contains(&file.len()) {
        return Err(Refusal::BadLogSize);
    }
    if out.len() < file.len() {
        return Err(Refusal::NoRoom);
    }
    let sorted = log_kept::sort(file, report)?;
    Ok(write_log(file, out, sorted))
}
