// The parameters of an instruction: words, and the own entry in a list.
#![tactic(auto)]

ghost use Rattle.std.specs.Prelude.{◌≡◌, cond, not, ◌&&◌, ◌+◌, leb, eqb, length};
ghost use Rattle.device_parameters.specs.Entries.{size_here, search as entries_search};
ghost use Rattle.device_parameters.specs.Parameters.{word_at, entry_of, sync_search};

use packet_front::MAX_ID;

// The own entry of a list: its index among the entries, and its offset in the parameters.
#[derive(Clone, Copy, PartialEq, Eq, Debug)]
pub struct OwnEntry {
    pub slot: usize,
    pub offset: usize,
}

// What an entry is: an ID and so many bytes; ID, address and length; or the same and as many bytes as the length says.
#[derive(Clone, Copy)]
pub enum EntryKind {
    Plain(u16),
    BulkRead,
    BulkWrite,
}

// Two bytes of the parameters, low byte first. A missing byte counts as 0.
pub fn word_at(params: &[u8], i: usize) -> u16
    ensures { result ≡ word_at params.now i }
{
    if params.len() <= i {
        return 0;
    }
    match &params[i..] {
        [] => 0,
        [low] => u16::from(*low),
        [low, high, ..] => u16::from_le_bytes([*low, *high]),
    }
}

// The length in a Bulk entry that begins here; none, if it is 0 or cut short before its end.
fn bulk_length(rest: &[u8]) -> Option<usize>
    ensures { result ≡ cond (leb 5 (length rest.now) && not (eqb (word_at rest.now 3) 0)) (Some (word_at rest.now 3)) None }
{
    if rest.len() < 5 {
        return None;
    }
    let n = word_at(rest, 3);
    (n != 0).then_some(usize::from(n))
}

// How many bytes the entry has that begins here; none, if it is not allowed or cut short.
fn entry_size(kind: EntryKind, rest: &[u8]) -> Option<usize>
    ensures { result ≡ size_here (entry_of kind) rest.now }
{
    let size = match kind {
        EntryKind::Plain(n) => 1 + usize::from(n),
        EntryKind::BulkRead => {
            bulk_length(rest)?;
            5
        }
        EntryKind::BulkWrite => 5 + bulk_length(rest)?,
    };
    (size <= rest.len()).then_some(size)
}

// The mark of an ID that has passed, and of the own one before it has.
const PASSED: u8 = 1;

const OWN: u8 = 2;

// Finds the own entry of the list that begins at `from`, which may lie past the end. The list is judged to its end: with an entry
// that is not allowed or cut short, an ID above 252 or a repeated one, nothing is found. The own ID is marked before it has passed:
// so one test of the mark tells it, and a repeated one. [D22-D24 D44-D47]
pub fn search(params: &[u8], from: usize, kind: EntryKind, own: u8) -> Option<OwnEntry>
    ensures { result ≡ entries_search (entry_of kind) own params.now from }
{
    let mut marks = [0u8; 256];
    marks[own as usize] = OWN;
    let mut found = OwnEntry { slot: 0, offset: 0 };
    let mut slot = 0;
    let mut at = from;
    while at < params.len() {
        let size = entry_size(kind, &params[at..])?;
        let id = params[at];
        if MAX_ID < id {
            return None;
        }
        let k = id as usize;
        if marks[k] != 0 {
            if marks[k] == PASSED {
                return None;
            }
            found = OwnEntry { slot, offset: at };
        }
        marks[k] = PASSED;
        slot += 1;
        at += size;
    }
    (marks[own as usize] != OWN).then_some(found)
}

// Finds the own entry of a Sync list, whose entries are an ID and n bytes; nothing, if the list's length is 0. [D22-D24]
pub fn sync_search(params: &[u8], n: u16, own: u8) -> Option<OwnEntry>
    ensures { result ≡ sync_search (1 + n) own params.now }
{
    if word_at(params, 2) == 0 {
        return None;
    }
    search(params, 4, EntryKind::Plain(n), own)
}
