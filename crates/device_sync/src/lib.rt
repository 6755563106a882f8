// Sync Read and Sync Write, which have an entry for each device, and what is done by the own entry of any list. A table of another
// size is a fault of the caller: nothing is done, and nothing is answered.
#![tactic(auto)]

ghost use Rattle.std.specs.Prelude.{◌≡◌};
ghost use Rattle.device_replies.specs.Results.{told, reacted_of, sized_reaction, sized_effect};
ghost use Rattle.device_sync.specs.Sync.{sync_read_by, sync_write_by, heard_sync_read, heard_sync_write};

use device_codes::ErrorNumber;
use device_instructions::{Fault, ReplyData};
use device_parameters::word_at;
use device_replies::{Level, Reacted, ReplyAt};
use table_registers::{REG_ID, TABLE_BYTES};

// A read by the own entry of a list, answered in its slot. On a table of another size the error number says so. [D24 D25 D46]
pub fn sync_read_by(table: &[u8], slot: usize, address: u16, count: u16) -> Reacted
    ensures { (w : _) → told result w ≡ reacted_of (sized_effect table.now w (sync_read_by table.now w slot address count)) }
{
    let level = Level::Read as u8;
    Reacted {
        outcome: device_instructions::read(table, address, count),
        reply: Some(ReplyAt { level, slot }),
    }
}

// A write by the own entry of a list, not answered. [D24 D25 D47]
pub fn sync_write_by(table: &mut [u8], address: u16, bytes: &[u8]) -> Reacted
    ensures value { (w : _) → told result w ≡ reacted_of (sized_effect table.old w (sync_write_by table.old w address bytes.now)) }
    ensures table_after { (w : _) → table.new ≡ (sized_effect table.old w (sync_write_by table.old w address bytes.now)).effect.table }
{
    Reacted::unanswered(device_instructions::write(table, address, bytes))
}

// [D21-D25]
pub fn heard_sync_read(table: &[u8], all: bool, params: &[u8]) -> Reacted
    ensures { (w : _) → told result w ≡ reacted_of (sized_reaction table.now w (heard_sync_read all table.now w params.now)) }
{
    if table.len() != TABLE_BYTES {
        return Reacted::unanswered(Err(Fault::NotATable));
    }
    if !all {
        return Reacted::own_only(
            Err(Fault::Error(ErrorNumber::Instruction)),
            all,
            Level::Read,
        );
    }
    let Some(own) = device_parameters::sync_search(params, 0, table[REG_ID]) else {
        return Reacted::unanswered(Ok(ReplyData::none()));
    };
    sync_read_by(table, own.slot, word_at(params, 0), word_at(params, 2))
}

// [D21-D25]
pub fn heard_sync_write(table: &mut [u8], all: bool, params: &[u8]) -> Reacted
    ensures value { (w : _) → told result w ≡ reacted_of (sized_reaction table.old w (heard_sync_write all table.old w params.now)) }
    ensures table_after { (w : _) → table.new ≡ (sized_reaction table.old w (heard_sync_write all table.old w params.now)).effect.table }
{
    if table.len() != TABLE_BYTES {
        return Reacted::unanswered(Err(Fault::NotATable));
    }
    if !all {
        return Reacted::own_only(Err(Fault::Error(ErrorNumber::Instruction)), all, Level::All);
    }
    let n = word_at(params, 2);
    let Some(own) = device_parameters::sync_search(params, n, table[REG_ID]) else {
        return Reacted::unanswered(Ok(ReplyData::none()));
    };
    let from = own.offset + 1;
    let to = from + usize::from(n);
    sync_write_by(table, word_at(params, 0), &params[from..to])
}
