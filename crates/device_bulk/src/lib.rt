// Bulk Read and Bulk Write. A Bulk list begins with its first entry, and each entry has an address and a length of its own. A table
// of another size is a fault of the caller, as for Sync Read and Sync Write.
#![tactic(auto)]

ghost use Rattle.std.specs.Prelude.{◌≡◌};
ghost use Rattle.device_replies.specs.Results.{told, reacted_of, sized_reaction};
ghost use Rattle.device_bulk.specs.Bulk.{heard_bulk_read, heard_bulk_write};

use device_codes::ErrorNumber;
use device_instructions::{Fault, ReplyData};
use device_parameters::{EntryKind, word_at};
use device_replies::{Level, Reacted};
use table_registers::{REG_ID, TABLE_BYTES};

// [D43 D44 D46]
pub fn heard_bulk_read(table: &[u8], all: bool, params: &[u8]) -> Reacted
    ensures { (w : _) → told result w ≡ reacted_of (sized_reaction table.now w (heard_bulk_read all table.now w params.now)) }
{
    if table.len() != TABLE_BYTES {
        return Reacted::unanswered(Err(Fault::NotATable));
    }
    if !all {
        return Reacted::own_only(
            Err(Fault::Error(ErrorNumber::Instruction)),
            all,
            Level::Read,
        );
    }
    let kind = EntryKind::BulkRead;
    let Some(own) = device_parameters::search(params, 0, kind, table[REG_ID]) else {
        return Reacted::unanswered(Ok(ReplyData::none()));
    };
    let address = word_at(params, own.offset + 1);
    let n = word_at(params, own.offset + 3);
    device_sync::sync_read_by(table, own.slot, address, n)
}

// [D43 D44 D47]
pub fn heard_bulk_write(table: &mut [u8], all: bool, params: &[u8]) -> Reacted
    ensures value { (w : _) → told result w ≡ reacted_of (sized_reaction table.old w (heard_bulk_write all table.old w params.now)) }
    ensures table_after { (w : _) → table.new ≡ (sized_reaction table.old w (heard_bulk_write all table.old w params.now)).effect.table }
{
    if table.len() != TABLE_BYTES {
        return Reacted::unanswered(Err(Fault::NotATable));
    }
    if !all {
        return Reacted::own_only(Err(Fault::Error(ErrorNumber::Instruction)), all, Level::All);
    }
    let kind = EntryKind::BulkWrite;
    let Some(own) = device_parameters::search(params, 0, kind, table[REG_ID]) else {
        return Reacted::unanswered(Ok(ReplyData::none()));
    };
    let address = word_at(params, own.offset + 1);
    let n = word_at(params, own.offset + 3);
    let from = own.offset + 5;
    let to = from + usize::from(n);
    device_sync::sync_write_by(table, address, &params[from..to])
}
