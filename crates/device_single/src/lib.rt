// What each instruction with parameters of its own does, and how it is answered. A table of another size is a fault of the caller:
// nothing is done, and nothing is answered. Then a wrong count of parameters comes first.
#![tactic(auto)]

ghost use Rattle.std.specs.Prelude.{◌≡◌, true, length, MatchOption};
ghost use Rattle.table_registers.specs.Registers.{table_size};
ghost use Rattle.device_replies.specs.Results.{level_number, told, reacted_of, sized_reaction};
ghost use Rattle.device_single.specs.Single.{heard_ping, heard_read, heard_write, heard_reg_write, heard_action, heard_reboot, heard_factory_reset};
ghost use Rattle.device_single.specs.Refusals.{TellsRefusal};

use device_codes::ErrorNumber;
use device_instructions::{Fault, RESET_ALL, RegisteredWrite, ReplyData};
use device_parameters::word_at;
use device_replies::{Level, Reacted, ReplyAt};
use table_registers::{REG_ID, TABLE_BYTES};

// What is told on a table of another size, or where the count of parameters is not right; none, if both are as they should be.
fn refused(table: &[u8], right: bool, all: bool, level: Level) -> Option<Reacted>
    ensures { MatchOption result ((length table.now ≡ table_size) × (right ≡ true)) (TellsRefusal right all (level_number level) table.now) }
{
    if table.len() != TABLE_BYTES {
        return Some(Reacted::unanswered(Err(Fault::NotATable)));
    }
    if !right {
        let wrong_count = Err(Fault::Error(ErrorNumber::DataLength));
        return Some(Reacted::own_only(wrong_count, all, level));
    }
    None
}

// [D8 D31 D34]
pub fn heard_ping(table: &[u8], all: bool, params: &[u8]) -> Reacted
    ensures { (w : _) → told result w ≡ reacted_of (sized_reaction table.now w (heard_ping all table.now w params.now)) }
{
    if let Some(refused) = refused(table, params.is_empty(), all, Level::Ping) {
        return refused;
    }
    let slot = if all { usize::from(table[REG_ID]) } else { 0 };
    let level = Level::Ping as u8;
    Reacted {
        outcome: device_instructions::ping(table),
        reply: Some(ReplyAt { level, slot }),
    }
}

// [D9 D10]
pub fn heard_read(table: &[u8], all: bool, params: &[u8]) -> Reacted
    ensures { (w : _) → told result w ≡ reacted_of (sized_reaction table.now w (heard_read all table.now w params.now)) }
{
    if let Some(refused) = refused(table, params.len() == 4, all, Level::Read) {
        return refused;
    }
    let outcome = device_instructions::read(table, word_at(params, 0), word_at(params, 2));
    Reacted::own_only(outcome, all, Level::Read)
}

// [D11]
pub fn heard_write(table: &mut [u8], all: bool, params: &[u8]) -> Reacted
    ensures value { (w : _) → told result w ≡ reacted_of (sized_reaction table.old w (heard_write all table.old w params.now)) }
    ensures table_after { (w : _) → table.new ≡ (sized_reaction table.old w (heard_write all table.old w params.now)).effect.table }
{
    if let Some(refused) = refused(&table[..], 2 <= params.len(), all, Level::All) {
        return refused;
    }
    let outcome = device_instructions::write(table, word_at(params, 0), &params[2..]);
    Reacted::own_only(outcome, all, Level::All)
}

// [D12]
pub fn heard_reg_write(
    table: &mut [u8],
    registered: &mut RegisteredWrite,
    all: bool,
    params: &[u8],
) -> Reacted
    ensures value { told result registered.new ≡ reacted_of (sized_reaction table.old registered.old (heard_reg_write all table.old registered.old params.now)) }
    ensures table_after { table.new ≡ (sized_reaction table.old registered.old (heard_reg_write all table.old registered.old params.now)).effect.table }
{
    if let Some(refused) = refused(&table[..], 2 <= params.len(), all, Level::All) {
        return refused;
    }
    let address = word_at(params, 0);
    let outcome = device_instructions::reg_write(table, registered, address, &params[2..]);
    Reacted::own_only(outcome, all, Level::All)
}

// [D15]
pub fn heard_action(
    table: &mut [u8],
    registered: &mut RegisteredWrite,
    all: bool,
    params: &[u8],
) -> Reacted
    ensures value { told result registered.new ≡ reacted_of (sized_reaction table.old registered.old (heard_action all table.old registered.old params.now)) }
    ensures table_after { table.new ≡ (sized_reaction table.old registered.old (heard_action all table.old registered.old params.now)).effect.table }
{
    if let Some(refused) = refused(&table[..], params.is_empty(), all, Level::All) {
        return refused;
    }
    let outcome = device_instructions::action(table, registered);
    Reacted::own_only(outcome, all, Level::All)
}

// [D16]
pub fn heard_reboot(
    table: &mut [u8],
    registered: &mut RegisteredWrite,
    all: bool,
    params: &[u8],
) -> Reacted
    ensures value { told result registered.new ≡ reacted_of (sized_reaction table.old registered.old (heard_reboot all table.old registered.old params.now)) }
    ensures table_after { table.new ≡ (sized_reaction table.old registered.old (heard_reboot all table.old registered.old params.now)).effect.table }
{
    if let Some(refused) = refused(&table[..], params.is_empty(), all, Level::All) {
        return refused;
    }
    let outcome = device_instructions::reboot(table, registered);
    Reacted::own_only(outcome, all, Level::All)
}

// [D17 D20]
pub fn heard_factory_reset(
    table: &mut [u8],
    registered: &mut RegisteredWrite,
    all: bool,
    params: &[u8],
) -> Reacted
    ensures value { told result registered.new ≡ reacted_of (sized_reaction table.old registered.old (heard_factory_reset all table.old registered.old params.now)) }
    ensures table_after { table.new ≡ (sized_reaction table.old registered.old (heard_factory_reset all table.old registered.old params.now)).effect.table }
{
    if let Some(refused) = refused(&table[..], params.len() == 1, all, Level::All) {
        return refused;
    }
    let option = params[0];
    // FF to all devices would give them all the same ID.
    let outcome = if all && option == RESET_ALL {
        Ok(ReplyData::none())
    } else {
        device_instructions::factory_reset(table, registered, option)
    };
    Reacted::own_only(outcome, all, Level::All)
}
