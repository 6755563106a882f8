// What the device makes of what it hears: which instruction is carried out, and how that is answered. A table of another size is a
// fault of the caller: nothing is done, and nothing is answered.
#![tactic(auto)]

ghost use Rattle.std.specs.Prelude.{◌≡◌, length};
ghost use Rattle.table_registers.specs.Registers.{table_size};
ghost use Rattle.device_replies.specs.Results.{told, reacted_of, sized_reaction};
ghost use Rattle.device_dispatch.specs.Reactions.{heard_instruction};
ghost use Rattle.device_dispatch.specs.Reactions.{reaction as reactions_reaction};

use device_bulk::{heard_bulk_read, heard_bulk_write};
use device_codes::{ErrorNumber, Instruction};
use device_instructions::{Fault, RegisteredWrite, ReplyData};
use device_replies::{Level, Reacted};
use device_single::{
    heard_action, heard_factory_reset, heard_ping, heard_read, heard_reboot, heard_reg_write,
    heard_write,
};
use device_sync::{heard_sync_read, heard_sync_write};
use table_registers::TABLE_BYTES;

// What the device hears: a packet with its unstuffed body, or one whose checksum is wrong, which has no body.
#[derive(Clone, Copy, PartialEq, Eq, Debug)]
pub enum Heard {
    Packet,
    BadChecksum,
}

fn react(
    table: &mut [u8],
    registered: &mut RegisteredWrite,
    all: bool,
    code: u8,
    params: &[u8],
) -> Reacted
    requires { length table.old ≡ table_size }
    ensures value { told result registered.new ≡ reacted_of (heard_instruction code all table.old registered.old params.now) }
    ensures table_after { table.new ≡ (heard_instruction code all table.old registered.old params.now).effect.table }
{
    let Some(instruction) = Instruction::from_code(code) else {
        return Reacted::own_only(Err(Fault::Error(ErrorNumber::Instruction)), all, Level::All);
    };
    match instruction {
        Instruction::Ping => heard_ping(&table[..], all, params),
        Instruction::Read => heard_read(&table[..], all, params),
        Instruction::Write => heard_write(table, all, params),
        Instruction::RegWrite => heard_reg_write(table, registered, all, params),
        Instruction::Action => heard_action(table, registered, all, params),
        Instruction::FactoryReset => heard_factory_reset(table, registered, all, params),
        Instruction::Reboot => heard_reboot(table, registered, all, params),
        Instruction::Status => Reacted::unanswered(Ok(ReplyData::none())),
        Instruction::SyncRead => heard_sync_read(&table[..], all, params),
        Instruction::SyncWrite => heard_sync_write(table, all, params),
        Instruction::BulkRead => heard_bulk_read(&table[..], all, params),
        Instruction::BulkWrite => heard_bulk_write(table, all, params),
    }
}

// A body without a byte is heard as an undefined instruction; a bad checksum has no body. [D1-D7 D13 D14 D18 D19 D26 D27 D32 D33 D45]
pub fn reaction(
    table: &mut [u8],
    registered: &mut RegisteredWrite,
    heard: Heard,
    all: bool,
    body: &[u8],
) -> Reacted
    ensures value { told result registered.new ≡ reacted_of (sized_reaction table.old registered.old (reactions_reaction heard all table.old registered.old body.now)) }
    ensures table_after { table.new ≡ (sized_reaction table.old registered.old (reactions_reaction heard all table.old registered.old body.now)).effect.table }
{
    if table.len() != TABLE_BYTES {
        return Reacted::unanswered(Err(Fault::NotATable));
    }
    match (heard, body) {
        (Heard::BadChecksum, _) => {
            Reacted::own_only(Err(Fault::Error(ErrorNumber::Checksum)), all, Level::All)
        }
        (Heard::Packet, []) => {
            Reacted::own_only(Err(Fault::Error(ErrorNumber::Instruction)), all, Level::All)
        }
        (Heard::Packet, [code, params @ ..]) => react(table, registered, all, *code, params),
    }
}
