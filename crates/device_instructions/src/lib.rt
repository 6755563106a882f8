// What each instruction does to the control table and the registered write. A table of another size is a fault of the caller: nothing
// is done.
#![tactic(auto)]

ghost use Rattle.std.specs.Prelude.{◌≡◌, ◌≤◌, length, replicate};
ghost use Rattle.table_registers.specs.Registers.{table_size};
ghost use Rattle.table_rules.specs.Outcomes.{denial_number};
ghost use Rattle.table_resets.specs.Resets.{reset_rom, keeping};
ghost use Rattle.device_instructions.specs.Registered.{dropped as registered_dropped, registering as registered_registering, same_limits};
ghost use Rattle.device_instructions.specs.Instructions.{reg_write, factory_reset};
ghost use Rattle.device_instructions.specs.Instructions.{ping as instructions_ping};
ghost use Rattle.device_instructions.specs.Instructions.{write as instructions_write};
ghost use Rattle.device_instructions.specs.Instructions.{action as instructions_action};
ghost use Rattle.device_instructions.specs.Instructions.{reboot as instructions_reboot};
ghost use Rattle.device_instructions.specs.Results.{fault_number, done_in, done_of, sized, HasRead};

use answers::Refusal;
use device_codes::ErrorNumber;
use table_registers::{
    MAX_DATA, REG_FIRMWARE_VERSION, REG_MODEL_NUMBER, REG_REGISTERED_INSTRUCTION,
    SIZE_FIRMWARE_VERSION, SIZE_MODEL_NUMBER, TABLE_BYTES,
};
use table_rules::Denied;

// The options of Factory Reset.
pub const RESET_ALL: u8 = 0xFF;

pub const RESET_BUT_ID: u8 = 0x01;

pub const RESET_BUT_ID_AND_BAUD: u8 = 0x02;

// The most bytes of a registered write, as its count has them.
pub const MAX_REGISTERED: u8 = MAX_DATA as u8;

// A write that waits for Action (the paper's held turn), with the limits of the position at which it was registered: count 0 means
// none.
#[repr(C)]
#[derive(Clone, Copy)]
pub struct RegisteredWrite {
    pub address: u16,
    pub count: u8,
    pub bytes: [u8; MAX_DATA],
    pub min: i32,
    pub max: i32,
}

impl RegisteredWrite {
    // None is registered.
    pub fn none() -> Self
        ensures { result ≡ registered_dropped }
    {
        RegisteredWrite {
            address: 0,
            count: 0,
            bytes: [0u8; MAX_DATA],
            min: 0,
            max: 0,
        }
    }

    // The write of these bytes, which was judged on this table.
    fn on(table: &[u8], address: u16, bytes: &[u8]) -> Self
        requires { (length table.now ≡ table_size) × (length bytes.now ≤ 8) }
        ensures { result ≡ registered_registering table.now address bytes.now }
    {
        let limits = table_rules::limits_in(table);
        RegisteredWrite {
            address,
            count: bytes.len() as u8,
            bytes: buffers::first_eight(bytes),
            min: limits.min,
            max: limits.max,
        }
    }

    // The limits in the table are still those at which the write was registered.
    fn has_limits_of(self, table: &[u8]) -> bool
        requires { length table.now ≡ table_size }
        ensures { result ≡ same_limits table.now self }
    {
        let limits = table_rules::limits_in(table);
        limits.min == self.min && limits.max == self.max
    }
}

// Why nothing is done: the error of the status, or a table of another size.
#[derive(Clone, Copy, PartialEq, Eq, Debug)]
pub enum Fault {
    Error(ErrorNumber),
    NotATable,
}

impl From<Denied> for Fault {
    ghost from_gives = { λ denied fault. fault_number fault ≡ denial_number denied };

    fn from(denied: Denied) -> Fault {
        match denied {
            Denied::DataRange => Fault::Error(ErrorNumber::DataRange),
            Denied::DataLength => Fault::Error(ErrorNumber::DataLength),
            Denied::DataLimit => Fault::Error(ErrorNumber::DataLimit),
            Denied::NoAccess => Fault::Error(ErrorNumber::Access),
            Denied::NotTable => Fault::NotATable,
        }
    }
}

impl From<Fault> for u8 {
    ghost from_gives = { λ fault number. number ≡ fault_number fault };

    fn from(fault: Fault) -> u8 {
        match fault {
            Fault::Error(error) => error as u8,
            Fault::NotATable => u8::from(Refusal::NotATable),
        }
    }
}

// The data of a status: so many bytes, with 0 after them.
#[derive(Clone, Copy)]
pub struct ReplyData {
    pub count: usize,
    pub bytes: [u8; MAX_DATA],
}

impl ReplyData {
    pub fn none() -> Self
        ensures { result ≡ record { count = 0; bytes = replicate 8 0 } }
    {
        ReplyData {
            count: 0,
            bytes: [0u8; MAX_DATA],
        }
    }
}

pub fn read(table: &[u8], address: u16, count: u16) -> Result<ReplyData, Fault>
    ensures { HasRead result table.now address count }
{
    let bytes = table_access::read(table, address, count)?;
    Ok(ReplyData {
        count: usize::from(count),
        bytes,
    })
}

pub fn write(table: &mut [u8], address: u16, bytes: &[u8]) -> Result<ReplyData, Fault>
    ensures value { (w : _) → done_in result w ≡ done_of (sized table.old w (instructions_write table.old w address bytes.now)) }
    ensures table_after { (w : _) → table.new ≡ (sized table.old w (instructions_write table.old w address bytes.now)).table }
{
    table_access::write(table, address, bytes)?;
    Ok(ReplyData::none())
}

// A good write is kept for Action.
pub fn reg_write(
    table: &mut [u8],
    registered: &mut RegisteredWrite,
    address: u16,
    bytes: &[u8],
) -> Result<ReplyData, Fault>
    ensures value { done_in result registered.new ≡ done_of (sized table.old registered.old (reg_write table.old registered.old address bytes.now)) }
    ensures table_after { table.new ≡ (sized table.old registered.old (reg_write table.old registered.old address bytes.now)).table }
{
    table_rules::judge(&table[..], address, bytes)?;
    *registered = RegisteredWrite::on(&table[..], address, bytes);
    table[REG_REGISTERED_INSTRUCTION] = 1;
    Ok(ReplyData::none())
}

// The registered write is dropped, and then judged on the table as it is now, unless the limits have changed.
pub fn action(table: &mut [u8], registered: &mut RegisteredWrite) -> Result<ReplyData, Fault>
    ensures value { done_in result registered.new ≡ done_of (sized table.old registered.old (instructions_action table.old registered.old)) }
    ensures table_after { table.new ≡ (sized table.old registered.old (instructions_action table.old registered.old)).table }
{
    if table.len() != TABLE_BYTES {
        return Err(Fault::NotATable);
    }
    if registered.count == 0 {
        return Err(Fault::Error(ErrorNumber::Instruction));
    }
    let held = *registered;
    let same = held.has_limits_of(&table[..]);
    table[REG_REGISTERED_INSTRUCTION] = 0;
    *registered = RegisteredWrite::none();
    if !same {
        return Err(Fault::Error(ErrorNumber::DataLimit));
    }
    let n = usize::from(held.count).min(MAX_DATA);
    write(table, held.address, &held.bytes[..n])
}

// The registered write is dropped.
pub fn reboot(table: &mut [u8], registered: &mut RegisteredWrite) -> Result<ReplyData, Fault>
    ensures value { done_in result registered.new ≡ done_of (sized table.old registered.old (instructions_reboot table.old registered.old)) }
    ensures table_after { table.new ≡ (sized table.old registered.old (instructions_reboot table.old registered.old)).table }
{
    if table.len() != TABLE_BYTES {
        return Err(Fault::NotATable);
    }
    let _ = table_resets::reboot(table);
    *registered = RegisteredWrite::none();
    Ok(ReplyData::none())
}

// ROM is reset, and then as Reboot.
fn reset_with(
    table: &mut [u8],
    registered: &mut RegisteredWrite,
    keeps_id: bool,
    keeps_baud: bool,
) -> Result<ReplyData, Fault>
    requires { length table.old ≡ table_size }
    ensures value { done_in result registered.new ≡ done_of (instructions_reboot (reset_rom (keeping keeps_id keeps_baud) table.old) registered.old) }
    ensures table_after { table.new ≡ (instructions_reboot (reset_rom (keeping keeps_id keeps_baud) table.old) registered.old).table }
{
    let _ = table_resets::reset_rom(table, keeps_id, keeps_baud);
    reboot(table, registered)
}

pub fn factory_reset(
    table: &mut [u8],
    registered: &mut RegisteredWrite,
    option: u8,
) -> Result<ReplyData, Fault>
    ensures value { done_in result registered.new ≡ done_of (sized table.old registered.old (factory_reset table.old registered.old option)) }
    ensures table_after { table.new ≡ (sized table.old registered.old (factory_reset table.old registered.old option)).table }
{
    if table.len() != TABLE_BYTES {
        return Err(Fault::NotATable);
    }
    match option {
        RESET_ALL => reset_with(table, registered, false, false),
        RESET_BUT_ID => reset_with(table, registered, true, false),
        RESET_BUT_ID_AND_BAUD => reset_with(table, registered, true, true),
        _ => Err(Fault::Error(ErrorNumber::DataRange)),
    }
}

pub fn ping(table: &[u8]) -> Result<ReplyData, Fault>
    ensures { (w : _) → done_in result w ≡ done_of (sized table.now w (instructions_ping table.now w)) }
{
    if table.len() != TABLE_BYTES {
        return Err(Fault::NotATable);
    }
    let bytes = [
        table[REG_MODEL_NUMBER],
        table[REG_MODEL_NUMBER + 1],
        table[REG_FIRMWARE_VERSION],
        0,
        0,
        0,
        0,
        0,
    ];
    Ok(ReplyData {
        count: SIZE_MODEL_NUMBER + SIZE_FIRMWARE_VERSION,
        bytes,
    })
}
