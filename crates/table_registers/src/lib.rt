// The registers of the control table: their numbers, the one that has a byte, and what a run of bytes permits. The proofs compare
// each result with the list of specs/Registers.antt.
#![tactic(auto)]

ghost use Rattle.std.specs.Prelude.{◌≡◌, ◌≤◌, ◌<◌};
ghost use Rattle.table_registers.specs.Registers.{read_only, read_write, rom, ram, register, every_byte};
ghost use Rattle.table_registers.specs.Rows.{row_of, row_at};

// The byte count of a control table.
pub const TABLE_BYTES: usize = 136;

// The most bytes of a good read or write.
pub const MAX_DATA: usize = 8;

// The largest position.
pub const LAST_POSITION: i32 = 4095;

// The address of each register.
pub const REG_MODEL_NUMBER: usize = 0;

pub const REG_FIRMWARE_VERSION: usize = 6;

pub const REG_ID: usize = 7;

pub const REG_BAUD_CODE: usize = 8;

pub const REG_HOMING_OFFSET: usize = 20;

pub const REG_MAX_POSITION: usize = 48;

pub const REG_MIN_POSITION: usize = 52;

pub const REG_TORQUE_ENABLE: usize = 64;

pub const REG_LAMP: usize = 65;

pub const REG_STATUS_RETURN_LEVEL: usize = 68;

pub const REG_REGISTERED_INSTRUCTION: usize = 69;

pub const REG_HARDWARE_ERROR: usize = 70;

pub const REG_GOAL_VELOCITY: usize = 104;

pub const REG_GOAL_POSITION: usize = 116;

pub const REG_PRESENT_POSITION: usize = 132;

// Its byte count.
pub const SIZE_MODEL_NUMBER: usize = 2;

pub const SIZE_FIRMWARE_VERSION: usize = 1;

pub const SIZE_ID: usize = 1;

pub const SIZE_BAUD_CODE: usize = 1;

pub const SIZE_HOMING_OFFSET: usize = 4;

pub const SIZE_MAX_POSITION: usize = 4;

pub const SIZE_MIN_POSITION: usize = 4;

pub const SIZE_TORQUE_ENABLE: usize = 1;

pub const SIZE_LAMP: usize = 1;

pub const SIZE_STATUS_RETURN_LEVEL: usize = 1;

pub const SIZE_REGISTERED_INSTRUCTION: usize = 1;

pub const SIZE_HARDWARE_ERROR: usize = 1;

pub const SIZE_GOAL_VELOCITY: usize = 4;

pub const SIZE_GOAL_POSITION: usize = 4;

pub const SIZE_PRESENT_POSITION: usize = 4;

// Its fresh value, where that is not 0.
pub const FRESH_MODEL_NUMBER: u16 = 1030;

pub const FRESH_FIRMWARE_VERSION: u8 = 38;

pub const FRESH_ID: u8 = 1;

pub const FRESH_BAUD_CODE: u8 = 1;

pub const FRESH_MAX_POSITION: u16 = 4095;

pub const FRESH_STATUS_RETURN_LEVEL: u8 = 2;

// What the bytes of a register permit, each also what the one before permits: reading, writing while torque is off, writing at any
// time.
#[derive(Clone, Copy, PartialEq, Eq, PartialOrd, Ord, Debug)]
pub enum Access {
    Read = 1,
    RomWrite = 2,
    RamWrite = 3,
}

// A register as the rules need it: what its bytes permit, and the range of its value where it can be written.
#[derive(Clone, Copy)]
pub struct Row {
    pub start: usize,
    pub bytes: usize,
    pub permits: Access,
    pub low: i32,
    pub high: i32,
}

impl Row {
    fn read_only(start: usize, bytes: usize) -> Row
        ensures { result ≡ row_of (register start bytes read_only ram 0) }
    {
        Row {
            start,
            bytes,
            permits: Access::Read,
            low: 0,
            high: 0,
        }
    }

    fn in_rom(start: usize, bytes: usize, low: i32, high: i32) -> Row
        ensures { result ≡ row_of (register start bytes (read_write low high) rom 0) }
    {
        Row {
            start,
            bytes,
            permits: Access::RomWrite,
            low,
            high,
        }
    }

    fn in_ram(start: usize, bytes: usize, low: i32, high: i32) -> Row
        ensures { result ≡ row_of (register start bytes (read_write low high) ram 0) }
    {
        Row {
            start,
            bytes,
            permits: Access::RamWrite,
            low,
            high,
        }
    }
}

// Model number, firmware version, ID, baud code.
fn first_rom(a: usize) -> Option<Row>
    requires { a < 20 }
    ensures { result ≡ row_at a }
{
    if a < REG_MODEL_NUMBER + SIZE_MODEL_NUMBER {
        return Some(Row::read_only(REG_MODEL_NUMBER, SIZE_MODEL_NUMBER));
    }
    if a < REG_FIRMWARE_VERSION {
        return None;
    }
    if a < REG_FIRMWARE_VERSION + SIZE_FIRMWARE_VERSION {
        return Some(Row::read_only(REG_FIRMWARE_VERSION, SIZE_FIRMWARE_VERSION));
    }
    if a < REG_ID + SIZE_ID {
        return Some(Row::in_rom(REG_ID, SIZE_ID, 0, 252));
    }
    if a < REG_BAUD_CODE + SIZE_BAUD_CODE {
        return Some(Row::in_rom(REG_BAUD_CODE, SIZE_BAUD_CODE, 0, 7));
    }
    None
}

// Homing offset, max position, min position.
fn last_rom(a: usize) -> Option<Row>
    requires { (20 ≤ a) × (a < 64) }
    ensures { result ≡ row_at a }
{
    if a < REG_HOMING_OFFSET + SIZE_HOMING_OFFSET {
        return Some(Row::in_rom(REG_HOMING_OFFSET, SIZE_HOMING_OFFSET, -1044479, 1044479));
    }
    if a < REG_MAX_POSITION {
        return None;
    }
    if a < REG_MAX_POSITION + SIZE_MAX_POSITION {
        return Some(Row::in_rom(REG_MAX_POSITION, SIZE_MAX_POSITION, 0, LAST_POSITION));
    }
    if a < REG_MIN_POSITION + SIZE_MIN_POSITION {
        return Some(Row::in_rom(REG_MIN_POSITION, SIZE_MIN_POSITION, 0, LAST_POSITION));
    }
    None
}

// Torque enable, lamp, status return level, registered instruction, hardware error.
fn first_ram(a: usize) -> Option<Row>
    requires { (64 ≤ a) × (a < 104) }
    ensures { result ≡ row_at a }
{
    match a {
        REG_TORQUE_ENABLE => Some(Row::in_ram(REG_TORQUE_ENABLE, SIZE_TORQUE_ENABLE, 0, 1)),
        REG_LAMP => Some(Row::in_ram(REG_LAMP, SIZE_LAMP, 0, 1)),
        REG_STATUS_RETURN_LEVEL => Some(Row::in_ram(
            REG_STATUS_RETURN_LEVEL,
            SIZE_STATUS_RETURN_LEVEL,
            0,
            2,
        )),
        REG_REGISTERED_INSTRUCTION => Some(Row::read_only(
            REG_REGISTERED_INSTRUCTION,
            SIZE_REGISTERED_INSTRUCTION,
        )),
        REG_HARDWARE_ERROR => Some(Row::read_only(REG_HARDWARE_ERROR, SIZE_HARDWARE_ERROR)),
        _ => None,
    }
}

// Goal velocity, goal position, present position.
fn last_ram(a: usize) -> Option<Row>
    requires { 104 ≤ a }
    ensures { result ≡ row_at a }
{
    if a < REG_GOAL_VELOCITY + SIZE_GOAL_VELOCITY {
        return Some(Row::in_ram(REG_GOAL_VELOCITY, SIZE_GOAL_VELOCITY, -330, 330));
    }
    if a < REG_GOAL_POSITION {
        return None;
    }
    if a < REG_GOAL_POSITION + SIZE_GOAL_POSITION {
        return Some(Row::in_ram(REG_GOAL_POSITION, SIZE_GOAL_POSITION, 0, LAST_POSITION));
    }
    if a < REG_PRESENT_POSITION {
        return None;
    }
    if a < REG_PRESENT_POSITION + SIZE_PRESENT_POSITION {
        return Some(Row::read_only(REG_PRESENT_POSITION, SIZE_PRESENT_POSITION));
    }
    None
}

// The register that has the byte at a, if there is one. [T2]
pub fn register_at(a: usize) -> Option<Row>
    ensures { result ≡ row_at a }
{
    if a < REG_TORQUE_ENABLE {
        if a < REG_HOMING_OFFSET {
            return first_rom(a);
        }
        return last_rom(a);
    }
    if a < REG_GOAL_VELOCITY {
        return first_ram(a);
    }
    last_ram(a)
}

// Whether each of the n bytes from `address` on permits at least `least`: register by register, since the bytes of one permit the
// same. With `least` 0, undefined bytes pass too. [T8 T16]
pub fn every_byte(least: u8, address: usize, n: usize) -> bool
    ensures { result ≡ every_byte least address n }
{
    if least == 0 {
        return true;
    }
    let mut a = address;
    let mut left = n;
    while left != 0 {
        let Some(row) = register_at(a) else {
            return false;
        };
        if (row.permits as u8) < least {
            return false;
        }
        let run = row.start + row.bytes - a;
        if left <= run {
            return true;
        }
        a += run;
        left -= run;
    }
    true
}
