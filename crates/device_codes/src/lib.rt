// The numbers in the bodies of packets: instructions, and the error numbers of a status.
#![tactic(auto)]

ghost use Rattle.std.specs.Prelude.{◌≡◌, Some};
ghost use Rattle.device_codes.specs.Codes.{instruction_of};

// The instructions, by the first byte of a body.
#[derive(Clone, Copy, PartialEq, Eq, Debug)]
pub enum Instruction {
    Ping = 0x01,
    Read = 0x02,
    Write = 0x03,
    RegWrite = 0x04,
    Action = 0x05,
    FactoryReset = 0x06,
    Reboot = 0x08,
    Status = 0x55,
    SyncRead = 0x82,
    SyncWrite = 0x83,
    BulkRead = 0x92,
    BulkWrite = 0x93,
}

impl Instruction {
    // The instruction with this number, if one is defined. [D2 G4]
    #[tactic(auto, unfolding(crate::specs::Codes::instruction_of))]
    pub fn from_code(code: u8) -> Option<Instruction>
        ensures { result ≡ instruction_of code }
    {
        match code {
            0x01 => Some(Instruction::Ping),
            0x02 => Some(Instruction::Read),
            0x03 => Some(Instruction::Write),
            0x04 => Some(Instruction::RegWrite),
            0x05 => Some(Instruction::Action),
            0x06 => Some(Instruction::FactoryReset),
            0x08 => Some(Instruction::Reboot),
            0x55 => Some(Instruction::Status),
            0x82 => Some(Instruction::SyncRead),
            0x83 => Some(Instruction::SyncWrite),
            0x92 => Some(Instruction::BulkRead),
            0x93 => Some(Instruction::BulkWrite),
            _ => None,
        }
    }
}

// Its number, by which it is found again. [D2]
impl From<Instruction> for u8 {
    ghost from_gives = { λ instruction code. instruction_of code ≡ Some instruction };

    #[tactic(auto, unfolding(crate::specs::Codes::instruction_of))]
    fn from(instruction: Instruction) -> u8 {
        instruction as u8
    }
}

// The error numbers of a status.
#[derive(Clone, Copy, PartialEq, Eq, Debug)]
pub enum ErrorNumber {
    Instruction = 0x02,
    Checksum = 0x03,
    DataRange = 0x04,
    DataLength = 0x05,
    DataLimit = 0x06,
    Access = 0x07,
}
