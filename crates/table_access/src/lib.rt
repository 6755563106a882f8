// The control table: 136 bytes of registers. A write is judged whole before a byte of it is stored.
#![tactic(auto)]

ghost use Rattle.std.specs.Prelude.{◌≡◌, ◌+◌, ◌≤◌, length, take, drop, IfOk};
ghost use Rattle.answers.specs.Answers.{answered};
ghost use Rattle.lists.specs.Write.{padded};
ghost use Rattle.table_rules.specs.Rules.{read_rule, write_rule};
ghost use Rattle.table_rules.specs.Outcomes.{refusal_of, in_table, size_refusal};
ghost use Rattle.table_access.specs.Answers.{fresh_out, measure_out, read_bytes, write_out};

use answers::Refusal;
use table_registers::{
    Access, FRESH_BAUD_CODE, FRESH_FIRMWARE_VERSION, FRESH_ID, FRESH_MAX_POSITION,
    FRESH_MODEL_NUMBER, FRESH_STATUS_RETURN_LEVEL, MAX_DATA, REG_BAUD_CODE, REG_FIRMWARE_VERSION,
    REG_HARDWARE_ERROR, REG_ID, REG_MAX_POSITION, REG_MODEL_NUMBER, REG_PRESENT_POSITION,
    REG_STATUS_RETURN_LEVEL, TABLE_BYTES,
};
use table_rules::Denied;

// The write: judged first, then stored whole. A refused one leaves every byte. [M5 N12 T3 T6-T14]
pub fn write(table: &mut [u8], address: u16, bytes: &[u8]) -> Result<(), Denied>
    ensures result_value { refusal_of result ≡ in_table table.old (write_rule table.old address bytes.now) }
    ensures table_after { table.new ≡ write_out table.old address bytes.now }
{
    table_rules::judge(&table[..], address, bytes)?;
    buffers::place(table, address as usize, bytes);
    Ok(())
}

// n bytes of the table, with 0 after them.
fn bytes_from(table: &[u8], at: usize, n: usize) -> [u8; MAX_DATA]
    requires { (at + n ≤ length table.now) × (n ≤ 8) }
    ensures { result ≡ padded 8 (take n (drop at table.now)) }
{
    buffers::first_eight(&table[at..at + n])
}

// The bytes that are read, with 0 after them, by the read rule. A read that is not denied has at most 8 bytes. [T15-T17]
pub fn read(table: &[u8], address: u16, count: u16) -> Result<[u8; MAX_DATA], Denied>
    ensures outcome_value { refusal_of result ≡ in_table table.now (read_rule address count) }
    ensures bytes_value { IfOk result (λ bytes. bytes ≡ read_bytes table.now address count) }
{
    if table.len() != TABLE_BYTES {
        return Err(Denied::NotTable);
    }
    if count == 0 {
        return Err(Denied::DataLength);
    }
    let at = address as usize;
    let n = count as usize;
    if !table_registers::every_byte(Access::Read as u8, at, n) {
        return Err(Denied::NoAccess);
    }
    Ok(bytes_from(table, at, n))
}

// The table as it comes from the factory: each register has its fresh value, undefined bytes are 0. [N5 N12 N13 T4]
pub fn fresh(table: &mut [u8]) -> Result<(), Refusal>
    ensures value { result ≡ answered (size_refusal table.old) tt }
    ensures table_after { table.new ≡ fresh_out table.old }
{
    if table.len() != TABLE_BYTES {
        return Err(Refusal::NotATable);
    }
    table.fill(0);
    let model = FRESH_MODEL_NUMBER.to_le_bytes();
    buffers::place(table, REG_MODEL_NUMBER, &model);
    table[REG_FIRMWARE_VERSION] = FRESH_FIRMWARE_VERSION;
    table[REG_ID] = FRESH_ID;
    table[REG_BAUD_CODE] = FRESH_BAUD_CODE;
    let most = u32::from(FRESH_MAX_POSITION).to_le_bytes();
    buffers::place(table, REG_MAX_POSITION, &most);
    table[REG_STATUS_RETURN_LEVEL] = FRESH_STATUS_RETURN_LEVEL;
    Ok(())
}

// The measurement call: present position and hardware error. [N5 N12 N13 T3 T5]
pub fn measure(table: &mut [u8], position: i32, error: u8) -> Result<(), Refusal>
    ensures value { result ≡ answered (size_refusal table.old) tt }
    ensures table_after { table.new ≡ measure_out table.old position error }
{
    if table.len() != TABLE_BYTES {
        return Err(Refusal::NotATable);
    }
    let bytes = position.to_le_bytes();
    buffers::place(table, REG_PRESENT_POSITION, &bytes);
    table[REG_HARDWARE_ERROR] = error;
    Ok(())
}
