// Reboot and Factory Reset, on the table; stores go by rising addresses. A table of another size is refused and stays as it is.
#![tactic(auto)]

ghost use Rattle.std.specs.Prelude.{◌≡◌, cond};
ghost use Rattle.answers.specs.Answers.{answered};
ghost use Rattle.table_rules.specs.Outcomes.{size_refusal, on_table};
ghost use Rattle.table_resets.specs.Resets.{rebooted, reset_rom, keeping};

use answers::Refusal;
use table_registers::{
    FRESH_BAUD_CODE, FRESH_ID, FRESH_MAX_POSITION, FRESH_STATUS_RETURN_LEVEL, REG_BAUD_CODE,
    REG_GOAL_POSITION, REG_GOAL_VELOCITY, REG_HARDWARE_ERROR, REG_HOMING_OFFSET, REG_ID, REG_LAMP,
    REG_MAX_POSITION, REG_MIN_POSITION, REG_REGISTERED_INSTRUCTION, REG_STATUS_RETURN_LEVEL,
    REG_TORQUE_ENABLE, SIZE_GOAL_VELOCITY, SIZE_HOMING_OFFSET, SIZE_MIN_POSITION, TABLE_BYTES,
};

// RAM items fresh, present position as it was, min position as the goal.
pub fn reboot(table: &mut [u8]) -> Result<(), Refusal>
    ensures value { result ≡ answered (size_refusal table.old) tt }
    ensures table_after { table.new ≡ on_table table.old (rebooted table.old) }
{
    if table.len() != TABLE_BYTES {
        return Err(Refusal::NotATable);
    }
    let goal = [
        table[REG_MIN_POSITION],
        table[REG_MIN_POSITION + 1],
        table[REG_MIN_POSITION + 2],
        table[REG_MIN_POSITION + 3],
    ];
    table[REG_TORQUE_ENABLE] = 0;
    table[REG_LAMP] = 0;
    table[REG_STATUS_RETURN_LEVEL] = FRESH_STATUS_RETURN_LEVEL;
    table[REG_REGISTERED_INSTRUCTION] = 0;
    table[REG_HARDWARE_ERROR] = 0;
    table[REG_GOAL_VELOCITY..REG_GOAL_VELOCITY + SIZE_GOAL_VELOCITY].fill(0);
    buffers::place(table, REG_GOAL_POSITION, &goal);
    Ok(())
}

// Factory Reset: homing offset and both limits fresh, and of ID and baud code what is not kept.
pub fn reset_rom(table: &mut [u8], keeps_id: bool, keeps_baud: bool) -> Result<(), Refusal>
    ensures value { result ≡ answered (size_refusal table.old) tt }
    ensures table_after { table.new ≡ on_table table.old (reset_rom (keeping keeps_id keeps_baud) table.old) }
{
    if table.len() != TABLE_BYTES {
        return Err(Refusal::NotATable);
    }
    if !keeps_id {
        table[REG_ID] = FRESH_ID;
    }
    if !keeps_baud {
        table[REG_BAUD_CODE] = FRESH_BAUD_CODE;
    }
    table[REG_HOMING_OFFSET..REG_HOMING_OFFSET + SIZE_HOMING_OFFSET].fill(0);
    let most = u32::from(FRESH_MAX_POSITION).to_le_bytes();
    buffers::place(table, REG_MAX_POSITION, &most);
    table[REG_MIN_POSITION..REG_MIN_POSITION + SIZE_MIN_POSITION].fill(0);
    Ok(())
}
