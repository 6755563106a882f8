// The write rule: a write is judged whole, on the table as it would then stand. And what becomes of a read or a write.
#![tactic(auto)]

ghost use Rattle.std.specs.Prelude.{◌≡◌, ◌&&◌, true, ◌+◌, ◌≤◌, ◌<◌, leb, ltb, length};
ghost use Rattle.std.specs.Int.Signed.{le_z};
ghost use Rattle.table_registers.specs.Registers.{registers, table_size, every_byte};
ghost use Rattle.table_registers.specs.Rows.{one_or_four};
ghost use Rattle.lists.specs.Numbers.{number_at};
ghost use Rattle.table_items.specs.Items.{signed, value_at};
ghost use Rattle.table_rules.specs.Rules.{covers, every_touched, least_to_write, touches_limits, limits_kept, stored, write_rule};
ghost use Rattle.table_rules.specs.Outcomes.{refusal_of, in_table};
ghost use Rattle.table_rules.specs.Limits.{limits_in};
ghost use Rattle.table_rules.specs.Stages.{whole, items_rule};

use table_items::SIGNED_BYTES;
use table_registers::{
    Access, REG_GOAL_POSITION, REG_MAX_POSITION, REG_MIN_POSITION, REG_TORQUE_ENABLE, Row,
    SIZE_GOAL_POSITION, SIZE_MAX_POSITION, SIZE_MIN_POSITION, TABLE_BYTES,
};

// Why a read or a write is denied: an error of the status packet, or a table of another size.
#[derive(Clone, Copy, PartialEq, Eq, Debug)]
pub enum Denied {
    DataRange,
    DataLength,
    DataLimit,
    NoAccess,
    NotTable,
}

// The four bytes at k as a signed number.
fn signed_at(bytes: &[u8], k: usize) -> i32
    requires { k + 4 ≤ length bytes.now }
    ensures { result ≡ signed (number_at bytes.now k 4) }
{
    table_items::signed_of(bytes[k], bytes[k + 1], bytes[k + 2], bytes[k + 3])
}

// The item of four bytes at `a` as the write would leave it. The write has all its bytes or none.
fn word_after(table: &[u8], address: usize, bytes: &[u8], a: usize) -> i32
    requires { (address + length bytes.now ≤ length table.now) × (a + 4 ≤ length table.now) × (whole address (length bytes.now) a ≡ true) }
    ensures { result ≡ signed (number_at (stored table.now address bytes.now) a 4) }
{
    if (address..address + bytes.len()).contains(&a) {
        signed_at(bytes, a - address)
    } else {
        signed_at(table, a)
    }
}

// The limits of the position.
#[derive(Clone, Copy)]
pub struct PositionLimits {
    pub min: i32,
    pub max: i32,
}

// Those in a table; a table of another size has 0 for both. [D48]
pub fn limits_in(table: &[u8]) -> PositionLimits
    ensures { result ≡ limits_in table.now }
{
    if table.len() != TABLE_BYTES {
        return PositionLimits { min: 0, max: 0 };
    }
    PositionLimits {
        min: signed_at(table, REG_MIN_POSITION),
        max: signed_at(table, REG_MAX_POSITION),
    }
}

// Bytes of the table, from `start` up to `end`.
#[derive(Clone, Copy)]
struct Span {
    start: usize,
    end: usize,
}

const MIN_POSITION: Span = Span {
    start: REG_MIN_POSITION,
    end: REG_MIN_POSITION + SIZE_MIN_POSITION,
};

const MAX_POSITION: Span = Span {
    start: REG_MAX_POSITION,
    end: REG_MAX_POSITION + SIZE_MAX_POSITION,
};

const GOAL_POSITION: Span = Span {
    start: REG_GOAL_POSITION,
    end: REG_GOAL_POSITION + SIZE_GOAL_POSITION,
};

impl Span {
    // They have a byte of the others.
    fn touches(self, others: Span) -> bool
        ensures { result ≡ (ltb others.start self.end && ltb self.start others.end) }
    {
        others.start < self.end && self.start < others.end
    }

    // They have all of them.
    fn covers(self, others: Span) -> bool
        ensures { result ≡ (leb self.start others.start && leb others.end self.end) }
    {
        self.start <= others.start && others.end <= self.end
    }
}

// The value that is written to the register, at k in the data, is in its range.
fn in_range(bytes: &[u8], k: usize, row: Row) -> bool
    requires { (k + row.bytes ≤ length bytes.now) × (one_or_four row.bytes ≡ true) }
    ensures { result ≡ (le_z row.low (value_at bytes.now k row.bytes) && le_z (value_at bytes.now k row.bytes) row.high) }
{
    let value = if row.bytes == SIGNED_BYTES {
        signed_at(bytes, k)
    } else {
        i32::from(bytes[k])
    };
    table_items::within(value, row.low, row.high)
}

// The stages that go by items, in one walk over the touched registers: an item that is covered in part comes before any value
// out of range. Each touched byte can be written, so that each has a register; and the value of an item that is covered is in the
// data, so that the table is not read.
fn judge_items(table: &[u8], address: usize, bytes: &[u8]) -> Result<(), Denied>
    requires { (0 < length bytes.now) × (address + length bytes.now ≤ length table.now) × (every_byte 2 address (length bytes.now) ≡ true) }
    ensures { refusal_of result ≡ items_rule address (length bytes.now) (stored table.now address bytes.now) }
{
    let written = Span {
        start: address,
        end: address + bytes.len(),
    };
    let mut good = true;
    let mut a = address;
    while a < written.end {
        let Some(row) = table_registers::register_at(a) else {
            unreachable!()
        };
        let item = Span {
            start: row.start,
            end: row.start + row.bytes,
        };
        if !written.covers(item) {
            return Err(Denied::DataLength);
        }
        good &= in_range(bytes, item.start - address, row);
        a = item.end;
    }
    if good { Ok(()) } else { Err(Denied::DataRange) }
}

// The write has a byte of a limit of the position, or of the goal position.
fn touches_limits(address: usize, n: usize) -> bool
    requires { address + n ≤ table_size }
    ensures { result ≡ touches_limits address n }
{
    let written = Span {
        start: address,
        end: address + n,
    };
    written.touches(MIN_POSITION) || written.touches(MAX_POSITION) || written.touches(GOAL_POSITION)
}

// Where it has, the goal position lies between the limits.
fn limits_kept(table: &[u8], address: usize, bytes: &[u8]) -> bool
    requires { (address + length bytes.now ≤ length table.now) × (length table.now ≡ table_size) × (every_touched address (length bytes.now) (covers address (length bytes.now)) registers ≡ true) }
    ensures { result ≡ limits_kept address (length bytes.now) (stored table.now address bytes.now) }
{
    if !touches_limits(address, bytes.len()) {
        return true;
    }
    let goal = word_after(table, address, bytes, REG_GOAL_POSITION);
    let min = word_after(table, address, bytes, REG_MIN_POSITION);
    let max = word_after(table, address, bytes, REG_MAX_POSITION);
    table_items::within(goal, min, max)
}

// What each touched byte has to permit: while torque is on, no byte of ROM is written.
fn least_to_write(table: &[u8]) -> u8
    requires { length table.now ≡ table_size }
    ensures { result ≡ least_to_write table.now }
{
    if table[REG_TORQUE_ENABLE] == 0 {
        Access::RomWrite as u8
    } else {
        Access::RamWrite as u8
    }
}

// The write rule, on a table that stays as it is. [M5 T3 T6-T11]
pub fn judge(table: &[u8], address: u16, bytes: &[u8]) -> Result<(), Denied>
    ensures { refusal_of result ≡ in_table table.now (write_rule table.now address bytes.now) }
{
    if table.len() != TABLE_BYTES {
        return Err(Denied::NotTable);
    }
    if bytes.is_empty() {
        return Err(Denied::DataLength);
    }
    let at = address as usize;
    if !table_registers::every_byte(least_to_write(table), at, bytes.len()) {
        return Err(Denied::NoAccess);
    }
    judge_items(table, at, bytes)?;
    if !limits_kept(table, at, bytes) {
        return Err(Denied::DataLimit);
    }
    Ok(())
}
