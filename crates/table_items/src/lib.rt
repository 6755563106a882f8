// Numbers in a control table: four bytes as a signed number, the way back, and the test of a range.
#![tactic(auto)]

ghost use Rattle.std.specs.Prelude.{◌≡◌, [], ◌∷◌};
ghost use Rattle.table_registers.specs.Registers.{read_write};
ghost use Rattle.lists.specs.Numbers.{number_at};
ghost use Rattle.table_items.specs.Items.{signed, unsigned, in_range};

// An item of so many bytes is a signed number, any other is not.
pub const SIGNED_BYTES: usize = 4;

// Four bytes, lowest first, as a signed number in two's complement. [T1 T3]
pub fn signed_of(a: u8, b: u8, c: u8, d: u8) -> i32
    ensures { result ≡ signed (number_at (a ∷ b ∷ c ∷ d ∷ []) 0 4) }
{
    i32::from_le_bytes([a, b, c, d])
}

// A signed number as 32 bits in two's complement. [T3]
pub fn unsigned_of(value: i32) -> u32
    ensures { result ≡ unsigned value }
{
    value.cast_unsigned()
}

// Whether the value is in the range, its ends included.
pub fn within(value: i32, low: i32, high: i32) -> bool
    ensures { result ≡ in_range (read_write low high) value }
{
    (low..=high).contains(&value)
}
