// Entry i is the register after four shifts of i * 4096: what half a byte leaves once it has met the four highest bits of the
// register. The proof of `update` tests that rule on all 16 entries.
pub const TABLE: [u16; 16] = [
    0x0000, 0x8005, 0x800f, 0x000a, 0x801b, 0x001e, 0x0014, 0x8011, 0x8033, 0x0036, 0x003c, 0x8039,
    0x0028, 0x802d, 0x8027, 0x0022,
];
