// The checksum of Protocol 2.0 without a table: the same function as that of `crc16`, with the same promise, eight bytes a round.
// The register is kept as a number and a parity; what they stand for is in specs/Fold.antt, and x is that of the polynomial.
#![tactic(auto)]

ghost use Rattle.std.specs.Prelude.{◌≡◌, [], ◌∷◌, ◌^◌, ◌<◌, drop};
ghost use Rattle.crc.specs.Crc.{shifts, crc_from};
ghost use Rattle.crc.specs.Laws.{ChecksumLaws};
ghost use Rattle.crc16_fold.specs.Fold.{number_part, parity_part, register_of, Makes, more};

// A shorter number for the same: x^30 is x^2 + 1.
fn folded(u: u64) -> u64
    ensures { (result < 2 ^ 36) × (number_part result ≡ number_part u) }
{
    let high = u >> 30;
    ((u % 1073741824) ^ high) ^ (high << 2)
}

// The shortest one: x^15 is x + 1.
fn reduced(u: u64) -> u64
    requires { u < 2 ^ 36 }
    ensures { (result < 2 ^ 15) × (number_part result ≡ number_part u) }
{
    let high = u >> 15;
    let once = ((u % 32768) ^ high) ^ (high << 1);
    let rest = once >> 15;
    ((once % 32768) ^ rest) ^ (rest << 1)
}

// 0x8003 where p has an odd number of bits, otherwise 0.
fn odd_part(p: u64) -> u64
    ensures { result ≡ parity_part p }
{
    let a = p ^ (p >> 32);
    let b = a ^ (a >> 16);
    let c = b ^ (b >> 8);
    let d = c ^ (c >> 4);
    let e = d ^ (d >> 2);
    let f = e ^ (e >> 1);
    f % 2 * 0x8003
}

fn register_of(u: u64, p: u64) -> u16
    ensures { result ≡ register_of u p }
{
    let rest = reduced(folded(u));
    (rest ^ odd_part(rest ^ p)) as u16
}

// x^16 is x^2 + x.
fn times_16(w: u64) -> u64
    requires { w < 2 ^ 36 }
    ensures { number_part result ≡ shifts 16 (number_part w) }
{
    (w << 1) ^ (w << 2)
}

// One byte w more.
fn byte_more(u: u64, w: u64) -> u64
    requires { (u < 2 ^ 36) × (w < 2 ^ 8) }
    ensures { (result < 2 ^ 36) × (number_part result ≡ more 8 (number_part u) (number_part w)) }
{
    folded((u << 8) ^ times_16(w))
}

// Eight bytes more, by fours: x^32 is x^4 + x^2, and x^64 is x^8 + x^4.
fn eight_more(u: u64, high: u64, low: u64) -> u64
    requires { (u < 2 ^ 36) × (high < 2 ^ 32) × (low < 2 ^ 32) }
    ensures { (result < 2 ^ 36) × (number_part result ≡ more 32 (more 32 (number_part u) (number_part high)) (number_part low)) }
{
    let w = ((high << 4) ^ (high << 2)) ^ low;
    folded(((u << 8) ^ (u << 4)) ^ times_16(w))
}

// Four bytes as one number.
fn four(a: u8, b: u8, c: u8, d: u8) -> u64
    ensures { (result < 2 ^ 32) × Makes (a ∷ b ∷ c ∷ d ∷ []) result }
{
    u64::from(u32::from_be_bytes([a, b, c, d]))
}

// The register after the bytes, where a number and a parity stand for the one before them.
fn tail(number: u64, parity: u64, bytes: &[u8]) -> u16
    requires { number < 2 ^ 36 }
    ensures { result ≡ crc_from (register_of number parity) bytes.now }
{
    let mut u = number;
    let mut p = parity;
    for &byte in bytes {
        let b = byte as u64;
        u = byte_more(u, b);
        p ^= b;
    }
    register_of(u, p)
}

// The register after the bytes, from start, which may be the checksum of earlier bytes: the laws of checksums are promised too. The
// start stands for itself; then eight bytes go in at a round, and the last ones one by one. [C11]
pub fn update(start: u16, bytes: &[u8]) -> u16
    ensures value { result ≡ crc_from start bytes.now }
    ensures checksum_laws { ChecksumLaws }
{
    let mut u = start as u64;
    let mut p = start as u64;
    let mut rest = bytes;
    while let Some((eight, more)) = rest.split_first_chunk::<8>() {
        let high = four(eight[0], eight[1], eight[2], eight[3]);
        let low = four(eight[4], eight[5], eight[6], eight[7]);
        u = eight_more(u, high, low);
        p = (p ^ high) ^ low;
        rest = more;
    }
    tail(u, p, rest)
}
