// The checksum after bits were flipped, from the checksum before, without a pass over the bytes before or behind the flips.
#![tactic(auto)]

ghost use Rattle.std.specs.Prelude.{◌≡◌, replicate};
ghost use Rattle.crc.specs.Crc.{shift, crc_from};
ghost use Rattle.crc.specs.Flips.{flipped_checksum};
ghost use Rattle.crc.specs.Product.{product};

// One shift of the register.
fn shifted(crc: u16) -> u16
    ensures { result ≡ shift crc }
{
    (crc << 1) ^ ((crc >> 15) * 0x8005)
}

// The product of two registers as polynomials, by the bits of the second.
fn times(a: u16, b: u16) -> u16
    ensures { result ≡ product 16 a b }
{
    let mut sum = 0;
    let mut x = a;
    let mut y = b;
    for _ in 0..u16::BITS {
        sum ^= y % 2 * x;
        x = shifted(x);
        y /= 2;
    }
    sum
}

// The register after `count` bytes of 0. Each multiplies it by x^8, and the power for all of them is found by squaring, in as many
// rounds as `count` has binary digits.
fn after_zeros(crc: u16, count: usize) -> u16
    ensures { result ≡ crc_from crc (replicate count 0) }
{
    let mut sum = crc;
    let mut power = 0x0100;
    let mut left = count;
    while 0 < left {
        if left % 2 == 1 {
            sum = times(power, sum);
        }
        power = times(power, power);
        left /= 2;
    }
    sum
}

// The checksum after bits were flipped, from `crc`, the one before: `flips` has a 1 for each flipped bit, and `after` bytes follow
// those that it covers. [C9]
pub fn flipped(crc: u16, flips: &[u8], after: usize) -> u16
    ensures { result ≡ flipped_checksum crc flips.now after }
{
    crc ^ after_zeros(crc16::update(0, flips), after)
}
