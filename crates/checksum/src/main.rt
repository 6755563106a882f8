// Prints the checksum of standard input and the count of its bytes, as `CRC BYTES`: four hexadecimal digits and a decimal
// number. The input may be of any length: it is read in parts, each going on from the checksum of those before it. If a read or a
// write fails, it says so on standard error and does not print that line.
#![tactic(auto)]

ghost use Rattle.std.specs.Prelude.{◌≡◌, List, ◌++◌, ℕ};
ghost use Rattle.crc.specs.Crc.{crc_from};

use anyhow::Context;
use input::ReadFailed;
use std::fmt;
use std::io::Stdin;

// The checksum and the count of the bytes so far.
#[derive(Clone, Copy, Default)]
struct Total {
    crc: u16,
    bytes: u64,
}

impl Total {
    // One part more: from the checksum of the parts so far to that of all of them joined. The count stops at the largest number.
    fn with_part(self, part: &[u8]) -> Self
        ensures { (parts : List ℕ) → self.crc ≡ crc_from 0 parts → result.crc ≡ crc_from 0 (parts ++ part.now) }
    {
        Total {
            crc: crc16::update(self.crc, part),
            bytes: self.bytes.saturating_add(part.len() as u64),
        }
    }
}

impl fmt::Display for Total {
    fn fmt<W: fmt::Write>(&self, f: &mut fmt::Formatter<W>) -> fmt::Result {
        write!(f, "{:04x} {}", self.crc, self.bytes)
    }
}

// Reads until the input ends: only then is the buffer not full. A loop must be bounded to be proved to end: this one would stop
// after 2^64 - 1 parts.
fn total_of_input(stdin: &mut Stdin) -> Result<Total, ReadFailed> {
    let mut buffer = [0u8; 65536];
    let mut total = Total::default();
    for _ in 0..u64::MAX {
        let n = input::read(stdin, &mut buffer)?;
        total = total.with_part(&buffer[..n]);
        if n < buffer.len() {
            break;
        }
    }
    Ok(total)
}

fn run(rt: &HostRuntime) -> anyhow::Result<()> {
    let total = total_of_input(&mut rt.stdin())?;
    println!(rt; "{total}").context("standard output cannot be written")
}

fn main(rt: HostRuntime) {
    if let Err(error) = run(&rt) {
        let _ = eprintln!(rt; "checksum: {error}");
    }
}
