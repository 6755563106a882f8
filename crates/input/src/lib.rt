// Standard input, where a failed read is told from the end of the input.
#![tactic(auto)]

ghost use Rattle.std.specs.Prelude.{MatchResult};
ghost use Rattle.io.specs.Counts.{IsPrefixLen};

use std::error::Error;
use std::fmt;
use std::io::{Read, Stdin};

// A read failed after so many bytes.
#[derive(Clone, Copy, Debug)]
pub struct ReadFailed {
    pub after: usize,
}

impl fmt::Display for ReadFailed {
    fn fmt<W: fmt::Write>(&self, f: &mut fmt::Formatter<W>) -> fmt::Result {
        f.write_str("standard input cannot be read")
    }
}

impl Error for ReadFailed {}

// Fills the buffer from standard input, and stops early only where that ends or a read fails. Returns how many bytes were read.
pub fn read(stdin: &mut Stdin, buffer: &mut [u8]) -> Result<usize, ReadFailed>
    ensures { MatchResult result (λ n. IsPrefixLen n buffer.new) (λ failed. IsPrefixLen failed.after buffer.new) }
{
    let mut done = 0;
    while done < buffer.len() {
        match stdin.read(&mut buffer[done..]) {
            Ok(0) => break,
            Ok(n) => done += n,
            Err(_) => return Err(ReadFailed { after: done }),
        }
    }
    Ok(done)
}
