// The checksum of Protocol 2.0 for boards with little flash: function and promise of `crc16`, with a table of sixteen numbers.
#![tactic(auto)]

mod table;

ghost use Rattle.std.specs.Prelude.{◌≡◌};
ghost use Rattle.crc.specs.Crc.{crc_from};
ghost use Rattle.crc.specs.Laws.{ChecksumLaws};

use table::TABLE;

// The register after the bytes, from start, which may be the checksum of earlier bytes; the laws of checksums are promised too. Each
// byte enters in two halves, the high one first. [C7 C10]
pub fn update(start: u16, bytes: &[u8]) -> u16
    ensures value { result ≡ crc_from start bytes.now }
    ensures checksum_laws { ChecksumLaws }
{
    let table = TABLE;
    let mut crc = start;
    for &byte in bytes {
        let byte = byte as u16;
        let between = (crc << 4) ^ table[((crc >> 12) ^ (byte / 16)) as usize];
        crc = (between << 4) ^ table[((between >> 12) ^ (byte % 16)) as usize];
    }
    crc
}
