// The checksum of Protocol 2.0: polynomial 0x8005, highest bit first, no final inversion. The start value is the caller's.
#![tactic(auto)]

mod table;

ghost use Rattle.std.specs.Prelude.{◌≡◌};
ghost use Rattle.crc.specs.Crc.{crc_from};
ghost use Rattle.crc.specs.Laws.{ChecksumLaws};

use table::TABLE;

// The register after the bytes, from start, which may be the checksum of earlier bytes: the laws of checksums are promised too. The table
// is bound once, before the loop: a constant array is built anew wherever it is named. The register is kept as the latest number of
// the table and the one before, whose low half moves up: so a round waits for little but its load. [C1-C8]
pub fn update(start: u16, bytes: &[u8]) -> u16
    ensures value { result ≡ crc_from start bytes.now }
    ensures checksum_laws { ChecksumLaws }
{
    let table = TABLE;
    let mut last = start;
    let mut before: u16 = 0;
    for &byte in bytes {
        let met = last ^ ((before ^ (byte as u16)) << 8);
        before = last;
        last = table[(met >> 8) as usize];
    }
    last ^ (before << 8)
}
