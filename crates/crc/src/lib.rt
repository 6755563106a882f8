// The checksum of Protocol 2.0, defined as a shift register, with its laws. There are no functions here; `crc16`, `crc16_small` and
// `crc16_fold` compute it.
#![tactic(auto)]
