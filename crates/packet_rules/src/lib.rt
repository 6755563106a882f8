// What packet rules are made of where a packet begins with a front that says how long it is, whatever the protocol: definitions
// and laws, in specs/ and proofs/, and the answers of the functions that look at bytes. There are no functions here.
#![tactic(auto)]

// By header, ID and length field, the bytes begin no packet; they begin one and surely lack so many bytes; or all its bytes are
// there, so many.
#[derive(Clone, Copy, PartialEq, Eq, Debug)]
pub enum Front {
    Nothing,
    Waiting(usize),
    Whole(usize),
}

// What the bytes from an offset on are, while the segment is open.
#[derive(Clone, Copy, PartialEq, Eq, Debug)]
pub enum Verdict {
    // a well-formed packet of so many bytes
    Packet(usize),
    // a packet but for its checksum, with its ID
    BadChecksum(u8),
    // a beginning that surely lacks so many bytes
    Waiting(usize),
    Nothing,
}
