// The reading of a segment over any packet rules: definitions and theorems, in specs/ and proofs/. There are no functions here,
// and nothing of any one protocol.
#![tactic(auto)]
