// What is promised of the readers, applied to bytes that are written out: see specs/ and proofs/. No functions.
#![tactic(auto)]
