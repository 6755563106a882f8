// What is promised of the device, applied to tables and packets that are written out: see specs/ and proofs/. No functions.
#![tactic(auto)]
