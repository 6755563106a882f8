// What is promised of boards, applied to lives that are written out: see specs/ and proofs/. No functions.
#![tactic(auto)]
