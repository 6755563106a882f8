// That the numbers of every answer fit where C has 32 bits for them: see specs/ and proofs/. No functions.
#![tactic(auto)]
