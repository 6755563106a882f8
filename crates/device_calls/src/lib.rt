// Our calls on a control table and a registered write, and what holds after any list of them: see specs/ and proofs/. No functions.
#![tactic(auto)]
