// Worked examples, proved: one table in specs/, one computed test over it in proofs/. There are no functions here.
#![tactic(auto)]
