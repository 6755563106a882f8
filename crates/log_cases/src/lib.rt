// Worked examples of the salvage of a log. There are no functions here.
#![tactic(auto)]
