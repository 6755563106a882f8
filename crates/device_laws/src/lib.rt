// What a refused instruction leaves (specs/), and what holds of whatever is heard. There are no functions here.
#![tactic(auto)]
