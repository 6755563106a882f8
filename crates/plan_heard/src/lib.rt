// What an accepted plan does to the devices that hear it (specs/). There are no functions here.
#![tactic(auto)]
