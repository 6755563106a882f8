// What our planner's plans are: accepted, and of as few packets as can be (specs/). There are no functions here.
#![tactic(auto)]
