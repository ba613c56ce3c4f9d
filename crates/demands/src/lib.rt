// Nothing runs here: the crate states demands 1 and 2 of the code below it, and proves them.

#![tactic(auto)]
