// Loads worked by hand; all of it is in specs/.
#![tactic(auto)]
