// What the loops of completion keep, in the theory: definitions and theorems only.
#![tactic(auto)]
