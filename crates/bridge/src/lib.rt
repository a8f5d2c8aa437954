// The theory is about the definitions of `terms`: the kit of lists of n counts, and the theorems in the house's words. Definitions and theorems only.
#![tactic(auto)]
