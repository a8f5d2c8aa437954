// What the calls promise together, over their contracts: definitions and theorems only.
#![tactic(auto)]
