// The theory of finished tables over an abstract kit of loads: definitions and theorems only.
#![tactic(auto)]
