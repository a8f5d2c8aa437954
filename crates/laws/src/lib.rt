// Laws of loads, of signed sums, of the cost order and of outcomes: definitions and theorems only.
#![tactic(auto)]
