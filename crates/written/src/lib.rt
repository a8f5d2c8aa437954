// A sheet that is written reads back as what it was written from: definitions and theorems only.
#![tactic(auto)]
