// Theorems only: Timer0's counter, read in two halves, is one value.
#![tactic(auto)]
