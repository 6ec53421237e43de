// The cycle of the machine.
#![tactic(auto)]

pub mod cycle;
