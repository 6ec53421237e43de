// The call step, with its refusals.
#![tactic(auto)]

pub mod step;
