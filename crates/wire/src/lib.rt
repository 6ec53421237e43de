// The record, the program and addresses as bytes, the way that C passes them.
#![tactic(auto)]

pub mod record;
pub mod words;
