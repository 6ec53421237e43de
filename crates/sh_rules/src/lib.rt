// The rules that a memory and a machine's record beside it keep, and what is turned down where they break one.
#![tactic(auto)]

pub mod judge;
mod rules;
