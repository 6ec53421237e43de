// The cross-reference beside a program: built, asked for the writers of a cell, and kept up as a word is replaced.
#![tactic(auto)]

pub mod calls;
mod chain;
mod joined;
