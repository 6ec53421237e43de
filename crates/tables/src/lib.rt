// The tables of a cross-reference: which addresses of a program write which cell, written in one pass and held against a program in one.
#![tactic(auto)]

pub mod fresh;
pub mod keys;
mod pass;
