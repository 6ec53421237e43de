// The SH67P54's memory map.
#![tactic(auto)]

pub mod map;
