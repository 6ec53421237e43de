// The SH67P54's machine record.
#![tactic(auto)]

pub mod machine;
