// The calls as C makes them: numbers and byte slices.
#![tactic(auto)]

pub mod books;
pub mod fresh;
pub mod levels;
pub mod list;
pub mod listings;
pub mod pictures;
pub mod references;
pub mod run;
pub mod step;
mod told;
pub mod two;
