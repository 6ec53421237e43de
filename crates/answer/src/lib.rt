// What the calls fresh and step answer.
#![tactic(auto)]

use refusal::Refusal;
use sh_state::machine::Machine;

// An outcome, and the machine that the call leaves.
#[derive(Clone, Copy)]
pub struct Answer {
    pub outcome: Result<(), Refusal>,
    pub machine: Machine,
}
