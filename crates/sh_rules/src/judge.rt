// What a memory and a record beside it are turned down for.
ghost use Rattle.std.specs.Prelude.{◌≡◌};
ghost use Rattle.sh_state.specs.State.{state};
ghost use Rattle.sh_rules.specs.Judge.{cells_judged, memory_judged, record_judged, first_of, state_judged};

use crate::rules;
use refusal::Refusal;
use sh_state::machine::Machine;

#[tactic(auto, unfolding(crate::specs::Judge::cells_judged))]
fn cells(f: Option<usize>) -> Result<(), Refusal>
    ensures { result ≡ cells_judged f }
{
    f.map_or(Ok(()), |a| Err(Refusal::CellRule(a as u64)))
}

// A memory by its length and then by its lowest broken cell.
#[tactic(auto, unfolding(crate::specs::Judge::memory_judged))]
pub fn memory(bytes: &[u8]) -> Result<(), Refusal>
    ensures { result ≡ memory_judged bytes.now }
{
    let n = bytes.len();
    if n != Machine::CELLS {
        return Err(Refusal::MemoryLength(n as u64));
    }
    cells(rules::first_broken(bytes))
}

// A record by the memory beside it.
#[tactic(auto, unfolding(crate::specs::Judge::record_judged))]
fn record(m: Machine, bytes: &[u8]) -> Result<(), Refusal>
    ensures { result ≡ record_judged (state m bytes.now) }
{
    rules::well_formed(m, bytes)
        .then_some(())
        .ok_or(Refusal::Record)
}

// The first of two judgements that turns down.
#[tactic(auto, unfolding(crate::specs::Judge::first_of))]
pub fn first(a: Result<(), Refusal>, b: Result<(), Refusal>) -> Result<(), Refusal>
    ensures { result ≡ first_of a b }
{
    a.and(b)
}

// A memory and the record beside it.
#[tactic(auto, unfolding(crate::specs::Judge::state_judged, crate::specs::Judge::first_of))]
pub fn machine(m: Machine, bytes: &[u8]) -> Result<(), Refusal>
    ensures { result ≡ state_judged (state m bytes.now) }
{
    memory(bytes)?;
    record(m, bytes)
}
