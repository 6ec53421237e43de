// What C is told of an answer: 0 or the paper's number, and the value that goes with it.
ghost use Rattle.std.specs.Prelude.{◌≡◌};
ghost use Rattle.refusal.specs.Told.{said, done_told, refused_told, counted};
ghost use Rattle.answer.specs.Answer.{outcome_told};
ghost use Rattle.host.specs.Told.{count_told, short_told};

use refusal::Refusal;
use sh_rules::judge;

#[tactic(auto, unfolding(refusal::specs::Told::done_told))]
pub fn done(value: &mut u64) -> u32
    ensures { said result value.new ≡ done_told }
{
    *value = 0;
    0
}

#[tactic(auto, unfolding(refusal::specs::Told::refused_told))]
pub fn refused(why: Refusal, value: &mut u64) -> u32
    ensures { said result value.new ≡ refused_told why }
{
    *value = refusal::value(why);
    refusal::number(why)
}

#[tactic(auto, unfolding(answer::specs::Answer::outcome_told))]
pub fn outcome(o: Result<(), Refusal>, value: &mut u64) -> u32
    ensures { said result value.new ≡ outcome_told o }
{
    match o {
        Ok(()) => done(value),
        Err(why) => refused(why, value),
    }
}

// How much was written, besides.
pub fn written(n: u64, count: &mut u64, value: &mut u64) -> u32
    ensures { counted (said result value.new) count.new ≡ counted done_told n }
{
    *count = n;
    done(value)
}

// A count or a refusal, as every call that counts tells it.
#[tactic(auto, unfolding(crate::specs::Told::count_told))]
pub fn amount(a: Result<usize, Refusal>, count: &mut u64, value: &mut u64) -> u32
    ensures { counted (said result value.new) count.new ≡ count_told a count.old }
{
    match a {
        Ok(n) => written(n as u64, count, value),
        Err(why) => refused(why, value),
    }
}

// A record of another length than 45 bytes: the memory is judged first.
#[tactic(auto, unfolding(crate::specs::Told::short_told))]
pub fn short(memory: &[u8], value: &mut u64) -> u32
    ensures { said result value.new ≡ short_told memory.now }
{
    let j = judge::first(judge::memory(memory), Err(Refusal::Record));
    outcome(j, value)
}
