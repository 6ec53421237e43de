// The level: two octal digits of the memory, around the ground stop; basements are negative.
#![tactic(auto)]

ghost use Rattle.std.specs.Prelude.{◌≡◌};
ghost use Rattle.level.specs.Level.{level_at, level_of};

use refusal::Refusal;
use sh_map::map;
use sh_rules::judge;

// The level of two digits around the ground stop, the high digit judged first.
#[tactic(auto, unfolding(crate::specs::Level::level_at))]
fn told(high: u8, low: u8, ground_stop: u8) -> Result<i32, Refusal>
    ensures { result ≡ level_at high low ground_stop }
{
    if 7 < high {
        return Err(Refusal::Digit(0));
    }
    if 7 < low {
        return Err(Refusal::Digit(1));
    }
    Ok((8 * high + low) as i32 - ground_stop as i32)
}

// The level that a memory shows by a kind 3 body, or why it tells none.
#[tactic(auto, unfolding(crate::specs::Level::level_of, crate::specs::Level::levelled_of, crate::specs::Level::level_in, sh_rules::specs::Judge::first_of))]
pub fn level(memory: &[u8], body: &[u8]) -> Result<i32, Refusal>
    ensures { result ≡ level_of memory.now body.now }
{
    judge::memory(memory)?;
    body::level(body)?;
    let high = map::cell(memory, lent::pair_at(body, 0));
    let low = map::cell(memory, lent::pair_at(body, 2));
    told(high, low, lent::peek(body, 4))
}
