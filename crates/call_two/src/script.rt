// What a script of two cars is turned down for.
ghost use Rattle.std.specs.Prelude.{◌≡◌, length};
ghost use Rattle.lent.specs.Lent.{fails_from};
ghost use Rattle.call_two.specs.Script.{event_fits, car_fits, events_judged, cars_judged, cut_judged, fine_of};

use refusal::Refusal;

// How many bytes of entries are looked at together.
const MANY: usize = 64;

// Whether the bytes are entries, a car and a known event each: a pass with no way out, which the compiler does many at a time.
#[tactic(auto, using(crate::proofs::Scripts::entry_more))]
fn fine_by_one(entries: &[u8]) -> bool
    ensures { result ≡ fine_of entries.now }
{
    let mut ok = true;
    for i in 0..entries.len() / 2 {
        let entry = lent::both(entries[i * 2] < 2, sh_known::known(entries[i * 2 + 1]));
        ok = lent::both(entry, ok);
    }
    lent::both(entries.len() % 2 == 0, ok)
}

// The same of many, but that bytes that are all 0 or 1, which are cars, cycles and base pulses, are not judged.
#[tactic(auto, using(crate::proofs::Scripts::joined_fine))]
fn many_fine(entries: &[u8]) -> bool
    requires { length entries.now ≡ 64 }
    ensures { result ≡ fine_of entries.now }
{
    lent::joined(entries, 0, MANY) < 2 || fine_by_one(entries)
}

// Whether all of a script is entries, each a car and a known event, many of them at a time.
pub fn fine(script: &[u8]) -> bool
    ensures { result ≡ fine_of script.now }
{
    let whole = script.len() / MANY;
    let mut ok = true;
    for k in 0..whole {
        ok = lent::both(many_fine(&script[k * MANY..k * MANY + MANY]), ok);
    }
    lent::both(fine_by_one(&script[whole * MANY..]), ok)
}

#[tactic(auto, unfolding(crate::specs::Script::event_fits))]
fn event_fits(i: usize, e: u8) -> bool
    ensures { result ≡ event_fits i e }
{
    i % 2 == 0 || sh_known::known(e)
}

#[tactic(auto, unfolding(crate::specs::Script::car_fits))]
fn car_fits(i: usize, c: u8) -> bool
    ensures { result ≡ car_fits i c }
{
    i % 2 == 1 || c < 2
}

// 5.
#[tactic(auto, unfolding(crate::specs::Script::events_judged))]
pub fn events(script: &[u8]) -> Result<(), Refusal>
    ensures { result ≡ events_judged (fails_from event_fits script.now 0) }
{
    match call_run::first_failing(script, event_fits) {
        Some(i) => Err(Refusal::UnknownEvent(i as u64)),
        None => Ok(()),
    }
}

// 27.
#[tactic(auto, unfolding(crate::specs::Script::cars_judged))]
pub fn cars(script: &[u8]) -> Result<(), Refusal>
    ensures { result ≡ cars_judged (fails_from car_fits script.now 0) }
{
    match call_run::first_failing(script, car_fits) {
        Some(i) => Err(Refusal::Car(i as u64)),
        None => Ok(()),
    }
}

// 28.
#[tactic(auto, unfolding(crate::specs::Script::cut_judged, body::specs::Body::told))]
pub fn cut(script: &[u8]) -> Result<(), Refusal>
    ensures { result ≡ cut_judged script.now }
{
    let n = script.len();
    if n % 2 == 0 {
        return Ok(());
    }
    Err(Refusal::CutEntry((n - 1) as u64))
}
