// The rules of a book's bodies, kind by kind: how long a body is and which values it holds.
#![tactic(auto)]

ghost use Rattle.std.specs.Prelude.{◌≡◌, ◌*◌, ◌+◌, ◌<◌, length};
ghost use Rattle.body.specs.Body.{kind_number, wiring_length_fits, length_fits, element_fits, wiring_fits, level_fits, told, wiring_judged, level_judged, values_judged};

use refusal::Refusal;
use sh_map::map;

// The kinds of a book's bodies, by the numbers that its contents and a refusal name them by.
#[derive(Clone, Copy)]
pub enum Kind {
    Program = 1,
    Wiring = 2,
    Level = 3,
}

// Whether this many bytes are 1-240 elements of 3.
#[tactic(auto, unfolding(crate::specs::Body::wiring_length_fits))]
fn wiring_length_fits(n: usize) -> bool
    ensures { result ≡ wiring_length_fits n }
{
    n % 3 == 0 && 1 <= n / 3 && n / 3 < 241
}

impl Kind {
    // Whether the kind takes a body of this many bytes.
    #[tactic(auto, unfolding(crate::specs::Body::length_fits))]
    pub fn takes(self, n: usize) -> bool
        ensures { result ≡ length_fits (kind_number self) n }
    {
        match self {
            Kind::Program => n == 8192,
            Kind::Wiring => wiring_length_fits(n),
            Kind::Level => n == 5,
        }
    }
}

// Whether a number is a kind's that takes a body of this many bytes.
#[tactic(auto, unfolding(crate::specs::Body::length_fits))]
pub fn length_fits(kind: u8, n: usize) -> bool
    ensures { result ≡ length_fits kind n }
{
    match kind {
        1 => Kind::Program.takes(n),
        2 => Kind::Wiring.takes(n),
        3 => Kind::Level.takes(n),
        _ => false,
    }
}

// Whether an element has a display address and a bit of a nibble.
#[tactic(auto, unfolding(crate::specs::Body::element_fits))]
fn element_fits(wiring: &[u8], k: usize) -> bool
    requires { 3 * k + 2 < length wiring.now }
    ensures { result ≡ element_fits wiring.now k }
{
    let a = lent::pair_at(wiring, 3 * k);
    let bit = lent::peek(wiring, 3 * k + 2);
    map::display(a) && bit < 4
}

// Whether every element of a kind 2 body keeps its rule.
#[tactic(auto, unfolding(crate::specs::Body::wiring_fits))]
fn wiring_fits(wiring: &[u8]) -> bool
    ensures { result ≡ wiring_fits wiring.now }
{
    (0..wiring.len() / 3).all(|k| element_fits(wiring, k))
}

// Whether a kind 3 body has two different cells of data, display or scan and a ground code.
#[tactic(auto, unfolding(crate::specs::Body::level_fits))]
fn level_fits(level: &[u8]) -> bool
    ensures { result ≡ level_fits level.now }
{
    let high = lent::pair_at(level, 0);
    let low = lent::pair_at(level, 2);
    let ground = lent::peek(level, 4);
    map::askable(high) && map::askable(low) && high != low && ground < 64
}

// A judgement by one test.
#[tactic(auto, unfolding(crate::specs::Body::told))]
pub fn told(fits: bool, why: Refusal) -> Result<(), Refusal>
    ensures { result ≡ told fits why }
{
    if fits { Ok(()) } else { Err(why) }
}

// The values of the bodies of kinds 2 and 3, the lowest kind first.
#[tactic(auto, unfolding(crate::specs::Body::values_judged, sh_rules::specs::Judge::first_of))]
pub fn values(wiring: &[u8], level: &[u8]) -> Result<(), Refusal>
    ensures { result ≡ values_judged wiring.now level.now }
{
    told(wiring_fits(wiring), Refusal::Body(Kind::Wiring as u64))?;
    told(level_fits(level), Refusal::Body(Kind::Level as u64))
}

// A kind 2 body that is lent by itself.
#[tactic(auto, unfolding(crate::specs::Body::wiring_judged, sh_rules::specs::Judge::first_of))]
pub fn wiring(body: &[u8]) -> Result<(), Refusal>
    ensures { result ≡ wiring_judged body.now }
{
    told(Kind::Wiring.takes(body.len()), Refusal::Contents)?;
    told(wiring_fits(body), Refusal::Body(Kind::Wiring as u64))
}

// A kind 3 body that is lent by itself.
#[tactic(auto, unfolding(crate::specs::Body::level_judged, sh_rules::specs::Judge::first_of))]
pub fn level(body: &[u8]) -> Result<(), Refusal>
    ensures { result ≡ level_judged body.now }
{
    told(Kind::Level.takes(body.len()), Refusal::Contents)?;
    told(level_fits(body), Refusal::Body(Kind::Level as u64))
}
