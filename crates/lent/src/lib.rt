// Bytes and words that a caller lends, read and written by total functions: no index is asked to be in range, but for those of `joined`,
// which is only quick without a test for each byte.
#![tactic(auto)]

ghost use Rattle.std.specs.Prelude.{◌-◌, ◌≤◌, ◌≡◌, length, replicate, set, slice_index_or};
ghost use Rattle.lent.specs.Lent.{at, both, pair_at_of, pair_set_of, pasted_of, joined_of};

// Whether both hold.
pub fn both(a: bool, b: bool) -> bool
    ensures { result ≡ both a b }
{
    a & b
}

// A number of a lent slice: past the slice's end stands its 0.
pub trait Number: Copy {
    ghost nought: { Self };

    fn zero() -> Self
        ensures { result ≡ nought };
}

impl Number for u8 {
    ghost nought = { 0 };

    fn zero() -> u8 {
        0u8
    }
}

impl Number for u16 {
    ghost nought = { 0 };

    fn zero() -> u16 {
        0u16
    }
}

// The number at a place, and 0 past the end.
pub fn peek<T: Number>(items: &[T], i: usize) -> T
    ensures { result ≡ slice_index_or items.now i T.nought }
{
    if i < items.len() { items[i] } else { T::zero() }
}

// A byte stored at a place; past the end nothing happens.
pub fn poke(bytes: &mut [u8], i: usize, v: u8)
    ensures { bytes.new ≡ set bytes.old i v }
{
    if i < bytes.len() {
        bytes[i] = v;
    }
}

// Two bytes from a place on as a number, high byte first.
#[tactic(auto, unfolding(crate::specs::Lent::pair_at_of))]
pub fn pair_at(bytes: &[u8], i: usize) -> u16
    ensures { result ≡ pair_at_of bytes.now i }
{
    if i < bytes.len() {
        return 256 * peek(bytes, i) as u16 + peek(bytes, i + 1) as u16;
    }
    0
}

// A number in two bytes from a place on, high byte first.
#[tactic(auto, unfolding(crate::specs::Lent::pair_set_of))]
pub fn pair_set(bytes: &mut [u8], i: usize, v: u16)
    ensures { bytes.new ≡ pair_set_of bytes.old i v }
{
    if i < bytes.len() {
        poke(bytes, i, (v / 256 % 256) as u8);
        poke(bytes, i + 1, (v % 256) as u8);
    }
}

// Bytes copied into a part that starts at a place; nothing happens where they do not fit.
#[tactic(auto, unfolding(crate::specs::Lent::pasted_of))]
pub fn paste(bytes: &mut [u8], i: usize, from: &[u8])
    ensures { bytes.new ≡ pasted_of bytes.old i from.now }
{
    let n = from.len();
    if n <= bytes.len() && i <= bytes.len() - n {
        // A loop and not `copy_from_slice`, which has the archive need `memmove` from outside.
        for (k, b) in from.iter().enumerate() {
            bytes[i + k] = *b;
        }
    }
}

// Every byte becomes 0.
pub fn clear(bytes: &mut [u8])
    ensures { bytes.new ≡ replicate (length bytes.old) 0 }
{
    bytes.fill(0);
}

// The bits of the bytes from a place on, below another, taken together.
pub fn joined(bytes: &[u8], a: usize, e: usize) -> u8
    requires { (a ≤ e) × (e ≤ length bytes.now) }
    ensures { result ≡ joined_of bytes.now a (e - a) }
{
    let mut bits: u8 = 0;
    for b in &bytes[a..e] {
        bits |= *b;
    }
    bits
}
