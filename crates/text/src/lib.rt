// Text in lent bytes: numbers in upper-case hexadecimal digits and names in letters, as they are written and as they are read.
#![tactic(auto)]

ghost use Rattle.std.specs.Prelude.{◌+◌, ◌≤◌, ◌<◌, ◌≡◌, drop, length};
ghost use Rattle.text.specs.Text.{digit_of, value_of, hex_of, number_in, begins, laid_of};

// The digit of a number below 16.
#[tactic(auto, unfolding(crate::specs::Text::digit_of))]
fn digit(v: u16) -> u8
    requires { v < 16 }
    ensures { result ≡ digit_of v }
{
    if v < 10 {
        b'0' + v as u8
    } else {
        b'A' - 10 + v as u8
    }
}

// The number that a digit stands for; `None` for a byte that is no digit.
// One sum for both ranges: which of them a digit is in is not to be foreseen, and a jump would be.
#[tactic(auto, unfolding(crate::specs::Text::value_of))]
fn value(byte: u8) -> Option<u16>
    ensures { result ≡ value_of byte }
{
    match byte {
        b'0'..=b'9' | b'A'..=b'F' => Some(u16::from(byte % 16 + byte / 64 * 9)),
        _ => None,
    }
}

// A number in so many digits, from a place on.
pub fn put_number(room: &mut [u8], p: usize, digits: usize, v: u16)
    requires { p + digits ≤ 1000000 }
    ensures { room.new ≡ laid_of room.old p (hex_of digits v) }
{
    let mut rest = v;
    for k in (0..digits).rev() {
        lent::poke(room, p + k, digit(rest % 16));
        rest /= 16;
    }
}

// The number that so many digits from a place on say; `None` where one of them is none.
pub fn number(text: &[u8], p: usize, digits: usize) -> Option<u16>
    requires { (p + digits ≤ 1000000) × (digits ≤ 4) }
    ensures { result ≡ number_in digits (drop p text.now) }
{
    let mut n: u16 = 0;
    for k in 0..digits {
        n = n * 16 + value(lent::peek(text, p + k))?;
    }
    Some(n)
}

// A name's letters, from a place on.
pub fn put_letters(room: &mut [u8], p: usize, name: &[u8])
    requires { p + length name.now ≤ 1000000 }
    ensures { room.new ≡ laid_of room.old p name.now }
{
    for (k, letter) in name.iter().enumerate() {
        lent::poke(room, p + k, *letter);
    }
}

// Whether the text has a name's letters from a place on.
pub fn shows(text: &[u8], p: usize, name: &[u8]) -> bool
    ensures { result ≡ begins name.now (drop p text.now) }
{
    text[p.min(text.len())..].starts_with(name)
}
