// A line of a listing, written and read: address, word, mnemonic and operands (02, P3).
#![tactic(auto)]

ghost use Rattle.std.specs.Prelude.{◌≡◌, ◌++◌, ◌+◌, ◌≤◌, ◌<◌, ◌^◌, length, drop, IfSome, Some};
ghost use Rattle.text.specs.Text.{begins, laid_of};
ghost use Rattle.mnemonics.specs.Mnemonics.{row_of, Fair, Fits};
ghost use Rattle.line.specs.Line.{spaced_of, operand_of, operand_in, width_of, operands_of, line_of, word_in, line_in};

use mnemonics::{Kind, Shown};

const SPACE: u8 = b' ';

const LINE_FEED: u8 = b'\n';

// How many bytes the line of each row has: kept, since counting them for each line took half as long again.
const LENGTHS: [usize; 44] = [
    17, // ADC
    18, // ADCM
    17, // ADD
    18, // ADDM
    17, // SBC
    18, // SBCM
    17, // SUB
    18, // SUBM
    17, // EOR
    18, // EORM
    16, // OR
    17, // ORM
    17, // AND
    18, // ANDM
    17, // LDA
    17, // STA
    19, // ADI
    20, // ADIM
    19, // SBI
    20, // SBIM
    21, // EORIM
    20, // ORIM
    21, // ANDIM
    19, // LDI
    17, // BNZ
    17, // BNC
    17, // BAZ
    16, // BC
    17, // BA0
    17, // BA1
    17, // BA2
    17, // BA3
    18, // CALL
    17, // DAA
    17, // DAS
    18, // RTNW
    14, // RTNI
    14, // HALT
    14, // STOP
    17, // JMP
    13, // SHR
    14, // TJMP
    13, // NOP
    14, // DATA
];

// A number and a space.
fn put_spaced(room: &mut [u8], p: usize, digits: usize, v: u16)
    requires { (p ≤ 900000) × (digits ≤ 4) }
    ensures { room.new ≡ laid_of room.old p (spaced_of digits v) }
{
    text::put_number(room, p, digits, v);
    lent::poke(room, p + digits, SPACE);
}

// An operand of any kind, if there is one, and the place behind it.
fn put_operand(room: &mut [u8], p: usize, kind: Option<Kind>, v: u16) -> usize
    requires { (p ≤ 900000) × IfSome kind Fair }
    ensures { (result ≡ p + length (operand_of kind v)) × (room.new ≡ laid_of room.old p (operand_of kind v)) }
{
    match kind {
        None => p,
        Some(k) => {
            lent::poke(room, p, SPACE);
            text::put_number(room, p + 1, k.digits, v);
            p + 1 + k.digits
        }
    }
}

// The operands and the line feed, and the place behind them.
fn put_operands(room: &mut [u8], p: usize, s: Shown) -> usize
    requires { (p ≤ 880000) × Fits s }
    ensures { (result ≡ p + length (operands_of s)) × (room.new ≡ laid_of room.old p (operands_of s)) }
{
    let q = put_operand(room, p, mnemonics::first(s.row), s.first);
    let e = put_operand(room, q, mnemonics::second(s.row), s.second);
    lent::poke(room, e, LINE_FEED);
    e + 1
}

// The mnemonic and what follows it, and the place behind.
fn put_items(room: &mut [u8], p: usize, s: Shown) -> usize
    requires { (p ≤ 850000) × Fits s }
    ensures { (result ≡ p + length ((row_of s.row).name ++ operands_of s)) × (room.new ≡ laid_of room.old p ((row_of s.row).name ++ operands_of s)) }
{
    let name = mnemonics::name(s.row);
    text::put_letters(room, p, name);
    put_operands(room, p + name.len(), s)
}

// The line of a word at an address, from a place on, and the place behind it.
pub fn put(room: &mut [u8], p: usize, a: u16, w: u16) -> usize
    requires { p ≤ 800000 }
    ensures { ((result ≡ p + length (line_of a w)) × (result < p + 22)) × (room.new ≡ laid_of room.old p (line_of a w)) }
{
    let s = mnemonics::show(w);
    put_spaced(room, p, 3, a);
    put_spaced(room, p + 4, 4, w);
    put_items(room, p + 9, s)
}

// How many bytes an operand takes.
#[tactic(auto, unfolding(crate::specs::Line::width_of))]
fn width(kind: Option<Kind>) -> usize
    requires { IfSome kind Fair }
    ensures { result ≡ width_of kind }
{
    kind.map_or(0, |k| 1 + k.digits)
}

// How many bytes a word's line has, whatever its address.
#[tactic(auto, unfolding(crate::proofs::Laws::lengths))]
pub fn length(w: u16) -> usize
    ensures { (result ≡ length (line_of 0 w)) × (result < 22) }
{
    let row = mnemonics::row_of(w);
    LENGTHS[row]
}

// Whether a number and a space stand at a place.
fn spaced(text: &[u8], p: usize, digits: usize, v: u16) -> bool
    requires { (p ≤ 900000) × ((digits ≤ 4) × (v < 16 ^ digits)) }
    ensures { result ≡ begins (spaced_of digits v) (drop p text.now) }
{
    text::number(text, p, digits) == Some(v) && lent::peek(text, p + digits) == SPACE
}

// The number that an operand of any kind says at a place, where it is one that the kind may be; 0 where there is no operand.
fn operand(text: &[u8], p: usize, kind: Option<Kind>) -> Option<u16>
    requires { (p ≤ 900000) × IfSome kind Fair }
    ensures { result ≡ operand_in kind (drop p text.now) }
{
    match kind {
        None => Some(0),
        Some(k) => {
            let c = lent::peek(text, p);
            if c != SPACE {
                return None;
            }
            let n = text::number(text, p + 1, k.digits)?;
            if n < k.below { Some(n) } else { None }
        }
    }
}

// Whether the operands that a word shows and a line feed stand at a place.
fn operands(text: &[u8], p: usize, s: Shown) -> bool
    requires { (p ≤ 880000) × Fits s }
    ensures { result ≡ begins (operands_of s) (drop p text.now) }
{
    let k = mnemonics::first(s.row);
    if operand(text, p, k) != Some(s.first) {
        return false;
    }
    let q = p + width(k);
    let l = mnemonics::second(s.row);
    operand(text, q, l) == Some(s.second) && lent::peek(text, q + width(l)) == LINE_FEED
}

// Whether the mnemonic that a word shows stands at a place, with all that follows it.
fn items(text: &[u8], p: usize, s: Shown) -> bool
    requires { (p ≤ 850000) × Fits s }
    ensures { result ≡ begins ((row_of s.row).name ++ operands_of s) (drop p text.now) }
{
    let name = mnemonics::name(s.row);
    text::shows(text, p, name) && operands(text, p + name.len(), s)
}

// Whether a word's line for an address stands at a place, where the word does.
fn is_line(text: &[u8], p: usize, a: u16, w: u16) -> bool
    requires { (p ≤ 800000) × ((a < 4096) × (Some w ≡ word_in (drop p text.now))) }
    ensures { result ≡ begins (line_of a w) (drop p text.now) }
{
    let c = lent::peek(text, p + 8);
    if c != SPACE {
        return false;
    }
    spaced(text, p, 3, a) && items(text, p + 9, mnemonics::show(w))
}

// The word of the line at a place, where it is good for an address.
pub fn read(text: &[u8], p: usize, a: u16) -> Option<u16>
    requires { (p ≤ 800000) × (a < 4096) }
    ensures { result ≡ line_in a (drop p text.now) }
{
    let w = text::number(text, p + 4, 4)?;
    is_line(text, p, a, w).then_some(w)
}
