// The mnemonics in one table, with the kinds of their operands, and what each word shows on paper (02, P3).
#![tactic(auto)]

ghost use Rattle.std.specs.Prelude.{◌≡◌};
ghost use Rattle.word.specs.Word.{decode_of};
ghost use Rattle.mnemonics.specs.Mnemonics.{name_of, row_of, shown_of};
ghost use Rattle.mnemonics.specs.Rows.{StandsAt};

// A kind of operand: how many digits it has, and below which number it is.
#[derive(Clone, Copy)]
pub struct Kind {
    pub digits: usize,
    pub below: u16,
}

// What a line shows: a row of the table, and its operands' numbers; 0 where there is no operand.
#[derive(Clone, Copy)]
pub struct Shown {
    pub row: usize,
    pub first: u16,
    pub second: u16,
}

// A row of the table: the mnemonic's letters, and the kinds of its first and its second operand.
#[derive(Clone, Copy)]
struct Row(&'static [u8], Option<Kind>, Option<Kind>);

// The immediate, and each half of what RTNW returns.
const NIBBLE: Kind = Kind {
    digits: 1,
    below: 16,
};

// A cell of bank 0.
const FIELD: Kind = Kind {
    digits: 3,
    below: 128,
};

// A cell, by its bank.
const CELL: Kind = Kind {
    digits: 3,
    below: 1024,
};

// A target of eleven bits.
const NEAR: Kind = Kind {
    digits: 3,
    below: 2048,
};

// A target of twelve bits.
const FAR: Kind = Kind {
    digits: 3,
    below: 4096,
};

// The rows, the mark DATA last.
const TABLE: [Row; 44] = [
    Row(b"ADC", Some(CELL), None),
    Row(b"ADCM", Some(CELL), None),
    Row(b"ADD", Some(CELL), None),
    Row(b"ADDM", Some(CELL), None),
    Row(b"SBC", Some(CELL), None),
    Row(b"SBCM", Some(CELL), None),
    Row(b"SUB", Some(CELL), None),
    Row(b"SUBM", Some(CELL), None),
    Row(b"EOR", Some(CELL), None),
    Row(b"EORM", Some(CELL), None),
    Row(b"OR", Some(CELL), None),
    Row(b"ORM", Some(CELL), None),
    Row(b"AND", Some(CELL), None),
    Row(b"ANDM", Some(CELL), None),
    Row(b"LDA", Some(CELL), None),
    Row(b"STA", Some(CELL), None),
    Row(b"ADI", Some(FIELD), Some(NIBBLE)),
    Row(b"ADIM", Some(FIELD), Some(NIBBLE)),
    Row(b"SBI", Some(FIELD), Some(NIBBLE)),
    Row(b"SBIM", Some(FIELD), Some(NIBBLE)),
    Row(b"EORIM", Some(FIELD), Some(NIBBLE)),
    Row(b"ORIM", Some(FIELD), Some(NIBBLE)),
    Row(b"ANDIM", Some(FIELD), Some(NIBBLE)),
    Row(b"LDI", Some(FIELD), Some(NIBBLE)),
    Row(b"BNZ", Some(NEAR), None),
    Row(b"BNC", Some(NEAR), None),
    Row(b"BAZ", Some(NEAR), None),
    Row(b"BC", Some(NEAR), None),
    Row(b"BA0", Some(NEAR), None),
    Row(b"BA1", Some(NEAR), None),
    Row(b"BA2", Some(NEAR), None),
    Row(b"BA3", Some(NEAR), None),
    Row(b"CALL", Some(NEAR), None),
    Row(b"DAA", Some(FIELD), None),
    Row(b"DAS", Some(FIELD), None),
    Row(b"RTNW", Some(NIBBLE), Some(NIBBLE)),
    Row(b"RTNI", None, None),
    Row(b"HALT", None, None),
    Row(b"STOP", None, None),
    Row(b"JMP", Some(FAR), None),
    Row(b"SHR", None, None),
    Row(b"TJMP", None, None),
    Row(b"NOP", None, None),
    Row(b"DATA", None, None),
];

// The rows, that of the mark DATA last.
const ROWS: usize = 44;

// The row of the mark DATA.
const DATA: usize = 43;

// What stands in a row; past the last row what stands in that one.
#[tactic(auto, unfolding(crate::specs::Rows::StandsAt))]
fn entry(rows: &[Row; 44], row: usize) -> Row
    ensures { StandsAt rows.now row result }
{
    rows[row.min(DATA)]
}

// A row's mnemonic; past the last row there is none.
pub fn name(row: usize) -> &'static [u8]
    ensures { result.now ≡ name_of row }
{
    if row < ROWS {
        entry(&TABLE, row).0
    } else {
        b""
    }
}

// A row's first operand, if it has one.
pub fn first(row: usize) -> Option<Kind>
    ensures { result ≡ (row_of row).first }
{
    entry(&TABLE, row).1
}

// A row's second operand, if it has one.
pub fn second(row: usize) -> Option<Kind>
    ensures { result ≡ (row_of row).second }
{
    entry(&TABLE, row).2
}

// The row that a word shows.
#[tactic(auto, using(crate::proofs::Laws::row_tests), unfolding(crate::proofs::Laws::row_by))]
pub fn row_of(word: u16) -> usize
    ensures { result ≡ (shown_of (decode_of word)).row }
{
    match word {
        0..=0x3FFF => usize::from(word / 1024),
        0x4000..=0xC7FF => usize::from(word / 2048 + 8),
        // A match of its own: in one with the others, each word is held against the single words first.
        _ => match word {
            0xCB00..=0xCB7F => 33,
            0xCD00..=0xCD7F => 34,
            0xD000..=0xD0FF => 35,
            0xD400 => 36,
            0xD800 => 37,
            0xDC00 => 38,
            0xE000..=0xEFFF => 39,
            0xF000 => 40,
            0xF7FF => 41,
            0xFFFF => 42,
            _ => DATA,
        },
    }
}

// The number of a word's first operand, by its row.
#[tactic(auto, using(crate::proofs::Laws::first_tests), unfolding(crate::proofs::Laws::first_in))]
fn first_of(word: u16, row: usize) -> u16
    requires { row ≡ (shown_of (decode_of word)).row }
    ensures { result ≡ (shown_of (decode_of word)).first }
{
    match row {
        0..=15 => word % 1024,
        16..=23 | 33 | 34 => word % 128,
        24..=32 => word % 2048,
        35 => word / 16 % 16,
        39 => word % 4096,
        _ => 0,
    }
}

// The number of a word's second operand, by its row.
#[tactic(auto, using(crate::proofs::Laws::second_tests), unfolding(crate::proofs::Laws::second_in))]
fn second_of(word: u16, row: usize) -> u16
    requires { row ≡ (shown_of (decode_of word)).row }
    ensures { result ≡ (shown_of (decode_of word)).second }
{
    match row {
        16..=23 => word / 128 % 16,
        35 => word % 16,
        _ => 0,
    }
}

// What a word shows.
pub fn show(word: u16) -> Shown
    ensures { result ≡ shown_of (decode_of word) }
{
    let row = row_of(word);
    let first = first_of(word, row);
    let second = second_of(word, row);
    Shown { row, first, second }
}
