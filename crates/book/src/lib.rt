// A panel book as it is read: the contents first, then the bodies of kinds 1, 2 and 3 with no gap, to the end of the file.
#![tactic(auto)]

ghost use Rattle.std.specs.Prelude.{◌≡◌, ◌+◌, ◌-◌, ◌*◌, ◌^◌, ◌<◌};
ghost use Rattle.body.specs.Body.{kind_number};
ghost use Rattle.book.specs.Book.{part_of, length_at, parts_of, entry_fits, contents_fit, read_of};

use body::Kind;
use refusal::Refusal;

pub const KINDS: u8 = 3;

// How many bytes the contents are.
pub const CONTENTS: usize = 16;

// Where a body lies in its file.
#[derive(Clone, Copy)]
pub struct Place {
    pub offset: usize,
    pub length: usize,
}

#[derive(Clone, Copy)]
pub struct Parts {
    pub program: Place,
    pub wiring: Place,
    pub level: Place,
}

// A part of a file; what would lie past its end is left out.
#[tactic(auto, unfolding(crate::specs::Book::part_of))]
pub fn part(book: &[u8], offset: usize, length: usize) -> &[u8]
    ensures { result.now ≡ part_of book.now offset length }
{
    let rest = &book[offset.min(book.len())..];
    &rest[..length.min(rest.len())]
}

// Where in the contents the entry of a kind starts: 5 bytes for each kind, behind one.
fn entry(kind: Kind) -> usize
    ensures { result ≡ 5 * kind_number kind - 4 }
{
    match kind {
        Kind::Program => 1,
        Kind::Wiring => 6,
        Kind::Level => 11,
    }
}

// The length that the entry of a kind gives.
#[tactic(auto, unfolding(crate::specs::Book::length_at))]
fn length_at(book: &[u8], kind: Kind) -> usize
    ensures value { result ≡ length_at book.now (5 * kind_number kind - 4) }
    ensures fits { result < 2 ^ 16 }
{
    lent::pair_at(book, entry(kind) + 3) as usize
}

// Where the three bodies lie, one after the other, by the lengths that the contents give.
#[tactic(auto, unfolding(crate::specs::Book::parts_of))]
fn places(book: &[u8]) -> Parts
    ensures value { result ≡ parts_of book.now }
    ensures fits { result.level.offset + result.level.length < 2 ^ 20 }
{
    let program = length_at(book, Kind::Program);
    let wiring = length_at(book, Kind::Wiring);
    let level = length_at(book, Kind::Level);
    Parts {
        program: Place {
            offset: CONTENTS,
            length: program,
        },
        wiring: Place {
            offset: CONTENTS + program,
            length: wiring,
        },
        level: Place {
            offset: CONTENTS + program + wiring,
            length: level,
        },
    }
}

// Whether the entry of a kind names it, starts its body at an offset, and gives a length that the kind takes.
#[tactic(auto, unfolding(crate::specs::Book::entry_fits))]
fn entry_fits(book: &[u8], kind: Kind, offset: usize) -> bool
    ensures { result ≡ entry_fits book.now (5 * kind_number kind - 4) (kind_number kind) offset }
{
    let i = entry(kind);
    lent::peek(book, i) == kind as u8
        && lent::pair_at(book, i + 1) as usize == offset
        && kind.takes(length_at(book, kind))
}

// Whether the contents and the file's length are right: each body starts where the one before it ends, the last ends the file.
#[tactic(auto, unfolding(crate::specs::Book::contents_fit))]
fn contents_fit(book: &[u8], p: Parts) -> bool
    requires place { p ≡ parts_of book.now }
    requires fits { p.level.offset + p.level.length < 2 ^ 20 }
    ensures { result ≡ contents_fit book.now }
{
    lent::peek(book, 0) == KINDS
        && entry_fits(book, Kind::Program, p.program.offset)
        && entry_fits(book, Kind::Wiring, p.wiring.offset)
        && entry_fits(book, Kind::Level, p.level.offset)
        && book.len() == p.level.offset + p.level.length
}

// Where each body of a book lies, or why the book is turned down: its contents before its bodies.
#[tactic(auto, unfolding(crate::specs::Book::read_of, crate::specs::Book::reading_of, crate::specs::Book::book_judged, sh_rules::specs::Judge::first_of))]
pub fn read(book: &[u8]) -> Result<Parts, Refusal>
    ensures { result ≡ read_of book.now }
{
    let p = places(book);
    body::told(contents_fit(book, p), Refusal::Contents)?;
    body::values(
        part(book, p.wiring.offset, p.wiring.length),
        part(book, p.level.offset, p.level.length),
    )?;
    Ok(p)
}
