// The tables that a fresh build gives: written, and held against tables that are lent.
ghost use Rattle.std.specs.Prelude.{true, false, ◌≡◌, ◌<◌, ◌≤◌, length};
ghost use Rattle.lent.specs.Lent.{at};
ghost use Rattle.wire.specs.Words.{words_of};
ghost use Rattle.tables.specs.Tables.{built_of, matches_of};
ghost use Rattle.tables.specs.Pass.{base_of, slot_of, Ruled, Headed, SameHeads};

use crate::{keys, pass};

// How many numbers the tables are.
pub const NUMBERS: usize = 5120;

// The word at an address; without a test of the place, which would be made for every word.
pub fn word_at(program: &[u8], a: usize) -> u16
    requires { (length program.now ≡ 8192) × (a < 4096) }
    ensures { result ≡ at (words_of program.now 4096) a }
{
    256 * program[a * 2] as u16 + program[a * 2 + 1] as u16
}

// The slot of the word at an address.
fn slot(program: &[u8], bases: &[u16], a: usize) -> usize
    requires { (length program.now ≡ 8192) × (a < 4096) × Ruled base_of 512 bases.now }
    ensures { result ≡ slot_of (at (words_of program.now 4096) a) }
{
    let word = word_at(program, a);
    bases[(word / 128) as usize] as usize + (word % 128) as usize
}

// The cells' numbers, when all words have been passed.
fn write_heads(heads: &[u16], tables: &mut [u16])
    requires { (length heads.now ≡ 1153) × (5120 ≤ length tables.old) }
    ensures { Headed heads.now tables.old tables.new }
{
    tables[..1024].copy_from_slice(&heads[128..1152]);
}

// The tables of a program: from its last word to its first each address gets the one noted in its slot, and is noted there.
pub fn write(program: &[u8], tables: &mut [u16])
    requires { (length program.now ≡ 8192) × (5120 ≤ length tables.old) }
    ensures { tables.new ≡ built_of (words_of program.now 4096) tables.old }
{
    let bases = pass::bases();
    let places = pass::places();
    let mut heads = [keys::NONE; 1153];
    for a in (0..4096usize).rev() {
        let x = slot(program, &bases, a);
        tables[1024 + a] = heads[x];
        heads[places[x] as usize] = a as u16;
    }
    write_heads(&heads, tables);
}

// Whether the cells' numbers are those noted; all are looked at, which is quicker than to stop at the first that is not.
fn same_heads(heads: &[u16], tables: &[u16]) -> bool
    requires { (length heads.now ≡ 1153) × (5120 ≤ length tables.now) }
    ensures { (result ≡ true → SameHeads heads.now tables.now) × (result ≡ false → SameHeads heads.now tables.now → ⊥) }
{
    let mut same = true;
    for i in 0..1024usize {
        if tables[i] != heads[i + 128] {
            same = false;
        }
    }
    same
}

// Whether tables of full length are what `write` would write.
fn same(program: &[u8], tables: &[u16]) -> bool
    requires { (length program.now ≡ 8192) × (5120 ≤ length tables.now) }
    ensures { result ≡ matches_of (words_of program.now 4096) tables.now }
{
    let bases = pass::bases();
    let places = pass::places();
    let mut heads = [keys::NONE; 1153];
    for a in (0..4096usize).rev() {
        let x = slot(program, &bases, a);
        if tables[1024 + a] != heads[x] {
            return false;
        }
        heads[places[x] as usize] = a as u16;
    }
    same_heads(&heads, tables)
}

// Whether tables match a program.
pub fn matches(program: &[u8], tables: &[u16]) -> bool
    requires { length program.now ≡ 8192 }
    ensures { result ≡ matches_of (words_of program.now 4096) tables.now }
{
    if tables.len() < NUMBERS {
        return false;
    }
    same(program, tables)
}
