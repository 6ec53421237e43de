// A word taken out of a program and another put in, with its tables. While an address has no word of its own, NOP stands there, which is
// kept under no cell.
ghost use Rattle.std.specs.Prelude.{◌≡◌, ◌<◌};
ghost use Rattle.lent.specs.Lent.{at};
ghost use Rattle.wire.specs.Words.{words_of};
ghost use Rattle.tables.specs.Key.{none, key_of};
ghost use Rattle.xref.specs.Chain.{Held, Leads, Moved};

use tables::{fresh, keys};

const NOP: u16 = 0xFFFF;

// The place in a cell's chain that leads to an address or past it.
// A while, since a chain is walked by its links and not by a count.
fn before(program: &[u8], tables: &[u16], cell: usize, address: usize) -> usize
    requires { Held program.now tables.now × (cell < 1024) × (address < 4096) }
    ensures { Leads (words_of program.now 4096) cell address result }
{
    let mut i = cell;
    while (tables[i] as usize) < address {
        i = 1024 + tables[i] as usize;
    }
    i
}

// An address leaves the chain of the cell that its word is kept under.
fn unlink(program: &mut [u8], tables: &mut [u16], cell: usize, address: usize)
    requires { Held program.old tables.old × (cell < 1024) × (address < 4096) × (key_of (at (words_of program.old 4096) address) ≡ cell) }
    ensures { Moved program.old tables.old address 0xFFFF program.new tables.new }
{
    let i = before(program, tables, cell, address);
    tables[i] = tables[1024 + address];
    tables[1024 + address] = keys::NONE;
    lent::pair_set(program, address * 2, NOP);
}

// NOP takes the place of the word at an address.
fn take_out(program: &mut [u8], tables: &mut [u16], address: usize)
    requires { Held program.old tables.old × (address < 4096) }
    ensures { Moved program.old tables.old address 0xFFFF program.new tables.new }
{
    let cell = keys::key(fresh::word_at(program, address));
    if cell == keys::NONE {
        lent::pair_set(program, address * 2, NOP);
        return;
    }
    unlink(program, tables, cell as usize, address);
}

// An address joins the chain of the cell that its new word is kept under.
fn link(program: &mut [u8], tables: &mut [u16], cell: usize, address: usize, word: u16)
    requires { Held program.old tables.old × (cell < 1024) × (address < 4096) × (key_of (at (words_of program.old 4096) address) ≡ none) × (key_of word ≡ cell) }
    ensures { Moved program.old tables.old address word program.new tables.new }
{
    let i = before(program, tables, cell, address);
    tables[1024 + address] = tables[i];
    tables[i] = address as u16;
    lent::pair_set(program, address * 2, word);
}

// A word takes the place of one that is kept under no cell.
fn put_in(program: &mut [u8], tables: &mut [u16], address: usize, word: u16)
    requires { Held program.old tables.old × (address < 4096) × (key_of (at (words_of program.old 4096) address) ≡ none) }
    ensures { Moved program.old tables.old address word program.new tables.new }
{
    let cell = keys::key(word);
    if cell == keys::NONE {
        lent::pair_set(program, address * 2, word);
        return;
    }
    link(program, tables, cell as usize, address, word);
}

// A word takes the place of another.
pub fn change(program: &mut [u8], tables: &mut [u16], address: usize, word: u16)
    requires { Held program.old tables.old × (address < 4096) }
    ensures { Moved program.old tables.old address word program.new tables.new }
{
    take_out(program, tables, address);
    put_in(program, tables, address, word);
}
