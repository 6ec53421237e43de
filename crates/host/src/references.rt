// xref_build, xref_list and xref_replace, for C.
ghost use Rattle.std.specs.Prelude.{◌≡◌};
ghost use Rattle.refusal.specs.Told.{said, counted};
ghost use Rattle.writers.specs.Answer.{listed_told};
ghost use Rattle.host.specs.Told.{filled};
ghost use Rattle.host.specs.Listings.{stored};
ghost use Rattle.host.specs.References.{kept, host_build_of, host_xref_list_of, host_replace_of};

use crate::told;
use xref::calls;

// The tables of a program, in the lent numbers.
pub fn galhoveia_xref_build(program: &[u8], tables: &mut [u16], value: &mut u64) -> u32
    ensures { stored (said result value.new) tables.new ≡ host_build_of program.now tables.old }
{
    let a = calls::build(program, tables);
    told::outcome(a, value)
}

// The writers of a cell by the tables, two bytes each, in the lent room.
pub fn galhoveia_xref_list(
    program: &[u8],
    tables: &[u16],
    cell: u32,
    room: &mut [u8],
    count: &mut u64,
    value: &mut u64,
) -> u32
    ensures { filled (counted (said result value.new) count.new) room.new ≡ host_xref_list_of program.now tables.now cell room.old count.old }
{
    let a = calls::list(program, tables, cell, room);
    told::amount(a, count, value)
}

// A word of the lent program replaced, with its tables.
pub fn galhoveia_xref_replace(
    program: &mut [u8],
    tables: &mut [u16],
    address: u32,
    word: u16,
    value: &mut u64,
) -> u32
    ensures { kept (said result value.new) program.new tables.new ≡ host_replace_of program.old tables.old address word }
{
    let a = calls::replace(program, tables, address, word);
    told::outcome(a, value)
}
