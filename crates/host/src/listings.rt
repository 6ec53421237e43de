// listing_write and listing_read, for C.
ghost use Rattle.std.specs.Prelude.{◌≡◌};
ghost use Rattle.refusal.specs.Told.{said, counted};
ghost use Rattle.wire.specs.Words.{words_of};
ghost use Rattle.paper.specs.Listing.{write_of, written_told};
ghost use Rattle.host.specs.Told.{filled, room_told};
ghost use Rattle.host.specs.Listings.{bytes_of, stored, stored_told, host_listing_write_of, host_listing_read_of};

use crate::told;
use refusal::Refusal;
use wire::words;

// The listing of a program's words.
fn listed(program: &[u8], text: &mut [u8], count: &mut u64, value: &mut u64) -> u32
    ensures { filled (counted (said result value.new) count.new) text.new ≡ room_told written_told (write_of (words_of program.now 4096) text.old) count.old }
{
    let w = words::words_of(program);
    let a = paper::write(&w, text);
    told::amount(a, count, value)
}

// A program's listing, in the lent room.
#[tactic(auto, unfolding(crate::specs::Listings::host_listing_write_of, crate::specs::Told::room_told, paper::specs::Listing::written_told))]
pub fn galhoveia_listing_write(
    program: &[u8],
    text: &mut [u8],
    count: &mut u64,
    value: &mut u64,
) -> u32
    ensures { filled (counted (said result value.new) count.new) text.new ≡ host_listing_write_of program.now text.old count.old }
{
    if program.len() != words::PROGRAM {
        return told::refused(Refusal::ProgramLength(program.len() as u64), value);
    }
    listed(program, text, count, value)
}

// A program's words as bytes, in the room.
fn store(ws: &[u16], room: &mut [u8], value: &mut u64) -> u32
    ensures { stored (said result value.new) room.new ≡ stored_told (bytes_of ws.now room.old) }
{
    if room.len() < words::PROGRAM {
        return told::refused(Refusal::Room(words::PROGRAM as u64), value);
    }
    words::put_words(ws, 4096, room);
    told::done(value)
}

// The program of a listing, in the lent room.
pub fn galhoveia_listing_read(text: &[u8], program: &mut [u8], value: &mut u64) -> u32
    ensures { stored (said result value.new) program.new ≡ host_listing_read_of text.now program.old }
{
    let mut found = [0u16; 4096];
    let a = paper::take(text, &mut found);
    match a {
        Ok(()) => store(&found, program, value),
        Err(why) => told::refused(why, value),
    }
}
