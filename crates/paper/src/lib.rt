// A program on paper: 4,096 lines of text, and the same text back into 4,096 words (02, P3).
#![tactic(auto)]

ghost use Rattle.std.specs.Prelude.{true, false, ◌≡◌, ◌≤◌, length, MatchResult};
ghost use Rattle.lent.specs.Lent.{over};
ghost use Rattle.lent.specs.Outcome.{outcome};
ghost use Rattle.text.specs.Text.{laid_of};
ghost use Rattle.paper.specs.Listing.{listing_of, good_lines, whole, write_of, read_of};
ghost use Rattle.refusal.specs.declared.Refusal.TheVariants.{Listing};

use refusal::Refusal;

// The good lines that a text begins with, and where they end.
#[derive(Clone, Copy)]
struct Front {
    lines: usize,
    end: usize,
}

const WORDS: usize = 4096;

// How many bytes the listing has.
#[tactic(auto, unfolding(crate::specs::Listing::listing_of))]
fn size(program: &[u16]) -> usize
    requires { length program.now ≡ 4096 }
    ensures { result ≡ length (listing_of program.now) }
{
    // A loop and not `.sum()`, which asks a proof that every run of the chain adds up within its type.
    let mut n = 0;
    for w in program {
        n += line::length(*w);
    }
    n
}

// The listing, at the front of a room.
#[tactic(auto, unfolding(crate::specs::Listing::listing_of))]
fn fill(program: &[u16], room: &mut [u8])
    requires { length program.now ≡ 4096 }
    ensures { room.new ≡ laid_of room.old 0 (listing_of program.now) }
{
    let mut p = 0;
    for (a, w) in program.iter().enumerate() {
        p = line::put(room, p, a as u16, *w);
    }
}

// The listing of a program at the front of a room, or why it is not written; what lies beyond it stays.
pub fn write(program: &[u16], room: &mut [u8]) -> Result<usize, Refusal>
    ensures { outcome result room.new ≡ write_of program.now room.old }
{
    if program.len() != WORDS {
        return Err(Refusal::ProgramLength(program.len() as u64));
    }
    let n = size(program);
    if room.len() < n {
        return Err(Refusal::Room(n as u64));
    }
    fill(program, room);
    Ok(n)
}

// The good lines that a text begins with: how many, where they end, and their words.
#[tactic(auto, unfolding(crate::specs::Listing::listing_of, crate::specs::Listing::good_lines))]
fn good_lines(text: &[u8], words: &mut [u16]) -> Front
    requires { length words.old ≡ 4096 }
    ensures { ((result.lines ≡ length (good_lines text.now)) × (result.end ≡ length (listing_of (good_lines text.now)))) × (words.new ≡ laid_of words.old 0 (good_lines text.now)) }
{
    let mut p = 0;
    for (a, word) in words.iter_mut().enumerate() {
        let Some(w) = line::read(text, p, a as u16) else {
            return Front { lines: a, end: p };
        };
        *word = w;
        p += line::length(w);
    }
    Front {
        lines: words.len(),
        end: p,
    }
}

// Words copied to the front of a room.
fn copy(words: &[u16], room: &mut [u16])
    requires { length words.now ≤ length room.old }
    ensures { room.new ≡ over words.now room.old }
{
    room[..words.len()].copy_from_slice(words);
}

// The words of a listing in as many words as a program has, or why it is none; then they hold those of its good lines.
pub fn take(text: &[u8], words: &mut [u16]) -> Result<(), Refusal>
    requires { length words.old ≡ 4096 }
    ensures { MatchResult result (λ _. (whole text.now ≡ true) × (words.new ≡ good_lines text.now)) (λ why. (whole text.now ≡ false) × (why ≡ Listing (length (good_lines text.now))) × (words.new ≡ laid_of words.old 0 (good_lines text.now))) }
{
    let f = good_lines(text, words);
    if f.lines != WORDS {
        return Err(Refusal::Listing(f.lines as u64));
    }
    if f.end != text.len() {
        return Err(Refusal::Listing(WORDS as u64));
    }
    Ok(())
}

// The program of a listing at the front of a room, or why it is not read; what lies beyond it stays.
pub fn read(text: &[u8], room: &mut [u16]) -> Result<(), Refusal>
    ensures { outcome result room.new ≡ read_of text.now room.old }
{
    let mut words = [0u16; WORDS];
    take(text, &mut words)?;
    if room.len() < WORDS {
        return Err(Refusal::Room(WORDS as u64));
    }
    copy(&words, room);
    Ok(())
}
