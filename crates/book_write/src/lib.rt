// A panel book as it is written: three bodies behind their contents.
#![tactic(auto)]

ghost use Rattle.std.specs.Prelude.{◌≡◌};
ghost use Rattle.lent.specs.Outcome.{outcome};
ghost use Rattle.book_write.specs.Writing.{contents_of, book_of, bodies_judged, Lengths, bodies_put, put_of, write_of};

use body::Kind;
use refusal::Refusal;

// The contents for bodies of these lengths.
#[tactic(auto, unfolding(crate::specs::Writing::contents_of))]
fn contents(program: u16, wiring: u16, level: u16) -> [u8; book::CONTENTS]
    ensures { result ≡ contents_of program wiring level }
{
    let p = book::CONTENTS;
    let w = p + program as usize;
    let v = w + wiring as usize;
    [
        book::KINDS,
        Kind::Program as u8,
        (p / 256 % 256) as u8,
        (p % 256) as u8,
        (program / 256 % 256) as u8,
        (program % 256) as u8,
        Kind::Wiring as u8,
        (w / 256 % 256) as u8,
        (w % 256) as u8,
        (wiring / 256 % 256) as u8,
        (wiring % 256) as u8,
        Kind::Level as u8,
        (v / 256 % 256) as u8,
        (v % 256) as u8,
        (level / 256 % 256) as u8,
        (level % 256) as u8,
    ]
}

// What three bodies are turned down for: their lengths before their values.
#[tactic(auto, unfolding(crate::specs::Writing::bodies_judged, sh_rules::specs::Judge::first_of))]
fn bodies(program: &[u8], wiring: &[u8], level: &[u8]) -> Result<(), Refusal>
    ensures { result ≡ bodies_judged program.now wiring.now level.now }
{
    let fit = Kind::Program.takes(program.len())
        && Kind::Wiring.takes(wiring.len())
        && Kind::Level.takes(level.len());
    body::told(fit, Refusal::Contents)?;
    body::values(wiring, level)
}

// The three bodies, one behind the other, behind the contents.
#[tactic(auto, unfolding(crate::specs::Writing::bodies_put))]
fn put_bodies(program: &[u8], wiring: &[u8], level: &[u8], room: &mut [u8])
    requires { Lengths program.now wiring.now level.now }
    ensures { room.new ≡ bodies_put program.now wiring.now level.now room.old }
{
    let w = book::CONTENTS + program.len();
    let v = w + wiring.len();
    lent::paste(room, book::CONTENTS, program);
    lent::paste(room, w, wiring);
    lent::paste(room, v, level);
}

// The book of three bodies, where the room holds it.
#[tactic(auto, using(crate::proofs::Puts::book_length, crate::proofs::Puts::book_filled), unfolding(crate::specs::Writing::put_of))]
fn put(program: &[u8], wiring: &[u8], level: &[u8], room: &mut [u8]) -> Result<usize, Refusal>
    requires { Lengths program.now wiring.now level.now }
    ensures { outcome result room.new ≡ put_of (book_of program.now wiring.now level.now) room.old }
{
    let n = book::CONTENTS + program.len() + wiring.len() + level.len();
    if room.len() < n {
        return Err(Refusal::Room(n as u64));
    }
    let head = contents(
        program.len() as u16,
        wiring.len() as u16,
        level.len() as u16,
    );
    lent::paste(room, 0, &head);
    put_bodies(program, wiring, level, room);
    Ok(n)
}

// The book of three bodies at the front of a room, or why it is not written; what lies beyond it stays.
#[tactic(auto, using(crate::proofs::Fine::fine_lengths), unfolding(crate::specs::Writing::write_of, crate::specs::Writing::written_of))]
pub fn write(program: &[u8], wiring: &[u8], level: &[u8], room: &mut [u8]) -> Result<usize, Refusal>
    ensures { outcome result room.new ≡ write_of program.now wiring.now level.now room.old }
{
    bodies(program, wiring, level)?;
    put(program, wiring, level, room)
}
