// A program as a kind 1 body, and addresses, two bytes each.
ghost use Rattle.std.specs.Prelude.{◌≡◌, length, set};
ghost use Rattle.lent.specs.Lent.{at, pasted_of};
ghost use Rattle.wire.specs.Words.{words_of, words_at_of, pairs_of};

// A program as bytes.
pub const PROGRAM: usize = 8192;

// The program's words out of its body; what is missing reads as 0.
pub fn words_of(body: &[u8]) -> [u16; 4096]
    ensures { result ≡ words_of body.now 4096 }
{
    let mut w = [0u16; 4096];
    for i in 0..4096usize {
        w[i] = lent::pair_at(body, i * 2);
    }
    w
}

// The body's word at an address stored there; past the program nothing happens. With `get_mut` two goals stayed open.
fn put_word(body: &[u8], a: u16, w: &mut [u16])
    requires { length w.old ≡ 4096 }
    ensures { w.new ≡ set w.old a (at (words_of body.now 4096) a) }
{
    let k = a as usize;
    if k < w.len() {
        w[k] = lent::pair_at(body, k * 2);
    }
}

// A program that has the body's words at two addresses, and 0 elsewhere.
#[tactic(auto, unfolding(crate::specs::Words::words_at_of))]
pub fn words_at(body: &[u8], a: u16, b: u16) -> [u16; 4096]
    ensures { result ≡ words_at_of body.now a b }
{
    let mut w = [0u16; 4096];
    put_word(body, a, &mut w);
    put_word(body, b, &mut w);
    w
}

// The first n numbers of ws at the front of a lent part, two bytes each; nothing happens where they do not fit.
pub fn put_words(ws: &[u16], n: usize, out: &mut [u8])
    ensures { out.new ≡ pasted_of out.old 0 (pairs_of ws.now n) }
{
    if out.len() / 2 < n {
        return;
    }
    for i in 0..n {
        lent::pair_set(out, i * 2, lent::peek(ws, i));
    }
}
