// Which words are listed (01, "Instruction words"): those that are read as an instruction are those that 01 names.
#![tactic(auto)]

ghost use Rattle.std.specs.Prelude.{◌≡◌};
ghost use Rattle.listing.specs.Ranges.{named_by01};

// Whether a word is listed: what is read as an instruction is what the ranges of 01 name.
#[tactic(auto, using(crate::proofs::Sweep::named_ok))]
pub fn listed(word: u16) -> bool
    ensures { result ≡ named_by01 word }
{
    word::decode(word).is_ok()
}
