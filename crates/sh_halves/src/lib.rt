// Timer0's counter read in two halves: a read of $005 freezes the low nibble for the next read of $004.
#![tactic(auto)]

ghost use Rattle.std.specs.Prelude.{◌≡◌};
ghost use Rattle.sh_halves.specs.Halves.{released_of, frozen_of, low_of, frozen_fits};

// The low nibble that a read of $005 froze, and the mark, 1, that there is one; both 0 where there is none. Two bytes and no Option: a
// record that is read may hold any two, and `fits` judges them as they stand.
#[derive(Clone, Copy)]
pub struct Frozen {
    pub nibble: u8,
    pub mark: u8,
}

// Nothing frozen.
#[tactic(auto, unfolding(crate::specs::Halves::released_of))]
pub fn released() -> Frozen
    ensures { result ≡ released_of }
{
    Frozen { nibble: 0, mark: 0 }
}

// The counter's low nibble, frozen as it stands.
#[tactic(auto, unfolding(crate::specs::Halves::frozen_of))]
pub fn freeze(counter: u8) -> Frozen
    ensures { result ≡ frozen_of counter }
{
    Frozen {
        nibble: counter % 16,
        mark: 1,
    }
}

// What $004 reads as: the frozen nibble where there is one, else that of the counter.
#[tactic(auto, unfolding(crate::specs::Halves::low_of))]
pub fn low(f: Frozen, counter: u8) -> u8
    ensures { result ≡ low_of f counter }
{
    if f.mark == 1 { f.nibble } else { counter % 16 }
}

// Whether a record may hold it so: a nibble with the mark 1, or 0 and 0.
#[tactic(auto, unfolding(crate::specs::Halves::frozen_fits))]
pub fn fits(f: Frozen) -> bool
    ensures { result ≡ frozen_fits f }
{
    match f.mark {
        0 => f.nibble == 0,
        1 => f.nibble < 16,
        _ => false,
    }
}
