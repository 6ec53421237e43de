// Why a call is turned down: one variant for each line of the table of 01, "What comes back when a call is turned down", and for 02's, with its number and what goes with it.
#![tactic(auto)]

ghost use Rattle.std.specs.Prelude.{◌≡◌};
ghost use Rattle.refusal.specs.Refusal.{number_of, value_of};

#[derive(Clone, Copy)]
pub enum Refusal {
    // the length
    ProgramLength(u64),
    // the length
    MemoryLength(u64),
    // the lowest address
    CellRule(u64),
    Record,
    // the first place
    UnknownEvent(u64),
    // its address, or the word where a word is read
    UnlistedWord(u64),
    // the room needed
    Room(u64),
    // the address
    NotAskable(u64),
    // 0 high, 1 low
    Digit(u64),
    Contents,
    // the body kind
    Body(u64),
    // what was given
    Options(u64),
    Field,
    // the first bad line
    Listing(u64),
    // the byte's place
    Car(u64),
    // the byte's place
    CutEntry(u64),
    Tables,
}

// The table's number; functions, not methods, since callers and pages name them `refusal::number` and `refusal::value`.
pub fn number(why: Refusal) -> u32
    ensures { result ≡ number_of why }
{
    match why {
        Refusal::ProgramLength(_) => 1,
        Refusal::MemoryLength(_) => 2,
        Refusal::CellRule(_) => 3,
        Refusal::Record => 4,
        Refusal::UnknownEvent(_) => 5,
        Refusal::UnlistedWord(_) => 6,
        Refusal::Room(_) => 7,
        Refusal::NotAskable(_) => 8,
        Refusal::Digit(_) => 9,
        Refusal::Contents => 10,
        Refusal::Body(_) => 11,
        Refusal::Options(_) => 12,
        Refusal::Field => 13,
        Refusal::Listing(_) => 26,
        Refusal::Car(_) => 27,
        Refusal::CutEntry(_) => 28,
        Refusal::Tables => 29,
    }
}

// What comes with the number; 0 where the table says 0.
pub fn value(why: Refusal) -> u64
    ensures { result ≡ value_of why }
{
    match why {
        Refusal::Record | Refusal::Contents | Refusal::Field | Refusal::Tables => 0,
        Refusal::ProgramLength(value)
        | Refusal::MemoryLength(value)
        | Refusal::CellRule(value)
        | Refusal::UnknownEvent(value)
        | Refusal::UnlistedWord(value)
        | Refusal::Room(value)
        | Refusal::NotAskable(value)
        | Refusal::Digit(value)
        | Refusal::Body(value)
        | Refusal::Options(value)
        | Refusal::Listing(value)
        | Refusal::Car(value)
        | Refusal::CutEntry(value) => value,
    }
}
