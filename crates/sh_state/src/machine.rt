// The machine's record, by value.
ghost use Rattle.std.specs.Prelude.{◌≡◌};
ghost use Rattle.sh_state.specs.Record.{set_pc, entry_of, push_of, pop_of, newest_of, fresh_of};

use sh_halves::Frozen;
use sh_tones::Channels;

// In the order that copies best: docs/DECISIONS.md, The quick run.
#[derive(Clone, Copy)]
pub struct Machine {
    pub pc: u16,
    // Timer0's
    pub prescaler: u16,
    pub watchdog: u16,
    // what a pending ROM read reads; 0 where none is
    pub address: u16,
    // what a read of $005 left for the next read of $004
    pub frozen: Frozen,
    // CY times 4,096 plus PC, newest first
    pub stack: [u16; Machine::LEVELS],
    pub channels: Channels,
    pub ac: u8,
    pub cy: u8,
    pub load: u8,
    pub counter: u8,
    // 0 running, 1 HALT, 2 STOP; a number and no enum, as `pending` is no Option: a record that is read may hold any byte, and
    // the rules judge it as it stands
    pub mode: u8,
    // 1 while a ROM read waits
    pub pending: u8,
    pub pina: u8,
    pub pinb: u8,
    pub pinc: u8,
    pub pind: u8,
    pub baseprescaler: u8,
    pub basecounter: u8,
    // bit 0 watchdog on, bits 1 and 2 the bonding bits BD0 and BD1
    pub options: u8,
}

impl Machine {
    pub const LEVELS: usize = 8;

    pub const CELLS: usize = 1024;

    pub const WORDS: usize = 4096;

    // The machine after power-on and the pin reset, with the options of its board.
    #[tactic(auto, unfolding(crate::specs::Record::fresh_of))]
    pub fn fresh(options: u8) -> Self
        ensures { result ≡ fresh_of options }
    {
        Self {
            pc: 0,
            ac: 0,
            cy: 0,
            mode: 0,
            stack: [0; Machine::LEVELS],
            prescaler: 0,
            counter: 0,
            load: 0,
            baseprescaler: 0,
            basecounter: 0,
            watchdog: 4096,
            pina: 0,
            pinb: 0,
            pinc: 0,
            pind: 0,
            options,
            pending: 0,
            address: 0,
            channels: sh_tones::silent(),
            frozen: sh_halves::released(),
        }
    }

    // The machine with an entry pushed: the oldest of eight drops out.
    #[tactic(auto, unfolding(crate::specs::Record::push_of, crate::specs::Record::set_stack))]
    pub fn push(mut self, v: u16) -> Machine
        ensures { result ≡ push_of self v }
    {
        let s = self.stack;
        self.stack = [v, s[0], s[1], s[2], s[3], s[4], s[5], s[6]];
        self
    }

    // The machine with the newest entry taken: 0 enters at the bottom.
    #[tactic(auto, unfolding(crate::specs::Record::pop_of, crate::specs::Record::set_stack))]
    pub fn pop(mut self) -> Machine
        ensures { result ≡ pop_of self }
    {
        let s = self.stack;
        self.stack = [s[1], s[2], s[3], s[4], s[5], s[6], s[7], 0];
        self
    }

    // The newest entry.
    #[tactic(auto, unfolding(crate::specs::Record::newest_of))]
    pub fn newest(self) -> u16
        ensures { result ≡ newest_of self }
    {
        self.stack[0]
    }
}

// A stack entry: CY times 4,096 plus PC.
#[tactic(auto, unfolding(crate::specs::Record::entry_of))]
pub fn entry(cy: u8, pc: u16) -> u16
    ensures { result ≡ entry_of cy pc }
{
    (cy % 2) as u16 * 4096 + pc % 4096
}

// The machine with its counter at an address.
#[tactic(auto, unfolding(crate::specs::Record::set_pc))]
pub fn with_pc(mut m: Machine, pc: u16) -> Machine
    ensures { result ≡ set_pc m pc }
{
    m.pc = pc;
    m
}
