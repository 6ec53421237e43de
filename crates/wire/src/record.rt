// The machine's record as 45 bytes.
ghost use Rattle.std.specs.Prelude.{◌<◌, ◌≡◌};
ghost use Rattle.lent.specs.Lent.{pasted_of};
ghost use Rattle.wire.specs.Record.{bytes_of, channel_at, channels_at, frozen_at, record_of};
ghost use Rattle.wire.specs.Words.{pairs_of};

use crate::words;
use sh_halves::Frozen;
use sh_state::machine::Machine;
use sh_tones::{Channel, Channels};

pub const BYTES: usize = 45;

// A channel: two bytes of its count, and its output.
#[tactic(auto, unfolding(crate::specs::Record::channel_at))]
fn channel_at(s: &[u8], i: usize) -> Channel
    requires { i < 1024 }
    ensures { result ≡ channel_at s.now i }
{
    let count = lent::pair_at(s, i);
    Channel {
        count,
        output: lent::peek(s, i + 2),
    }
}

#[tactic(auto, unfolding(crate::specs::Record::channels_at))]
fn channels_at(s: &[u8]) -> Channels
    ensures { result ≡ channels_at s.now }
{
    Channels {
        first: channel_at(s, 37),
        second: channel_at(s, 40),
    }
}

#[tactic(auto, unfolding(crate::specs::Record::frozen_at))]
fn frozen_at(s: &[u8]) -> Frozen
    ensures { result ≡ frozen_at s.now }
{
    Frozen {
        nibble: lent::peek(s, 43),
        mark: lent::peek(s, 44),
    }
}

// The record that bytes say; what is missing reads as 0.
#[tactic(auto, unfolding(crate::specs::Record::record_of))]
pub fn record_of(s: &[u8]) -> Machine
    ensures { result ≡ record_of s.now }
{
    let s0 = lent::pair_at(s, 5);
    let s1 = lent::pair_at(s, 7);
    let s2 = lent::pair_at(s, 9);
    let s3 = lent::pair_at(s, 11);
    let s4 = lent::pair_at(s, 13);
    let s5 = lent::pair_at(s, 15);
    let s6 = lent::pair_at(s, 17);
    let s7 = lent::pair_at(s, 19);
    let pc = lent::pair_at(s, 0);
    let prescaler = lent::pair_at(s, 21);
    let watchdog = lent::pair_at(s, 27);
    let address = lent::pair_at(s, 35);
    let channels = channels_at(s);
    let frozen = frozen_at(s);
    Machine {
        pc,
        ac: lent::peek(s, 2),
        cy: lent::peek(s, 3),
        mode: lent::peek(s, 4),
        stack: [s0, s1, s2, s3, s4, s5, s6, s7],
        prescaler,
        counter: lent::peek(s, 23),
        load: lent::peek(s, 24),
        baseprescaler: lent::peek(s, 25),
        basecounter: lent::peek(s, 26),
        watchdog,
        pina: lent::peek(s, 29),
        pinb: lent::peek(s, 30),
        pinc: lent::peek(s, 31),
        pind: lent::peek(s, 32),
        options: lent::peek(s, 33),
        pending: lent::peek(s, 34),
        address,
        channels,
        frozen,
    }
}

// The bytes of the stack, two for each entry.
fn stack_bytes(s: [u16; 8]) -> [u8; 16]
    ensures { result ≡ pairs_of s 8 }
{
    let mut b = [0u8; 16];
    words::put_words(&s, 8, &mut b);
    b
}

// The bytes of a record.
#[tactic(auto, unfolding(crate::specs::Record::bytes_of, crate::specs::Words::pairs_of))]
pub fn bytes_of(m: Machine) -> [u8; BYTES]
    ensures { result ≡ bytes_of m }
{
    let levels = m.stack;
    let s = stack_bytes(levels);
    [
        (m.pc / 256 % 256) as u8,
        (m.pc % 256) as u8,
        m.ac,
        m.cy,
        m.mode,
        s[0],
        s[1],
        s[2],
        s[3],
        s[4],
        s[5],
        s[6],
        s[7],
        s[8],
        s[9],
        s[10],
        s[11],
        s[12],
        s[13],
        s[14],
        s[15],
        (m.prescaler / 256 % 256) as u8,
        (m.prescaler % 256) as u8,
        m.counter,
        m.load,
        m.baseprescaler,
        m.basecounter,
        (m.watchdog / 256 % 256) as u8,
        (m.watchdog % 256) as u8,
        m.pina,
        m.pinb,
        m.pinc,
        m.pind,
        m.options,
        m.pending,
        (m.address / 256 % 256) as u8,
        (m.address % 256) as u8,
        (m.channels.first.count / 256 % 256) as u8,
        (m.channels.first.count % 256) as u8,
        m.channels.first.output,
        (m.channels.second.count / 256 % 256) as u8,
        (m.channels.second.count % 256) as u8,
        m.channels.second.output,
        m.frozen.nibble,
        m.frozen.mark,
    ]
}

// The record written where it was lent; nothing happens where 45 bytes do not fit.
pub fn write_record(m: Machine, s: &mut [u8])
    ensures { s.new ≡ pasted_of s.old 0 (bytes_of m) }
{
    let b = bytes_of(m);
    lent::paste(s, 0, &b);
}
