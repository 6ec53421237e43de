// The two tone channels: one sound clock of each.
#![tactic(auto)]

ghost use Rattle.std.specs.Prelude.{◌≡◌};
ghost use Rattle.sh_tones.specs.Tone.{value_of, length_of, turned_of, fallen_of, sounded_by, sounded_of, channel1_of, channel2_of, channel_fits, silent_of, channels_fit};

// What a channel keeps between two sound clocks: its remaining count, and its output, a byte and no bool, since a record that is read may
// hold any, and `fit` judges it as it stands.
#[derive(Clone, Copy)]
pub struct Channel {
    pub count: u16,
    pub output: u8,
}

// Both channels, as the record keeps them.
#[derive(Clone, Copy)]
pub struct Channels {
    pub first: Channel,
    pub second: Channel,
}

// A channel's value of seven bits, by its two nibbles.
#[tactic(auto, unfolding(crate::specs::Tone::value_of))]
fn value(low: u8, high: u8) -> u8
    ensures { result ≡ value_of low high }
{
    16 * (high % 8) + low % 16
}

// What a count of 0 is set to: N, or 8N with the octave bit.
#[tactic(auto, unfolding(crate::specs::Tone::length_of))]
fn length(v: u8, octave: u8) -> u16
    ensures { result ≡ length_of v octave }
{
    let n = tones::divider(v) as u16;
    if octave == 1 { 8 * n } else { n }
}

// An output that turns over.
#[tactic(auto, unfolding(crate::specs::Tone::turned_of))]
fn turned(output: u8) -> u8
    ensures { result ≡ turned_of output }
{
    u8::from(output == 0)
}

// A count that falls by one; at 0 the output turns over.
#[tactic(auto, unfolding(crate::specs::Tone::fallen_of))]
fn fallen(count: u16, output: u8) -> Channel
    ensures { result ≡ fallen_of count output }
{
    if count < 2 {
        Channel {
            count: 0,
            output: turned(output),
        }
    } else {
        Channel {
            count: count - 1,
            output,
        }
    }
}

// N is looked up only where a count of 0 is set; any other count returns by itself, as most do: one call for both takes 6 instructions more.
#[tactic(auto, unfolding(crate::specs::Tone::sounded_by, crate::specs::Tone::holds_of, crate::specs::Tone::clocked_of))]
fn sounded_by(c: Channel, enabled: bool, v: u8, octave: u8) -> Channel
    ensures { result ≡ sounded_by c enabled v octave }
{
    if !enabled || v == 0 {
        return c;
    }
    if c.count == 0 {
        return fallen(length(v, octave), c.output);
    }
    fallen(c.count, c.output)
}

// One sound clock of a channel, by whether it is enabled and by the two nibbles of its value and octave bit.
#[tactic(auto, unfolding(crate::specs::Tone::sounded_of, crate::specs::Tone::octave_of))]
pub fn sounded(c: Channel, enabled: bool, low: u8, high: u8) -> Channel
    ensures { result ≡ sounded_of c enabled low high }
{
    sounded_by(c, enabled, value(low, high), high / 8 % 2)
}

// One sound clock of channel 1, by $377, $371 and $372.
#[tactic(auto, unfolding(crate::specs::Tone::channel1_of))]
pub fn channel1(c: Channel, enables: u8, low: u8, high: u8) -> Channel
    ensures { result ≡ channel1_of c enables low high }
{
    sounded(c, enables % 2 == 1, low, high)
}

// One sound clock of channel 2, by $370, $377, $375 and $376.
#[tactic(auto, unfolding(crate::specs::Tone::channel2_of))]
pub fn channel2(c: Channel, modes: u8, enables: u8, low: u8, high: u8) -> Channel
    ensures { result ≡ channel2_of c modes enables low high }
{
    sounded(c, enables / 2 % 2 == 1 && modes % 4 == 0, low, high)
}

// Both channels after a reset.
#[tactic(auto, unfolding(crate::specs::Tone::silent_of))]
pub fn silent() -> Channels
    ensures { result ≡ silent_of }
{
    let still = Channel {
        count: 0,
        output: 0,
    };
    Channels {
        first: still,
        second: still,
    }
}

// Whether a record may hold one channel so.
#[tactic(auto, unfolding(crate::specs::Tone::channel_fits))]
fn fits(c: Channel) -> bool
    ensures { result ≡ channel_fits c }
{
    c.count <= 1015 && c.output <= 1
}

// Whether a record may hold the channels so: each with a count of 1,015 at most, and an output of 0 or 1.
#[tactic(auto, unfolding(crate::specs::Tone::channels_fit))]
pub fn fit(c: Channels) -> bool
    ensures { result ≡ channels_fit c }
{
    fits(c.first) && fits(c.second)
}
