// picture, for C.
ghost use Rattle.std.specs.Prelude.{◌≡◌};
ghost use Rattle.picture.specs.Picture.{picture_of, drawn_told};
ghost use Rattle.sh_state.specs.State.{state};
ghost use Rattle.wire.specs.Record.{record_of};
ghost use Rattle.refusal.specs.Told.{said, counted};
ghost use Rattle.host.specs.Told.{filled, room_told};
ghost use Rattle.host.specs.Picture.{host_picture_of};

use crate::told;
use wire::record;

fn drawn(
    memory: &[u8],
    bytes: &[u8],
    wiring: &[u8],
    room: &mut [u8],
    count: &mut u64,
    value: &mut u64,
) -> u32
    ensures { filled (counted (said result value.new) count.new) room.new ≡ room_told drawn_told (picture_of (state (record_of bytes.now) memory.now) wiring.now room.old) count.old }
{
    let m = record::record_of(bytes);
    let a = picture::picture(m, memory, wiring, room);
    told::amount(a, count, value)
}

// The picture that the machine shows, one byte for each element of the wiring, in the lent room.
#[tactic(auto, unfolding(crate::specs::Picture::host_picture_of))]
pub fn galhoveia_picture(
    memory: &[u8],
    bytes: &[u8],
    wiring: &[u8],
    room: &mut [u8],
    count: &mut u64,
    value: &mut u64,
) -> u32
    ensures { filled (counted (said result value.new) count.new) room.new ≡ host_picture_of memory.now bytes.now wiring.now room.old count.old }
{
    if bytes.len() != record::BYTES {
        return told::short(memory, value);
    }
    drawn(memory, bytes, wiring, room, count, value)
}
