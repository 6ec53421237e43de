// Programs and scripts drawn by a rule from a seed, so that a short line stands for a long case.

// What stands for a word that may be unlisted: RTNI, HALT, STOP, SHR, TJMP, NOP, DAA, DAS, RTNW, LDI to the enable flags, ROM data, Timer0, base timer and watchdog, and STA through the pointer.
const RARE: [u16; 16] = [
    0xD400, 0xD800, 0xDC00, 0xF000, 0xF7FF, 0xFFFF, 0xCB20, 0xCD21, 0xD05A, 0x7F80, 0x7A00, 0x7C1A,
    0x7F02, 0x7D03, 0x7C9E, 0x3C0F,
];

// The number after another.
pub fn next(x: u32) -> u32 {
    x.wrapping_mul(1664525).wrapping_add(1013904223)
}

// A listed word.
pub fn word(x: u32) -> u16 {
    let w = (x / 0x10000) as u16;
    if w < 0xC800 || w / 0x1000 == 0xE {
        return w;
    }
    RARE[(w % 16) as usize]
}

// A known event; about half are cycles.
pub fn event(x: u32) -> u8 {
    match (x / 0x10000 % 128) as u8 {
        e @ (0x00..=0x03 | 0x10..=0x4F) => e,
        _ => 0,
    }
}
