// What a line of a case says: its letter, and up to two hexadecimal numbers. What stands behind a semicolon is for people.
ghost use Rattle.std.specs.Prelude.{◌≤◌};

#[derive(Clone, Copy)]
pub enum Order {
    // N options: a fresh machine
    Fresh(u32),
    // W address word: a word of the program
    Word(usize, u16),
    // M address byte: a cell
    Cell(usize, u8),
    // R field number: a field of the record
    Field(usize, u16),
    // L words cells: how many are lent
    Lend(usize, usize),
    // S count event: events at the script's end
    Events(usize, u8),
    // P seed: a program that is drawn
    Program(u32),
    // X count seed: events that are drawn, at the script's end
    Drawn(usize, u32),
    // G stop: the script is stepped and run
    Go(u32),
}

// A line from its letter on: bytes of 0 before it are none.
pub fn begun(line: &[u8]) -> &[u8] {
    match line.iter().position(|byte| *byte != 0) {
        Some(n) => &line[n..],
        None => &line[..0],
    }
}

// What a line says, if it says anything: by its letter and its last two numbers.
pub fn read(line: &[u8]) -> Option<Order> {
    let (letter, rest) = line.split_first()?;
    let mut first = 0;
    let mut second = 0;
    for word in said(rest).split(|byte| *byte == b' ') {
        if !word.is_empty() {
            first = second;
            second = number(word);
        }
    }
    let place = first as usize;
    let word = (second % 0x10000) as u16;
    let byte = (second % 0x100) as u8;
    match letter {
        b'N' => Some(Order::Fresh(second)),
        b'W' => Some(Order::Word(place, word)),
        b'M' => Some(Order::Cell(place, byte)),
        b'R' => Some(Order::Field(place, word)),
        b'L' => Some(Order::Lend(place, second as usize)),
        b'S' => Some(Order::Events(place, byte)),
        b'P' => Some(Order::Program(second)),
        b'X' => Some(Order::Drawn(place, second)),
        b'G' => Some(Order::Go(second)),
        _ => None,
    }
}

// What stands before a semicolon.
fn said(line: &[u8]) -> &[u8] {
    match line.iter().position(|byte| *byte == b';') {
        Some(n) => &line[..n],
        None => line,
    }
}

// The number that hexadecimal digits say, by the last five of them; any other byte counts as some digit.
fn number(word: &[u8]) -> u32 {
    word.iter()
        .fold(0, |n: u32, byte| n % 0x10000 * 16 + digit(*byte))
}

fn digit(byte: u8) -> u32
    ensures { result ≤ 24 }
{
    if byte < b'A' {
        (byte % 16) as u32
    } else {
        (byte % 16 + 9) as u32
    }
}
