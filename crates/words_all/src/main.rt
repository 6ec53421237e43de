// Reads and writes back each of the 65,536 words, one line for a word: the word, the mnemonic of section 17 and its fields, and the word that encoding gives back; or the refusal's number and value.
#![tactic(auto)]

use refusal::Refusal;
use std::io::{BufWriter, Write};
use std::{fmt, io};
use word::{Condition, ImmediateOperation, Instruction, Operation};

fn main(rt: HostRuntime) -> io::Result<()> {
    let mut out = BufWriter::new(rt.alloc(), io::writer(&rt))?;
    for word in 0..=u16::MAX {
        show(&mut out, word)?;
    }
    out.flush()
}

// Writes the line of a word.
fn show(out: &mut impl Write, word: u16) -> io::Result<()> {
    out.write_all(&in_four(word))?;
    match word::decode(word) {
        Ok(i) => {
            write!(out, " {} ", Listed(i))?;
            back(out, i)
        }
        Err(why) => writeln!(out, " unlisted {}", Refused(why)),
    }
}

// What an instruction is written as.
fn back(out: &mut impl Write, i: Instruction) -> io::Result<()> {
    match word::encode(i) {
        Ok(word) => {
            let [a, b, c, d] = in_four(word);
            out.write_all(&[a, b, c, d, b'\n'])
        }
        Err(why) => writeln!(out, "{}", Refused(why)),
    }
}

// A number in four hexadecimal digits. By the library's formats of numbers the program takes 1.6 times as long.
fn in_four(n: u16) -> [u8; 4] {
    [digit(n / 4096), digit(n / 256), digit(n / 16), digit(n)]
}

// The last hexadecimal digit of a number.
fn digit(n: u16) -> u8 {
    b"0123456789ABCDEF"[(n % 16) as usize]
}

// A number's last hexadecimal digits, so many of the four.
#[derive(Clone, Copy)]
struct Digits {
    number: u16,
    many: usize,
}

impl fmt::Display for Digits {
    fn fmt<W: fmt::Write>(&self, f: &mut fmt::Formatter<W>) -> fmt::Result {
        let last = &in_four(self.number)[4usize.saturating_sub(self.many)..];
        f.write_str(str::from_utf8(last).unwrap_or(""))
    }
}

fn in_digits(number: u16, many: usize) -> Digits {
    Digits { number, many }
}

// A refusal's number and value.
#[derive(Clone, Copy)]
struct Refused(Refusal);

impl fmt::Display for Refused {
    fn fmt<W: fmt::Write>(&self, f: &mut fmt::Formatter<W>) -> fmt::Result {
        write!(
            f,
            "{} {:04X}",
            refusal::number(self.0),
            refusal::value(self.0)
        )
    }
}

// The mnemonic and the fields of an instruction: three digits for an address or a target, two for X and one for four bits.
#[derive(Clone, Copy)]
struct Listed(Instruction);

impl fmt::Display for Listed {
    fn fmt<W: fmt::Write>(&self, f: &mut fmt::Formatter<W>) -> fmt::Result {
        match self.0 {
            Instruction::Accumulator(operation, address) => write!(
                f,
                "{} {}",
                name(operation),
                in_digits(address, 3)
            ),
            Instruction::Memory(operation, address) => write!(
                f,
                "{}M {}",
                name(operation),
                in_digits(address, 3)
            ),
            Instruction::Lda(address) => write!(f, "LDA {}", in_digits(address, 3)),
            Instruction::Sta(address) => write!(f, "STA {}", in_digits(address, 3)),
            Instruction::Immediate(operation, x, immediate) => write!(
                f,
                "{} {} {}",
                immediate_name(operation),
                in_digits(x, 2),
                in_digits(immediate as u16, 1)
            ),
            Instruction::Ldi(x, immediate) => write!(
                f,
                "LDI {} {}",
                in_digits(x, 2),
                in_digits(immediate as u16, 1)
            ),
            Instruction::Branch(condition, target) => write!(
                f,
                "{} {}",
                condition_name(condition),
                in_digits(target, 3)
            ),
            Instruction::Call(target) => write!(f, "CALL {}", in_digits(target, 3)),
            Instruction::Daa(x) => write!(f, "DAA {}", in_digits(x, 2)),
            Instruction::Das(x) => write!(f, "DAS {}", in_digits(x, 2)),
            Instruction::Rtnw(high, low) => write!(
                f,
                "RTNW {} {}",
                in_digits(high as u16, 1),
                in_digits(low as u16, 1)
            ),
            Instruction::Rtni => f.write_str("RTNI"),
            Instruction::Halt => f.write_str("HALT"),
            Instruction::Stop => f.write_str("STOP"),
            Instruction::Jmp(target) => write!(f, "JMP {}", in_digits(target, 3)),
            Instruction::Shr => f.write_str("SHR"),
            Instruction::Tjmp => f.write_str("TJMP"),
            Instruction::Nop => f.write_str("NOP"),
        }
    }
}

fn name(operation: Operation) -> &'static str {
    match operation {
        Operation::Adc => "ADC",
        Operation::Add => "ADD",
        Operation::Sbc => "SBC",
        Operation::Sub => "SUB",
        Operation::Eor => "EOR",
        Operation::Or => "OR",
        Operation::And => "AND",
    }
}

fn immediate_name(operation: ImmediateOperation) -> &'static str {
    match operation {
        ImmediateOperation::Adi => "ADI",
        ImmediateOperation::Adim => "ADIM",
        ImmediateOperation::Sbi => "SBI",
        ImmediateOperation::Sbim => "SBIM",
        ImmediateOperation::Eorim => "EORIM",
        ImmediateOperation::Orim => "ORIM",
        ImmediateOperation::Andim => "ANDIM",
    }
}

fn condition_name(condition: Condition) -> &'static str {
    match condition {
        Condition::Bnz => "BNZ",
        Condition::Bnc => "BNC",
        Condition::Baz => "BAZ",
        Condition::Bc => "BC",
        Condition::Ba0 => "BA0",
        Condition::Ba1 => "BA1",
        Condition::Ba2 => "BA2",
        Condition::Ba3 => "BA3",
    }
}
