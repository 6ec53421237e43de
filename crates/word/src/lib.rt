// Instruction words (003, section 17; 01, "Instruction words"): which instruction a word is, and which word an instruction is.
#![tactic(auto)]

ghost use Rattle.std.specs.Prelude.{◌≡◌};
ghost use Rattle.word.specs.Word.{decode_of, accumulator_of, transfer_of, control_of, encode_of, word_of, in_range};
ghost use Rattle.word.specs.Codes.{operation_of, immediate_of, condition_of};

use refusal::Refusal;

// Accumulator type, with the memory or without: codes 0-6.
#[derive(Clone, Copy)]
pub enum Operation {
    Adc = 0,
    Add,
    Sbc,
    Sub,
    Eor,
    Or,
    And,
}

// Immediate type: codes 8-14.
#[derive(Clone, Copy)]
pub enum ImmediateOperation {
    Adi = 8,
    Adim,
    Sbi,
    Sbim,
    Eorim,
    Orim,
    Andim,
}

// Branches: codes 16-23.
#[derive(Clone, Copy)]
pub enum Condition {
    Bnz = 16,
    Bnc,
    Baz,
    Bc,
    Ba0,
    Ba1,
    Ba2,
    Ba3,
}

#[derive(Clone, Copy)]
pub enum Instruction {
    // ADC ADD SBC SUB EOR OR AND at an address, bank x 128 + X
    Accumulator(Operation, u16),
    // ADCM ADDM SBCM SUBM EORM ORM ANDM at an address
    Memory(Operation, u16),
    Lda(u16),
    Sta(u16),
    // X, I
    Immediate(ImmediateOperation, u16, u8),
    // X, I
    Ldi(u16, u8),
    // a target in 11 bits
    Branch(Condition, u16),
    Call(u16),
    Daa(u16),
    Das(u16),
    // H, L
    Rtnw(u8, u8),
    Rtni,
    Halt,
    Stop,
    // a target in 12 bits
    Jmp(u16),
    Shr,
    Tjmp,
    Nop,
}

// The instruction of a word; a word that section 17 doesn't list is refused, with the word.
#[tactic(auto, unfolding(crate::specs::Word::decode_of))]
pub fn decode(word: u16) -> Result<Instruction, Refusal>
    ensures { result ≡ decode_of word }
{
    let code = word / 2048;
    match code {
        0..=6 => accumulator(word),
        7 => transfer(word),
        8..=14 => Ok(Instruction::Immediate(
            immediate_of(code),
            word % 128,
            (word / 128 % 16) as u8,
        )),
        15 => Ok(Instruction::Ldi(word % 128, (word / 128 % 16) as u8)),
        16..=23 => Ok(Instruction::Branch(condition_of(code), word % 2048)),
        24 => Ok(Instruction::Call(word % 2048)),
        28 | 29 => Ok(Instruction::Jmp(word % 4096)),
        _ => control(word),
    }
}

// Codes 0-6: bit 10 set is the memory form.
#[tactic(auto, unfolding(crate::specs::Word::accumulator_of))]
fn accumulator(word: u16) -> Result<Instruction, Refusal>
    ensures { result ≡ accumulator_of word }
{
    if word / 1024 % 2 == 1 {
        Ok(Instruction::Memory(operation_of(word / 2048), word % 1024))
    } else {
        Ok(Instruction::Accumulator(operation_of(word / 2048), word % 1024))
    }
}

// Code 7: bit 10 set is STA.
#[tactic(auto, unfolding(crate::specs::Word::transfer_of))]
fn transfer(word: u16) -> Result<Instruction, Refusal>
    ensures { result ≡ transfer_of word }
{
    if word / 1024 % 2 == 1 {
        Ok(Instruction::Sta(word % 1024))
    } else {
        Ok(Instruction::Lda(word % 1024))
    }
}

// Codes 25-27, 30 and 31, of which a part is listed.
#[tactic(auto, unfolding(crate::specs::Word::control_of))]
fn control(word: u16) -> Result<Instruction, Refusal>
    ensures { result ≡ control_of word }
{
    match word {
        0xCB00..=0xCB7F => Ok(Instruction::Daa(word % 128)),
        0xCD00..=0xCD7F => Ok(Instruction::Das(word % 128)),
        0xD000..=0xD0FF => Ok(Instruction::Rtnw((word / 16 % 16) as u8, (word % 16) as u8)),
        0xD400 => Ok(Instruction::Rtni),
        0xD800 => Ok(Instruction::Halt),
        0xDC00 => Ok(Instruction::Stop),
        0xF000 => Ok(Instruction::Shr),
        0xF7FF => Ok(Instruction::Tjmp),
        0xFFFF => Ok(Instruction::Nop),
        _ => Err(Refusal::UnlistedWord(word as u64)),
    }
}

// The operation of a code 0-6; no TryFrom, here and below, since `decode` asks for codes of the row alone.
#[tactic(auto, unfolding(crate::specs::Codes::operation_of))]
pub fn operation_of(code: u16) -> Operation
    ensures { result ≡ operation_of code }
{
    match code {
        0 => Operation::Adc,
        1 => Operation::Add,
        2 => Operation::Sbc,
        3 => Operation::Sub,
        4 => Operation::Eor,
        5 => Operation::Or,
        _ => Operation::And,
    }
}

// The operation of a code 8-14.
#[tactic(auto, unfolding(crate::specs::Codes::immediate_of))]
fn immediate_of(code: u16) -> ImmediateOperation
    ensures { result ≡ immediate_of code }
{
    match code {
        8 => ImmediateOperation::Adi,
        9 => ImmediateOperation::Adim,
        10 => ImmediateOperation::Sbi,
        11 => ImmediateOperation::Sbim,
        12 => ImmediateOperation::Eorim,
        13 => ImmediateOperation::Orim,
        _ => ImmediateOperation::Andim,
    }
}

// The condition of a code 16-23.
#[tactic(auto, unfolding(crate::specs::Codes::condition_of))]
fn condition_of(code: u16) -> Condition
    ensures { result ≡ condition_of code }
{
    match code {
        16 => Condition::Bnz,
        17 => Condition::Bnc,
        18 => Condition::Baz,
        19 => Condition::Bc,
        20 => Condition::Ba0,
        21 => Condition::Ba1,
        22 => Condition::Ba2,
        _ => Condition::Ba3,
    }
}

// The word of an instruction; a field that is out of its range is refused.
#[tactic(auto, using(crate::proofs::Fits::word_fits), unfolding(crate::specs::Word::encode_of))]
pub fn encode(i: Instruction) -> Result<u16, Refusal>
    ensures { result ≡ encode_of i }
{
    if in_range(i) {
        Ok(word_of(i) as u16)
    } else {
        Err(Refusal::Field)
    }
}

// Whether each field fits its bits.
fn in_range(i: Instruction) -> bool
    ensures { result ≡ in_range i }
{
    match i {
        Instruction::Accumulator(_, address)
        | Instruction::Memory(_, address)
        | Instruction::Lda(address)
        | Instruction::Sta(address) => address < 1024,
        Instruction::Immediate(_, x, immediate) | Instruction::Ldi(x, immediate) => x < 128
            && immediate < 16,
        Instruction::Branch(_, target) | Instruction::Call(target) => target < 2048,
        Instruction::Daa(x) | Instruction::Das(x) => x < 128,
        Instruction::Rtnw(high, low) => high < 16 && low < 16,
        Instruction::Jmp(target) => target < 4096,
        Instruction::Rtni
        | Instruction::Halt
        | Instruction::Stop
        | Instruction::Shr
        | Instruction::Tjmp
        | Instruction::Nop => true,
    }
}

// The fixed bits and the fields put together, wide enough for fields of any size.
#[tactic(auto, using(crate::proofs::Codes::operation_cast, crate::proofs::Codes::immediate_cast, crate::proofs::Codes::condition_cast))]
fn word_of(i: Instruction) -> u32
    ensures { result ≡ word_of i }
{
    match i {
        Instruction::Accumulator(operation, address) => operation as u32 * 2048 + address as u32,
        Instruction::Memory(operation, address) => operation as u32 * 2048 + 1024 + address as u32,
        Instruction::Lda(address) => 0x3800 + address as u32,
        Instruction::Sta(address) => 0x3C00 + address as u32,
        Instruction::Immediate(operation, x, immediate) => operation as u32 * 2048
            + immediate as u32 * 128
            + x as u32,
        Instruction::Ldi(x, immediate) => 0x7800 + immediate as u32 * 128 + x as u32,
        Instruction::Branch(condition, target) => condition as u32 * 2048 + target as u32,
        Instruction::Call(target) => 0xC000 + target as u32,
        Instruction::Daa(x) => 0xCB00 + x as u32,
        Instruction::Das(x) => 0xCD00 + x as u32,
        Instruction::Rtnw(high, low) => 0xD000 + high as u32 * 16 + low as u32,
        Instruction::Rtni => 0xD400,
        Instruction::Halt => 0xD800,
        Instruction::Stop => 0xDC00,
        Instruction::Jmp(target) => 0xE000 + target as u32,
        Instruction::Shr => 0xF000,
        Instruction::Tjmp => 0xF7FF,
        Instruction::Nop => 0xFFFF,
    }
}
