// The arithmetic of one instruction (01, "One instruction"): a value of four bits and the carry flag.
#![tactic(auto)]

ghost use Rattle.std.specs.Prelude.{◌≡◌};
ghost use Rattle.alu.specs.Alu.{sum_of, added_of, calculated_of, loaded_of, decimal_added_of, decimal_subtracted_of, shifted_right_of};

use word::Operation;

// A result, and CY after it.
#[derive(Clone, Copy)]
pub struct Sum {
    pub value: u8,
    pub carry: u8,
}

// A result of its two parts: a literal would take four lines in each place.
fn sum_of(value: u8, carry: u8) -> Sum
    ensures { result ≡ sum_of value carry }
{
    Sum { value, carry }
}

// ADC ADD SBC SUB EOR OR AND of a cell and an operand, the accumulator or an immediate.
#[tactic(auto, unfolding(crate::specs::Alu::calculated_of))]
pub fn calculated(op: Operation, cell: u8, operand: u8, cy: u8) -> Sum
    ensures { result ≡ calculated_of op cell operand cy }
{
    match op {
        Operation::Adc => added(cell, operand, cy),
        Operation::Add => added(cell, operand, 0),
        Operation::Sbc => added(cell, 15 - operand % 16, cy),
        Operation::Sub => added(cell, 15 - operand % 16, 1),
        Operation::Eor => sum_of(cell ^ operand, cy),
        Operation::Or => sum_of(cell | operand, cy),
        Operation::And => sum_of(cell & operand, cy),
    }
}

// Three numbers added in four bits; CY is the carry out.
fn added(x: u8, y: u8, c: u8) -> Sum
    ensures { result ≡ added_of x y c }
{
    let s = x as u16 + y as u16 + c as u16;
    sum_of((s % 16) as u8, (s / 16) as u8)
}

// LDA: the cell's value, CY as it was.
#[tactic(auto, unfolding(crate::specs::Alu::loaded_of))]
pub fn loaded(cell: u8, cy: u8) -> Sum
    ensures { result ≡ loaded_of cell cy }
{
    sum_of(cell, cy)
}

// DAA: decimal adjust for add.
#[tactic(auto, unfolding(crate::specs::Alu::decimal_added_of))]
pub fn decimal_added(value: u8, cy: u8) -> Sum
    ensures { result ≡ decimal_added_of value cy }
{
    if value > 9 || cy == 1 {
        sum_of(((value as u16 + 6) % 16) as u8, 1)
    } else {
        sum_of(value, cy)
    }
}

// DAS: decimal adjust for sub.
#[tactic(auto, unfolding(crate::specs::Alu::decimal_subtracted_of))]
pub fn decimal_subtracted(value: u8, cy: u8) -> Sum
    ensures { result ≡ decimal_subtracted_of value cy }
{
    if cy == 0 {
        sum_of(((value as u16 + 10) % 16) as u8, cy)
    } else {
        sum_of(value, cy)
    }
}

// SHR: 0 into bit 3, bit 0 into CY.
#[tactic(auto, unfolding(crate::specs::Alu::shifted_right_of))]
pub fn shifted_right(value: u8) -> Sum
    ensures { result ≡ shifted_right_of value }
{
    sum_of(value / 2, value % 2)
}
