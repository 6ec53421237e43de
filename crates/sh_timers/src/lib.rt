// Timer0, by value, and how a part of the chip asks for an interrupt.
#![tactic(auto)]

pub mod request;
pub mod timer0;
