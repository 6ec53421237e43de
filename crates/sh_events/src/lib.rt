// Every event on the machine: the cycle, the pulses, the reset pin and the ports' pins.
#![tactic(auto)]

pub mod event;
mod ports;
