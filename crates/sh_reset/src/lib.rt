// Resets: by the pin and by the watchdog.
#![tactic(auto)]

pub mod reset;
