// Runs of devices and logs on examples, under power that fails as scripted.
#![tactic(auto)]

#[cfg(test)]
mod device_tests;
mod failing;
#[cfg(test)]
mod log_tests;

pub use failing::{Cut, Failing};
