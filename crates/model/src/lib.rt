// The store, defined: what its calls do and answer, in every state and on every input.
#![tactic(auto)]

pub mod refusal;
pub mod state;

pub use refusal::{Check, Refusal};
pub use state::{State, Tended};
