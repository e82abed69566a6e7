// One log record applied to the image of the page that it changes.
#![tactic(auto)]

mod applied;
mod branches;
mod halves;
mod leaves;
mod roots;
mod suits;

pub use applied::redo;
