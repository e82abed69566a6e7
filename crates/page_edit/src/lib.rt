// Pages as log records change them: each edit gives the image of the changed content.
#![tactic(auto)]

mod halves;
mod kept;
mod place;
mod roots;

pub use halves::{Division, cost, divider};
pub use kept::{after_adoption, grown_child};
pub use place::{adopt, put, remove};
pub use roots::{format, grown_root};
