// Pages built anew from the entries of old ones.
#![tactic(auto)]

mod alone;
mod entries;
mod fresh;
mod head;
mod header;
mod heading;
mod image;
mod row;
mod splice;

pub use alone::{Alone, NoEntries};
pub use fresh::Fresh;
pub use header::{Foster, Header};
pub use image::{build, fitted};
pub use row::EntryRow;
pub use splice::Spliced;
