// Pages read in place.
#![tactic(auto)]

mod access;
mod entries;
mod held;
mod ordered;
mod owned;
mod row;
mod view;

pub use entries::Entries;
pub use ordered::Ordered;
pub use owned::Page;
pub use view::{EntryView, FosterView, PageView};
