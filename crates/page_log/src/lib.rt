// A log on any page device, one record a page.
#![tactic(auto)]

mod page_log;
mod slots;

pub use page_log::PageLog;
