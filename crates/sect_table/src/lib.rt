//! Who holds which key in which mode, and who waits.
#![tactic(auto)]

mod arena;
mod claims;
mod grants;
mod keys;
mod links;
mod lists;
mod releases;
mod requests;
mod table;

pub use claims::{Answer, Claim, Grant, Hold, TableFault};
pub use grants::Grants;
pub use table::Table;
