//! The checker of certificates: whether what a certificate says of a program is right. It trusts nothing that was
//! inferred, and judges by the definitions of locks, of what is carried back and of chains alone.
#![tactic(auto)]

mod chains;
mod checking;
mod claimed_links;
mod claiming;
mod claims;
mod covering;
mod fault;
mod judged;
mod laws;
mod links;
mod lists;
mod locks;
mod names;
mod naming;
mod same;
mod section;
mod unresolved;

pub use checking::check;
pub use fault::CheckFault;
pub use laws::valid_entry_lists_are_least;
pub use lists::generated_at;
