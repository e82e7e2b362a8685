//! What an item may say, and the first item at fault.

pub mod called;
pub mod judge;
pub mod place;
pub mod resolve;
pub mod rule;
pub mod scope;
pub mod spot;
pub mod walk;
