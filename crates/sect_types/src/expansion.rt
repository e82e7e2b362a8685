//! Texts by numbers, in which calls are replaced by what their procedures do.

pub mod action;
pub mod expand;
pub mod inside;
pub mod locking;
pub mod moved;
pub mod text;
