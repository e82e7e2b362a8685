//! What the expansion of a call comes to, and where sections stand.

pub mod section;
pub mod sums;
