//! What a text does when it runs.

pub mod store;
