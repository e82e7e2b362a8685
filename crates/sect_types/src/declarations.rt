//! What a text declares: names, types, and what has which number.

pub mod declare;
pub mod limits;
pub mod local_name;
pub mod names;
pub mod shown;
pub mod types;
pub mod variables;
