//! Compiled programs as text in C.
#![tactic(auto)]

mod context;
mod declarations;
mod laws;
mod naming;
mod program;
mod runtime;
mod sections;
mod statements;
mod threads;
mod types;
mod words;

pub use laws::{
    labels_tell_places, lines_tell_graphs, lines_tell_nodes, looks_tell_locks, tables_tell_keys,
    texts_tell_programs,
};
pub use program::c_program;
