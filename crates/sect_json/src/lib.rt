//! What commands answer, as JSON: each document is defined as a value, and what is written is that value's text.
#![tactic(auto)]

mod calls;
mod changes;
mod compiling;
mod conflicts;
mod context;
mod events;
mod explaining;
mod inspected_sections;
mod inspecting;
mod keys;
mod lock_texts;
mod locks;
mod nodes;
mod objects;
mod outcomes;
mod placed_nodes;
mod sites;
mod step_texts;
mod turns;
mod writing;

pub use compiling::compiled_document;
pub use conflicts::conflicts_document;
pub use explaining::explanation_document;
pub use inspecting::inspection_document;
pub use locks::locks_document;
pub use outcomes::{outcome_document, outcomes_document};
pub use turns::turns_document;
