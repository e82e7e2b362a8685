//! What is wrong with a source text, and where, as it is told to a reader.
#![tactic(auto)]

mod advised;
mod arguments;
mod call_counts;
mod circle;
mod culprit;
mod diagnostic;
mod excerpt;
mod file;
mod form;
mod format;
mod idle;
mod json;
mod judge;
mod kinds;
mod label;
mod layout;
mod limit;
mod mistake;
mod naming;
mod plain;
mod report;
mod sarif;
mod typing;
mod unused;
mod wishes;

pub use advised::wanted;
pub use circle::{is_call_in, procedure_item};
pub use diagnostic::{Counts, Detail, Diagnostic, Shape, Typed};
pub use excerpt::{put_excerpt, put_margin};
pub use file::{place_mark, put_place_line, uri_of};
pub use format::{LintFormat, clean_text, compact, report_as};
pub use idle::idle_hints;
pub use json::{label_value, span_value};
pub use judge::{Judgment, lint};
pub use label::put_quoted;
pub use limit::Limit;
pub use mistake::Mistake;
pub use sarif::{location_value, log_value, put_aside, run_value, tool_value};
pub use unused::unused_names;
