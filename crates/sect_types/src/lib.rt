//! Names and types: a tree becomes a program by numbers, or its first item at fault is named.
#![tactic(auto)]

mod counting;
mod declarations;
mod expansion;
mod laws;
mod meaning;
mod program;
mod rules;

pub use counting::section::Section;
pub use declarations::limits::{
    MOST_FIELDS, MOST_GLOBALS, MOST_LOCALS, MOST_RECORDS, MOST_SECTIONS, MOST_SITES,
    MOST_STATEMENTS, MOST_THREADS, limits_of_programs,
};
pub use declarations::local_name::LocalName;
pub use declarations::types::ValueType;
pub use expansion::action::{Action, Base, Condition, Field, Label, Value};
pub use expansion::text::{Step, Text};
pub use laws::{calls_unfold, sums_are_of_texts};
pub use meaning::store::{Datum, End, Fault, ObjectName};
pub use program::{Mistyped, Program, check_tree, check_types};
pub use rules::rule::TypeFault;
