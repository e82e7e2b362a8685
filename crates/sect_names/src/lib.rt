//! Paths, locks, and what the statements of a program need.
#![tactic(auto)]

mod carry;
mod covers;
mod fault;
mod generate;
mod laws;
mod link;
mod lock;
mod maximal;
mod path;
mod printing;
mod refusal;
mod scheme;
mod source;
mod touching;
mod variables;

pub use carry::Earlier;
pub use covers::covering_is_an_order;
pub use fault::SchemeFault;
pub use generate::end_lock;
pub use laws::needs::{
    beginnings_are_needed, beginnings_are_typed, needed_locks_are_the_threads, needed_step_by_step,
    texts_stay_in_their_thread,
};
pub use laws::records::{
    a_class_has_one_record, carried_paths_keep_their_record, sets_have_the_record,
};
pub use laws::{
    carried_paths_keep_their_class, carrying_back_respects_covering, least_sets_are_one,
    locks_are_finitely_many, locks_stay_the_programs, schemes_are_one, steps_of_sections,
    texts_have_one_program,
};
pub use link::Link;
pub use lock::{Effect, Lock, Right, precedes};
pub use path::Path;
pub use printing::{field_name, put_lock, put_locks, put_path};
pub use refusal::SourceRefusal;
pub use scheme::{MOST_PATH_FIELDS, Scheme, Unguarded, check_k, guard, scheme_of};
pub use source::{Refused, accept, judge, program_of};
pub use touching::{Change, stays};
