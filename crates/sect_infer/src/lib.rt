//! Lock inference: which locks a section takes at its entry, by a worklist over its control-flow graph.
#![tactic(auto)]

mod carry;
mod lists;
mod locks;
mod numbering;
mod numbers;
mod order;
mod section;
mod waiting;
mod work;
mod workers;

pub use carry::Transfer;
pub use locks::Locks;
pub use numbering::Numbering;
pub use numbers::Numbers;
pub use order::in_order;
pub use section::{entry_locks, infer, infer_unmarked, room_for};
pub use workers::{InferFault, MOST_WORKERS, Seen, check_workers, infer_all, limit_of_workers};
