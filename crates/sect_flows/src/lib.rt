//! How values flow from local to local along the control paths of a thread.
#![tactic(auto)]

mod flowing;
mod passing;
mod point;
mod way;

pub use crate::flowing::may_flow_to;
pub use crate::point::{LocalAt, ProgramPoint};
