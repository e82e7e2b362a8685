//! Laws of plans and of running threads. The functions have empty bodies; the clauses say the laws.

pub mod claims;
pub mod plans;
pub mod values;
