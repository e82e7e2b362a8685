//! Certificates as text: written line by line, and read back exactly where the text is the text of one.
//!
//! The text is these lines, each with a line feed behind it:
//! - `sect-cert 2`, then `k K` and `sections N`;
//! - for each section I from 0: `section I nodes M`, `node J: LIST` for each node J from 0, `entry: LIST`, and lines
//!   `chain L: STEP > STEP ..` with rising L and one step at least;
//! - `end`.
//!
//! A list is `none`, or its locks joined by `, `. A step is a node's number, a blank and a lock. A lock is `W all`,
//! `R p`, `W p`, `R class c`, `W class c` or `M class c`, a path p its base and its fields joined by points, a base a
//! name, or a name, `#` and a number. Numbers are at most 4294967295, in decimal without leading zeros. So a
//! certificate has one text, and a text at most one certificate.
#![tactic(auto)]

mod again;
mod certificate;
mod chain;
mod chain_steps;
mod fault;
mod known_paths;
mod line;
mod list;
mod lock;
mod numbers;
mod parts;
mod reading;
mod runs;
mod shared_path;
mod spelled_path;
mod stage;
mod subject;
mod writing;
mod zeros;

pub use certificate::{Cert, CertChain, CertSection, CertStep};
pub use chain_steps::ChainSteps;
pub use fault::CertFault;
pub use lock::{CertBase, CertLock, CertPath};
pub use reading::read_cert;
pub use runs::Runs;
pub use shared_path::SharedPath;
pub use writing::{
    begin_cert, end_cert, put_chain, put_entry, put_head, put_list, put_node, sections_are_lines,
    write_cert,
};
