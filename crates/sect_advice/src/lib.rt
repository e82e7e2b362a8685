//! What is to be written in place of what stands at a mistake, for those who write as in C, Java or Rust.
#![tactic(auto)]

mod advice;
mod before;
mod byte;
mod token;
mod word;

pub use advice::Advice;
pub use byte::on_byte;
pub use token::on_token;
pub use word::on_name;
