//! The front end: bytes to tokens, tokens to a tree, and a tree back to text.
#![tactic(auto)]

mod cursor;
mod expected;
mod gaps;
mod innermost;
mod items;
mod lexer;
mod limits;
mod listing;
mod literal;
mod name;
mod parsing;
mod printing;
mod reading;
mod room;
mod same;
mod span;
mod token;
mod token_kind;
mod tree;
mod words;

pub use gaps::GappedText;
pub use innermost::innermost_brace;
pub use items::Items;
pub use lexer::{after_gap, first_length, first_token};
pub use limits::{MOST_BYTES, MOST_DEPTH, MOST_NAME_BYTES, limits_of_texts};
pub use listing::tokens_of;
pub use literal::Literal;
pub use name::Name;
pub use parsing::{FrontFault, PlacedFault, parse, parse_gapped, parse_placed, parse_spanned};
pub use printing::print;
pub use room::make_room;
pub use same::is_same;
pub use span::Span;
pub use token::Token;
pub use token_kind::TokenKind;
pub use tree::{
    Block, Comparison, Declaration, Declarations, GlobalObject, Kind, Locking, Operand, Operator,
    Primitive, Procedure, Record, Statement, Test, Thread, Tree,
};
pub use words::{is_name, is_same_word, spells_name};
