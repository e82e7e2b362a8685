//! Places in a source text: where each item and a fault stand, by bytes, and by lines and columns; and which items the
//! nodes of a program come from.
#![tactic(auto)]

mod counts;
mod declarations;
mod faults;
mod inside;
mod item_counts;
mod items;
mod line_index;
mod lines;
mod name_use;
mod named;
mod nodes;
mod opening;
mod origin;
mod origin_spans;
mod position;
mod positions;
mod range;
mod sections;
mod seek;
mod uses;
mod wish;
mod words;

pub use declarations::{
    base_in, field_of, global_of, procedure_of, record_of, type_in, variable_of,
};
pub use faults::fault_span;
pub use items::{item_spans, tree_spans};
pub use line_index::LineIndex;
pub use lines::{NodeLine, node_lines};
pub use name_use::{NameSpan, NameUse, Role, Thing};
pub use named::{ItemWords, item_words, name_spans, tree_names};
pub use nodes::node_origins;
pub use opening::{Opening, range_opening};
pub use origin::{NodeOrigins, Origin};
pub use origin_spans::{NodeSpan, NodeSpans, node_spans};
pub use position::{Position, column_of, position_of};
pub use positions::positions_of;
pub use range::{TokenRange, range_span};
pub use sections::section_items;
pub use seek::item_range;
pub use uses::item_uses;
pub use wish::Wish;
pub use words::range_words;
