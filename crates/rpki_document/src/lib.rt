//! Documents: the content of an answer, rendered as lines for a person and as JSON.
#![tactic(auto)]

mod as_json;
mod as_text;
mod building;
pub mod laws;
mod leaves;
mod parts;

pub use as_json::json_of;
pub use as_text::text_of;
pub use building::{
    add_aside, add_each, add_further, add_head, add_inside, add_item, add_kept, add_line, add_told,
    add_unsaid,
};
pub use leaves::{Characters, Colons};
pub use parts::{Leaf, Part, Parts, Piece};
