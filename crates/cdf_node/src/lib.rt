//! A JSON value (RFC 8259) of slices in an arena, read as serde_json reads it, and written.
#![tactic(auto)]

pub mod law;
mod member;
mod no_value;
mod node;
mod order;
mod text;
mod token;
mod track;
mod value;
mod write;

pub use member::find_from;
pub use no_value::NoValue;
pub use node::Node;
pub use order::in_order;
pub use text::read_text;
pub use token::scalar;
pub use track::Track;
pub use value::{read, read_array, read_object};
