//! What `decode` prints: the text of a message in wire form, or the line of what is wrong with its bytes.
//!
//! Each function that starts with `put` appends its text, and out of memory maybe a part of it.
#![tactic(auto)]

mod decoding;
mod errors;
mod hex;
mod lines;
mod sections;

pub use decoding::{decoded, decoded_text};
pub use errors::error_line;
