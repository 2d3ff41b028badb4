//! What the words of a line stand for: numbers, addresses, networks, names, types, classes, response
//! codes and bytes, each in its one spelling; and how a line is cut into its words.
#![tactic(auto)]

mod addresses;
mod codes;
mod hex;
mod lines;
mod networks;
mod number_lists;
mod numbers;
mod pieces;
mod threads;
mod words;

pub use lines::lines::{Form, answered, connected, delay, dnssec_word, form_line};
pub use lines::option_form::{Bounds, OptionLine, last_rank, ns_recursion_limit, options_with};
pub use lines::record_lines::record_line;
pub use lines::rules::{Counts, MessageHead, OpenRule};
pub use pieces::cut;
pub use words::{LineError, Words, pass};
