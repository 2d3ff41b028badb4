//! What cases are of below the recursor: names, codes, delays and the cache of responses. Each subject is
//! a function from the text that a case hands in to the text that comes of it. The crate also parts what is
//! handed in, and writes values as numbers, for other subjects.
#![tactic(auto)]

mod cache_steps;
pub mod codes;
mod delay_steps;
pub mod delays;
pub mod kept;
mod lines;
pub mod names;
mod reading;
mod values;

pub use lines::first_line;
pub use reading::{networks, resolver, scenario};
pub use values::{put_bytes, put_ip, put_name, put_narrow, put_wide};
