//! What a recursor is set to by its options, how servers are asked by it, and with which delay each of
//! them begins.

pub mod asking;
pub mod delays;
pub mod threads;
