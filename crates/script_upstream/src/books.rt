//! The book of a script: its log, and what each open entry still comes to (`Book`).
//!
//! A `Book` holds (`Holds`) where its log is one that its script gives (`Gives`), and each open entry is
//! known by what it still comes to.

pub mod book;
pub mod threads;
