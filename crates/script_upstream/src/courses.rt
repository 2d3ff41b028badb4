//! What each line of a script comes to (`Course`), where its lines are (`Index`), and which logs it gives.

pub mod course;
pub mod index;
pub mod threads;
