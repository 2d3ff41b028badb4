//! Orders and their outcomes: what is to be sent to servers, and what came of it. What decides what is
//! sent and whoever carries it out share nothing else.

pub mod copies;
pub mod order;
pub mod same_orders;
pub mod threads;
