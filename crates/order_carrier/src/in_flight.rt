//! Runs orders that were given, each under its number: starts each once, polls it when it is told to,
//! no more often than patience allows, until it is closed or given up. It carries them out by an
//! `order_carrier`, and keeps of each the order and how often it was polled. `polls_left` in
//! `specs/Runner.antt` is what falls with each poll: a caller ends by it.

pub mod runner;
pub mod threads;
