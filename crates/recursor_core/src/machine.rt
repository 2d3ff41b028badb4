//! The machine of the recursor: resolutions, the cache and the pools that they share. It gives orders and is fed
//! their outcomes, and knows neither a provider nor a log. And what becomes of each question of a run over it.

pub mod plays;
pub mod policy_with_context;
pub mod resolutions;
pub mod threads;
