//! What `check` tells of a world, as text: whether it is well served, and which questions are valid.

pub mod checking;
