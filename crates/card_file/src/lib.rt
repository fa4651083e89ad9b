#![tactic(auto)]

mod bytes;
pub mod read;
pub mod write;
