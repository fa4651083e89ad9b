#![tactic(auto)]

pub mod convert;
mod draft;
pub mod fault;
mod line;
pub mod read;
pub mod write;
