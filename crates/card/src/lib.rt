#![tactic(auto)]

mod concurrence;
mod dependence;
pub mod open;
pub mod states;
mod table;
