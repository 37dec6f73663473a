// What test programs share: their cases, read from a reader, and what was got, written as text.
#![tactic(auto)]

pub mod input;
pub mod output;
