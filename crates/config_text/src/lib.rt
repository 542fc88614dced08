//! The text of a configuration: all its keys, printed so that reading the text gives an equal configuration.
#![tactic(auto)]

mod print;
mod tables;
mod values;
mod words;

pub use print::print_config;
