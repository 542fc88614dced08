//! The pool word of a group of buffers: which buffer serves a need, and what the word is after a take and after a free.
#![tactic(auto)]

mod fit;
mod pool;

pub use fit::smallest_fitting;
pub use pool::{Pool, after_free, after_take, full_pool, pool_of, word_of};

#[cfg(test)]
mod tests;
