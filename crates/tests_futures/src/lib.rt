//! Tests of the futures that read and write frames, over memory.
#![tactic(auto)]

#[cfg(test)]
mod futures_over_memory;
