//! Tests of children as processes, over a system that follows a script.
#![tactic(auto)]

#[cfg(test)]
mod tests;
