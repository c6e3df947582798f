//! The tests that are no rows: runs over readers and writers that answer little at a time or fail, and faults that the
//! words of the program can't bring about. The crate has nothing else.
#![tactic(auto)]

#[cfg(test)]
mod tests;
