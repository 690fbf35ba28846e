//! The program over readers and writers in memory that fail or go on slowly, and without memory. All worked rows are asked of the built program
//! by `tests/worked`.
#![tactic(auto)]

#[cfg(test)]
mod tests;
