//! Tests of `sample_nor_flash`: a receiver over a part in memory that counts erases, and is stopped
//! before and within each of its programs and erases. There is no other code here.
#![tactic(auto)]

#[cfg(test)]
mod tests;
