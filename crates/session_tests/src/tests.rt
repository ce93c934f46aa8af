//! The tests, by what they are about.

mod arena;
mod common;
mod encoder;
mod flash;
mod images;
mod lines;
mod plain;
mod slots;
mod solver;
mod store;
mod sums;
