//! The tests, by what they are about.

mod aes;
mod cast;
mod clock;
mod frames;
mod grammar;
mod groups;
mod keys;
mod lines;
mod numbers;
mod sync;
mod windows;
