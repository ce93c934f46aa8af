//! The tests, by what they are about.

mod bench;
mod counted;
mod cut;
mod letter;
mod part;
