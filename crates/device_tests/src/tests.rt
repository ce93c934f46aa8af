//! The tests, by what they are about.

mod common;
mod device;
mod power;
mod samples;
mod saving;
mod server;
