//! A device over a list of its calls, in which it is saved, ends and is restored any number of times: as a law on the records of
//! `device_core`. There is no code here.
#![tactic(auto)]

mod laws;

pub use laws::restarts_change_nothing;
