//! Tests of `fuota_run`, by what whole runs write and end with, and of `campaign_world` and `pair_run`, by scripts and their
//! reports. There is no other code here.
#![tactic(auto)]

#[cfg(test)]
mod common;
#[cfg(test)]
mod pairs;
#[cfg(test)]
mod tests;
#[cfg(test)]
mod worlds;
