//! Tests of `device_core`, payload by payload and frame by frame, and over a flash that stops; of `campaign_server`; and of the
//! samples and `campaign_generator`. There is no other code here.
#![tactic(auto)]

#[cfg(test)]
mod tests;
