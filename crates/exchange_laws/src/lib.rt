//! Requests of a server and their answers (TS003 to TS006, 1.0.0; the stages are this project's profile). Between the records of a
//! server and of one of its devices: where a request comes to the device and its uplink to the server, the stage after it is what
//! the device's answer makes of it, and a device that suits is led on. And in a campaign: whatever other lines lie between, a
//! device that suits and answers as many requests as there are stages is updated, also in each of two campaigns that share a script.
//! There is no code here.
#![tactic(auto)]

mod laws;

pub use laws::{
    a_device_that_answers_is_updated, an_exchange_moves_a_campaign_on, an_exchange_moves_on,
    an_uplink_moves_a_server_once, each_device_that_answers_is_updated, worked_exchange,
    worked_stages,
};
