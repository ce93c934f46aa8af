//! For C: a receiver of one file at a time, a device of all four packages, and the text of a payload (TS003 to TS006, 1.0.0).
//! Each call may be made with any argument that its types allow. It does to the object of its handle what the call of
//! `frag_session`, `device_core` or `sample_decoder` does, and answers the same by the numbers of the header. What C must keep to
//! beyond the types is in the header, `c/fuota.h`.
#![tactic(auto)]

mod config;
mod decoding;
mod device;
mod device_handle;
mod flash;
mod laws;
mod radio;
mod receiver;
mod receiver_handle;
mod saving;
mod shown;
mod size;
mod sized_receiver;
mod telling;
mod version;
