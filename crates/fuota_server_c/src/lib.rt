//! For C: the server of a firmware campaign (TS003 to TS006, 1.0.0). Each call may be made with any argument that its types
//! allow. It does to the server of its handle what the call of `campaign_server` does, and answers the same by the numbers of the
//! header; a device that the plan does not have is out of range. When anything is sent, and whether it arrives, is left to
//! the caller; what C must keep to beyond the types is in `c/fuota.h`.
#![tactic(auto)]

mod campaign;
mod framing;
mod last_status;
mod laws;
mod plan;
mod requests;
mod saving;
mod sent;
mod server;
mod server_handle;
mod session_keys;
mod told;
