//! The keys of a multicast group (TS005-1.0.0, Multicast security; devices of LoRaWAN 1.0 and 1.1).
//! Each key is the AES-128 encryption that the standard defines over the key before it, and a key that was wrapped for a device
//! is the one that the device unwraps. Where keys are kept, and what is encrypted with them, is left to the crates above.
//!
//! The server's end, from `campaign_server::asking`:
//!
//!     let root = mc_keys::root(device.root, &device.key);  // McRootKey of LoRaWAN 1.0 or 1.1
//!     let block = wrap_key(&kek(&root), key);              // McKey_encrypted
//!
//! The device's end, from `mc_group::table`:
//!
//!     let key = unwrap_key(&kek(&mc_keys::root(root, gen_app_key)), wrapped);
//!
//! The session keys, from `campaign_server::framing`:
//!
//!     Keys {
//!         app_s: app_s_key(&group.key, group.addr),
//!         net_s: net_s_key(&group.key, group.addr),
//!     }
#![tactic(auto)]

mod keys;
mod laws;
mod root_kind;

pub use keys::{Key, app_s_key, kek, net_s_key, root, root_1_0, root_1_1, unwrap_key, wrap_key};
pub use laws::worked_keys;
pub use root_kind::RootKind;
