//! Samples and `campaign_generator`, by values from outside.

mod decoder;
mod flash_receiver;
mod generator;
mod receiver;
mod sender;
mod server;

use frag_session::SetupReq;

/// A file of 5 bytes in 3 pieces of 2, the last of them with one byte of padding.
const SETUP: SetupReq = SetupReq {
    index: 0,
    mask: 0,
    nb_frag: 3,
    frag_size: 2,
    algo: 0,
    delay: 0,
    padding: 1,
    descriptor: 7,
};

static FILE: [u8; 5] = [0x11, 0x22, 0x33, 0x44, 0x55];
