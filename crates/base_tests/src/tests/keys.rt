//! Keys of multicast groups against another AES.

use mc_keys::{RootKind, app_s_key, kek, net_s_key, root_1_0, root_1_1, unwrap_key, wrap_key};
use std::test::*;

/// Keys as numbers, the first byte highest; computed with the AES of Python's `cryptography`.
const GEN_APP_KEY: u128 = 0x000102030405060708090a0b0c0d0e0f;

const ROOT: u128 = 0xc6a13b37878f5b826f4f8162a1c8d879;

/// Of the same key as an AppKey.
const ROOT_1_1: u128 = 0x430bff9b049f19279455bd564133c73b;

const KEK: u128 = 0x2c578f7927a949d3b511ae8fb69145c6;

const MC_KEY: u128 = 0x00112233445566778899aabbccddeeff;

const WRAPPED: u128 = 0xb0e6277d714c7313a0ec58f357c8f0fb;

const ADDR: u32 = 0x11223344;

const APP_S_KEY: u128 = 0x1076bbc2ea64f6e75805688798928aba;

const NET_S_KEY: u128 = 0x9f0420feddea37d9f057e1a21f2cd4ca;

#[test]
fn roots_are_those_of_another_aes(rt: HostRuntime) {
    let key = GEN_APP_KEY.to_be_bytes();
    assert!(rt; mc_keys::root(RootKind::V10, &key) == ROOT.to_be_bytes());
    assert!(rt; mc_keys::root(RootKind::V11, &key) == ROOT_1_1.to_be_bytes());
    assert!(rt; root_1_0(&key) == ROOT.to_be_bytes());
    assert!(rt; root_1_1(&key) == ROOT_1_1.to_be_bytes());
}

#[test]
fn keys_are_wrapped_as_by_another_aes(rt: HostRuntime) {
    assert!(rt; kek(&ROOT.to_be_bytes()) == KEK.to_be_bytes());
    assert!(rt; wrap_key(&KEK.to_be_bytes(), &MC_KEY.to_be_bytes()) == WRAPPED.to_be_bytes());
    assert!(rt; unwrap_key(&KEK.to_be_bytes(), &WRAPPED.to_be_bytes()) == MC_KEY.to_be_bytes());
}

#[test]
fn session_keys_are_those_of_another_aes(rt: HostRuntime) {
    assert!(rt; app_s_key(&MC_KEY.to_be_bytes(), ADDR) == APP_S_KEY.to_be_bytes());
    assert!(rt; net_s_key(&MC_KEY.to_be_bytes(), ADDR) == NET_S_KEY.to_be_bytes());
}
