//! Numbers of one to four bytes, put at the end of a payload and read at their places.

use std::test::*;
use wire_base::{Payload, put_u8, put_u16, put_u24, put_u32, u8_at, u16_at, u24_at, u32_at};

static PUT: [u8; 10] = [1, 2, 3, 4, 5, 6, 7, 8, 9, 10];

#[test]
fn numbers_are_put_lowest_byte_first(rt: HostRuntime) {
    let mut out = Payload::new();
    assert!(rt; put_u8(&mut out, 0x01).is_ok());
    assert!(rt; put_u16(&mut out, 0x0302).is_ok());
    assert!(rt; put_u24(&mut out, 0x06_0504).is_ok());
    assert!(rt; put_u32(&mut out, 0x0a09_0807).is_ok());
    assert!(rt; out.as_slice() == PUT.as_slice());
}

#[test]
fn numbers_are_read_where_they_lie(rt: HostRuntime) {
    assert!(rt; u8_at(&PUT, 0) == 0x01 && u16_at(&PUT, 1) == 0x0302);
    assert!(rt; u24_at(&PUT, 3) == 0x06_0504 && u32_at(&PUT, 6) == 0x0a09_0807);
}

#[test]
fn a_number_that_does_not_fit_leaves_the_payload(rt: HostRuntime) {
    let mut out = Payload::from_slice(&[7; 239]);
    assert!(rt; put_u32(&mut out, 1).is_err() && out.len() == 239);
    assert!(rt; put_u24(&mut out, 1).is_ok() && out.len() == 242);
    assert!(rt; put_u8(&mut out, 1).is_err() && put_u16(&mut out, 1).is_err());
    assert!(rt; put_u24(&mut out, 1).is_err() && out.len() == 242);
}
