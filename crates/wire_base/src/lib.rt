//! The bytes of every application-layer command of a LoRaWAN device (TS003 to TS006, 1.0.0): little-endian numbers at places of a
//! payload, payloads of at most 242 bytes, and why a payload is refused. A number that is put at a place is read back from there,
//! and a put without room changes nothing. Which commands there are is left to the crates above, which write their tables as rows
//! of `specs/Rows.antt`.
//!
//! From `base_tests::numbers`:
//!
//!     let mut out = Payload::new();
//!     assert!(rt; put_u8(&mut out, 0x01).is_ok());     // `Full` where 242 bytes are there
//!     assert!(rt; put_u16(&mut out, 0x0302).is_ok());  // low byte first
//!     assert!(rt; put_u24(&mut out, 0x06_0504).is_ok());
//!     assert!(rt; put_u32(&mut out, 0x0a09_0807).is_ok());
//!     assert!(rt; out.as_slice() == PUT.as_slice());
//!
//!     assert!(rt; u8_at(&PUT, 0) == 0x01 && u16_at(&PUT, 1) == 0x0302);
//!     assert!(rt; u24_at(&PUT, 3) == 0x06_0504 && u32_at(&PUT, 6) == 0x0a09_0807);
#![tactic(auto)]

mod laws;
mod numbers;
mod payload;
mod refusal;

pub use laws::{number_put_is_number_read, row_lies_before_more, row_written_lies, worked_numbers};
pub use numbers::{flag_value, put_u8, put_u16, put_u24, put_u32, u8_at, u16_at, u24_at, u32_at};
pub use payload::{Full, MAX_PAYLOAD, Payload};
pub use refusal::{Direction, Refusal, Why};
