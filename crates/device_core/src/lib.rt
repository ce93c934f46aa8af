//! A device's end of firmware update over LoRaWAN: clock synchronization (TS003-1.0.0), fragmented data blocks (TS004-1.0.0),
//! remote multicast setup (TS005-1.0.0) and firmware management (TS006-1.0.0). Contracts see a device as the record of
//! `specs/Device.antt`, with the lists of all fragments that its sessions heard. Each call changes that record as one function of
//! `specs/Deliver.antt`, `Radio`, `Power` or `Firmware` says, and answers what that function answers. Only `Device::reserve` and
//! `Device::restore` take memory. Radio, clocks, random numbers, the flash and starting the image are left to the caller. A
//! device's sessions are only in memory, or held in the flash; then they outlast a stop, and `power` opens them again. All else
//! that it knows can be saved as bytes (`specs/Saving.antt`), and a device is restored from these and its files.
//!
//! From `device_tests::saving`:
//!
//!     let mut device = match Device::reserve(rt.alloc(), CONFIG, flash(&rt, rt.alloc())) {
//!         Ok(device) => device,
//!         Err(_) => panic!(&rt; "no device"),
//!     };
//!     assert!(rt; device.is_held());
//!     assert!(rt; device.power().is_ok());  // its sessions are up
//!
//!     let saved = first.save();                           // 492 bytes
//!     let running = copied(rt, alloc, first.slots().running().1);
//!     let next = copied(rt, alloc, first.next_file());
//!     let flash = first.close();
//!     powered(rt, alloc, flash, &saved, &running, &next)  // `Device::restore`, and power
//!
//! A payload and a frame, from `file_device::calls`:
//!
//!     let down = Downlink {
//!         to: To::Unicast,
//!         port,
//!         payload: Payload::from_slice(bytes.as_slice()),
//!     };
//!     Some(word_of(device.deliver(time, &down, word, 0)))  // done, deaf, refused, outbox full, flash fault, or down
//!
//!     match device.radio(time, bytes.as_slice(), word, 0) {  // a multicast frame
//!         Aired::Foreign(_) => "foreign",
//!         Aired::Heard(delivered) => word_of(delivered),
//!     }
//!
//! Its uplinks, from `file_device`:
//!
//!     if let Some(uplink) = device.take_uplink() {
//!         let text = hex::encode(rt.alloc(), uplink.payload.as_slice())?;
//!         println!(rt; "{} {} {}", uplink.due, uplink.port, text.as_str())?;
//!     }
#![tactic(auto)]

mod arrival;
mod class_session;
mod config;
mod counts;
mod delivered;
mod device;
mod laws;
mod moment;
mod outbox;
mod queued_uplink;
mod saved_fields;
mod saving;
mod uplink;

pub use arrival::Arrival;
pub use class_session::{ClassSession, Kind};
pub use config::{Class, DeviceConfig, MAX_AREA, MAX_ROWS, ReserveError, has_ranges, is_config};
pub use counts::Counts;
pub use delivered::{Aired, Delivered, OutboxFull};
pub use device::Device;
pub use laws::{
    a_device_lasts_through_a_restart, a_frame_is_delivered,
    a_full_device_wakes_for_its_reboot_alone, a_whole_file_comes_once, due_reboot_is_once,
    power_is_quiet, runs_images_alone, saved_devices, two_commands_act_by_multicast,
    what_does_not_act_is_counted, worked_steps,
};
pub use moment::Moment;
pub use saving::{MAX_SAVED_DEVICE, RestoreError, SavedDevice};
pub use uplink::{Answer, Uplink};
