//! A device of a campaign, whose memory is taken at its first event.

ghost use Rattle.std.specs.Prelude.{◌≡◌, ℕ, true, None, IfOk, option_map, replicate};
ghost use Rattle.device_core.specs.Device.{first_device, is_config};
ghost use Rattle.device_core.specs.HeldDevice.{Starts};
ghost use Rattle.device_core.specs.Configuration.{Configuration, at_least_size};
ghost use Rattle.campaign_world.specs.HeldLate.{HasSpan, IsAtRest};

use device_core::{Device, DeviceConfig, ReserveError};
use flash_session::CellFlash;
use std::alloc::{AllocError, Global};
use std::marker::Model;

/// A device; before its first event it needs no more memory than its configuration. Its sessions are only in memory, or held in
/// four ranges of a flash of cells.
#[derive(Drop)]
pub struct LateDevice {
    pub(crate) config: DeviceConfig,
    /// None before its first event.
    pub(crate) device: Option<Box<Device<CellFlash>>>,
}

impl Model for LateDevice {
    ghost use Rattle.std.specs.Prelude.{◌≡◌, true};
    ghost use Rattle.device_core.specs.Configuration.{at_least_size};
    ghost use Rattle.device_core.specs.Device.{is_config};
    ghost use Rattle.std.specs.Prelude.{option_map};
    ghost use Rattle.campaign_world.specs.HeldLate.{Late, HasSpan};

    ghost Value = { Late };

    ghost view = { λ d. record {
      config = at_least_size d.config;
      device = option_map (λ device. device.value) d.device;
    } };

    ghost invariant = { λ d.
        (is_config (at_least_size d.config) ≡ true) × HasSpan (at_least_size d.config) };
}

impl LateDevice {
    /// Makes a device without an event.
    pub fn new(config: DeviceConfig) -> Self
        requires fine { is_config (at_least_size config) ≡ true }
        requires span { HasSpan (at_least_size config) }
        ensures { result ≡ record { config = at_least_size config; device = None } }
    {
        LateDevice {
            config,
            device: None,
        }
    }

    /// Returns the device, from its first event on; None before.
    pub fn device(&self) -> Option<&Device<CellFlash>>
        ensures { option_map (λ device. device.now) result ≡ self.now.device }
    {
        match &self.device {
            Some(device) => Some(device),
            None => None,
        }
    }

    /// Returns its configuration.
    pub fn config(&self) -> DeviceConfig
        ensures { at_least_size result ≡ self.now.config }
    {
        self.config
    }
}

/// Makes the device at its start, with all memory that it ever needs. It is a function by itself, so that no line keeps room for
/// a whole device.
#[inline(never)]
pub fn created(alloc: Global, config: DeviceConfig) -> Result<Box<Device<CellFlash>>, AllocError>
    requires fine { is_config (at_least_size config) ≡ true }
    requires span { HasSpan (at_least_size config) }
    ensures { IfOk result
        (λ device. IsAtRest device.value (first_device (at_least_size config))) }
{
    let size = if config.held { 4 * config.span } else { 0 };
    let flash = CellFlash::reserve(alloc, size)?;
    let mut device = match Device::reserve_least(alloc, config, flash) {
        Ok(device) => device,
        Err(ReserveError::Memory) => return Err(AllocError),
        Err(ReserveError::BadConfig) => unreachable!(),
    };
    start(&mut device);
    match Box::new(alloc, device) {
        Ok(boxed) => Ok(boxed),
        Err(error) => {
            drop(error);
            Err(AllocError)
        }
    }
}

/// Power comes to a device for the first time, over cells that hold nothing. A device only in memory is up without it.
fn start(device: &mut Device<CellFlash>)
    ensures { (config : Configuration) (n : ℕ) → Starts config device.old.sessions.flash device.old
        → device.old.sessions.flash.bytes ≡ replicate n 0
        → IsAtRest device.new (first_device config) }
{
    if device.is_held() {
        // cells do not fail
        let _powered = device.power();
    }
}
