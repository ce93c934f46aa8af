//! Clock synchronization on the device (TS003-1.0.0).

ghost use Rattle.std.specs.Prelude.{◌≡◌, ◌+◌, ◌<◌, ◌≤◌, length, true, Result};
ghost use Rattle.package_grammar.specs.declared.command.Command.{Command};
ghost use Rattle.sync_wire.specs.declared.cmd.Cmd.TheVariants.{DeviceAppTimePeriodicityAns};
ghost use Rattle.clock_sync.specs.Clock.{after_answer};
ghost use Rattle.device_core.specs.Clock.{time_request, periodicity_step, resync_step};
ghost use Rattle.device_core.specs.Deliver.{time_asking};
ghost use Rattle.device_core.specs.SessionTable.{SessionTable};
ghost use Rattle.device_core.specs.Sendable.{IsSendable};

use super::Device;
use crate::arrival::Arrival;
use crate::delivered::OutboxFull;
use crate::outbox::OUTBOX;
use clock_sync::DeviceClock;
use flash_session::Flash;
use package_grammar::Command;
use sync_wire::Cmd;

impl<F: Flash + Drop> Device<F> {
    ghost use Rattle.device_core.specs.declared.delivered.OutboxFull.{OutboxFull};
    ghost use Rattle.device_core.specs.HeldDevice.{device_of, GoesAside, StepsAside};

    /// Sends AppTimeReq, where the outbox has room.
    #[tactic(auto, unfolding(crate::specs::Deliver::time_asking, crate::specs::Answers::after_answers))]
    pub(super) fn ask_time(&mut self, t: u64) -> Result<(), OutboxFull>
        ensures aside { GoesAside self.old self.new (λ device. (time_asking t device).device) }
        ensures answer { (table : SessionTable)
            → result ≡ (time_asking t (device_of self.old table)).answer }
    {
        if self.outbox.len() >= OUTBOX {
            return Err(OutboxFull);
        }
        let request = time_request(&self.clock, t, true);
        self.send(t, 202, request);
        Ok(())
    }

    /// AppTimeAns.
    pub(super) fn take_time(&mut self, correction: i32, token: u8)
        ensures { let clock = after_answer correction token self.old.clock in
            self.new ≡ record self.old { clock = clock } }
    {
        self.clock.take_answer(correction, token);
    }

    /// DeviceAppTimePeriodicityReq.
    #[tactic(auto, unfolding(crate::specs::Clock::periodicity_step, crate::specs::Answers::after_answers))]
    pub(super) fn periodicity(&mut self, here: Arrival)
        requires port { here.port ≡ 202 }
        requires room { length self.old.outbox < 8 }
        ensures { StepsAside self.old self.new 1 (λ device. periodicity_step here device) }
    {
        let answer = periodicity_answer(self.clock.now(here.moment.t));
        self.send(here.moment.t, here.port, answer);
    }

    /// ForceDeviceResyncReq.
    #[tactic(auto, unfolding(crate::specs::Clock::resync_step, crate::specs::Answers::after_answers))]
    pub(super) fn resync(&mut self, here: Arrival, count: u8)
        requires port { here.port ≡ 202 }
        requires room { length self.old.outbox + count ≤ 8 }
        ensures { StepsAside self.old self.new count (λ device. resync_step here device count) }
    {
        let request = self.clock.request(here.moment.t, false);
        'requests: for _ in 0..count {
            self.send(here.moment.t, here.port, Command::Sync(request));
        }
    }
}

/// AppTimeReq.
fn time_request(clock: &DeviceClock, t: u64, required: bool) -> Command<'static>
    ensures value { result ≡ time_request clock.now t required }
    ensures sendable { IsSendable 202 result }
{
    let request = clock.request(t, required);
    Command::Sync(request)
}

/// DeviceAppTimePeriodicityAns: this device does not send periodically.
fn periodicity_answer(time: u32) -> Command<'static>
    ensures value { result ≡ Command.Sync (DeviceAppTimePeriodicityAns true time) }
    ensures sendable { IsSendable 202 result }
{
    Command::Sync(Cmd::DeviceAppTimePeriodicityAns {
        unsupported: true,
        time,
    })
}
