//! Firmware management on the device (TS006-1.0.0).

ghost use Rattle.std.specs.Prelude.{◌≡◌, ◌+◌, ◌%◌, ◌^◌, ◌<◌, ◌≤◌, length, Option, None};
ghost use Rattle.package_grammar.specs.declared.command.Command.{Command};
ghost use Rattle.image_slots.specs.Slots.{after_swap};
ghost use Rattle.sync_wire.specs.declared.cmd.Cmd.TheVariants.{DevVersionAns, DevRebootTimeAns, DevRebootCountdownAns, DevDeleteImageAns};
ghost use Rattle.device_core.specs.Firmware.{version_step, upgrade_answer, upgrade_step, delete_image_step, chosen_moment, reboot_time_step, countdown_step, is_due, after_due_reboot};
ghost use Rattle.device_core.specs.Sendable.{IsSendable};

use super::Device;
use crate::arrival::Arrival;
use flash_session::Flash;
use image_slots::ImageState;
use package_grammar::Command;
use sync_wire::Cmd;

impl<F: Flash + Drop> Device<F> {
    ghost use Rattle.device_core.specs.HeldDevice.{Becomes, GoesAside, StepsAside};

    /// DevVersionReq.
    pub(super) fn version(&mut self, here: Arrival)
        requires port { here.port ≡ 203 }
        requires room { length self.old.outbox < 8 }
        ensures { StepsAside self.old self.new 1 (λ device. version_step here device) }
    {
        let answer = version_answer(self.slots.running().0, self.config.hw);
        self.send(here.moment.t, here.port, answer);
    }

    /// DevUpgradeImageReq.
    pub(super) fn upgrade(&mut self, here: Arrival)
        requires port { here.port ≡ 203 }
        requires room { length self.old.outbox < 8 }
        ensures { StepsAside self.old self.new 1 (λ device. upgrade_step here device) }
    {
        let answer = upgrade_answer(self.slots.next());
        self.send(here.moment.t, here.port, answer);
    }

    /// DevDeleteImageReq.
    #[tactic(auto, using(crate::proofs::SavedSlots::delete_keeps_formats))]
    pub(super) fn delete_image(&mut self, here: Arrival, version: u32)
        requires port { here.port ≡ 203 }
        requires room { length self.old.outbox < 8 }
        ensures { StepsAside self.old self.new 1 (λ device. delete_image_step here device version) }
    {
        let bits = self.slots.delete(version);
        self.send(here.moment.t, here.port, delete_answer(bits));
    }

    /// DevRebootTimeReq.
    pub(super) fn reboot_time(&mut self, here: Arrival, time: u32)
        requires port { here.port ≡ 203 }
        requires room { length self.old.outbox < 8 }
        ensures { StepsAside self.old self.new 1 (λ device. reboot_time_step here device time) }
    {
        self.reboot = chosen_moment(time, u32::MAX, self.clock.now(here.moment.t), time);
        self.send(here.moment.t, here.port, time_answer(time));
    }

    /// DevRebootCountdownReq.
    pub(super) fn countdown(&mut self, here: Arrival, count: u32)
        requires port { here.port ≡ 203 }
        requires fits { count < 2 ^ 24 }
        requires room { length self.old.outbox < 8 }
        ensures { StepsAside self.old self.new 1 (λ device. countdown_step here device count) }
    {
        let now = self.clock.now(here.moment.t);
        self.reboot = chosen_moment(count, (1 << 24) - 1, now, now.wrapping_add(count));
        self.send(here.moment.t, here.port, countdown_answer(count));
    }

    /// Carries out a reboot that is due.
    #[tactic(auto, unfolding(crate::specs::Firmware::after_due_reboot))]
    pub(super) fn reboot_where_due(&mut self, t: u64)
        ensures becomes { Becomes self.old self.new (after_due_reboot t) }
        ensures aside { GoesAside self.old self.new (after_due_reboot t) }
    {
        if is_due(self.clock.now(t), self.reboot) {
            self.reboot_now();
        }
    }

    /// Carries out a reboot.
    #[tactic(auto, using(crate::proofs::SavedSlots::swap_keeps_formats))]
    fn reboot_now(&mut self)
        ensures { self.new
            ≡ record self.old { reboot = None; slots = after_swap self.old.slots } }
    {
        self.reboot = None;
        self.slots.swap();
    }
}

/// DevVersionAns.
fn version_answer(firmware: u32, hardware: u32) -> Command<'static>
    ensures value { result ≡ Command.Sync (DevVersionAns firmware hardware) }
    ensures sendable { IsSendable 203 result }
{
    Command::Sync(Cmd::DevVersionAns { firmware, hardware })
}

/// DevUpgradeImageAns.
fn upgrade_answer(next: ImageState) -> Command<'static>
    ensures value { result ≡ Command.Sync (upgrade_answer next) }
    ensures sendable { IsSendable 203 result }
{
    let (status, next) = match next {
        ImageState::None => (0, None),
        ImageState::Corrupt => (1, None),
        ImageState::Incompatible => (2, None),
        ImageState::Valid(version) => (3, Some(version)),
    };
    Command::Sync(Cmd::DevUpgradeImageAns { status, next })
}

/// DevDeleteImageAns.
fn delete_answer(errors: u8) -> Command<'static>
    requires { errors < 4 }
    ensures value { result ≡ Command.Sync (DevDeleteImageAns errors) }
    ensures sendable { IsSendable 203 result }
{
    Command::Sync(Cmd::DevDeleteImageAns { errors })
}

/// DevRebootTimeAns.
fn time_answer(time: u32) -> Command<'static>
    ensures value { result ≡ Command.Sync (DevRebootTimeAns time) }
    ensures sendable { IsSendable 203 result }
{
    Command::Sync(Cmd::DevRebootTimeAns { time })
}

/// DevRebootCountdownAns.
fn countdown_answer(count: u32) -> Command<'static>
    requires { count < 2 ^ 24 }
    ensures value { result ≡ Command.Sync (DevRebootCountdownAns count) }
    ensures sendable { IsSendable 203 result }
{
    Command::Sync(Cmd::DevRebootCountdownAns { count })
}

/// The moment of a reboot: 0 is now, all ones is none.
fn chosen_moment(number: u32, ones: u32, now: u32, moment: u32) -> Option<u32>
    ensures { result ≡ chosen_moment number ones now moment }
{
    if number == 0 {
        Some(now)
    } else if number == ones {
        None
    } else {
        Some(moment)
    }
}

/// Whether a reboot is due at seconds of the device's clock.
fn is_due(now: u32, reboot: Option<u32>) -> bool
    ensures { result ≡ is_due now reboot }
{
    match reboot {
        None => false,
        Some(moment) => now.wrapping_sub(moment) < 1 << 31,
    }
}
