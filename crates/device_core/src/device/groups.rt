//! Multicast groups of the device (TS005-1.0.0).

ghost use Rattle.std.specs.Prelude.{◌≡◌, ◌+◌, ◌<◌, ◌≤◌, length};
ghost use Rattle.package_grammar.specs.declared.command.Command.{Command};
ghost use Rattle.cast_wire.specs.declared.cmd.Cmd.TheVariants.{McGroupSetupAns, McGroupDeleteAns};
ghost use Rattle.mc_group.specs.Groups.{group_of};
ghost use Rattle.device_core.specs.Groups.{groups_step, group_setup_step, without_group, group_delete_step};
ghost use Rattle.device_core.specs.Sendable.{IsSendable};

use super::Device;
use crate::arrival::Arrival;
use crate::class_session::ClassSession;
use cast_wire::Cmd;
use flash_session::Flash;
use mc_group::{GroupAnswer, GroupEnd};
use mc_keys::Key;
use package_grammar::Command;

impl<F: Flash + Drop> Device<F> {
    ghost use Rattle.device_core.specs.HeldDevice.{StepsAside};

    /// McGroupStatusReq.
    pub(super) fn groups(&mut self, here: Arrival, mask: u8)
        requires port { here.port ≡ 200 }
        requires room { length self.old.outbox < 8 }
        ensures { StepsAside self.old self.new 1 (λ device. groups_step here device mask) }
    {
        let answer = self.groups.status(mask);
        self.send(here.moment.t, here.port, Command::Cast(answer));
    }

    /// McGroupSetupReq.
    pub(super) fn group_setup(
        &mut self,
        here: Arrival,
        id: u8,
        addr: u32,
        wrapped: &Key,
        min: u32,
        max: u32,
    )
        requires port { here.port ≡ 200 }
        requires id { id < 4 }
        requires room { length self.old.outbox < 8 }
        ensures { StepsAside self.old self.new 1 (λ device.
            group_setup_step here device id
            (group_of device.config.key device.config.root addr wrapped.now min max)) }
    {
        match self.groups.setup(
            &self.config.key,
            self.config.root,
            id,
            addr,
            wrapped,
            min,
            max,
        ) {
            GroupAnswer::IdError => self.send(here.moment.t, here.port, setup_answer(id, true)),
            GroupAnswer::Ok => self.send(here.moment.t, here.port, setup_answer(id, false)),
        }
    }

    /// McGroupDeleteReq.
    pub(super) fn group_delete(&mut self, here: Arrival, id: u8)
        requires port { here.port ≡ 200 }
        requires id { id < 4 }
        requires room { length self.old.outbox < 8 }
        ensures { StepsAside self.old self.new 1 (λ device. group_delete_step here device id) }
    {
        match self.groups.delete(id) {
            GroupEnd::Undefined => self.send(here.moment.t, here.port, delete_answer(id, true)),
            GroupEnd::Ok => {
                self.class_session = without_group(id, self.class_session);
                self.send(here.moment.t, here.port, delete_answer(id, false));
            }
        }
    }
}

/// The class session of a device without the group of an id.
fn without_group(id: u8, session: Option<ClassSession>) -> Option<ClassSession>
    ensures { result ≡ without_group id session }
{
    match session {
        Some(session) if session.id != id => Some(session),
        _ => None,
    }
}

/// McGroupSetupAns.
fn setup_answer(id: u8, error: bool) -> Command<'static>
    requires { id < 4 }
    ensures value { result ≡ Command.Cast (McGroupSetupAns id error) }
    ensures sendable { IsSendable 200 result }
{
    Command::Cast(Cmd::McGroupSetupAns { id, error })
}

/// McGroupDeleteAns.
fn delete_answer(id: u8, undefined: bool) -> Command<'static>
    requires { id < 4 }
    ensures value { result ≡ Command.Cast (McGroupDeleteAns id undefined) }
    ensures sendable { IsSendable 200 result }
{
    Command::Cast(Cmd::McGroupDeleteAns { id, undefined })
}
