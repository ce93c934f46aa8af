//! Which package a command goes to, and the weights of a message.

ghost use Rattle.std.specs.Prelude.{◌≡◌, ◌+◌, ◌<◌, ◌≤◌, length};
ghost use Rattle.package_grammar.specs.declared.command.Command.{Command};
ghost use Rattle.package_grammar.specs.Grammar.{IsValid};
ghost use Rattle.sync_wire.specs.declared.cmd.Cmd.TheVariants.{PackageVersionAns};
ghost use Rattle.cast_wire.specs.declared.cmd.Cmd.TheVariants as cast;
ghost use Rattle.device_core.specs.Answers.{one_answer};
ghost use Rattle.device_core.specs.Device.{max_moment};
ghost use Rattle.device_core.specs.Step.{identifier_of, command_step, acts, step, weight, weights};
ghost use Rattle.device_core.specs.Passed.{command_tables, step_tables};
ghost use Rattle.device_core.specs.HeldSessions.{IsUp};
ghost use Rattle.device_core.specs.HeldPayloads.{Attempts};
ghost use Rattle.device_core.specs.Sendable.{IsSendable, IsReceivable};
ghost use Rattle.device_core.specs.Aside.{IsAside};

use super::Device;
use crate::arrival::Arrival;
use crate::class_session::{ClassSession, Kind};
use flash_session::Flash;
use frag_session::{SetupReq, Via};
use package_grammar::{Command, Message};
use session_store::FlashFault;

impl<F: Flash + Drop> Device<F> {
    ghost use Rattle.device_core.specs.HeldDevice.{StepsAside};

    /// Acts on one command; by multicast only DataFragment and FragSessionStatusReq act (this project's profile).
    #[tactic(auto, unfolding(crate::specs::Step::step, crate::specs::Answers::after_answers, crate::specs::Passed::step_tables))]
    pub(super) fn act(&mut self, here: Arrival, command: &Command) -> Result<(), FlashFault>
        requires up { IsUp self.old.sessions.state }
        requires moment { here.moment.t ≤ max_moment }
        requires command { IsReceivable here.port command.now }
        requires room { length self.old.outbox + weight command.now ≤ 8 }
        ensures { Attempts F.seen self.old self.new result
            (weight command.now) (λ device. step here device command.now)
            (λ device. step_tables here device command.now) }
    {
        if acts(here.via, command) {
            self.act_on_one(here, command)
        } else {
            Ok(())
        }
    }

    /// Acts on one command that came by unicast, or acts by multicast too.
    fn act_on_one(&mut self, here: Arrival, command: &Command) -> Result<(), FlashFault>
        requires up { IsUp self.old.sessions.state }
        requires moment { here.moment.t ≤ max_moment }
        requires command { IsReceivable here.port command.now }
        requires room { length self.old.outbox + weight command.now ≤ 8 }
        ensures { Attempts F.seen self.old self.new result
            (weight command.now) (λ device. command_step here device command.now)
            (λ device. command_tables here device command.now) }
    {
        match command {
            Command::Sync(cmd) => {
                self.act_on_sync(here, cmd);
                Ok(())
            }
            Command::Cast(cmd) => self.act_on_cast(here, cmd),
        }
    }

    /// The commands of TS003 and TS006.
    #[tactic(auto, unfolding(crate::specs::Step::command_step, crate::specs::Clock::answer_step, crate::specs::Answers::after_answers))]
    fn act_on_sync(&mut self, here: Arrival, cmd: &sync_wire::Cmd)
        requires command { IsReceivable here.port (Command.Sync cmd.now) }
        requires room { length self.old.outbox + weight (Command.Sync cmd.now) ≤ 8 }
        ensures { StepsAside self.old self.new (weight (Command.Sync cmd.now))
            (λ device. command_step here device (Command.Sync cmd.now)) }
    {
        use sync_wire::Cmd;
        match cmd {
            Cmd::PackageVersionReq => self.sync_package(here),
            Cmd::AppTimeAns { correction, token } => self.take_time(*correction, *token),
            Cmd::DeviceAppTimePeriodicityReq { .. } => self.periodicity(here),
            Cmd::ForceDeviceResyncReq { count } => self.resync(here, *count),
            Cmd::DevVersionReq => self.version(here),
            Cmd::DevRebootTimeReq { time } => self.reboot_time(here, *time),
            Cmd::DevRebootCountdownReq { count } => self.countdown(here, *count),
            Cmd::DevUpgradeImageReq => self.upgrade(here),
            Cmd::DevDeleteImageReq { version } => self.delete_image(here, *version),
            _ => {}
        }
    }

    /// The commands of TS004 and TS005.
    #[tactic(auto, unfolding(crate::specs::Step::command_step, crate::specs::Answers::after_answers, crate::specs::Passed::command_tables))]
    fn act_on_cast(&mut self, here: Arrival, cmd: &cast_wire::Cmd) -> Result<(), FlashFault>
        requires up { IsUp self.old.sessions.state }
        requires moment { here.moment.t ≤ max_moment }
        requires command { IsReceivable here.port (Command.Cast cmd.now) }
        requires room { length self.old.outbox + weight (Command.Cast cmd.now) ≤ 8 }
        ensures { Attempts F.seen self.old self.new result
            (weight (Command.Cast cmd.now))
            (λ device. command_step here device (Command.Cast cmd.now))
            (λ device. command_tables here device (Command.Cast cmd.now)) }
    {
        use cast_wire::Cmd;
        match cmd {
            Cmd::FragSessionSetupReq {
                index,
                mask,
                nb_frag,
                frag_size,
                algo,
                delay,
                padding,
                descriptor,
            } => self.setup(
                here,
                SetupReq {
                    index: *index,
                    mask: *mask,
                    nb_frag: *nb_frag,
                    frag_size: *frag_size,
                    algo: *algo,
                    delay: *delay,
                    padding: *padding,
                    descriptor: *descriptor,
                },
            ),
            Cmd::FragSessionDeleteReq { index } => self.delete(here, *index),
            Cmd::DataFragment { index, n, bytes } => {
                self.fragment(here, *index, *n, bytes.as_slice())
            }
            Cmd::FragSessionStatusReq { index, all } => {
                self.status(here, *index, *all);
                Ok(())
            }
            _ => {
                self.act_aside(here, cmd);
                Ok(())
            }
        }
    }

    /// The commands of TS004 and TS005 that belong to no session.
    #[tactic(auto, unfolding(crate::specs::Step::command_step, crate::specs::Answers::after_answers))]
    fn act_aside(&mut self, here: Arrival, cmd: &cast_wire::Cmd)
        requires aside { IsAside cmd.now }
        requires command { IsReceivable here.port (Command.Cast cmd.now) }
        requires room { length self.old.outbox + weight (Command.Cast cmd.now) ≤ 8 }
        ensures { StepsAside self.old self.new (weight (Command.Cast cmd.now))
            (λ device. command_step here device (Command.Cast cmd.now)) }
    {
        use cast_wire::Cmd;
        match cmd {
            Cmd::PackageVersionReq => self.cast_package(here),
            Cmd::McGroupStatusReq { mask } => self.groups(here, *mask),
            Cmd::McGroupSetupReq {
                id,
                addr,
                key,
                min,
                max,
            } => self.group_setup(here, *id, *addr, key, *min, *max),
            Cmd::McGroupDeleteReq { id } => self.group_delete(here, *id),
            Cmd::McClassCSessionReq {
                id,
                time,
                timeout,
                freq,
                dr,
            } => self.class_request(
                here,
                ClassSession {
                    id: *id,
                    kind: Kind::ClassC,
                    time: *time,
                    timeout: *timeout,
                },
                *freq,
                *dr,
            ),
            Cmd::McClassBSessionReq {
                id,
                time,
                periodicity,
                timeout,
                freq,
                dr,
            } => self.class_request(
                here,
                ClassSession {
                    id: *id,
                    kind: Kind::ClassB {
                        periodicity: *periodicity,
                    },
                    time: *time,
                    timeout: *timeout,
                },
                *freq,
                *dr,
            ),
            _ => {}
        }
    }

    /// PackageVersionReq of TS003 and TS006.
    fn sync_package(&mut self, here: Arrival)
        requires port { IsSendable here.port
            (Command.Sync (PackageVersionAns (identifier_of here.port) 1)) }
        requires room { length self.old.outbox < 8 }
        ensures { StepsAside self.old self.new 1
            (λ device. one_answer here device
            (Command.Sync (PackageVersionAns (identifier_of here.port) 1))) }
    {
        self.send(
            here.moment.t,
            here.port,
            Command::Sync(sync_wire::Cmd::PackageVersionAns {
                identifier: identifier_of(here.port),
                version: 1,
            }),
        );
    }

    /// PackageVersionReq of TS004 and TS005.
    fn cast_package(&mut self, here: Arrival)
        requires port { IsSendable here.port
            (Command.Cast (cast.PackageVersionAns (identifier_of here.port) 1)) }
        requires room { length self.old.outbox < 8 }
        ensures { StepsAside self.old self.new 1
            (λ device. one_answer here device
            (Command.Cast (cast.PackageVersionAns (identifier_of here.port) 1))) }
    {
        self.send(
            here.moment.t,
            here.port,
            Command::Cast(cast_wire::Cmd::PackageVersionAns {
                identifier: identifier_of(here.port),
                version: 1,
            }),
        );
    }
}

/// The identifier of the package of a port.
fn identifier_of(port: u8) -> u8
    ensures { result ≡ identifier_of port }
{
    match port {
        200 => 2,
        201 => 3,
        202 => 1,
        _ => 4,
    }
}

/// Whether a command that came this way acts.
fn acts(via: Via, command: &Command) -> bool
    ensures { result ≡ acts via command.now }
{
    match via {
        Via::Unicast => true,
        Via::Group(_) => matches!(
            command,
            Command::Cast(
                cast_wire::Cmd::DataFragment { .. } | cast_wire::Cmd::FragSessionStatusReq { .. }
            )
        ),
    }
}

/// Returns how many uplinks the commands of a message make at most.
pub fn weights(mut message: Message<'_>) -> u16
    requires { length message.commands ≤ 242 }
    ensures weight { result ≡ weights message.entry.commands }
    ensures few { result ≤ 1694 }
{
    let mut sum = 0;
    while let Some(command) = message.next() {
        sum += weight(&command);
    }
    sum
}

/// How many uplinks a command makes at most.
fn weight(command: &Command) -> u16
    requires { IsValid command.now }
    ensures weight { result ≡ weight command.now }
    ensures few { result ≤ 7 }
{
    match command {
        Command::Cast(cast_wire::Cmd::DataFragment { .. }) => 0,
        Command::Sync(sync_wire::Cmd::AppTimeAns { .. }) => 0,
        Command::Sync(sync_wire::Cmd::ForceDeviceResyncReq { count }) => u16::from(*count),
        _ => 1,
    }
}
