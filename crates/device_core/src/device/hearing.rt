//! A payload comes: whether it is heard, what is read of it, and whether its commands act.

ghost use Rattle.std.specs.Prelude.{◌≡◌, ◌+◌, ◌<◌, ◌≤◌, [], ◌∷◌, length, Ok};
ghost use Rattle.wire_base.specs.declared.refusal.Direction.{Direction};
ghost use Rattle.cast_wire.specs.declared.cmd.Cmd.TheVariants.{DataFragment};
ghost use Rattle.package_grammar.specs.declared.command.Command.TheVariants.{Cast};
ghost use Rattle.package_grammar.specs.Reading.{reading_of};
ghost use Rattle.device_core.specs.Deliver.{message_delivery, read_delivery, heard_delivery, arrival};
ghost use Rattle.device_core.specs.Device.{max_moment, after_deaf, after_refused, after_full, after_dropped, with_counts};
ghost use Rattle.device_core.specs.Firmware.{after_due_reboot};
ghost use Rattle.device_core.specs.HeldPayloads.{Hears, ActsOn};
ghost use Rattle.device_core.specs.HeldSessions.{IsUp};
ghost use Rattle.device_core.specs.Passed.{message_tables, read_tables, heard_tables};
ghost use Rattle.device_core.specs.Step.{weights};

use super::Device;
use super::acting::weights;
use super::windows::via_of;
use crate::arrival::Arrival;
use crate::delivered::Delivered;
use crate::moment::Moment;
use crate::outbox::OUTBOX;
use cast_wire::Fragment;
use flash_session::Flash;
use package_grammar::{DownlinkRef, Message};
use session_store::FlashFault;
use wire_base::Direction;

impl<F: Flash + Drop> Device<F> {
    ghost use Rattle.device_core.specs.HeldDevice.{Becomes};

    /// Reads a payload that is heard, and counts one that is not.
    #[tactic(auto, unfolding(crate::specs::Deliver::heard_delivery, crate::specs::Passed::heard_tables))]
    pub(super) fn hear(
        &mut self,
        moment: Moment,
        down: &DownlinkRef<'_>,
    ) -> Result<Delivered, FlashFault>
        requires moment { moment.t ≤ max_moment }
        requires up { IsUp self.old.sessions.state }
        ensures { Hears F.seen self.old self.new result
            (heard_delivery moment.t moment.word moment.mark down.now)
            (arrival moment.t moment.word moment.mark down.now)
            (reading_of down.now.port Direction.Down down.now.payload)
            (heard_tables moment.t moment.word moment.mark down.now) }
    {
        if !self.hears(moment.t, down.to()) {
            self.count_deaf();
            return Ok(Delivered::Deaf);
        }
        let here = Arrival {
            moment,
            via: via_of(self.class_session, down.to()),
            port: down.port(),
        };
        self.read(here, down.bytes())
    }

    /// Acts on what is read of a payload, and counts one that is refused.
    #[tactic(auto, unfolding(crate::specs::Deliver::read_delivery, crate::specs::Passed::read_tables))]
    fn read(&mut self, here: Arrival, payload: &[u8]) -> Result<Delivered, FlashFault>
        requires moment { here.moment.t ≤ max_moment }
        requires up { IsUp self.old.sessions.state }
        ensures { let reading = reading_of here.port Direction.Down payload.now in
            Hears F.seen self.old self.new result
            (λ device. read_delivery here device reading) (λ device. here) reading
            (λ device. read_tables here device reading) }
    {
        match Message::read(here.port, Direction::Down, payload) {
            Ok(message) => self.take(here, message),
            Err(refusal) => {
                self.count_refused();
                Ok(Delivered::Refused(refusal))
            }
        }
    }

    /// Acts on a message where the outbox has room for its weights.
    #[tactic(auto, unfolding(crate::specs::Deliver::message_delivery, crate::specs::Passed::message_tables))]
    fn take(&mut self, here: Arrival, message: Message<'_>) -> Result<Delivered, FlashFault>
        requires moment { here.moment.t ≤ max_moment }
        requires up { IsUp self.old.sessions.state }
        requires port { message.port ≡ here.port }
        requires direction { message.direction ≡ Direction.Down }
        requires few { length message.commands ≤ 242 }
        ensures { Hears F.seen self.old self.new result
            (λ device. message_delivery here device message.entry.commands) (λ device. here)
            (Ok message.entry.commands)
            (λ device. message_tables here device message.entry.commands) }
    {
        let held = self.outbox.len() as u16;
        if let Some(fragment) = message.fragment() {
            return match self.take_fragment(here, fragment) {
                Ok(()) => Ok(Delivered::Done),
                Err(FlashFault) => Err(FlashFault),
            };
        }
        let n = held + weights(message.again());
        if n as usize > OUTBOX {
            self.count_full();
            return Ok(Delivered::OutboxFull(n));
        }
        match self.act_on(here, message) {
            Ok(()) => Ok(Delivered::Done),
            Err(FlashFault) => Err(FlashFault),
        }
    }

    /// Acts on a DataFragment that is a message by itself.
    fn take_fragment(&mut self, here: Arrival, fragment: Fragment<'_>) -> Result<(), FlashFault>
        requires up { IsUp self.old.sessions.state }
        requires index { fragment.index < 4 }
        ensures { ActsOn F.seen self.old self.new result here
            (Cast (DataFragment fragment.entry.index fragment.entry.n fragment.entry.bytes.now)
            ∷ []) }
    {
        self.fragment(here, fragment.index, fragment.n, fragment.bytes)
    }

    /// Acts on the commands of a message, one after another.
    fn act_on(&mut self, here: Arrival, mut message: Message<'_>) -> Result<(), FlashFault>
        requires moment { here.moment.t ≤ max_moment }
        requires up { IsUp self.old.sessions.state }
        requires port { message.port ≡ here.port }
        requires direction { message.direction ≡ Direction.Down }
        requires room { length self.old.outbox + weights message.commands ≤ 8 }
        ensures { ActsOn F.seen self.old self.new result here
            message.entry.commands }
    {
        while let Some(command) = message.next() {
            self.act(here, &command)?;
        }
        Ok(())
    }

    /// Counts bytes that are no frame for the device.
    pub(super) fn pass_over(&mut self, t: u64)
        ensures becomes { Becomes self.old self.new
            (λ device. with_counts after_deaf (after_due_reboot t device)) }
        ensures untouched { self.new.sessions ≡ self.old.sessions }
    {
        self.reboot_where_due(t);
        self.count_deaf();
    }

    fn count_deaf(&mut self)
        ensures { self.new ≡ record self.old { counts = after_deaf self.old.counts } }
    {
        self.counts.deaf = self.counts.deaf.saturating_add(1);
    }

    fn count_refused(&mut self)
        ensures { self.new ≡ record self.old { counts = after_refused self.old.counts } }
    {
        self.counts.refused = self.counts.refused.saturating_add(1);
    }

    fn count_full(&mut self)
        ensures { self.new ≡ record self.old { counts = after_full self.old.counts } }
    {
        self.counts.full = self.counts.full.saturating_add(1);
    }

    pub(super) fn count_dropped(&mut self)
        ensures { self.new ≡ record self.old { counts = after_dropped self.old.counts } }
    {
        self.counts.dropped = self.counts.dropped.saturating_add(1);
    }
}
