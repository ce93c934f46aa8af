//! A device: its public calls, and the order of their checks.

ghost use Rattle.std.specs.Prelude.{◌≡◌, ◌+◌, ◌<◌, ◌≤◌, true, false, length, Option, None, Some, Ok, Result, IfSome, option_map};
ghost use Rattle.frag_session.specs.Session.{view_of};
ghost use Rattle.frag_session.specs.HeldView.{seen};
ghost use Rattle.device_core.specs.SessionTable.{SessionTable, session_at};
ghost use Rattle.device_core.specs.Device.{DeviceState, max_moment};
ghost use Rattle.device_core.specs.Firmware.{after_migration};
ghost use Rattle.device_core.specs.Deliver.{waking, taking};
ghost use Rattle.device_core.specs.HeldSessions.{IsUp, IsDown, IsInFlash};
ghost use Rattle.device_core.specs.HeldPayloads.{Delivers, Airs};
ghost use Rattle.device_core.specs.HeldPower.{Powers};

mod acting;
mod clock;
mod firmware;
mod fragments;
mod groups;
mod hearing;
mod radio;
mod saving;
mod windows;

use crate::class_session::ClassSession;
use crate::config::{DeviceConfig, ReserveError, has_ranges, is_config, layout_of};
use crate::counts::Counts;
use crate::delivered::{Aired, Delivered, OutboxFull};
use crate::moment::Moment;
use crate::outbox::Outbox;
use crate::uplink::{Answer, Uplink};
use clock_sync::DeviceClock;
use flash_session::{Flash, OpenFault};
use frag_session::View;
use fragments::offer;
use image_slots::Slots;
use mc_group::GroupTable;
use package_grammar::{Command, Downlink, DownlinkRef};
use session_store::{FlashFault, SessionSize, SessionStore, size_for};
use std::alloc::Global;
use std::marker::Model;

/// A device with its clock, groups, sessions and image slots. Contracts see what it holds, and say what each call does to every
/// record of `specs/Device` that it stands for.
#[derive(Drop)]
pub struct Device<F: Flash + Drop> {
    config: DeviceConfig,
    size: SessionSize,
    clock: DeviceClock,
    /// When the uplink made last is due, in ms of true time.
    last_due: Option<u64>,
    groups: GroupTable,
    class_session: Option<ClassSession>,
    /// In memory, in its flash, or down.
    sessions: SessionStore<F>,
    slots: Slots,
    /// The moment at which it reboots, in seconds of its clock.
    reboot: Option<u32>,
    outbox: Outbox,
    counts: Counts,
}

impl<F: Flash + Drop> Model for Device<F> {
    ghost use Rattle.device_core.specs.HeldDevice.{HeldDevice};
    ghost use Rattle.session_store.specs.Size.{size_with};
    ghost use Rattle.device_core.specs.Configuration.{configured};
    ghost use Rattle.device_core.specs.DeviceInside.{IsDevice};

    ghost Value = { HeldDevice F };

    ghost view = { λ d. record {
      config = configured (size_with d.size) d.config;
      clock = d.clock;
      last_due = d.last_due;
      groups = d.groups;
      class_session = d.class_session;
      sessions = d.sessions;
      slots = d.slots.slots;
      reboot = d.reboot;
      outbox = d.outbox;
      counts = d.counts;
    } };

    ghost invariant = { λ d.
        IsDevice (configured (size_with d.size) d.config) d.groups d.class_session d.sessions
        d.slots };
}

impl<F: Flash + Drop> Device<F> {
    ghost use Rattle.std.specs.Prelude.{◌∷◌, []};
    ghost use Rattle.device_core.specs.declared.uplink.Uplink.{Uplink};
    ghost use Rattle.device_core.specs.declared.uplink.Answer.{Answer};
    ghost use Rattle.device_core.specs.declared.delivered.Aired.{Aired};
    ghost use Rattle.device_core.specs.declared.delivered.Delivered.{Delivered};
    ghost use Rattle.device_core.specs.declared.delivered.OutboxFull.{OutboxFull};
    ghost use Rattle.session_store.specs.Size.{size_with};
    ghost use Rattle.device_core.specs.Configuration.{configured, at_full_size, at_least_size};
    ghost use Rattle.device_core.specs.HeldDevice.{DeviceStands, Becomes, Makes, GoesAside, IsReserved, TakesOldest, device_of, held_with_answers};
    ghost use Rattle.device_core.specs.Sendable.{IsSendable, IsUplink};

    /// Makes a device at its start, with all memory that it ever needs. `BadConfig` comes exactly where a number of the
    /// configuration is out of its bounds, or its sessions are to be held and the flash has no room for them; `Memory` where
    /// memory is missing. No flash is called; a device whose sessions are held is down until `power`. At an error the flash is
    /// dropped.
    pub fn reserve(alloc: Global, config: DeviceConfig, flash: F) -> Result<Self, ReserveError>
        ensures { IsReserved (at_full_size config) (F.seen flash).room flash result }
    {
        Self::reserve_sized(alloc, config, SessionSize::Large, flash)
    }

    /// Makes a device as `reserve` does, whose sessions have the least size that has the configuration's rows for any file: it
    /// refuses and hears what that of `reserve` does (`rows_decide` of `session_store`), and takes less memory.
    pub fn reserve_least(
        alloc: Global,
        config: DeviceConfig,
        flash: F,
    ) -> Result<Self, ReserveError>
        ensures { IsReserved (at_least_size config) (F.seen flash).room flash result }
    {
        Self::reserve_sized(alloc, config, size_for(config.rows), flash)
    }

    /// Makes a device as `reserve` does, whose sessions have room for files of a size alone, which takes less memory: a setup of
    /// more pieces or rows is refused with bit 2. It is never inlined, as `resume`.
    #[inline(never)]
    pub fn reserve_sized(
        alloc: Global,
        config: DeviceConfig,
        size: SessionSize,
        flash: F,
    ) -> Result<Self, ReserveError>
        ensures { IsReserved (configured (size_with size) config) (F.seen flash).room flash result }
    {
        if !(has_ranges(&config, flash.size()) && is_config(&config)) {
            return Err(ReserveError::BadConfig);
        }
        let layout = layout_of(&config);
        let Ok(slots) = Slots::reserve(alloc, config.area, config.hw, config.formats) else {
            return Err(ReserveError::Memory);
        };
        // this comes last, so that no error has to return sessions
        let Ok(sessions) = SessionStore::reserve(alloc, flash, layout, size, config.held) else {
            return Err(ReserveError::Memory);
        };
        Ok(Device {
            config,
            size,
            clock: DeviceClock::new(config.offset),
            last_due: None,
            groups: GroupTable::new(config.groups),
            class_session: None,
            sessions,
            slots,
            reboot: None,
            outbox: Outbox::new(),
            counts: Counts {
                deaf: 0,
                refused: 0,
                full: 0,
                dropped: 0,
            },
        })
    }

    /// Takes a payload at `t` ms of true time, at most 4,294,967,295,999 (the last ms of second 2^32 - 1). If it is heard, can be
    /// read and the outbox has room, its commands act in order. `word` is a random word, and `mark` the number that a verdict on
    /// a file reports. A reboot that is due is carried out before and after all this. While its sessions are down the answer is
    /// `Down`. `FlashFault` comes only where the flash failed: the commands before it acted, no other did, no reboot is carried
    /// out after them, and the sessions are down. It takes no memory.
    pub fn deliver(&mut self, t: u64, down: &Downlink, word: u32, mark: u64) -> Delivered
        requires { t ≤ max_moment }
        ensures { Delivers F.seen self.old self.new result
            t word mark down.now }
    {
        self.receive(t, &DownlinkRef::of(down), word, mark)
    }

    /// Takes a payload, as `deliver` does; its bytes are borrowed.
    pub fn receive(&mut self, t: u64, down: &DownlinkRef<'_>, word: u32, mark: u64) -> Delivered
        requires { t ≤ max_moment }
        ensures { Delivers F.seen self.old self.new result
            t word mark down.now }
    {
        if self.sessions.is_down() {
            return Delivered::Down;
        }
        self.reboot_where_due(t);
        match self.hear(Moment { t, word, mark }, down) {
            Ok(delivered) => {
                self.reboot_where_due(t);
                delivered
            }
            Err(FlashFault) => Delivered::FlashFault,
        }
    }

    /// Takes bytes that the radio heard at `t` ms of true time, at most 4,294,967,295,999. Where they are a frame of the class
    /// session's group, with a count from its minMcFCount to below its maxMcFCount, and one of the 65,536 from minMcFCount on,
    /// their payload comes to that group as in `deliver`. Other bytes are `Foreign`: they change only the deaf counter, and a
    /// reboot that is due is carried out. While its sessions are down the answer is Heard(Down), whatever the bytes are. It takes
    /// no memory.
    #[tactic(auto, unfolding(crate::specs::Radio::radio))]
    pub fn radio(&mut self, t: u64, bytes: &[u8], word: u32, mark: u64) -> Aired
        requires { t ≤ max_moment }
        ensures { Airs F.seen self.old self.new result
            t word mark bytes.now }
    {
        if self.sessions.is_down() {
            return Aired::Heard(Delivered::Down);
        }
        match self.brought(bytes) {
            Ok(down) => Aired::Heard(self.deliver(t, &down, word, mark)),
            Err(fault) => {
                self.pass_over(t);
                Aired::Foreign(fault)
            }
        }
    }

    /// Wakes the device at `t` ms of true time, at most 4,294,967,295,999: it asks for the time (AppTimeReq). `OutboxFull` comes
    /// exactly where 8 uplinks are held. A reboot that is due is carried out before and after.
    #[tactic(auto, unfolding(crate::specs::Deliver::waking))]
    pub fn wake(&mut self, t: u64) -> Result<(), OutboxFull>
        requires { t ≤ max_moment }
        ensures makes { Makes (Result (Unit {0}) OutboxFull) self.old self.new result (waking t) }
        // It does so while its sessions are down too, and leaves them untouched.
        ensures aside { GoesAside self.old self.new (λ device. (waking t device).device) }
        ensures answer { (table : SessionTable)
            → result ≡ (waking t (device_of self.old table)).answer }
    {
        self.reboot_where_due(t);
        let asked = self.ask_time(t);
        self.reboot_where_due(t);
        asked
    }

    /// Says whether an uplink is held.
    pub fn has_uplink(&self) -> bool
        ensures some { result ≡ true → 0 < length self.now.outbox }
        ensures none { result ≡ false → self.now.outbox ≡ [] }
    {
        !self.outbox.is_empty()
    }

    /// Takes the oldest uplink; None exactly where none is held. Its payload is one command in its canonical spelling.
    pub fn take_uplink(&mut self) -> Option<Uplink>
        ensures makes { Makes (Option Uplink) self.old self.new result taking }
        ensures aside { GoesAside self.old self.new (λ device. (taking device).device) }
        ensures oldest { TakesOldest self.old.outbox self.new.outbox result }
        ensures uplink { IfSome result (λ u. IsUplink u) }
    {
        self.outbox.take()
    }

    /// Takes the oldest uplink, as `take_uplink` does, and writes it into the caller's uplink, which has no bytes; one must be
    /// held.
    pub fn take_uplink_into(&mut self, uplink: &mut Uplink)
        requires held { 0 < length self.old.outbox }
        requires empty { uplink.old.payload ≡ [] }
        ensures makes { Makes (Option Uplink) self.old self.new (Some uplink.new) taking }
        ensures aside { GoesAside self.old self.new (λ device. (taking device).device) }
        ensures oldest { TakesOldest self.old.outbox self.new.outbox (Some uplink.new) }
        ensures uplink { IsUplink uplink.new }
    {
        self.outbox.take_into(uplink);
    }

    /// Drops all uplinks that are held.
    pub fn drop_uplinks(&mut self)
        ensures becomes { Becomes self.old self.new (λ device. record device { outbox = [] }) }
        ensures aside { GoesAside self.old self.new (λ device. record device { outbox = [] }) }
    {
        self.outbox.clear();
    }

    /// Makes both image formats known from now on, and reads what was received to run next again. No reboot is carried out.
    #[tactic(auto, using(crate::proofs::SavedSlots::raise_knows_both), unfolding(crate::specs::Firmware::after_migration))]
    pub fn raise(&mut self)
        ensures becomes { Becomes self.old self.new after_migration }
        ensures aside { GoesAside self.old self.new after_migration }
    {
        self.slots.raise();
    }

    /// Opens the sessions that are held in its flash, and offers to next, by rising index, each file that is whole now and was
    /// not when the device was last up. At an error the sessions are down. `Flash` comes only where the flash failed; `Foreign`
    /// names the lowest foreign place of the first session's range that has one, counted from the range's first byte.
    pub fn power(&mut self) -> Result<(), OpenFault>
        requires { self.old.sessions.held ≡ true }
        ensures { Powers F.seen self.old self.new result }
    {
        match self.sessions.power() {
            Ok(whole) => {
                offer(&mut self.slots, &self.sessions, 0, whole.first);
                offer(&mut self.slots, &self.sessions, 1, whole.second);
                offer(&mut self.slots, &self.sessions, 2, whole.third);
                offer(&mut self.slots, &self.sessions, 3, whole.fourth);
                Ok(())
            }
            Err(fault) => Err(fault),
        }
    }

    /// Says whether its sessions are held in its flash.
    pub fn is_held(&self) -> bool
        ensures held { result ≡ self.now.sessions.held }
        ensures in_flash { result ≡ true → IsInFlash self.now.sessions.state }
        ensures in_memory { result ≡ false → IsInFlash self.now.sessions.state → ⊥ }
    {
        self.sessions.is_held()
    }

    /// Says whether its sessions are down until `power`.
    pub fn is_down(&self) -> bool
        ensures down { result ≡ true → IsDown self.now.sessions.state }
        ensures up { result ≡ false → IsUp self.now.sessions.state }
    {
        self.sessions.is_down()
    }

    /// Returns the flash, to look at.
    pub fn flash(&self) -> &F
        ensures { result.now ≡ self.now.sessions.flash }
    {
        self.sessions.flash()
    }

    /// Returns the flash.
    pub fn close(self) -> F
        ensures { result ≡ self.sessions.flash }
    {
        let Device {
            config: _config,
            size: _size,
            clock: _clock,
            last_due: _last_due,
            groups: _groups,
            class_session: _class_session,
            sessions,
            slots: _slots,
            reboot: _reboot,
            outbox: _outbox,
            counts: _counts,
        } = self;
        sessions.close()
    }

    /// Returns what the session of an index, 0 to 3, shows; None exactly where there is none, or its sessions are down.
    pub fn session(&self, index: u8) -> Option<View<'_>>
        requires { index < 4 }
        ensures shows { (device : DeviceState) → DeviceStands self.now device
            → option_map seen result ≡ view_of (session_at device.sessions index) }
        ensures down { IsDown self.now.sessions.state → result ≡ None }
    {
        self.sessions.view(index)
    }

    /// Returns what it runs, and what was received to run next. Whatever came, it runs an image file for its hardware, or what it
    /// came with, without a file.
    pub fn slots(&self) -> &Slots
        ensures { result.now.slots ≡ self.now.slots }
    {
        &self.slots
    }

    /// Returns the seconds that its clock is ahead of true time, modulo 2^32, and the token of its next AppTimeReq.
    pub fn clock(&self) -> (u32, u8)
        ensures offset { result.0 ≡ self.now.clock.offset }
        ensures token { result.1 ≡ self.now.clock.token }
    {
        (self.clock.offset(), self.clock.token())
    }

    /// Returns its counters.
    pub fn counts(&self) -> Counts
        ensures { result ≡ self.now.counts }
    {
        self.counts
    }

    /// Puts an answer into the outbox.
    fn send(&mut self, due: u64, port: u8, command: Command<'_>)
        requires sendable { IsSendable port command }
        requires room { length self.old.outbox < 8 }
        ensures { let answer : Answer =
            record { due = due; port = port; command = command.entry } in
            self.new ≡ held_with_answers self.old (answer ∷ []) }
    {
        self.last_due = Some(due);
        self.outbox.push(Answer { due, port, command });
    }
}
