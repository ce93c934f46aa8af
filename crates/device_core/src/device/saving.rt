//! What the device knows, as bytes, and a device that is restored from such bytes.

ghost use Rattle.std.specs.Prelude.{◌≡◌, ◌↔◌, ◌≤◌, length, IsTrue};
ghost use Rattle.image_slots.specs.declared.view.ImageState.{ImageState};
ghost use Rattle.device_core.specs.Saving.{saved_of, IsOver};
ghost use Rattle.device_core.specs.SavingInside.{groups_in};
ghost use Rattle.device_core.specs.SessionTable.{SessionTable};

use super::Device;
use crate::config::DeviceConfig;
use crate::outbox::Outbox;
use crate::saved_fields::{
    NEXT, clock_in, counts_in, flags_in, moment_in, place_in, reboot_in, session_in, take_slots,
};
use crate::saving::{
    MAX_SAVED_DEVICE, RestoreError, SavedDevice, config_bytes, digest_of, put, put_clock,
    put_counts, put_flags, put_groups, put_moment, put_reboot, put_session, put_slots,
    restore_error,
};
use flash_session::Flash;
use mc_group::GroupTable;
use session_store::{CompleteFlags, SessionSize};
use std::alloc::Global;

impl<F: Flash + Drop> Device<F> {
    ghost use Rattle.session_store.specs.declared.state.CompleteFlags.{CompleteFlags};
    ghost use Rattle.session_store.specs.Size.{size_with};
    ghost use Rattle.device_core.specs.Configuration.{Configuration, configured, at_full_size};
    ghost use Rattle.device_core.specs.HeldDevice.{Starts, device_of};
    ghost use Rattle.device_core.specs.HeldSaving.{IsRestored, Resumes, Saves};
    ghost use Rattle.device_core.specs.SavingInside.{Takes};

    /// Returns what it knows as bytes that `restore` takes again, besides the files that its slots hold: to be stored before the
    /// device ends. They hold the keys of its groups, and neither its own key nor its sessions. It takes no memory.
    pub fn save(&self) -> SavedDevice
        ensures bytes { Saves self.now result.items }
        // Whatever came before, `restore` takes them: it is `Corrupt` exactly where no such record has the bytes.
        ensures restorable { (table : SessionTable)
            → IsOver self.now.config (device_of self.now table) }
    {
        self.saved_with(self.sessions.flags())
    }

    /// Restores the device of these bytes, with this configuration, the file that ran, and next, each empty where there was none.
    /// Next is read again, so that it is valid only as what its bytes are. A device whose sessions are held is down until
    /// `power`, and knows which of its files were whole when it was saved; another has no sessions. No flash is called.
    /// `BadConfig` comes exactly as at `reserve`, and first; `Corrupt` exactly where no device of this configuration has these
    /// bytes and files; `Memory` where memory is missing. At an error the flash is dropped.
    pub fn restore(
        alloc: Global,
        config: DeviceConfig,
        flash: F,
        saved: &[u8],
        running: &[u8],
        next: &[u8],
    ) -> Result<Self, RestoreError>
        ensures { IsRestored (at_full_size config) (F.seen flash).room flash saved.now running.now
            next.now result }
    {
        Self::restore_sized(
            alloc,
            config,
            SessionSize::Large,
            flash,
            saved,
            running,
            next,
        )
    }

    /// Restores a device as `restore` does, whose sessions have the size with which it was made by `reserve_sized`.
    pub fn restore_sized(
        alloc: Global,
        config: DeviceConfig,
        size: SessionSize,
        flash: F,
        saved: &[u8],
        running: &[u8],
        next: &[u8],
    ) -> Result<Self, RestoreError>
        ensures { IsRestored (configured (size_with size) config) (F.seen flash).room flash
            saved.now running.now next.now result }
    {
        let mut device = match Self::reserve_sized(alloc, config, size, flash) {
            Ok(device) => device,
            Err(error) => return Err(restore_error(error)),
        };
        if device.resume(saved, running, next) {
            Ok(device)
        } else {
            Err(RestoreError::Corrupt)
        }
    }

    /// Makes of a device at its start the one of these bytes and files, as `restore` does; false exactly where no device of its
    /// configuration has them, and then nothing is known of it. It takes no memory. It is never inlined, nor is what it calls, so
    /// that no caller has their room on its stack beside that of `reserve_sized`.
    #[inline(never)]
    pub fn resume(&mut self, saved: &[u8], running: &[u8], next: &[u8]) -> bool
        requires none { self.old.slots.next ≡ ImageState.None }
        requires formats { self.old.slots.formats ≡ self.old.config.formats }
        ensures { (config : Configuration) (flash : _) → Starts config flash self.old
            → Resumes config flash saved.now running.now next.now self.new result }
    {
        if saved.len() != MAX_SAVED_DEVICE || !self.take_saved(saved, running, next) {
            return false;
        }
        let again = self.saved_with(flags_in(saved));
        if !is_same(again.as_slice(), saved) {
            return false;
        }
        true
    }

    /// Returns the bytes of the file that was received to run next, none where there is none.
    pub fn next_file(&self) -> &[u8]
        ensures { result.now ≡ self.now.slots.next_file }
    {
        self.slots.next_file()
    }

    /// What it knows, with which sessions had their file whole. It is never inlined, as `resume`.
    #[inline(never)]
    #[tactic(auto, unfolding(crate::specs::Saving::saved_of, crate::specs::Saving::state_bytes))]
    fn saved_with(&self, flags: CompleteFlags) -> SavedDevice
        ensures bytes { (table : SessionTable)
            → result.items ≡ saved_of (device_of self.now table) flags }
        ensures over { (table : SessionTable) → IsOver self.now.config (device_of self.now table) }
    {
        let mut saved = SavedDevice::new();
        put_clock(&mut saved, &self.clock);
        put_moment(&mut saved, self.last_due);
        put_groups(&mut saved, &self.groups);
        put_session(&mut saved, self.class_session);
        put_reboot(&mut saved, self.reboot);
        put_counts(&mut saved, self.counts);
        put_slots(&mut saved, &self.slots);
        put_flags(&mut saved, flags);
        self.outbox.put(&mut saved);
        let digest = digest_of(
            saved.as_slice(),
            config_bytes(&self.config).as_slice(),
            self.slots.running().1,
            self.slots.next_file(),
        );
        put(&mut saved, &digest);
        saved
    }

    /// Takes the fields of bytes that may not be a device's, and the files; false exactly where a file has no room, there is a
    /// file without a next, what runs is no image of the version that is told, or an uplink is none.
    fn take_saved(&mut self, saved: &[u8], running: &[u8], next: &[u8]) -> bool
        requires long { length saved.now ≡ 492 }
        requires none { self.old.slots.next ≡ ImageState.None }
        requires formats { self.old.slots.formats ≡ self.old.config.formats }
        ensures { Takes self.old self.new saved.now running.now next.now result }
    {
        let area = self.config.area as usize;
        if running.len() > area || next.len() > area {
            return false;
        }
        if saved[NEXT] == 0 && !next.is_empty() {
            return false;
        }
        let Some(outbox) = Outbox::read(saved) else {
            return false;
        };
        if !take_slots(&mut self.slots, saved, running, next) {
            return false;
        }
        self.outbox = outbox;
        self.clock = clock_in(saved);
        self.last_due = moment_in(saved);
        take_groups(&mut self.groups, self.config.groups, saved);
        self.class_session = session_in(saved);
        self.reboot = reboot_in(saved);
        self.counts = counts_in(saved);
        if self.sessions.is_down() {
            self.sessions.set_flags(flags_in(saved));
        }
        true
    }
}

/// Puts the groups that bytes say into a table of so many ids.
fn take_groups(groups: &mut GroupTable, number: u8, saved: &[u8])
    requires few { number ≤ 4 }
    requires places { length groups.old ≡ number }
    requires long { 460 ≤ length saved.now }
    ensures groups { groups.new ≡ groups_in saved.now number }
    ensures places { length groups.new ≡ number }
{
    for id in 0..number {
        groups.put(id, place_in(saved, id));
    }
}

/// Whether the bytes are the same.
fn is_same(some: &[u8], others: &[u8]) -> bool
    ensures { IsTrue result ↔ (some.now ≡ others.now) }
{
    some == others
}
