//! The two image slots of a device.

ghost use Rattle.std.specs.Prelude.{◌≡◌, ◌↔◌, ◌≤◌, ℕ, length, true, false, IsTrue, IfOk, vec_capacity};
ghost use Rattle.image_slots.specs.Slots.{RunsImage, AreSound, HaveRoom, first_slots, without_next, with_running, after_offer, after_swap, delete_bits, after_delete, read_again, after_raise};

use crate::view::{ImageState, ImageView};
use std::alloc::Global;
use std::marker::Model;
use thiserror::Error;

/// There was not enough memory.
#[derive(Clone, Copy, Debug, PartialEq, Eq, Error)]
#[error("out of memory")]
pub struct Memory;

/// What a device runs, and the file that it received to run next (TS006-1.0.0). Its memory is taken once.
#[derive(Drop)]
pub struct Slots {
    /// The device's hardware version.
    hw: u32,
    /// The image formats that are known: only 1 (1), or both (2).
    formats: u8,
    /// The bytes that each slot has room for.
    area: u32,
    /// The version that runs.
    version: u32,
    running: Vec<u8>,
    next: ImageState,
    next_file: Vec<u8>,
}

impl Model for Slots {
    ghost use Rattle.std.specs.Prelude.{◌≤◌, vec_capacity};
    ghost use Rattle.image_slots.specs.HeldSlots.{HeldSlots};
    ghost use Rattle.image_slots.specs.Slots.{AreSound, HaveRoom};

    ghost Value = { HeldSlots };

    ghost view = { λ s. record {
      hw = s.hw;
      area = s.area;
      slots = record { formats = s.formats; version = s.version; running = s.running.items; next = s.next; next_file = s.next_file.items };
    } };

    ghost invariant = { λ s. (s.area ≤ vec_capacity s.running) × (s.area ≤ vec_capacity s.next_file)
        × AreSound (λ version. Unit {0}) s.hw (record { formats = s.formats; version = s.version; running = s.running.items; next = s.next; next_file = s.next_file.items })
        × HaveRoom s.area (record { formats = s.formats; version = s.version; running = s.running.items; next = s.next; next_file = s.next_file.items }) };
}

impl Slots {
    /// Takes the memory of slots for files of at most `area` bytes on this hardware version, of only format 1 (`formats` 1) or of
    /// both (2). Version 0 runs, without a file, and next is none. `Memory` comes where memory is missing.
    pub fn reserve(alloc: Global, area: u32, hw: u32, formats: u8) -> Result<Self, Memory>
        ensures { IfOk result
            (λ s. s ≡ record { hw = hw; area = area; slots = first_slots formats }) }
    {
        let Ok(running) = Vec::with_capacity(alloc, area as usize) else {
            return Err(Memory);
        };
        let Ok(next_file) = Vec::with_capacity(alloc, area as usize) else {
            return Err(Memory);
        };
        Ok(Slots {
            hw,
            formats,
            area,
            version: 0,
            running,
            next: ImageState::None,
            next_file,
        })
    }

    /// Makes a file of at most `area` bytes next, whatever next was.
    #[tactic(auto, unfolding(crate::specs::Slots::after_offer))]
    pub fn offer(&mut self, file: &[u8])
        requires { length file.now ≤ self.old.area }
        ensures { self.new
            ≡ record self.old { slots = after_offer self.old.hw file.now self.old.slots } }
    {
        self.next = ImageView::read(file, self.hw, self.formats);
        put_file(&mut self.next_file, file);
    }

    /// Makes a file of at most `area` bytes what runs from now on, with this version; next stays. False, with nothing changed,
    /// exactly where it is neither empty, as of a firmware that came with the device, nor an image file for this hardware, of a
    /// format that is known, with this version.
    pub fn resume(&mut self, version: u32, file: &[u8]) -> bool
        requires { length file.now ≤ self.old.area }
        ensures answer { IsTrue result
            ↔ RunsImage self.old.hw (with_running version file.now self.old.slots) }
        ensures runs { result ≡ true
            → self.new ≡ record self.old { slots = with_running version file.now self.old.slots } }
        ensures stays { result ≡ false → self.new ≡ self.old }
    {
        if !file.is_empty()
            && ImageView::read(file, self.hw, self.formats) != ImageState::Valid(version)
        {
            return false;
        }
        self.version = version;
        put_file(&mut self.running, file);
        true
    }

    /// Makes a valid next what runs, and next none; any other next stays.
    #[tactic(auto, unfolding(crate::specs::Slots::after_swap))]
    pub fn swap(&mut self)
        ensures { self.new ≡ record self.old { slots = after_swap self.old.slots } }
    {
        if let ImageState::Valid(version) = self.next {
            self.version = version;
            self.next = ImageState::None;
            std::mem::swap(&mut self.running, &mut self.next_file);
            self.next_file.clear();
        }
    }

    /// Deletes next where it is valid with this version, and returns 0. Else it returns bit 0 without a valid next, or bit 1
    /// where next has another version (DevDeleteImageReq, TS006-1.0.0; the bits are this project's profile).
    #[tactic(auto, unfolding(crate::specs::Slots::after_delete))]
    pub fn delete(&mut self, version: u32) -> u8
        ensures bits { result ≡ delete_bits self.old.slots.next version }
        ensures slots { self.new ≡ record self.old { slots = after_delete version self.old.slots } }
    {
        let bits = delete_bits(self.next, version);
        if bits == 0 {
            self.clear_next();
        }
        bits
    }

    /// Makes both formats known from now on, and reads the bytes of next again: none stays none, a valid next keeps its version,
    /// and what runs stays.
    #[tactic(auto, unfolding(crate::specs::Slots::after_raise))]
    pub fn raise(&mut self)
        ensures slots { self.new
            ≡ record self.old { slots = after_raise self.old.hw self.old.slots } }
        ensures valid { (version : ℕ) → self.old.slots.next ≡ ImageState.Valid version
            → self.new.slots.next ≡ ImageState.Valid version }
    {
        self.next = read_again(self.next, &self.next_file, self.hw);
        self.formats = 2;
    }

    /// Returns the version that runs, and its file: 0 and nothing at first.
    pub fn running(&self) -> (u32, &[u8])
        ensures version { result.0 ≡ self.now.slots.version }
        ensures file { result.1.now ≡ self.now.slots.running }
        ensures sound { AreSound (λ version. Unit {0}) self.now.hw self.now.slots }
        ensures room { HaveRoom self.now.area self.now.slots }
    {
        (self.version, self.running.as_slice())
    }

    /// Returns the image formats that it knows: only 1 (1), or both (2).
    pub fn formats(&self) -> u8
        ensures { result ≡ self.now.slots.formats }
    {
        self.formats
    }

    /// Returns what next is to the device (DevUpgradeImageAns, TS006-1.0.0).
    pub fn next(&self) -> ImageState
        ensures { result ≡ self.now.slots.next }
    {
        self.next
    }

    /// Returns the bytes of next, none where next is none.
    pub fn next_file(&self) -> &[u8]
        ensures { result.now ≡ self.now.slots.next_file }
    {
        self.next_file.as_slice()
    }

    /// Next is none.
    fn clear_next(&mut self)
        ensures { self.new ≡ record self.old { slots = without_next self.old.slots } }
    {
        self.next = ImageState::None;
        self.next_file.clear();
    }
}

/// Makes these bytes all that a slot has, in the room that was taken for it.
fn put_file(slot: &mut Vec<u8>, file: &[u8])
    requires { length file.now ≤ vec_capacity slot.old }
    ensures bytes { slot.new.items ≡ file.now }
    ensures room { vec_capacity slot.old ≤ vec_capacity slot.new }
{
    slot.clear();
    if slot.extend_from_slice(file).is_err() {
        unreachable!();
    }
}

/// What next is where both formats are known.
fn read_again(next: ImageState, file: &[u8], hw: u32) -> ImageState
    ensures { result ≡ read_again hw next file.now }
{
    match next {
        ImageState::None => ImageState::None,
        _ => ImageView::read(file, hw, 2),
    }
}

/// The answer to the request to delete a version.
fn delete_bits(next: ImageState, version: u32) -> u8
    ensures { result ≡ delete_bits next version }
{
    match next {
        ImageState::Valid(held) => { if held == version { 0 } else { 2 } }
        _ => 1,
    }
}
