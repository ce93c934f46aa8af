//! The fields of a saved device, read from any bytes.

ghost use Rattle.std.specs.Prelude.{◌≡◌, ◌↔◌, ◌+◌, ◌<◌, ◌≤◌, true, length, slice_range, IsTrue};
ghost use Rattle.wire_base.specs.Numbers.{number_at};
ghost use Rattle.image_slots.specs.Slots.{RunsImage};
ghost use Rattle.device_core.specs.SavingInside.{clock_in, moment_in, group_in, place_in, kind_of, session_in, reboot_in, counts_in, flags_in, formats_of, running_in, slots_in, AreStill};

use crate::class_session::{ClassSession, Kind};
use crate::counts::Counts;
use clock_sync::DeviceClock;
use image_slots::{ImageState, Slots};
use mc_group::Group;
use mc_keys::Key;
use session_store::CompleteFlags;
use wire_base::u32_at;

/// The place where saved bytes say whether there is a next.
pub(crate) const NEXT: usize = 186;

pub(crate) fn clock_in(saved: &[u8]) -> DeviceClock
    requires { 460 ≤ length saved.now }
    ensures { result ≡ clock_in saved.now }
{
    DeviceClock::with_token(u32_at(saved, 5), saved[9] % 16)
}

pub(crate) fn moment_in(saved: &[u8]) -> Option<u64>
    requires { 460 ≤ length saved.now }
    ensures { result ≡ moment_in saved.now }
{
    if saved[10] == 0 {
        None
    } else {
        Some(u64_at(saved, 11))
    }
}

/// The group of an id.
pub(crate) fn place_in(saved: &[u8], id: u8) -> Option<Group>
    requires long { 460 ≤ length saved.now }
    requires id { id < 4 }
    ensures { result ≡ place_in saved.now id }
{
    let at = 19 + 29 * id;
    if saved[at as usize] == 0 {
        None
    } else {
        Some(group_in(saved, at as u16 + 1))
    }
}

fn group_in(saved: &[u8], at: u16) -> Group
    requires long { at + 28 ≤ length saved.now }
    requires place { at ≤ 460 }
    ensures { result ≡ group_in saved.now at }
{
    Group {
        addr: u32_at(saved, at),
        key: key_at(saved, at as usize + 4),
        min: u32_at(saved, at + 20),
        max: u32_at(saved, at + 24),
    }
}

fn key_at(saved: &[u8], at: usize) -> Key
    requires long { at + 16 ≤ length saved.now }
    requires place { at ≤ 492 }
    ensures { result ≡ slice_range saved.now at (at + 16) }
{
    let mut key = [0; 16];
    key.copy_from_slice(&saved[at..at + 16]);
    key
}

pub(crate) fn session_in(saved: &[u8]) -> Option<ClassSession>
    requires { 460 ≤ length saved.now }
    ensures { result ≡ session_in saved.now }
{
    if saved[135] == 0 {
        return None;
    }
    Some(ClassSession {
        id: saved[136] % 4,
        kind: kind_of(saved[137], saved[138]),
        time: u32_at(saved, 139),
        timeout: saved[143] % 16,
    })
}

fn kind_of(byte: u8, periodicity: u8) -> Kind
    ensures { result ≡ kind_of byte periodicity }
{
    if byte == 0 {
        Kind::ClassC
    } else {
        Kind::ClassB {
            periodicity: periodicity % 8,
        }
    }
}

pub(crate) fn reboot_in(saved: &[u8]) -> Option<u32>
    requires { 460 ≤ length saved.now }
    ensures { result ≡ reboot_in saved.now }
{
    if saved[144] == 0 {
        None
    } else {
        Some(u32_at(saved, 145))
    }
}

pub(crate) fn counts_in(saved: &[u8]) -> Counts
    requires { 460 ≤ length saved.now }
    ensures { result ≡ counts_in saved.now }
{
    Counts {
        deaf: u64_at(saved, 149),
        refused: u64_at(saved, 157),
        full: u64_at(saved, 165),
        dropped: u64_at(saved, 173),
    }
}

pub(crate) fn flags_in(saved: &[u8]) -> CompleteFlags
    requires { 460 ≤ length saved.now }
    ensures { result ≡ flags_in saved.now }
{
    CompleteFlags {
        first: saved[199] != 0,
        second: saved[200] != 0,
        third: saved[201] != 0,
        fourth: saved[202] != 0,
    }
}

/// Makes slots without a next know the formats that a byte says.
#[tactic(auto, using(crate::proofs::SavedSlots::raised))]
fn take_formats(slots: &mut Slots, byte: u8)
    requires { slots.old.slots.next ≡ ImageState.None }
    ensures { slots.new ≡ record slots.old {
      slots = record slots.old.slots { formats = formats_of slots.old.slots.formats byte };
    } }
{
    if byte == 2 {
        slots.raise();
    }
}

/// Puts what runs, and next, into slots that are empty; false exactly where what runs is no image of the version that is told.
#[tactic(auto, unfolding(image_slots::specs::Slots::after_offer))]
pub(crate) fn take_slots(slots: &mut Slots, saved: &[u8], running: &[u8], next: &[u8]) -> bool
    requires long { 460 ≤ length saved.now }
    requires runs { length running.now ≤ slots.old.area }
    requires fits { length next.now ≤ slots.old.area }
    requires none { slots.old.slots.next ≡ ImageState.None }
    ensures answer { IsTrue result
        ↔ RunsImage slots.old.hw (running_in slots.old.slots saved.now running.now) }
    ensures still { AreStill slots.old slots.new }
    ensures slots { result ≡ true → slots.new ≡ record slots.old {
      slots = slots_in slots.old.hw slots.old.slots saved.now running.now next.now;
    } }
{
    take_formats(slots, saved[181]);
    if !slots.resume(u32_at(saved, 182), running) {
        return false;
    }
    if saved[NEXT] != 0 {
        slots.offer(next);
    }
    true
}

/// The number of eight bytes at a place, the lowest first.
#[tactic(auto, unfolding(wire_base::specs::Numbers::number_at))]
pub(crate) fn u64_at(saved: &[u8], at: u16) -> u64
    requires { at + 8 ≤ length saved.now }
    ensures { result ≡ number_at saved.now at 8 }
{
    let at = at as usize;
    u64::from_le_bytes([
        saved[at],
        saved[at + 1],
        saved[at + 2],
        saved[at + 3],
        saved[at + 4],
        saved[at + 5],
        saved[at + 6],
        saved[at + 7],
    ])
}
