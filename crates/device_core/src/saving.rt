//! What a device knows, as bytes. Its configuration, its files and its sessions are not among them.

ghost use Rattle.std.specs.Prelude.{◌≡◌, ℕ, ◌+◌, ◌^◌, ◌<◌, ◌≤◌, ◌++◌, length, replicate, IfSome};
ghost use Rattle.sha2.specs.Sha256.{sha256};
ghost use Rattle.wire_base.specs.Numbers.{number_bytes};
ghost use Rattle.device_core.specs.Saving.{option_bytes, flag_byte, clock_bytes, moment_bytes, group_bytes, groups_bytes, kind_byte, periodicity_of, session_bytes, reboot_bytes, counts_bytes, next_byte, next_version, slots_bytes, flags_bytes, class_byte, root_byte, config_bytes, IsBelow, GroupFits, CountsFit};
ghost use Rattle.mc_group.specs.Groups.{group_at};
ghost use Rattle.image_slots.specs.Slots.{AreSound, HaveRoom};
ghost use Rattle.session_store.specs.Size.{Size};
ghost use Rattle.device_core.specs.Configuration.{configured};
ghost use Rattle.device_core.specs.SavingInside.{restore_error};

use crate::class_session::{ClassSession, Kind};
use crate::config::{Class, DeviceConfig, ReserveError};
use crate::counts::Counts;
use arrayvec::ArrayVec;
use clock_sync::DeviceClock;
use image_slots::{ImageState, Slots};
use mc_group::{Group, GroupTable};
use mc_keys::RootKind;
use session_store::CompleteFlags;
use sha2::{Digest, Sha256};
use thiserror::Error;

/// The bytes of a saved device.
pub const MAX_SAVED_DEVICE: usize = 492;

/// What a device knows, as bytes held in the value itself. They hold the keys of its groups.
pub type SavedDevice = ArrayVec<u8, MAX_SAVED_DEVICE>;

/// The most bytes of a configuration.
const MAX_CONFIG: usize = 45;

type ConfigBytes = ArrayVec<u8, MAX_CONFIG>;

/// Why no device was restored.
#[derive(Clone, Copy, Debug, PartialEq, Eq, Error)]
pub enum RestoreError {
    /// There was not enough memory.
    #[error("out of memory")]
    Memory,
    /// A number of the configuration is out of its bounds, or the flash has no room for four sessions.
    #[error("a number of the configuration is out of bounds")]
    BadConfig,
    /// The bytes are not those of a device with this configuration and these files.
    #[error("the bytes are of no device with this configuration and these files")]
    Corrupt,
}

/// The same error, as that of `restore`.
pub(crate) fn restore_error(error: ReserveError) -> RestoreError
    ensures { result ≡ restore_error error }
{
    match error {
        ReserveError::Memory => RestoreError::Memory,
        ReserveError::BadConfig => RestoreError::BadConfig,
    }
}

pub(crate) fn put_clock(to: &mut SavedDevice, clock: &DeviceClock)
    requires { length to.old.items ≡ 0 }
    ensures bytes { to.new.items ≡ clock_bytes clock.now }
    ensures offset { clock.now.offset < 2 ^ 32 }
    ensures token { clock.now.token < 16 }
{
    put(to, b"FUSD");
    put(to, &[1]);
    put(to, &clock.offset().to_le_bytes());
    put(to, &[clock.token()]);
}

pub(crate) fn put_moment(to: &mut SavedDevice, last_due: Option<u64>)
    requires { length to.old.items ≤ 400 }
    ensures bytes { to.new.items ≡ to.old.items ++ moment_bytes last_due }
    ensures size { length to.new.items ≡ length to.old.items + 9 }
    ensures fits { IsBelow (2 ^ 64) last_due }
{
    match last_due {
        Some(due) => {
            put(to, &[1]);
            put_u64(to, due);
        }
        None => put(to, &[0; 9]),
    }
}

pub(crate) fn put_groups(to: &mut SavedDevice, groups: &GroupTable)
    requires room { length to.old.items ≤ 340 }
    requires few { length groups.now ≤ 4 }
    ensures bytes { to.new.items ≡ to.old.items ++ groups_bytes groups.now }
    ensures size { length to.new.items ≡ length to.old.items + 116 }
    ensures fit { (id : ℕ) → id < length groups.now → GroupFits (group_at groups.now id) }
{
    put_group(to, groups.get(0));
    put_group(to, groups.get(1));
    put_group(to, groups.get(2));
    put_group(to, groups.get(3));
}

fn put_group(to: &mut SavedDevice, group: Option<Group>)
    requires { length to.old.items ≤ 460 }
    ensures bytes { to.new.items ≡ to.old.items ++ group_bytes group }
    ensures size { length to.new.items ≡ length to.old.items + 29 }
    ensures fits { GroupFits group }
{
    match group {
        Some(group) => {
            put(to, &[1]);
            put_u32(to, group.addr);
            put(to, &group.key);
            put_u32(to, group.min);
            put_u32(to, group.max);
        }
        None => put(to, &[0; 29]),
    }
}

pub(crate) fn put_session(to: &mut SavedDevice, session: Option<ClassSession>)
    requires { length to.old.items ≤ 400 }
    ensures bytes { to.new.items ≡ to.old.items ++ session_bytes session }
    ensures size { length to.new.items ≡ length to.old.items + 9 }
    ensures time { IfSome session (λ s. s.time < 2 ^ 32) }
{
    match session {
        Some(session) => {
            put(
                to,
                &[
                    1,
                    session.id,
                    kind_byte(session.kind),
                    periodicity_of(session.kind),
                ],
            );
            put_u32(to, session.time);
            put(to, &[session.timeout]);
        }
        None => put(to, &[0; 9]),
    }
}

fn kind_byte(kind: Kind) -> u8
    ensures { result ≡ kind_byte kind }
{
    match kind {
        Kind::ClassC => 0,
        Kind::ClassB { periodicity: _ } => 1,
    }
}

fn periodicity_of(kind: Kind) -> u8
    ensures { result ≡ periodicity_of kind }
{
    match kind {
        Kind::ClassC => 0,
        Kind::ClassB { periodicity } => periodicity,
    }
}

pub(crate) fn put_reboot(to: &mut SavedDevice, reboot: Option<u32>)
    requires { length to.old.items ≤ 400 }
    ensures bytes { to.new.items ≡ to.old.items ++ reboot_bytes reboot }
    ensures size { length to.new.items ≡ length to.old.items + 5 }
    ensures fits { IsBelow (2 ^ 32) reboot }
{
    put_moment32(to, reboot)
}

/// An option of four bytes.
fn put_moment32<const N: usize>(to: &mut ArrayVec<u8, N>, value: Option<u32>)
    requires { length to.old.items + 5 ≤ N }
    ensures bytes { to.new.items ≡ to.old.items ++ option_bytes 4 (λ n. number_bytes 4 n) value }
    ensures size { length to.new.items ≡ length to.old.items + 5 }
    ensures fits { IsBelow (2 ^ 32) value }
{
    match value {
        Some(n) => {
            put(to, &[1]);
            put_u32(to, n);
        }
        None => put(to, &[0; 5]),
    }
}

pub(crate) fn put_counts(to: &mut SavedDevice, counts: Counts)
    requires { length to.old.items ≤ 400 }
    ensures bytes { to.new.items ≡ to.old.items ++ counts_bytes counts }
    ensures size { length to.new.items ≡ length to.old.items + 32 }
    ensures fit { CountsFit counts }
{
    put_u64(to, counts.deaf);
    put_u64(to, counts.refused);
    put_u64(to, counts.full);
    put_u64(to, counts.dropped);
}

pub(crate) fn put_slots(to: &mut SavedDevice, slots: &Slots)
    requires { length to.old.items ≤ 400 }
    ensures bytes { to.new.items ≡ to.old.items ++ slots_bytes slots.now.slots }
    ensures size { length to.new.items ≡ length to.old.items + 18 }
    ensures version { slots.now.slots.version < 2 ^ 32 }
    ensures sound { AreSound (λ version. Unit {0}) slots.now.hw slots.now.slots }
    ensures room { HaveRoom slots.now.area slots.now.slots }
{
    let (version, running) = slots.running();
    put(to, &[slots.formats()]);
    put_u32(to, version);
    put(to, &[next_byte(slots.next())]);
    put_u32(to, next_version(slots.next()));
    put_len(to, running.len());
    put_len(to, slots.next_file().len());
}

fn next_byte(next: ImageState) -> u8
    ensures { result ≡ next_byte next }
{
    match next {
        ImageState::None => 0,
        ImageState::Corrupt => 1,
        ImageState::Incompatible => 2,
        ImageState::Valid(_) => 3,
    }
}

fn next_version(next: ImageState) -> u32
    ensures { result ≡ next_version next }
{
    match next {
        ImageState::Valid(version) => version,
        _ => 0,
    }
}

pub(crate) fn put_flags(to: &mut SavedDevice, flags: CompleteFlags)
    requires { length to.old.items ≤ 400 }
    ensures bytes { to.new.items ≡ to.old.items ++ flags_bytes flags }
    ensures size { length to.new.items ≡ length to.old.items + 4 }
{
    put(
        to,
        &[
            flag_byte(flags.first),
            flag_byte(flags.second),
            flag_byte(flags.third),
            flag_byte(flags.fourth),
        ],
    );
}

fn flag_byte(flag: bool) -> u8
    ensures { result ≡ flag_byte flag }
{
    if flag { 1 } else { 0 }
}

#[tactic(auto, unfolding(crate::specs::Saving::config_bytes))]
pub(crate) fn config_bytes(config: &DeviceConfig) -> ConfigBytes
    ensures { (size : Size) → result.items ≡ config_bytes (configured size config.now) }
{
    let mut bytes = ConfigBytes::new();
    put(&mut bytes, &[class_byte(config.class)]);
    put_u32(&mut bytes, config.hw);
    put(&mut bytes, &[config.formats]);
    put(&mut bytes, &config.rows.to_le_bytes());
    put_u32(&mut bytes, config.offset);
    put(&mut bytes, &config.key);
    put(&mut bytes, &[root_byte(config.root)]);
    put_moment32(&mut bytes, config.descriptor);
    put(&mut bytes, &[config.sessions, config.groups]);
    put_u32(&mut bytes, config.area);
    put(&mut bytes, &[flag_byte(config.held)]);
    put_u32(&mut bytes, config.span);
    bytes
}

fn class_byte(class: Class) -> u8
    ensures { result ≡ class_byte class }
{
    match class {
        Class::A => 0,
        Class::C => 1,
    }
}

fn root_byte(root: RootKind) -> u8
    ensures { result ≡ root_byte root }
{
    match root {
        RootKind::V10 => 10,
        RootKind::V11 => 11,
    }
}

pub(crate) fn digest_of(state: &[u8], config: &[u8], running: &[u8], next: &[u8]) -> [u8; 32]
    ensures { result ≡ sha256 (state.now ++ config.now ++ running.now ++ next.now) }
{
    let mut hasher = Sha256::new();
    hasher.update(state);
    hasher.update(config);
    hasher.update(running);
    hasher.update(next);
    hasher.finalize()
}

/// Puts eight bytes of a number, the lowest first.
pub(crate) fn put_u64(to: &mut SavedDevice, n: u64)
    requires { length to.old.items + 8 ≤ 492 }
    ensures bytes { to.new.items ≡ to.old.items ++ number_bytes 8 n }
    ensures size { length to.new.items ≡ length to.old.items + 8 }
{
    put(to, &n.to_le_bytes());
}

/// Puts four bytes of a number, the lowest first.
fn put_u32<const N: usize>(to: &mut ArrayVec<u8, N>, n: u32)
    requires { length to.old.items + 4 ≤ N }
    ensures bytes { to.new.items ≡ to.old.items ++ number_bytes 4 n }
    ensures size { length to.new.items ≡ length to.old.items + 4 }
{
    put(to, &n.to_le_bytes());
}

/// Puts the four lowest bytes of a length, the lowest first.
fn put_len(to: &mut SavedDevice, n: usize)
    requires { length to.old.items + 4 ≤ 492 }
    ensures bytes { to.new.items ≡ to.old.items ++ number_bytes 4 n }
    ensures size { length to.new.items ≡ length to.old.items + 4 }
{
    let [a, b, c, d, _, _, _, _] = n.to_le_bytes();
    put(to, &[a, b, c, d]);
}

/// Puts so many zeros at the end.
pub(crate) fn put_zeros(to: &mut SavedDevice, number: usize)
    requires { length to.old.items + number ≤ 492 }
    ensures bytes { to.new.items ≡ to.old.items ++ replicate number 0 }
    ensures size { length to.new.items ≡ length to.old.items + number }
{
    for _ in 0..number {
        to.push(0);
    }
}

/// Puts bytes at the end.
pub(crate) fn put<const N: usize>(to: &mut ArrayVec<u8, N>, bytes: &[u8])
    requires { length to.old.items + length bytes.now ≤ N }
    ensures bytes { to.new.items ≡ to.old.items ++ bytes.now }
    ensures size { length to.new.items ≡ length to.old.items + length bytes.now }
{
    to.try_extend_from_slice(bytes).unwrap();
}
