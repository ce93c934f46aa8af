//! What a server knows, as bytes, and what such bytes say. They have neither plan nor image, only a digest of them, and so no
//! key.

ghost use Rattle.std.specs.Prelude.{◌≡◌, ◌+◌, ◌*◌, ◌≤◌, ◌++◌, length};
ghost use Rattle.std.specs.List.{flat_map};
ghost use Rattle.sha2.specs.Sha256.{sha256};
ghost use Rattle.campaign_server.specs.Plan.{max_devices};
ghost use Rattle.campaign_server.specs.Asking.{request_rank};
ghost use Rattle.campaign_server.specs.Saving.{group_bytes, kind_bytes, window_bytes, root_byte, device_bytes, plan_bytes, stage_bytes, status_bytes, head_bytes, saved_of};
ghost use Rattle.campaign_server.specs.SavingInside.{restore_error, request_of, stage_of, stage_at, stages_in, status_of, status_at, statuses_in};

use crate::plan::{Field, Kind, Plan, PlanDevice, PlanGroup, PlanWindow};
use crate::server::ServerError;
use crate::stage::{LastStatus, Request, Stage};
use arrayvec::ArrayVec;
use mc_keys::RootKind;
use sha2::{Digest, Sha256};
use thiserror::Error;
use wire_base::flag_value;

/// The most bytes of a saved server: 12, six for each of 64 devices, and a digest of 32.
pub const MAX_SAVED: usize = 428;

/// What a server knows, as bytes held in the value itself.
pub type SavedServer = ArrayVec<u8, MAX_SAVED>;

/// The most bytes of a plan: 4, of group and window 30 and 12, the number of devices, and 17 for each of 64.
const MAX_PLAN: usize = 1135;

type PlanBytes = ArrayVec<u8, MAX_PLAN>;

/// The place where the stages begin.
pub(crate) const HEAD: usize = 12;

/// Why no server was restored.
#[derive(Clone, Copy, Debug, PartialEq, Eq, Error)]
pub enum RestoreError {
    /// There was not enough memory.
    #[error("out of memory")]
    Memory,
    /// The first field of the plan that is wrong.
    #[error("out of bounds in the plan: {0:?}")]
    BadPlan(Field),
    /// The bytes are not those of a server with this plan and image.
    #[error("the bytes are of no server with this plan and image")]
    Corrupt,
}

/// Makes the error of `restore` from that of `new`.
pub fn restore_error(error: ServerError) -> RestoreError
    ensures { result ≡ restore_error error }
{
    match error {
        ServerError::Memory => RestoreError::Memory,
        ServerError::BadPlan(field) => RestoreError::BadPlan(field),
    }
}

/// Makes the bytes of a server with this plan, image, stages and statuses, and these next numbers.
#[tactic(auto, unfolding(crate::specs::Saving::saved_of, crate::specs::Saving::state_bytes))]
pub fn saved_of(
    plan: &Plan,
    image: &[u8],
    stages: &[Stage],
    statuses: &[Option<LastStatus>],
    next: u16,
    count: u32,
) -> SavedServer
    requires devices { length plan.now.devices ≤ max_devices }
    requires stages { length stages.now ≤ max_devices }
    requires statuses { length statuses.now ≤ max_devices }
    ensures { result.items ≡ saved_of (record {
      plan = plan.now;
      image = image.now;
      stages = stages.now;
      statuses = statuses.now;
      next = next;
      count = count;
    }) }
{
    let mut saved = state_bytes(stages, statuses, next, count);
    let digest = digest_of(saved.as_slice(), plan_bytes(plan).as_slice(), image);
    put(&mut saved, &digest);
    saved
}

fn digest_of(state: &[u8], plan: &[u8], image: &[u8]) -> [u8; 32]
    ensures { result ≡ sha256 (state.now ++ plan.now ++ image.now) }
{
    let mut hasher = Sha256::new();
    hasher.update(state);
    hasher.update(plan);
    hasher.update(image);
    hasher.finalize()
}

/// All before the digest.
fn state_bytes(
    stages: &[Stage],
    statuses: &[Option<LastStatus>],
    next: u16,
    count: u32,
) -> SavedServer
    requires stages { length stages.now ≤ max_devices }
    requires statuses { length statuses.now ≤ max_devices }
    ensures bytes { result.items ≡ head_bytes next count (length stages.now)
        ++ flat_map stage_bytes stages.now ++ flat_map status_bytes statuses.now }
    ensures room { length result.items ≤ 396 }
{
    let [n0, n1] = next.to_le_bytes();
    let [c0, c1, c2, c3] = count.to_le_bytes();
    let number = stages.len() as u8;
    let mut state = SavedServer::new();
    put(
        &mut state,
        &[b'F', b'U', b'S', b'S', 1, n0, n1, c0, c1, c2, c3, number],
    );
    put_stages(&mut state, stages);
    put_statuses(&mut state, statuses);
    state
}

fn put_statuses(to: &mut SavedServer, statuses: &[Option<LastStatus>])
    requires { length to.old.items + 4 * length statuses.now ≤ 428 }
    ensures { to.new.items ≡ to.old.items ++ flat_map status_bytes statuses.now }
{
    for status in statuses {
        put(to, &status_bytes(*status));
    }
}

fn status_bytes(status: Option<LastStatus>) -> [u8; 4]
    ensures { result ≡ status_bytes status }
{
    match status {
        None => [0, 0, 0, 0],
        Some(told) => [
            1 + flag_value(told.norows, 2),
            (told.received % 256) as u8,
            (told.received / 256) as u8,
            told.missing,
        ],
    }
}

fn put_stages(to: &mut SavedServer, stages: &[Stage])
    requires { length to.old.items + 2 * length stages.now ≤ 428 }
    ensures { to.new.items ≡ to.old.items ++ flat_map stage_bytes stages.now }
{
    for stage in stages {
        put(to, &stage_bytes(*stage));
    }
}

fn stage_bytes(stage: Stage) -> [u8; 2]
    ensures { result ≡ stage_bytes stage }
{
    match stage {
        Stage::At(request) => [request_rank(request), 0],
        Stage::Updated => [8, 0],
        Stage::Refused { request, bits } => [16 + request_rank(request), bits],
    }
}

fn request_rank(request: Request) -> u8
    ensures value { result ≡ request_rank request }
    ensures few { result ≤ 7 }
{
    match request {
        Request::Version => 0,
        Request::Group => 1,
        Request::Fragments => 2,
        Request::Window => 3,
        Request::Status => 4,
        Request::Image => 5,
        Request::Reboot => 6,
        Request::Check => 7,
    }
}

/// Replaces these stages by those that bytes say.
pub fn read_stages(stages: &mut [Stage], bytes: &[u8])
    requires { 12 + 2 * length stages.old ≤ length bytes.now }
    ensures { stages.new ≡ stages_in bytes.now (length stages.old) }
{
    for k in 0..stages.len() {
        stages[k] = stage_at(bytes, k);
    }
}

/// Replaces these statuses by those that bytes say.
pub fn read_statuses(statuses: &mut [Option<LastStatus>], bytes: &[u8])
    requires { 12 + 6 * length statuses.old ≤ length bytes.now }
    ensures { statuses.new ≡ statuses_in bytes.now (length statuses.old) }
{
    let number = statuses.len();
    for k in 0..statuses.len() {
        statuses[k] = status_at(bytes, number, k);
    }
}

/// The status of device k, counted from 0, of so many.
#[tactic(auto, unfolding(crate::specs::SavingInside::status_at))]
fn status_at(bytes: &[u8], number: usize, k: usize) -> Option<LastStatus>
    requires { 16 + 2 * number + 4 * k ≤ length bytes.now }
    ensures { result ≡ status_at bytes.now number k }
{
    let at = HEAD + 2 * number + 4 * k;
    status_of(bytes[at], bytes[at + 1], bytes[at + 2], bytes[at + 3])
}

/// The status that these four bytes spell; of any others some status.
fn status_of(flags: u8, low: u8, high: u8, missing: u8) -> Option<LastStatus>
    ensures { result ≡ status_of flags low high missing }
{
    if flags == 0 {
        return None;
    }
    Some(LastStatus {
        received: low as u16 + 256 * high as u16,
        missing,
        norows: flags > 1,
    })
}

/// The stage of device k, counted from 0.
#[tactic(auto, unfolding(crate::specs::SavingInside::stage_at))]
fn stage_at(bytes: &[u8], k: usize) -> Stage
    requires { 14 + 2 * k ≤ length bytes.now }
    ensures { result ≡ stage_at bytes.now k }
{
    let at = HEAD + 2 * k;
    stage_of(bytes[at], bytes[at + 1])
}

/// The stage that these two bytes spell; of any others some stage.
fn stage_of(byte: u8, bits: u8) -> Stage
    ensures { result ≡ stage_of byte bits }
{
    if byte < 8 {
        Stage::At(request_of(byte))
    } else if byte < 16 {
        Stage::Updated
    } else {
        Stage::Refused {
            request: request_of(byte - 16),
            bits,
        }
    }
}

fn request_of(byte: u8) -> Request
    ensures { result ≡ request_of byte }
{
    match byte {
        0 => Request::Version,
        1 => Request::Group,
        2 => Request::Fragments,
        3 => Request::Window,
        4 => Request::Status,
        5 => Request::Image,
        6 => Request::Reboot,
        _ => Request::Check,
    }
}

// ---- the plan

#[tactic(auto, unfolding(crate::specs::Saving::plan_bytes))]
fn plan_bytes(plan: &Plan) -> PlanBytes
    requires { length plan.now.devices ≤ max_devices }
    ensures { result.items ≡ plan_bytes plan.now }
{
    let [p0, p1] = plan.parity.to_le_bytes();
    let mut bytes = PlanBytes::new();
    put(&mut bytes, &[plan.frag_size, p0, p1, plan.index]);
    put_group(&mut bytes, plan.group);
    put_window(&mut bytes, plan.window);
    bytes.push(plan.devices.len() as u8);
    put_devices(&mut bytes, &plan.devices);
    bytes
}

fn put_devices(to: &mut PlanBytes, devices: &[PlanDevice])
    requires { length to.old.items + 17 * length devices.now ≤ 1135 }
    ensures { to.new.items ≡ to.old.items ++ flat_map device_bytes devices.now }
{
    for device in devices {
        put(to, &device.key);
        to.push(root_byte(device.root));
    }
}

fn put_group(to: &mut PlanBytes, group: Option<PlanGroup>)
    requires { length to.old.items ≤ 4 }
    ensures bytes { to.new.items ≡ to.old.items ++ group_bytes group }
    ensures room { length to.new.items ≤ length to.old.items + 30 }
{
    match group {
        Some(group) => {
            let [a0, a1, a2, a3] = group.addr.to_le_bytes();
            let [m0, m1, m2, m3] = group.min.to_le_bytes();
            let [x0, x1, x2, x3] = group.max.to_le_bytes();
            put(to, &[1, group.id, a0, a1, a2, a3]);
            put(to, &group.key);
            put(to, &[m0, m1, m2, m3, x0, x1, x2, x3]);
        }
        None => put(to, &[0]),
    }
}

fn put_window(to: &mut PlanBytes, window: Option<PlanWindow>)
    requires { length to.old.items ≤ 34 }
    ensures bytes { to.new.items ≡ to.old.items ++ window_bytes window }
    ensures room { length to.new.items ≤ length to.old.items + 12 }
{
    match window {
        Some(window) => {
            let [s0, s1, s2, s3] = window.start.to_le_bytes();
            let [f0, f1, f2, f3] = window.freq.to_le_bytes();
            put(to, &kind_bytes(window.kind));
            put(
                to,
                &[s0, s1, s2, s3, window.timeout, f0, f1, f2, f3, window.dr],
            );
        }
        None => put(to, &[0]),
    }
}

fn kind_bytes(kind: Kind) -> [u8; 2]
    ensures { result ≡ kind_bytes kind }
{
    match kind {
        Kind::C => [1, 0],
        Kind::B { periodicity } => [2, periodicity],
    }
}

fn root_byte(root: RootKind) -> u8
    ensures { result ≡ root_byte root }
{
    match root {
        RootKind::V10 => 10,
        RootKind::V11 => 11,
    }
}

/// Puts bytes at the end.
fn put<const N: usize>(to: &mut ArrayVec<u8, N>, bytes: &[u8])
    requires { length to.old.items + length bytes.now ≤ N }
    ensures { to.new.items ≡ to.old.items ++ bytes.now }
{
    to.try_extend_from_slice(bytes).unwrap();
}
