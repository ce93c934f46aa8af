//! The server of a campaign: its record, and its calls.

ghost use Rattle.std.specs.Prelude.{◌≡◌, ◌⊎◌, ◌↔◌, ◌^◌, ◌<◌, ◌≤◌, Ok, Err, IfOk, is_ok, is_some, None, Some, length, replicate, true, false};
ghost use Rattle.image_slots.specs.Image.{is_image};
ghost use Rattle.campaign_server.specs.declared.plan.Field.{Field};
ghost use Rattle.campaign_server.specs.declared.stage.Stage.TheVariants.{At};
ghost use Rattle.campaign_server.specs.declared.stage.Request.TheVariants.{Version};
ghost use Rattle.campaign_server.specs.Plan.{bad_field};
ghost use Rattle.campaign_server.specs.Server.{ServerState, first_server, first_count, ledger, last_status};
ghost use Rattle.wire_base.specs.Numbered.{numbered};
ghost use Rattle.wire_base.specs.Numbers.{number_at};
ghost use Rattle.campaign_server.specs.Asking.{request_of};
ghost use Rattle.campaign_server.specs.Fragments.{next_fragment, after_fragment, status_to_all, after_status_to_all};
ghost use Rattle.campaign_server.specs.Uplinks.{uplink_step};
ghost use Rattle.campaign_server.specs.ServerInside.{IsPlan};
ghost use Rattle.campaign_server.specs.Sent.{down_of, result_of, answer_of};
ghost use Rattle.campaign_server.specs.Framing.{has_frame, frame_for};
ghost use Rattle.campaign_server.specs.Saving.{IsOver, saved_of};
ghost use Rattle.campaign_server.specs.SavingInside.{fits, told_of};

mod told;

use crate::answers::after_all;
use crate::asking::request;
use crate::checks::bad_field;
use crate::fragments::{
    Spent, first_count, fragment, has_no_count, is_count, next_count, receivers, status_of_all,
};
use crate::framing::{is_to_group, keys_of};
use crate::plan::{Field, Plan, PlanDevice};
use crate::saving::{
    HEAD, RestoreError, SavedServer, read_stages, read_statuses, restore_error, saved_of,
};
use crate::spelling::unicast;
use crate::stage::{LastStatus, Stage, Standing};
use crate::starting::{cut, first_stages, first_statuses};
use crate::time::time_answer;
use frag_encoder::Encoder;
use mc_frames::{Frame, Keys, frame};
use package_grammar::{Downlink, Message, To};
use std::alloc::{AllocError, Global};
use std::marker::Model;
use thiserror::Error;
use wire_base::{Direction, Refusal, u16_at, u32_at};

/// Why there is no server.
#[derive(Clone, Copy, Debug, PartialEq, Eq, Error)]
pub enum ServerError {
    /// There was not enough memory.
    #[error("out of memory")]
    Memory,
    /// The first field of the plan that is wrong.
    #[error("out of bounds in the plan: {0:?}")]
    BadPlan(Field),
}

impl From<AllocError> for ServerError {
    ghost use Rattle.campaign_server.specs.declared.server.ServerError.TheVariants.{Memory};
    ghost use Rattle.std.specs.Prelude.{◌≡◌};

    ghost from_gives = { λ _ e. e ≡ Memory };

    fn from(_: AllocError) -> Self {
        ServerError::Memory
    }
}

/// The server of a campaign. Its memory is taken in `new` and `restore`.
#[derive(Drop)]
pub struct Server {
    plan: Plan,
    encoder: Encoder,
    stages: Vec<Stage>,
    statuses: Vec<Option<LastStatus>>,
    next: u16,
    count: u32,
    /// The session keys of the plan's group, so that no frame derives them anew.
    keys: Option<Keys>,
}

impl Model for Server {
    ghost use Rattle.std.specs.Prelude.{◌≡◌, option_map};
    ghost use Rattle.campaign_server.specs.Framing.{session_keys};
    ghost use Rattle.campaign_server.specs.Server.{ServerState};
    ghost use Rattle.campaign_server.specs.ServerInside.{IsServer};

    ghost Value = { ServerState };

    ghost view = { λ s. record { plan = s.plan; image = s.encoder.file; stages = s.stages.items; statuses = s.statuses.items; next = s.next; count = s.count } };

    ghost invariant = { λ s. IsServer s.plan s.encoder s.stages.items s.statuses.items s.next s.count
        × (s.keys ≡ option_map session_keys s.plan.group) };
}

impl Server {
    #[tactic(auto, using(crate::proofs::Plans::starts, image_slots::proofs::ImageLemmas::image_bounds))]
    /// Makes the server at the start of a campaign that sends this image, which must be an image file; each device is at the
    /// stage `Version`. `BadPlan` comes exactly where a field of the plan is wrong, and names the first; `Memory` where memory is
    /// missing.
    pub fn new(alloc: Global, plan: Plan, image: &[u8]) -> Result<Server, ServerError>
        requires { is_image image.now ≡ true }
        ensures ok { IfOk result (λ s. s ≡ first_server image.now plan) }
        ensures bad_plan { (field : Field) → (result ≡ Err (ServerError.BadPlan field))
            ↔ (bad_field (length image.now) plan ≡ Some field) }
        ensures fine { IfOk result (λ s. bad_field (length image.now) plan ≡ None) }
    {
        if let Some(field) = bad_field(image.len(), &plan) {
            return Err(ServerError::BadPlan(field));
        }
        let encoder = match cut(alloc, &plan, image) {
            Ok(encoder) => encoder,
            Err(_) => return Err(ServerError::Memory),
        };
        let stages = match first_stages(alloc, plan.devices.len()) {
            Ok(stages) => stages,
            Err(_) => return Err(ServerError::Memory),
        };
        let statuses = match first_statuses(alloc, plan.devices.len()) {
            Ok(statuses) => statuses,
            Err(_) => return Err(ServerError::Memory),
        };
        let count = first_count(plan.group);
        let keys = keys_of(plan.group);
        Ok(Server {
            plan,
            encoder,
            stages,
            statuses,
            next: 1,
            count,
            keys,
        })
    }

    /// Returns what it knows as bytes that `restore` takes again: to be stored before its next payload goes out. They say which
    /// plan and image they belong to, and hold neither. It takes no memory.
    pub fn save(&self) -> SavedServer
        ensures { result.items ≡ saved_of self.now }
    {
        saved_of(
            &self.plan,
            self.encoder.file(),
            &self.stages,
            &self.statuses,
            self.next,
            self.count,
        )
    }

    /// Restores the server of these bytes, with this plan and image, which must be an image file. `BadPlan` comes as at `new`,
    /// and before `Corrupt`, which comes where no server of this plan and image has these bytes; `Memory` where memory is
    /// missing.
    #[tactic(auto, using(crate::proofs::SavedBytes::read_back, crate::proofs::SavedBytes::over_told))]
    pub fn restore(
        alloc: Global,
        plan: Plan,
        image: &[u8],
        bytes: &[u8],
    ) -> Result<Server, RestoreError>
        requires { is_image image.now ≡ true }
        ensures ok { IfOk result (λ s. IsOver plan image.now s × (saved_of s ≡ bytes.now)) }
        ensures restored { (server : ServerState) → IsOver plan image.now server
            → saved_of server ≡ bytes.now
            → (result ≡ Ok server) ⊎ (result ≡ Err RestoreError.Memory) }
        ensures bad_plan { (field : Field) → (result ≡ Err (RestoreError.BadPlan field))
            ↔ (bad_field (length image.now) plan ≡ Some field) }
    {
        let mut server = match Server::new(alloc, plan, image) {
            Ok(server) => server,
            Err(error) => return Err(restore_error(error)),
        };
        if server.take(bytes) && server.save().as_slice() == bytes {
            Ok(server)
        } else {
            Err(RestoreError::Corrupt)
        }
    }

    /// Takes the fields of bytes that may not be a server's; false, with nothing changed, where one is out of range.
    fn take(&mut self, bytes: &[u8]) -> bool
        ensures value { result ≡ fits self.old bytes.now }
        ensures taken { result ≡ true → self.new ≡ told_of self.old bytes.now }
        ensures width { result ≡ true → number_at bytes.now 7 4 < 2 ^ 32 }
        ensures same { result ≡ false → self.new ≡ self.old }
    {
        let number = self.stages.len();
        if bytes.len() < HEAD + 6 * number {
            return false;
        }
        let next = u16_at(bytes, 5);
        let count = u32_at(bytes, 7);
        if next < 1
            || next > self.encoder.nb_frag() + self.plan.parity + 1
            || !is_count(self.plan.group, count)
        {
            return false;
        }
        read_stages(&mut self.stages, bytes);
        read_statuses(&mut self.statuses, bytes);
        self.next = next;
        self.count = count;
        true
    }

    /// Returns what the server asks of device `dev` now, by unicast; None at updated and refused, and at a stage that the plan
    /// has no part for; no answer leads there.
    pub fn ask(&self, dev: u8) -> Option<Downlink>
        requires first { 1 ≤ dev }
        requires last { dev ≤ length self.now.plan.devices }
        ensures { result ≡ down_of (request_of self.now dev) }
    {
        let device = device_of(&self.plan, dev);
        let stage = numbered(&self.stages, dev);
        let (port, command) = request(&self.plan, &self.encoder, &device, stage)?;
        Some(unicast(port, &command))
    }

    /// Says whether a next fragment can be sent.
    #[tactic(auto, unfolding(crate::specs::Fragments::next_fragment))]
    pub fn has_fragment(&self) -> bool
        ensures { result ≡ is_ok (next_fragment self.now) }
    {
        self.next <= self.encoder.nb_frag() + self.plan.parity
            && !has_no_count(self.plan.group, self.count)
    }

    /// Makes the next fragment to all devices: by the group with its next frame count, else as unicast. `Fragments` comes exactly
    /// where all were sent, and else `Counts` exactly where the next count is the group's MAX; then nothing changes.
    #[tactic(auto, unfolding(crate::specs::Fragments::next_fragment, crate::specs::Fragments::after_fragment))]
    pub fn next_fragment(&mut self) -> Result<Downlink, Spent>
        ensures sent { result ≡ result_of (next_fragment self.old) }
        ensures moved { self.new ≡ after_fragment self.old }
    {
        if self.next > self.encoder.nb_frag() + self.plan.parity {
            return Err(Spent::Fragments);
        }
        let group = self.plan.group;
        if has_no_count(group, self.count) {
            return Err(Spent::Counts);
        }
        let to = receivers(group, self.count);
        let down = fragment(&self.plan, &self.encoder, to, self.next);
        self.count = next_count(group, self.count);
        self.next += 1;
        Ok(down)
    }

    /// Says whether all devices can be asked for their status.
    #[tactic(auto, unfolding(crate::specs::Fragments::status_to_all))]
    pub fn has_status(&self) -> bool
        ensures { result ≡ is_some (status_to_all self.now) }
    {
        !has_no_count(self.plan.group, self.count)
    }

    /// Makes a FragSessionStatusReq (TS004-1.0.0, 3.2) to all devices, answered by those that miss a fragment: by the group with
    /// its next frame count, else as unicast. None exactly where that count is the group's MAX.
    #[tactic(auto, unfolding(crate::specs::Fragments::status_to_all, crate::specs::Fragments::after_status_to_all))]
    pub fn status_all(&mut self) -> Option<Downlink>
        ensures sent { result ≡ down_of (status_to_all self.old) }
        ensures moved { self.new ≡ after_status_to_all self.old }
    {
        let group = self.plan.group;
        if has_no_count(group, self.count) {
            return None;
        }
        let down = status_of_all(&self.plan, receivers(group, self.count));
        self.count = next_count(group, self.count);
        Some(down)
    }

    /// Says whether a payload has a frame: it is to the plan's group, and its port isn't 0.
    pub fn has_frame(&self, down: &Downlink) -> bool
        ensures { result ≡ has_frame self.now.plan.group down.now }
    {
        is_to_group(self.plan.group, down.to) && down.port > 0
    }

    /// Makes the frame, at most 255 bytes, of a payload to the plan's group on a port that isn't 0 (`has_frame`), under the
    /// group's session keys.
    pub fn frame(&self, down: &Downlink) -> Frame
        requires { has_frame self.now.plan.group down.now ≡ true }
        ensures { result.items ≡ frame_for self.now.plan.group down.now }
    {
        match (&self.keys, down.to) {
            (Some(keys), To::Group { addr, count }) => {
                frame(keys, addr, count, down.port, &down.payload)
            }
            _ => unreachable!(),
        }
    }

    /// Takes an uplink of device `dev` on a port, at `t` ms of GPS time: its commands move the device's stage in order, and the
    /// first AppTimeReq that needs an answer gets one. A payload that is no message is refused and changes nothing.
    pub fn uplink(
        &mut self,
        dev: u8,
        port: u8,
        payload: &[u8],
        t: u64,
    ) -> Result<Option<Downlink>, Refusal>
        requires first { 1 ≤ dev }
        requires last { dev ≤ length self.old.plan.devices }
        ensures moved { self.new ≡ (uplink_step self.old dev port payload.now t).server }
        ensures answer { result ≡ answer_of (uplink_step self.old dev port payload.now t).answer }
    {
        let message = match Message::read(port, Direction::Up, payload) {
            Ok(message) => message,
            Err(refusal) => return Err(refusal),
        };
        let answer = time_answer(t, message.again());
        let standing = Standing {
            stage: numbered(&self.stages, dev),
            status: numbered(&self.statuses, dev),
        };
        let moved = after_all(&self.plan, self.encoder.file(), standing, message);
        self.stages[dev as usize - 1] = moved.stage;
        self.statuses[dev as usize - 1] = moved.status;
        Ok(answer)
    }

    /// Returns the stage of device `dev`.
    pub fn ledger(&self, dev: u8) -> Stage
        requires first { 1 ≤ dev }
        requires last { dev ≤ length self.now.plan.devices }
        ensures { Some result ≡ ledger self.now dev }
    {
        numbered(&self.stages, dev)
    }

    /// Returns what device `dev` answered last of the campaign's session (FragSessionStatusAns), at any stage: how many fragments
    /// it heard and how many pieces it missed, by which an operator chooses how many coded fragments to send. None where it never
    /// answered.
    pub fn last_status(&self, dev: u8) -> Option<LastStatus>
        requires first { 1 ≤ dev }
        requires last { dev ≤ length self.now.plan.devices }
        ensures { Some result ≡ last_status self.now dev }
    {
        numbered(&self.statuses, dev)
    }
}

/// The device with a number of the plan.
fn device_of(plan: &Plan, dev: u8) -> PlanDevice
    requires first { 1 ≤ dev }
    requires last { dev ≤ length plan.now.devices }
    ensures { numbered plan.now.devices dev ≡ Some result }
{
    numbered(&plan.devices, dev)
}

/// The item with a number, counted from 1.
fn numbered<T: Copy>(items: &[T], dev: u8) -> T
    requires first { 1 ≤ dev }
    requires last { dev ≤ length items.now }
    ensures { numbered items.now dev ≡ Some result }
{
    items[dev as usize - 1]
}
