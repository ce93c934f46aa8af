//! What the server sends to all devices: fragments, and status requests.

ghost use Rattle.std.specs.Prelude.{◌≡◌, ◌≤◌, ◌+◌, length, true, false};
ghost use Rattle.frag_encoder.specs.Encoding.{nb_frag_of, data_of};
ghost use Rattle.package_grammar.specs.declared.command.Command.TheVariants.{Cast};
ghost use Rattle.cast_wire.specs.declared.cmd.Cmd.TheVariants.{DataFragment, FragSessionStatusReq};
ghost use Rattle.campaign_server.specs.Plan.{max_index};
ghost use Rattle.campaign_server.specs.Server.{IsCount, downlink_of, first_count};
ghost use Rattle.campaign_server.specs.Fragments.{receivers, has_no_count, next_count};
ghost use Rattle.campaign_server.specs.ServerInside.{IsCut};
ghost use Rattle.campaign_server.specs.SavingInside.{is_count};

use crate::plan::{Plan, PlanGroup};
use crate::spelling::downlink;
use arrayvec::ArrayVec;
use cast_wire::{Cmd, FRAGMENT_PORT, FragmentBytes};
use frag_encoder::{Beyond, Encoder, MAX_FRAGMENT};
use package_grammar::{Command, Downlink, To};
use thiserror::Error;

/// Why no fragment is sent.
#[derive(Clone, Copy, Debug, PartialEq, Eq, Error)]
pub enum Spent {
    /// All were sent.
    #[error("all fragments were sent")]
    Fragments,
    /// The group's frame counts are used up.
    #[error("the group's frame counts are used up")]
    Counts,
}

/// Returns the group, with the next frame count; without a group any device, as unicast.
pub fn receivers(group: Option<PlanGroup>, count: u32) -> To
    ensures { result ≡ receivers group count }
{
    match group {
        Some(group) => To::Group {
            addr: group.addr,
            count,
        },
        None => To::Unicast,
    }
}

/// Says whether the group's frame counts are used up.
pub fn has_no_count(group: Option<PlanGroup>, count: u32) -> bool
    ensures { result ≡ has_no_count group count }
{
    match group {
        Some(group) => count == group.max,
        None => false,
    }
}

/// Returns the first frame count, the group's MIN.
pub fn first_count(group: Option<PlanGroup>) -> u32
    ensures { result ≡ first_count group }
{
    match group {
        Some(group) => group.min,
        None => 0,
    }
}

/// Says whether the group's next frame count can be this: from its MIN to its MAX, and 0 without a group.
pub fn is_count(group: Option<PlanGroup>, count: u32) -> bool
    ensures value { result ≡ is_count group count }
    ensures within { result ≡ true → IsCount group count }
{
    match group {
        Some(group) => group.min <= count && count <= group.max,
        None => count == 0,
    }
}

/// Returns the frame count after this one.
pub fn next_count(group: Option<PlanGroup>, count: u32) -> u32
    requires within { IsCount group count }
    requires more { has_no_count group count ≡ false }
    ensures value { result ≡ next_count group count }
    ensures within { IsCount group result }
{
    match group {
        Some(_) => count + 1,
        None => count,
    }
}

/// Makes fragment n of the image (TS004-1.0.0, DataFragment).
pub fn fragment(plan: &Plan, encoder: &Encoder, to: To, n: u16) -> Downlink
    requires cut { IsCut plan.now encoder.now }
    requires first { 1 ≤ n }
    requires last { n ≤ nb_frag_of (length encoder.now.file) plan.now.frag_size + plan.now.parity }
    ensures { result ≡ downlink_of (record {
      to = to;
      command = Cast (DataFragment plan.now.index n
          (data_of encoder.now.file plan.now.frag_size n));
    }) }
{
    let mut part = ArrayVec::new();
    encode(plan, encoder, n, &mut part);
    let command = Command::Cast(Cmd::DataFragment {
        index: plan.index,
        n,
        bytes: FragmentBytes::from_slice(part.as_slice()),
    });
    downlink(to, FRAGMENT_PORT, &command)
}

/// Replaces what `part` holds by the bytes of fragment n.
fn encode(plan: &Plan, encoder: &Encoder, n: u16, part: &mut ArrayVec<u8, MAX_FRAGMENT>)
    requires cut { IsCut plan.now encoder.now }
    requires first { 1 ≤ n }
    requires last { n ≤ nb_frag_of (length encoder.now.file) plan.now.frag_size + plan.now.parity }
    ensures value { part.new.items ≡ data_of encoder.now.file plan.now.frag_size n }
    ensures size { length part.new.items ≡ plan.now.frag_size }
{
    match encoder.fragment(n, part) {
        Ok(()) => {}
        Err(Beyond) => unreachable!(),
    }
}

/// Makes a FragSessionStatusReq (TS004-1.0.0, 3.2) to all, answered by devices that miss a fragment.
pub fn status_of_all(plan: &Plan, to: To) -> Downlink
    requires { plan.now.index ≤ max_index }
    ensures { let command = Cast (FragSessionStatusReq plan.now.index false) in
        result ≡ downlink_of (record { to = to; command = command }) }
{
    let command = Command::Cast(Cmd::FragSessionStatusReq {
        index: plan.index,
        all: false,
    });
    downlink(to, FRAGMENT_PORT, &command)
}
