//! Laws about the definitions, each the contract of a function with an empty body.

ghost use Rattle.std.specs.Prelude.{◌≡◌, ◌<◌, ◌≤◌, ◌+◌, length, List, ℕ, Err};
ghost use Rattle.wire_base.specs.Payload.{max_payload};
ghost use Rattle.mc_frames.specs.Opening.{Holds};
ghost use Rattle.aes_block.specs.Cipher.{IsBlock};
ghost use Rattle.mc_keys.specs.Keys.{mc_ke_key, mc_key};
ghost use Rattle.mc_keys.specs.Roots.{root_of};
ghost use Rattle.wire_base.specs.declared.refusal.Refusal.{Refusal};
ghost use Rattle.package_grammar.specs.declared.command.Command.{Command};
ghost use Rattle.cast_wire.specs.declared.cmd.Cmd.TheVariants.{McGroupSetupReq};
ghost use Rattle.campaign_server.specs.declared.plan.PlanDevice.{PlanDevice};
ghost use Rattle.campaign_server.specs.declared.plan.PlanGroup.{PlanGroup};
ghost use Rattle.campaign_server.specs.declared.stage.Request.{Request};
ghost use Rattle.campaign_server.specs.declared.stage.Stage.{Stage};
ghost use Rattle.campaign_server.specs.declared.stage.Stage.TheVariants.{Updated, Refused};
ghost use Rattle.campaign_server.specs.Plan.{Plan};
ghost use Rattle.campaign_server.specs.Server.{ServerState};
ghost use Rattle.campaign_server.specs.Answers.{stage_after};
ghost use Rattle.campaign_server.specs.Asking.{group_request};
ghost use Rattle.campaign_server.specs.Framing.{session_keys, group_frame};
ghost use Rattle.campaign_server.specs.Uplinks.{uplink_step};
ghost use Rattle.campaign_server.specs.Wrapping.{wrapped_key};
ghost use Rattle.campaign_server.specs.Counts.{CountsOnce};
ghost use Rattle.campaign_server.specs.Restarts.{LastsThroughRestarts};
ghost use Rattle.campaign_server.specs.WorkedSaving.{SavingSteps};
ghost use Rattle.campaign_server.specs.WorkedStatuses.{StatusSteps};
ghost use Rattle.campaign_server.specs.WorkedSteps.{AskSteps, AnswerSteps, TimeSteps, SendSteps, PlanSteps};

use mc_frames::frame_holds_what_it_was_made_of;

/// The wrapped key that the server sends is the one block that is unwrapped to the group's key; `wrap_key` returns it.
pub fn wrapped_key_is_the_one()
    ensures { (kek key block : List ℕ) → IsBlock block → mc_key kek block ≡ key
        → ((x : List ℕ) → IsBlock x → mc_key kek x ≡ key → x ≡ block)
        → wrapped_key kek key ≡ block }
{}

/// The request for a group has what a device unwraps to the group's key, under the key that it derives from its own.
pub fn a_device_unwraps_the_key()
    ensures { (device : PlanDevice) (block : List ℕ) (group : PlanGroup)
        → let kek = mc_ke_key (root_of device.root device.key) in
        IsBlock block → mc_key kek block ≡ group.key
        → ((x : List ℕ) → IsBlock x → mc_key kek x ≡ group.key → x ≡ block)
        → group_request device group
        ≡ McGroupSetupReq group.id group.addr block group.min group.max }
{}

/// A frame that the server sends to its group is opened with the group's session keys to its count, port and payload, where the
/// count is from MIN to below MAX, and one of the 65,536 from MIN on.
pub fn a_frame_is_opened()
    ensures { (group : PlanGroup) (count port : ℕ) (payload : List ℕ)
        → length payload ≤ max_payload → 0 < port
        → group.min ≤ count → count < group.max → count < group.min + 65536
        → Holds (session_keys group) group.addr group.min group.max
        (group_frame group count port payload) count port payload }
{
    frame_holds_what_it_was_made_of()
}

/// An answer that comes again changes nothing more.
#[tactic(auto, unfolding(crate::specs::Answers::stage_after))]
pub fn an_answer_moves_once()
    ensures { (plan : Plan) (image : List ℕ) (stage : Stage) (command : Command)
        → let moved = stage_after plan image stage command in
        stage_after plan image moved command ≡ moved }
{}

/// No answer moves a device that is updated or refused.
#[tactic(auto, unfolding(crate::specs::Answers::stage_after))]
pub fn an_end_is_final()
    ensures updated { (plan : Plan) (image : List ℕ) (command : Command)
        → stage_after plan image Updated command ≡ Updated }
    ensures refused { (plan : Plan) (image : List ℕ) (request : Request) (bits : ℕ)
        (command : Command)
        → stage_after plan image (Refused request bits) command ≡ Refused request bits }
{}

/// An uplink that is refused changes nothing.
#[tactic(auto, unfolding(crate::specs::Uplinks::uplink_step, crate::specs::Uplinks::read_uplink))]
pub fn a_refused_uplink_changes_nothing()
    ensures { (server : ServerState) (dev port t : ℕ) (payload : List ℕ) (refusal : Refusal)
        → let made = uplink_step server dev port payload t in
        made.answer ≡ Err refusal → made.server ≡ server }
{}

/// Over any run of calls of a new server the group's frame counts are MIN, MIN + 1 and so on, below MAX: none is sent twice.
#[tactic(auto, using(crate::proofs::Counts::counts_once))]
pub fn a_count_is_sent_once()
    ensures { CountsOnce }
{}

/// No two servers of one plan and image have the same saved bytes. Over any run of calls of a new server, restarts between the
/// calls change neither what they answer nor the server after them.
#[tactic(auto, using(crate::proofs::Restarts::lasts))]
pub fn a_server_lasts_through_restarts()
    ensures { LastsThroughRestarts }
{}

/// What a server asks and sends, and where answers lead, worked out in bytes.
pub fn worked_steps()
    ensures asking { AskSteps }
    ensures answers { AnswerSteps }
    ensures times { TimeSteps }
    ensures sending { SendSteps }
    ensures plans { PlanSteps }
    ensures saving { SavingSteps }
    ensures statuses { StatusSteps }
{}
