//! Laws about the definitions, each the contract of a function with an empty body.

ghost use Rattle.std.specs.Prelude.{◌≡◌, ◌+◌, ◌^◌, ◌<◌, ◌≤◌, ◌↔◌, ℕ, List, length, Some, IsErr};
ghost use Rattle.wire_base.specs.Payload.{max_payload};
ghost use Rattle.wire_base.specs.declared.refusal.Refusal.{Refusal};
ghost use Rattle.package_grammar.specs.declared.downlink.Downlink.{Downlink};
ghost use Rattle.package_grammar.specs.declared.downlink.To.{To};
ghost use Rattle.mc_group.specs.declared.group.Group.{Group};
ghost use Rattle.mc_frames.specs.declared.fault.FrameFault.{FrameFault};
ghost use Rattle.mc_frames.specs.Frames.{frame_of};
ghost use Rattle.device_core.specs.declared.delivered.Delivered.TheVariants.{Deaf, Refused, OutboxFull};
ghost use Rattle.device_core.specs.declared.delivered.Aired.TheVariants.{Foreign};
ghost use Rattle.device_core.specs.Device.{DeviceState, outbox_size, after_deaf, after_refused, after_full, with_counts};
ghost use Rattle.device_core.specs.Firmware.{after_due_reboot};
ghost use Rattle.device_core.specs.Deliver.{delivery, waking};
ghost use Rattle.device_core.specs.Radio.{heard_group, session_keys, aired, radio};
ghost use Rattle.device_core.specs.Multicast.{MulticastActs};
ghost use Rattle.device_core.specs.Power.{PowerIsQuiet};
ghost use Rattle.device_core.specs.Restarts.{LastsThroughRestart};
ghost use Rattle.device_core.specs.Running.{RunsImagesAlone};
ghost use Rattle.device_core.specs.WholeFiles.{WholeFiles};
ghost use Rattle.device_core.specs.WorkedSaving.{SavedDevices};
ghost use Rattle.device_core.specs.WorkedSteps.{WorkedSteps};

/// A reboot that is due is carried out once.
pub fn due_reboot_is_once()
    ensures { (t : ℕ) (device : DeviceState)
        → after_due_reboot t (after_due_reboot t device) ≡ after_due_reboot t device }
{}

/// A payload that does not act, and bytes that are foreign, change only one counter, and a reboot that is due is carried out.
pub fn what_does_not_act_is_counted()
    ensures deaf { (t word mark : ℕ) (down : Downlink) (device : DeviceState)
        → let made = delivery t word mark down device in
        made.answer ≡ Deaf → made.device ≡ with_counts after_deaf (after_due_reboot t device) }
    ensures refused { (t word mark : ℕ) (down : Downlink) (device : DeviceState) (refusal : Refusal)
        → let made = delivery t word mark down device in made.answer ≡ Refused refusal
        → made.device ≡ with_counts after_refused (after_due_reboot t device) }
    ensures full { (t word mark n : ℕ) (down : Downlink) (device : DeviceState)
        → let made = delivery t word mark down device in made.answer ≡ OutboxFull n
        → made.device ≡ with_counts after_full (after_due_reboot t device) }
    ensures foreign { (t word mark : ℕ) (bytes : List ℕ) (device : DeviceState) (fault : FrameFault)
        → let made = radio t word mark bytes device in made.answer ≡ Foreign fault
        → made.device ≡ with_counts after_deaf (after_due_reboot t device) }
{}

/// A frame for the group that a device hears does what its payload does, where its count is from minMcFCount to below
/// maxMcFCount, and one of the 65,536 from minMcFCount on.
#[tactic(auto, using(crate::proofs::Radio::frame_delivered))]
pub fn a_frame_is_delivered()
    ensures { (t word mark count port : ℕ) (payload : List ℕ) (group : Group) (device : DeviceState)
        → heard_group device.groups device.class_session ≡ Some group
        → group.addr < 2 ^ 32 → length payload ≤ max_payload → 0 < port
        → group.min ≤ count → count < group.max → count < group.min + 65536
        → let down : Downlink =
        record { to = To.Group group.addr count; port = port; payload = payload } in
        radio t word mark (frame_of (session_keys group) group.addr 0x00 count port payload) device
        ≡ aired (delivery t word mark down device) }
{}

/// Waking is refused exactly where 8 uplinks are held; then only a reboot that is due changes the device.
pub fn a_full_device_wakes_for_its_reboot_alone()
    ensures exact { (t : ℕ) (device : DeviceState)
        → IsErr (waking t device).answer ↔ (outbox_size ≤ length device.outbox) }
    ensures unchanged { (t : ℕ) (device : DeviceState)
        → IsErr (waking t device).answer → (waking t device).device ≡ after_due_reboot t device }
{}

/// The fragment that makes a file whole brings it to the next slot, and no other fragment does.
#[tactic(auto, using(crate::proofs::WholeFiles::whole_files))]
pub fn a_whole_file_comes_once()
    ensures { WholeFiles }
{}

/// By multicast exactly DataFragment and FragSessionStatusReq act; any other command is skipped without an answer.
#[tactic(auto, using(crate::proofs::Multicast::multicast_acts))]
pub fn two_commands_act_by_multicast()
    ensures { MulticastActs }
{}

/// Whatever calls and payloads come, a device runs nothing, which is version 0, or an image file for its hardware, of a format
/// that it knows, with that image's version.
#[tactic(auto, using(crate::proofs::Running::runs_images))]
pub fn runs_images_alone()
    ensures { RunsImagesAlone }
{}

/// Power changes nothing at a device that was up and found its own sessions.
#[tactic(auto, using(crate::proofs::Quiet::power_is_quiet))]
pub fn power_is_quiet()
    ensures { PowerIsQuiet }
{}

/// Saved bytes say one record, except for its sessions: a device that is restored from them, and finds its sessions in its flash,
/// stands for the record that was saved, and no file is offered again.
#[tactic(auto, using(crate::proofs::Restarts::lasts))]
pub fn a_device_lasts_through_a_restart()
    ensures { LastsThroughRestart }
{}

/// What a device sends, holds and hears, worked out in bytes.
#[tactic(auto, using(crate::proofs::WorkedSteps::worked_steps))]
pub fn worked_steps()
    ensures { WorkedSteps }
{}

/// What is saved of a device, worked out in bytes.
#[tactic(auto, using(crate::proofs::WorkedSaving::saving))]
pub fn saved_devices()
    ensures { SavedDevices }
{}
