//! Where an answer leads.

ghost use Rattle.std.specs.Prelude.{◌≡◌, ◌≤◌, ◌+◌, length};
ghost use Rattle.package_grammar.specs.declared.command.Command.TheVariants.{Sync, Cast};
ghost use Rattle.image_slots.specs.Image.{further};
ghost use Rattle.campaign_server.specs.Answers.{stage_after, stage_after_all, unless_refused, where_own, window_bits, after_version, after_group, after_setup, after_window, after_status, after_upgrade, after_check, is_class_c, is_class_b};
ghost use Rattle.campaign_server.specs.Statuses.{status_after, status_after_all};
ghost use Rattle.campaign_server.specs.declared.stage.Stage.TheVariants.{At};

use crate::plan::{Kind, Plan, PlanWindow, own_id};
use crate::stage::{LastStatus, Request, Stage, Standing};
use cast_wire::{Cmd, refusal_bits};
use image_slots::{firmware, is_for};
use package_grammar::{Command, Message};
use wire_base::flag_value;

/// Returns the stage and status of a device after the commands of an uplink, one after another.
pub fn after_all(plan: &Plan, image: &[u8], standing: Standing, mut message: Message) -> Standing
    requires { 49 + further image.now ≤ length image.now }
    ensures stage { result.stage
        ≡ stage_after_all plan.now image.now standing.stage message.entry.commands }
    ensures status { result.status
        ≡ status_after_all plan.now standing.status message.entry.commands }
{
    let Standing {
        mut stage,
        mut status,
    } = standing;
    while let Some(command) = message.next() {
        stage = stage_after(plan, image, stage, &command);
        status = status_after(plan, status, &command);
    }
    Standing { stage, status }
}

/// The last status after a command of an uplink: only that of the campaign's session is kept.
fn status_after(plan: &Plan, status: Option<LastStatus>, command: &Command) -> Option<LastStatus>
    ensures { result ≡ status_after plan.now status command.now }
{
    match command {
        Command::Cast(
            Cmd::FragSessionStatusAns {
                index,
                received,
                missing,
                norows,
            },
        ) => {
            if *index == plan.index {
                Some(LastStatus {
                    received: *received,
                    missing: *missing,
                    norows: *norows,
                })
            } else {
                status
            }
        }
        _ => status,
    }
}

/// The stage after a command of an uplink: an answer moves only its own stage.
#[tactic(auto, unfolding(crate::specs::Answers::stage_after))]
fn stage_after(plan: &Plan, image: &[u8], stage: Stage, command: &Command) -> Stage
    requires { 49 + further image.now ≤ length image.now }
    ensures { result ≡ stage_after plan.now image.now stage command.now }
{
    match stage {
        Stage::At(request) => match command {
            Command::Sync(cmd) => after_sync(plan, image, request, cmd),
            Command::Cast(cmd) => after_cast(plan, image, request, cmd),
        },
        _ => stage,
    }
}

/// The stage after a command of firmware management.
#[tactic(auto, unfolding(crate::specs::Answers::stage_after))]
fn after_sync(plan: &Plan, image: &[u8], request: Request, cmd: &sync_wire::Cmd) -> Stage
    requires { 49 + further image.now ≤ length image.now }
    ensures { result ≡ stage_after plan.now image.now (At request) (Sync cmd.now) }
{
    match (request, *cmd) {
        (Request::Version, sync_wire::Cmd::DevVersionAns { hardware, .. }) => {
            after_version(plan, image, hardware)
        }
        (Request::Image, sync_wire::Cmd::DevUpgradeImageAns { status, next }) => {
            after_upgrade(image, status, next)
        }
        (Request::Reboot, sync_wire::Cmd::DevRebootCountdownAns { .. }) => Stage::At(
            Request::Check,
        ),
        (Request::Check, sync_wire::Cmd::DevVersionAns { firmware, .. }) => {
            after_check(image, firmware)
        }
        _ => Stage::At(request),
    }
}

/// The stage after a command of fragments or multicast setup.
#[tactic(auto, unfolding(crate::specs::Answers::stage_after))]
fn after_cast(plan: &Plan, image: &[u8], request: Request, cmd: &Cmd) -> Stage
    ensures { result ≡ stage_after plan.now image.now (At request) (Cast cmd.now) }
{
    match (request, cmd) {
        (Request::Group, Cmd::McGroupSetupAns { id, error }) => after_group(plan, *id, *error),
        (
            Request::Fragments,
            Cmd::FragSessionSetupAns {
                index,
                wrong_descriptor,
                index_unsupported,
                no_memory,
                encoding_unsupported,
            },
        ) => {
            let bits = refusal_bits(
                *wrong_descriptor,
                *index_unsupported,
                *no_memory,
                *encoding_unsupported,
            );
            after_setup(plan, *index, bits)
        }
        (
            Request::Window,
            Cmd::McClassCSessionAns {
                id,
                undefined,
                freq_error,
                dr_error,
                ..
            },
        ) => {
            let own = is_class_c(plan.window);
            after_window(
                plan,
                own,
                *id,
                window_bits(*undefined, *freq_error, *dr_error),
            )
        }
        (
            Request::Window,
            Cmd::McClassBSessionAns {
                id,
                undefined,
                freq_error,
                dr_error,
                ..
            },
        ) => {
            let own = is_class_b(plan.window);
            after_window(
                plan,
                own,
                *id,
                window_bits(*undefined, *freq_error, *dr_error),
            )
        }
        (
            Request::Status,
            Cmd::FragSessionStatusAns {
                index,
                missing,
                norows,
                ..
            },
        ) => after_status(plan, *index, *missing, *norows),
        _ => Stage::At(request),
    }
}

// ---- each answer

/// 1 is hardware that the image is not for; without a group its stages are left out.
fn after_version(plan: &Plan, image: &[u8], hardware_told: u32) -> Stage
    requires { 49 + further image.now ≤ length image.now }
    ensures { result ≡ after_version plan.now image.now hardware_told }
{
    let bits = if is_for(image, hardware_told) { 0 } else { 1 };
    let moved = match plan.group {
        Some(_) => Stage::At(Request::Group),
        None => Stage::At(Request::Fragments),
    };
    unless_refused(Request::Version, bits, moved)
}

/// 4 is IDerror.
fn after_group(plan: &Plan, id: u8, error: bool) -> Stage
    ensures { result ≡ after_group plan.now id error }
{
    let moved = unless_refused(
        Request::Group,
        flag_value(error, 4),
        Stage::At(Request::Fragments),
    );
    where_own(own_id(plan.group), id, Request::Group, moved)
}

fn after_setup(plan: &Plan, index: u8, bits: u8) -> Stage
    ensures { result ≡ after_setup plan.now index bits }
{
    let next = match plan.group {
        Some(_) => Stage::At(Request::Window),
        None => Stage::At(Request::Status),
    };
    let moved = unless_refused(Request::Fragments, bits, next);
    where_own(plan.index, index, Request::Fragments, moved)
}

/// Only the answer of the plan's own class.
fn after_window(plan: &Plan, own: bool, id: u8, bits: u8) -> Stage
    ensures { result ≡ after_window plan.now own id bits }
{
    if !own {
        return Stage::At(Request::Window);
    }
    let moved = unless_refused(Request::Window, bits, Stage::At(Request::Status));
    where_own(own_id(plan.group), id, Request::Window, moved)
}

/// 1 is too little memory for the matrix; with fragments missing it stays.
fn after_status(plan: &Plan, index: u8, missing: u8, norows: bool) -> Stage
    ensures { result ≡ after_status plan.now index missing norows }
{
    let next = if missing == 0 {
        Stage::At(Request::Image)
    } else {
        Stage::At(Request::Status)
    };
    let moved = unless_refused(Request::Status, flag_value(norows, 1), next);
    where_own(plan.index, index, Request::Status, moved)
}

/// 1 corrupt, 2 incompatible, 3 another version; 0 stays.
fn after_upgrade(image: &[u8], status: u8, next: Option<u32>) -> Stage
    requires { 49 + further image.now ≤ length image.now }
    ensures { result ≡ after_upgrade image.now status next }
{
    match next {
        None => unless_refused(Request::Image, status, Stage::At(Request::Image)),
        Some(version) => {
            if version == firmware(image) {
                Stage::At(Request::Reboot)
            } else {
                Stage::Refused {
                    request: Request::Image,
                    bits: status,
                }
            }
        }
    }
}

fn after_check(image: &[u8], firmware_told: u32) -> Stage
    requires { 49 + further image.now ≤ length image.now }
    ensures { result ≡ after_check image.now firmware_told }
{
    if firmware_told == firmware(image) {
        Stage::Updated
    } else {
        Stage::At(Request::Check)
    }
}

// ---- parts

/// The three error bits of a class session's answer.
fn window_bits(undefined: bool, freq: bool, dr: bool) -> u8
    ensures { result ≡ window_bits undefined freq dr }
{
    flag_value(undefined, 16) + flag_value(freq, 8) + flag_value(dr, 4)
}

/// The stage that an answer moves to, or refused where it has bits.
fn unless_refused(request: Request, bits: u8, moved: Stage) -> Stage
    ensures { result ≡ unless_refused request bits moved }
{
    if bits == 0 {
        moved
    } else {
        Stage::Refused { request, bits }
    }
}

/// The stage that an answer moves to; one with another index or id moves nothing.
fn where_own(own: u8, told: u8, request: Request, moved: Stage) -> Stage
    ensures { result ≡ where_own own told request moved }
{
    if told == own {
        moved
    } else {
        Stage::At(request)
    }
}

fn is_class_c(window: Option<PlanWindow>) -> bool
    ensures { result ≡ is_class_c window }
{
    match window {
        Some(PlanWindow { kind: Kind::C, .. }) => true,
        _ => false,
    }
}

fn is_class_b(window: Option<PlanWindow>) -> bool
    ensures { result ≡ is_class_b window }
{
    match window {
        Some(
            PlanWindow {
                kind: Kind::B { .. },
                ..
            },
        ) => true,
        _ => false,
    }
}
