//! The whole program: words and files in, one text and a status out.

ghost use Rattle.std.specs.Prelude.{◌≡◌, ℕ, true, false, List, [], None, Some, map, string_bytes, IfOk};
ghost use Rattle.std.specs.Io.KnownBytes.{Appends};
ghost use Rattle.fuota_run.specs.Outside.{HoldsName};
ghost use Rattle.image_slots.specs.Image.{is_image};
ghost use Rattle.fuota_run.specs.Words.{plays, plays_two, generates, asked, seen_asked, asks_files};
ghost use Rattle.fuota_run.specs.Ending.{HoldsForm, HoldsInvocation, OutsideFiles, IsSoundAnswer, IsSoundOver, WhereNoneFails, IsImageRead, IsReadUp, Ends, AppendsAnswer, IsNoForm, IsFinished, IsFaultless};
ghost use Rattle.fuota_run.specs.Headline.{IsCampaignRun, IsCaptureRun, IsRecoveryRun, IsReplayRun, IsSeedRun};
ghost use Rattle.fuota_run.specs.PairHeadline.{IsPairRun};
ghost use Rattle.fuota_run.specs.Source.{IsTakenOf};
ghost use Rattle.fuota_run.specs.HeldAnswer.{answer_in};
ghost use Rattle.campaign_world.specs.World.{first_world};
ghost use Rattle.campaign_world.specs.HeldWorld.{WorldStands};
ghost use Rattle.pair_run.specs.Pair.{first_pair};
ghost use Rattle.pair_run.specs.HeldPair.{PairStands};

use crate::answers::{Answer, answer_of, answer_with, text_answer, unread_answer};
use crate::campaign_answers::{seed_answer, world_answer};
use crate::files::Files;
use crate::forms::{Invocation, ScriptForm};
use crate::hearing::hear_source;
use crate::images::{image_answer, read_image};
use crate::output::write_text;
use crate::payload_answers::payloads;
use crate::sink::Sink;
use crate::source::SCRIPT_LIMIT;
use crate::status::Status;
use crate::words::read_words;
use campaign_generator::generate;
use campaign_world::World;
use pair_run::Pair;
use std::alloc::{AllocError, Global};

/// What is written where the words are no form.
const USAGE: &str =
    "usage: fuota campaign IMAGE SCRIPT, recover IMAGE SCRIPT DEVICE, replay FILE, decode PORT DIR FILE, generate SEED, capture FILE, campaigns IMAGE IMAGE SCRIPT\n";

/// Runs the program: `words` begin with its name, and the forms are `campaign IMAGE SCRIPT`,
/// `recover IMAGE SCRIPT DEVICE`, `replay FILE`, `decode PORT DIR FILE`, `generate SEED`, `capture FILE` and
/// `campaigns IMAGE IMAGE SCRIPT`.
/// The whole text is in memory before its first byte is written.
pub fn run<F: Files, O: Sink>(alloc: Global, words: &[String], files: &mut F, out: &mut O) -> Status
    requires { HoldsForm (F.held files.old) (map string_bytes words.now) }

    // Where it is known what the files hold, no call failed and memory sufficed, status and text are those of the answer to the
    // words.
    ensures exact { WhereNoneFails (F.held files.old)
        (F.faults files.old) (F.faults files.new) (O.faults out.old) (O.faults out.new) result
        (λ held. AppendsAnswer (Some held) (map string_bytes words.now) result
        (O.written out.old) (O.written out.new)) }

    // So a campaign's whole report is written, and what it says of each device's session is its verdict at the first moment over
    // what the lines bring. Where the script is honest, it is the headline: the session hears what the script delivers, and is
    // complete from the first fragment on after which only one file fits, the image; and where the ledger says that a device is
    // updated, it runs the image.
    ensures headline { WhereNoneFails (F.held files.old)
        (F.faults files.old) (F.faults files.new) (O.faults out.old) (O.faults out.new) result
        (λ held. IsCampaignRun (map string_bytes words.now) held result
        (O.written out.old) (O.written out.new)) }

    // And where a device has its file, that file is what `recover` writes; it is the image where the script is honest.
    ensures recovery { WhereNoneFails (F.held files.old)
        (F.faults files.old) (F.faults files.new) (O.faults out.old) (O.faults out.new) result
        (λ held. IsRecoveryRun (map string_bytes words.now) held result
        (O.written out.old) (O.written out.new)) }

    // A replay is written as the text of the device that heard the payloads, and what it says of each session is its verdict at
    // the first moment over what the lines have.
    ensures replay { WhereNoneFails (F.held files.old)
        (F.faults files.old) (F.faults files.new) (O.faults out.old) (O.faults out.new) result
        (λ held. IsReplayRun (map string_bytes words.now) held result
        (O.written out.old) (O.written out.new)) }

    // The campaign of a seed is accepted, and as many devices are updated as have the file.
    ensures seed { WhereNoneFails (F.held files.old)
        (F.faults files.old) (F.faults files.new) (O.faults out.old) (O.faults out.new) result
        (λ _. IsSeedRun (map string_bytes words.now) result
        (O.written out.old) (O.written out.new)) }

    // A capture whose payloads all go down on port 201 ends as the replay of them does.
    ensures capture { WhereNoneFails (F.held files.old)
        (F.faults files.old) (F.faults files.new) (O.faults out.old) (O.faults out.new) result
        (λ held. IsCaptureRun (map string_bytes words.now) held result
        (O.written out.old) (O.written out.new)) }

    // For two campaigns the whole report of both is written, and what holds for one campaign over its lines holds for each of the
    // two, over what the lines say to it: for its own image, each of its devices and each of their sessions.
    ensures pair { WhereNoneFails (F.held files.old)
        (F.faults files.old) (F.faults files.new) (O.faults out.old) (O.faults out.new) result
        (λ held. IsPairRun (map string_bytes words.now) held result
        (O.written out.old) (O.written out.new)) }

    // What each status says, whatever failed.
    ensures ends { Ends (F.held files.old) (map string_bytes words.now) (record {
      files_before = F.faults files.old;
      files_after = F.faults files.new;
      out_before = O.faults out.old;
      out_after = O.faults out.new;
      old = O.written out.old;
      new = O.written out.new;
    }) result }
    // No fault is skipped: where a call failed, the status says so, or that memory was missing.
    ensures faultless { IsFaultless result
        → (F.faults files.new ≡ F.faults files.old) × (O.faults out.new ≡ O.faults out.old) }
    // Words that are no form get this status, and no others do.
    ensures usage { result ≡ Status.Usage → asked (map string_bytes words.now) ≡ None }
    ensures no_form { asked (map string_bytes words.now) ≡ None → IsNoForm result }
    ensures finished { IsFinished result (O.finished out.new) }
    ensures whole { IsReadUp (asks_files (asked (map string_bytes words.now))) result
        (F.left files.new) }
    // Words that name no file leave the files unchanged.
    ensures untouched { asks_files (asked (map string_bytes words.now)) ≡ false
        → files.new ≡ files.old }
    // Where a source is too long, exactly so many bytes of it were taken as the status says.
    ensures taken { (taken : ℕ) → result ≡ Status.TooLong taken
        → IsTakenOf (F.held files.old) (asked (map string_bytes words.now)) taken
        (F.left files.new) }
{
    match answer_to(alloc, words, files) {
        Err(_) => Status::Memory,
        Ok(answer) => match write_text(out, &answer.text) {
            Ok(()) => answer.status,
            Err(_) => Status::WriteFault,
        },
    }
}

/// The answer to the words over the files.
fn answer_to<F: Files>(alloc: Global, words: &[String], files: &mut F) -> Result<Answer, AllocError>
    requires { HoldsForm (F.held files.old) (map string_bytes words.now) }
    ensures answer { IfOk result (λ r. IsSoundOver (F.held files.old)
        (F.faults files.old) (F.faults files.new) (F.left files.new)
        (asked (map string_bytes words.now)) (answer_in r)) }
    ensures untouched { asks_files (asked (map string_bytes words.now)) ≡ false
        → files.new ≡ files.old }
{
    match read_words(alloc, words) {
        Ok(what) => answer_for(alloc, what, files),
        Err(error) => Err(error),
    }
}

/// The answer to what is asked for over the files.
fn answer_for<F: Files>(
    alloc: Global,
    what: Option<Invocation>,
    files: &mut F,
) -> Result<Answer, AllocError>
    requires { HoldsInvocation (F.held files.old) (seen_asked what) }
    ensures answer { IfOk result (λ r. IsSoundOver (F.held files.old)
        (F.faults files.old) (F.faults files.new) (F.left files.new)
        (seen_asked what.entry) (answer_in r)) }
    ensures untouched { asks_files (seen_asked what.entry) ≡ false → files.new ≡ files.old }
{
    match what {
        None => answer_with(alloc, Status::Usage, USAGE),
        Some(
            Invocation::Script {
                what,
                image,
                script,
            },
        ) => campaign(alloc, files, what, image, script),
        Some(Invocation::Payloads { what, file }) => payloads(alloc, files, what, file),
        Some(Invocation::Generate { seed }) => generated(alloc, seed),
        Some(
            Invocation::Pair {
                image_a,
                image_b,
                script,
            },
        ) => campaigns(alloc, files, image_a, image_b, script),
    }
}

/// The answer to a form over a campaign.
fn campaign<F: Files>(
    alloc: Global,
    files: &mut F,
    what: ScriptForm,
    image_name: &str,
    script_name: &str,
) -> Result<Answer, AllocError>
    requires image { HoldsName (F.held files.old) image_name.now }
    requires script { HoldsName (F.held files.old) script_name.now }
    ensures { IfOk result (λ r. IsSoundOver (F.held files.old)
        (F.faults files.old) (F.faults files.new) (F.left files.new)
        (Some (plays what image_name.now script_name.now)) (answer_in r)) }
{
    match read_image(alloc, files, image_name) {
        Ok(image) => script(alloc, files, what, &image, script_name),
        Err(error) => image_answer(alloc, error),
    }
}

/// The answer once the image is an image file, whatever its name.
fn script<F: Files>(
    alloc: Global,
    files: &mut F,
    what: ScriptForm,
    image: &[u8],
    name: &str,
) -> Result<Answer, AllocError>
    requires image { is_image image.now ≡ true }
    requires script { HoldsName (F.held files.old) name.now }
    ensures { (image_name : List ℕ) → IsImageRead (F.held files.old) image_name image.now
        → IfOk result (λ r. IsSoundOver (F.held files.old)
        (F.faults files.old) (F.faults files.new) (F.left files.new)
        (Some (plays what image_name name.now)) (answer_in r)) }
{
    let mut heard = World::new(alloc, image)?;
    let answer = hear_script(alloc, files, what, &mut heard, name);
    drop(heard);
    answer
}

/// The answer of a new campaign after its script.
fn hear_script<F: Files>(
    alloc: Global,
    files: &mut F,
    what: ScriptForm,
    heard: &mut World,
    name: &str,
) -> Result<Answer, AllocError>
    requires script { HoldsName (F.held files.old) name.now }
    requires fresh { heard.old.kept ≡ None }
    ensures { (image image_name : List ℕ) → WorldStands heard.old (first_world image)
        → IsImageRead (F.held files.old) image_name image
        → IfOk result (λ r. IsSoundOver (F.held files.old)
        (F.faults files.old) (F.faults files.new) (F.left files.new)
        (Some (plays what image_name name.now)) (answer_in r)) }
{
    match hear_source(files, name, SCRIPT_LIMIT, heard) {
        Ok(()) => answer_of(alloc, world_answer(alloc, what, heard)),
        Err(error) => unread_answer(alloc, error),
    }
}

/// The answer to the form over two campaigns.
fn campaigns<F: Files>(
    alloc: Global,
    files: &mut F,
    name_a: &str,
    name_b: &str,
    script_name: &str,
) -> Result<Answer, AllocError>
    requires image_a { HoldsName (F.held files.old) name_a.now }
    requires image_b { HoldsName (F.held files.old) name_b.now }
    requires script { HoldsName (F.held files.old) script_name.now }
    ensures { IfOk result (λ r. IsSoundOver (F.held files.old)
        (F.faults files.old) (F.faults files.new) (F.left files.new)
        (Some (plays_two name_a.now name_b.now script_name.now)) (answer_in r)) }
{
    match read_image(alloc, files, name_a) {
        Ok(image_a) => second_image(alloc, files, &image_a, name_b, script_name),
        Err(error) => image_answer(alloc, error),
    }
}

/// The answer once the first image is an image file, whatever its name.
fn second_image<F: Files>(
    alloc: Global,
    files: &mut F,
    image_a: &[u8],
    name_b: &str,
    script_name: &str,
) -> Result<Answer, AllocError>
    requires image_a { is_image image_a.now ≡ true }
    requires image_b { HoldsName (F.held files.old) name_b.now }
    requires script { HoldsName (F.held files.old) script_name.now }
    ensures { (name_a : List ℕ) → IsImageRead (F.held files.old) name_a image_a.now
        → IfOk result (λ r. IsSoundOver (F.held files.old)
        (F.faults files.old) (F.faults files.new) (F.left files.new)
        (Some (plays_two name_a name_b.now script_name.now)) (answer_in r)) }
{
    match read_image(alloc, files, name_b) {
        Ok(image_b) => pair_script(alloc, files, image_a, &image_b, script_name),
        Err(error) => image_answer(alloc, error),
    }
}

/// The answer once both images are image files, whatever their names.
fn pair_script<F: Files>(
    alloc: Global,
    files: &mut F,
    image_a: &[u8],
    image_b: &[u8],
    name: &str,
) -> Result<Answer, AllocError>
    requires image_a { is_image image_a.now ≡ true }
    requires image_b { is_image image_b.now ≡ true }
    requires script { HoldsName (F.held files.old) name.now }
    ensures { (name_a name_b : List ℕ) → IsImageRead (F.held files.old) name_a image_a.now
        → IsImageRead (F.held files.old) name_b image_b.now
        → IfOk result (λ r. IsSoundOver (F.held files.old)
        (F.faults files.old) (F.faults files.new) (F.left files.new)
        (Some (plays_two name_a name_b name.now)) (answer_in r)) }
{
    let mut heard = Pair::new(alloc, image_a, image_b)?;
    let answer = hear_pair(alloc, files, &mut heard, name);
    drop(heard);
    answer
}

/// The answer of two new campaigns after their script.
fn hear_pair<F: Files>(
    alloc: Global,
    files: &mut F,
    heard: &mut Pair,
    name: &str,
) -> Result<Answer, AllocError>
    requires script { HoldsName (F.held files.old) name.now }
    requires fresh { heard.old.kept ≡ None }
    ensures { (image_a image_b name_a name_b : List ℕ)
        → PairStands heard.old (first_pair image_a image_b)
        → IsImageRead (F.held files.old) name_a image_a
        → IsImageRead (F.held files.old) name_b image_b
        → IfOk result (λ r. IsSoundOver (F.held files.old)
        (F.faults files.old) (F.faults files.new) (F.left files.new)
        (Some (plays_two name_a name_b name.now)) (answer_in r)) }
{
    match hear_source(files, name, SCRIPT_LIMIT, heard) {
        Ok(()) => text_answer(alloc, heard.report(alloc)),
        Err(error) => unread_answer(alloc, error),
    }
}

/// The answer to a seed, whatever the files.
fn generated(alloc: Global, seed: u32) -> Result<Answer, AllocError>
    ensures { (files : OutsideFiles) → files.after ≡ files.before
        → IfOk result (λ r. IsSoundAnswer (Some (generates seed)) files (answer_in r)) }
{
    let made = generate(alloc, seed)?;
    answer_of(alloc, seed_answer(alloc, seed, &made.image, &made.script))
}
