//! The words of the command line: what they ask for, as clap takes them.

ghost use Rattle.std.specs.Prelude.{◌≡◌, ◌≢◌, ◌≤◌, List, [], ◌∷◌, ℕ, Option, None, Some, option_map, option_and_then, length, map, slice_get, string_bytes, IfOk, IfSome, codes};
ghost use Rattle.clap.specs.declared.error.kind.ErrorKind.TheVariants as kind;
ghost use Rattle.clap.specs.Words.{App, Row, Text, app_of, kind_of, first_of, first_value, found_of, new_app, rows_of, subcommand_rows_of, with_rule, with_subcommand};
ghost use Rattle.fuota_run.specs.Words.{IsCommand, positional, form, with_words, fuota, form_named, campaign_app, recover_app, replay_app, decode_app, generate_app, capture_app, campaigns_app, seen_asked, campaign_asked, recover_asked, replay_asked, decode_asked, generate_asked, capture_asked, campaigns_asked, asked_by, asked};

use crate::forms::{FileForm, Invocation, ScriptForm};
use crate::values::{device_of_word, direction_of_word, port_of_word, seed_of_word};
use clap::error::{Error, ErrorKind};
use clap::{Arg, ArgMatches, Command};
use std::alloc::{AllocError, Global};

/// Reads what the words ask for; the first is the program's name. None exactly where they are no form.
pub fn read_words<'a>(
    alloc: Global,
    words: &'a [String],
) -> Result<Option<Invocation<'a>>, AllocError>
    ensures { IfOk result (λ o. seen_asked o ≡ asked (map string_bytes words.now)) }
{
    if words.len() < 2 {
        return read_all(alloc, words);
    }
    match form_named(alloc, words[1].as_str())? {
        Some(form) => read_form(form, &words[1..]),
        None => read_all(alloc, words),
    }
}

/// The same by all forms.
fn read_all<'a>(alloc: Global, words: &'a [String]) -> Result<Option<Invocation<'a>>, AllocError>
    ensures { IfOk result (λ o. seen_asked o ≡ asked (map string_bytes words.now)) }
{
    let command = fuota(alloc)?;
    match command.try_get_matches_from(words) {
        Ok(matches) => Ok(found_in(&matches)),
        Err(error) => no_form(&error),
    }
}

/// The same by the one form that the first of these words names; the program's name was before them.
fn read_form<'a>(
    form: Command<'a>,
    words: &'a [String],
) -> Result<Option<Invocation<'a>>, AllocError>
    requires some { 1 ≤ length words.now }
    requires named { option_and_then form_named (slice_get (map string_bytes words.now) 0)
        ≡ Some (app_of form) }
    ensures { (program : Text) → IfOk result
        (λ o. seen_asked o ≡ asked (program ∷ map string_bytes words.now)) }
{
    match form.try_get_matches_from(words) {
        Ok(found) => Ok(asked_by(words[0].as_str(), &found)),
        Err(error) => no_form(&error),
    }
}

/// The form with a keyword, as its own command; None where there is none.
fn form_named<'a>(alloc: Global, keyword: &str) -> Result<Option<Command<'a>>, AllocError>
    ensures { IfOk result (λ o. option_map app_of o ≡ form_named keyword.now) }
{
    if keyword == "campaign" {
        return named(campaign_form(alloc));
    }
    if keyword == "recover" {
        return named(recover_form(alloc));
    }
    if keyword == "replay" {
        return named(replay_form(alloc));
    }
    if keyword == "decode" {
        return named(decode_form(alloc));
    }
    if keyword == "generate" {
        return named(generate_form(alloc));
    }
    if keyword == "capture" {
        return named(capture_form(alloc));
    }
    if keyword == "campaigns" {
        return named(campaigns_form(alloc));
    }
    Ok(None)
}

/// The form that was named, where there was memory for it.
fn named<'a>(form: Result<Command<'a>, AllocError>) -> Result<Option<Command<'a>>, AllocError>
    ensures { (app : App) → IfOk form.entry (λ f. IsCommand f app)
        → IfOk result (λ o. option_map app_of o ≡ Some app) }
{
    match form {
        Ok(form) => Ok(Some(form)),
        Err(error) => Err(error),
    }
}

/// The words are no form, or memory was missing.
fn no_form<'a>(error: &Error) -> Result<Option<Invocation<'a>>, AllocError>
    ensures { IfOk result (λ o. (o ≡ None) × (kind_of error.now ≢ kind.OutOfMemory)) }
{
    if error.kind() == ErrorKind::OutOfMemory {
        Err(AllocError)
    } else {
        Ok(None)
    }
}

/// The program and its forms.
fn fuota<'a>(alloc: Global) -> Result<Command<'a>, AllocError>
    ensures { IfOk result (λ c. IsCommand c fuota) }
{
    let program = offering(Ok(Command::new(alloc, "fuota")), campaign_form(alloc));
    let program = offering(program, recover_form(alloc));
    let program = offering(program, replay_form(alloc));
    let program = offering(program, decode_form(alloc));
    let program = offering(program, generate_form(alloc));
    let program = offering(program, capture_form(alloc));
    offering(program, campaigns_form(alloc))
}

fn campaign_form<'a>(alloc: Global) -> Result<Command<'a>, AllocError>
    ensures { IfOk result (λ c. IsCommand c campaign_app) }
{
    of_two(alloc, "campaign", "IMAGE", "SCRIPT")
}

fn recover_form<'a>(alloc: Global) -> Result<Command<'a>, AllocError>
    ensures { IfOk result (λ c. IsCommand c recover_app) }
{
    of_three(alloc, "recover", "IMAGE", "SCRIPT", "DEVICE")
}

fn replay_form<'a>(alloc: Global) -> Result<Command<'a>, AllocError>
    ensures { IfOk result (λ c. IsCommand c replay_app) }
{
    of_one(alloc, "replay", "FILE")
}

fn decode_form<'a>(alloc: Global) -> Result<Command<'a>, AllocError>
    ensures { IfOk result (λ c. IsCommand c decode_app) }
{
    of_three(alloc, "decode", "PORT", "DIR", "FILE")
}

fn generate_form<'a>(alloc: Global) -> Result<Command<'a>, AllocError>
    ensures { IfOk result (λ c. IsCommand c generate_app) }
{
    of_one(alloc, "generate", "SEED")
}

fn capture_form<'a>(alloc: Global) -> Result<Command<'a>, AllocError>
    ensures { IfOk result (λ c. IsCommand c capture_app) }
{
    of_one(alloc, "capture", "FILE")
}

fn campaigns_form<'a>(alloc: Global) -> Result<Command<'a>, AllocError>
    ensures { IfOk result (λ c. IsCommand c campaigns_app) }
{
    of_three(alloc, "campaigns", "IMAGE_A", "IMAGE_B", "SCRIPT")
}

/// A form of one word.
fn of_one<'a>(alloc: Global, keyword: &'a str, first: &'a str) -> Result<Command<'a>, AllocError>
    ensures { IfOk result
        (λ c. IsCommand c (with_words (new_app keyword.entry.now) (first.entry.now ∷ []))) }
{
    taking(alloc, Command::new(alloc, keyword), first)
}

/// A form of two words.
fn of_two<'a>(
    alloc: Global,
    keyword: &'a str,
    first: &'a str,
    second: &'a str,
) -> Result<Command<'a>, AllocError>
    ensures { IfOk result (λ c. IsCommand c
        (with_words (new_app keyword.entry.now) (first.entry.now ∷ second.entry.now ∷ []))) }
{
    taking(alloc, of_one(alloc, keyword, first)?, second)
}

/// A form of three words.
fn of_three<'a>(
    alloc: Global,
    keyword: &'a str,
    first: &'a str,
    second: &'a str,
    third: &'a str,
) -> Result<Command<'a>, AllocError>
    ensures { IfOk result (λ c. IsCommand c (with_words (new_app keyword.entry.now)
        (first.entry.now ∷ second.entry.now ∷ third.entry.now ∷ []))) }
{
    taking(alloc, of_two(alloc, keyword, first, second)?, third)
}

/// The command, with one word more that must be there.
fn taking<'a>(alloc: Global, command: Command<'a>, name: &'a str) -> Result<Command<'a>, AllocError>
    ensures { (app : App) → IsCommand command.entry app
        → IfOk result (λ c. IsCommand c (with_rule app (positional name.entry.now))) }
{
    command.arg(Arg::new(alloc, name).required(true))
}

/// The command, with one form more, where there was memory for both. The caller unpacks neither, so that it has to drop none of
/// them where memory is missing.
fn offering<'a>(
    command: Result<Command<'a>, AllocError>,
    form: Result<Command<'a>, AllocError>,
) -> Result<Command<'a>, AllocError>
    ensures { (app sub : App) → IfOk command.entry (λ c. IsCommand c app)
        → IfOk form.entry (λ f. IsCommand f sub)
        → IfOk result (λ c. IsCommand c (with_subcommand app sub.top)) }
{
    match command {
        Ok(command) => offered(command, form),
        Err(error) => {
            drop(form);
            Err(error)
        }
    }
}

/// The same once there is the command.
fn offered<'a>(
    command: Command<'a>,
    form: Result<Command<'a>, AllocError>,
) -> Result<Command<'a>, AllocError>
    ensures { (app sub : App) → IsCommand command.entry app
        → IfOk form.entry (λ f. IsCommand f sub)
        → IfOk result (λ c. IsCommand c (with_subcommand app sub.top)) }
{
    match form {
        Ok(form) => command.subcommand(form),
        Err(error) => {
            drop(command);
            Err(error)
        }
    }
}

/// What was found: the form that was named, and the words after it.
fn found_in<'a>(matches: &ArgMatches<'a>) -> Option<Invocation<'a>>
    ensures { seen_asked result
        ≡ option_and_then (λ found. asked_by found.0 found.1) (subcommand_rows_of matches.now) }
{
    match matches.subcommand() {
        Some((keyword, found)) => asked_by(keyword, found),
        None => None,
    }
}

#[tactic(auto, unfolding(crate::specs::Words::asked_by))]
fn asked_by<'a>(keyword: &str, found: &ArgMatches<'a>) -> Option<Invocation<'a>>
    ensures { seen_asked result ≡ asked_by keyword.now (rows_of (found_of found.now)) }
{
    if keyword == "campaign" {
        campaign_asked(found)
    } else if keyword == "recover" {
        recover_asked(found)
    } else if keyword == "replay" {
        replay_asked(found)
    } else if keyword == "decode" {
        decode_asked(found)
    } else if keyword == "generate" {
        generate_asked(found)
    } else if keyword == "capture" {
        capture_asked(found)
    } else if keyword == "campaigns" {
        campaigns_asked(found)
    } else {
        None
    }
}

fn word_of<'a>(found: &ArgMatches<'a>, name: &str) -> Option<&'a str>
    ensures { option_map (λ w. w.now) result ≡ first_of name.now (rows_of (found_of found.now)) }
{
    found.get_str(name)
}

fn campaign_asked<'a>(found: &ArgMatches<'a>) -> Option<Invocation<'a>>
    ensures { seen_asked result ≡ campaign_asked (rows_of (found_of found.now)) }
{
    let image = word_of(found, "IMAGE")?;
    let script = word_of(found, "SCRIPT")?;
    Some(Invocation::Script {
        what: ScriptForm::Campaign,
        image,
        script,
    })
}

fn recover_asked<'a>(found: &ArgMatches<'a>) -> Option<Invocation<'a>>
    ensures { seen_asked result ≡ recover_asked (rows_of (found_of found.now)) }
{
    let image = word_of(found, "IMAGE")?;
    let script = word_of(found, "SCRIPT")?;
    let device = device_of_word(word_of(found, "DEVICE")?)?;
    Some(Invocation::Script {
        what: ScriptForm::Recover { device },
        image,
        script,
    })
}

fn replay_asked<'a>(found: &ArgMatches<'a>) -> Option<Invocation<'a>>
    ensures { seen_asked result ≡ replay_asked (rows_of (found_of found.now)) }
{
    let file = word_of(found, "FILE")?;
    Some(Invocation::Payloads {
        what: FileForm::Replay,
        file,
    })
}

fn decode_asked<'a>(found: &ArgMatches<'a>) -> Option<Invocation<'a>>
    ensures { seen_asked result ≡ decode_asked (rows_of (found_of found.now)) }
{
    let port = port_of_word(word_of(found, "PORT")?)?;
    let dir = direction_of_word(word_of(found, "DIR")?)?;
    let file = word_of(found, "FILE")?;
    Some(Invocation::Payloads {
        what: FileForm::Decode { port, dir },
        file,
    })
}

fn generate_asked<'a>(found: &ArgMatches<'a>) -> Option<Invocation<'a>>
    ensures { seen_asked result ≡ generate_asked (rows_of (found_of found.now)) }
{
    let seed = seed_of_word(word_of(found, "SEED")?)?;
    Some(Invocation::Generate { seed })
}

fn capture_asked<'a>(found: &ArgMatches<'a>) -> Option<Invocation<'a>>
    ensures { seen_asked result ≡ capture_asked (rows_of (found_of found.now)) }
{
    let file = word_of(found, "FILE")?;
    Some(Invocation::Payloads {
        what: FileForm::Capture,
        file,
    })
}

fn campaigns_asked<'a>(found: &ArgMatches<'a>) -> Option<Invocation<'a>>
    ensures { seen_asked result ≡ campaigns_asked (rows_of (found_of found.now)) }
{
    let image_a = word_of(found, "IMAGE_A")?;
    let image_b = word_of(found, "IMAGE_B")?;
    let script = word_of(found, "SCRIPT")?;
    Some(Invocation::Pair {
        image_a,
        image_b,
        script,
    })
}
