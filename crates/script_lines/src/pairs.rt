//! The form that a line of two campaigns' script spells: without the letter of a campaign, that of a line of one campaign.

ghost use Rattle.std.specs.Prelude.{◌≡◌};
ghost use Rattle.script_lines.specs.Lines.{word};
ghost use Rattle.script_lines.specs.PairForms.{pair_form_of, pair_event_form, pair_sent_form, campaign_at, letter_of, number_behind, of_none, of_named, pair_header, pair_image, pair_group, pair_alone, pair_down, pair_up};

use crate::fast_forms::{asked_device, migrated_device, powered_device, time_at, woken_device};
use crate::forms::{Campaign, Form, PairForm};
use crate::numbers::decimal;
use crate::plan_forms::{device_from, group_words, image_words, window_from};
use crate::reading::{
    alone, ask_form, at_form, down_of, in_the_air, is_keyword, migrate_form, power_form, wake_form,
};
use crate::words::{count_words, is_word, word};

/// Returns the form that a line of two campaigns' script spells; None exactly where it spells none.
pub fn pair_form(line: &[u8]) -> Option<PairForm<'_>>
    ensures { result ≡ pair_form_of line.now }
{
    if let Some(time) = time_at(line) {
        of_none(Some(Form::At { time }))
    } else if let Some(device) = asked_device(line) {
        of_none(Some(Form::Ask { device }))
    } else if let Some(device) = woken_device(line) {
        of_none(Some(Form::Wake { device }))
    } else if let Some(device) = migrated_device(line) {
        of_none(Some(Form::Migrate { device }))
    } else if let Some(device) = powered_device(line) {
        of_none(Some(Form::Power { device }))
    } else {
        any_pair_form(line)
    }
}

/// The form of any line, word by word.
#[tactic(auto, unfolding(crate::specs::PairForms::pair_form_of))]
fn any_pair_form(line: &[u8]) -> Option<PairForm<'_>>
    ensures { result ≡ pair_form_of line.now }
{
    let keyword = word(line, 0);
    if is_keyword(keyword, "fuota") {
        of_none(pair_header(line))
    } else if is_keyword(keyword, "image") {
        of_named(campaign_at(line, 1), pair_image(line))
    } else if is_keyword(keyword, "group") {
        of_named(campaign_at(line, 1), pair_group(line))
    } else if is_keyword(keyword, "window") {
        of_named(campaign_at(line, 1), window_from(line, 2))
    } else if is_keyword(keyword, "device") {
        of_named(campaign_at(line, 2), device_from(line, 3))
    } else {
        pair_event_form(line, keyword)
    }
}

/// The form of a line that is not of the plan: the moment, and what happens to a device.
fn pair_event_form<'a>(line: &'a [u8], keyword: &[u8]) -> Option<PairForm<'a>>
    requires { keyword.now ≡ word line.now 0 }
    ensures { result ≡ pair_event_form line.now }
{
    if is_keyword(keyword, "at") {
        of_none(at_form(line))
    } else if is_keyword(keyword, "wake") {
        of_none(wake_form(line))
    } else if is_keyword(keyword, "migrate") {
        of_none(migrate_form(line))
    } else if is_keyword(keyword, "power") {
        of_none(power_form(line))
    } else if is_keyword(keyword, "ask") {
        of_none(ask_form(line))
    } else {
        pair_sent_form(line, keyword)
    }
}

/// The form of any other line: of a campaign that the line names, and the end.
fn pair_sent_form<'a>(line: &'a [u8], keyword: &[u8]) -> Option<PairForm<'a>>
    requires { keyword.now ≡ word line.now 0 }
    ensures { result ≡ pair_sent_form line.now }
{
    if is_keyword(keyword, "frag") {
        of_named(campaign_at(line, 1), pair_alone(line, Form::Frag))
    } else if is_keyword(keyword, "status") {
        of_named(campaign_at(line, 1), pair_alone(line, Form::Status))
    } else if is_keyword(keyword, "down") {
        of_named(letter_of(word(line, 1)), pair_down(line))
    } else if is_keyword(keyword, "air") {
        of_named(letter_of(word(line, 1)), in_the_air(pair_down(line)))
    } else if is_keyword(keyword, "up") {
        of_named(letter_of(word(line, 1)), pair_up(line))
    } else if is_keyword(keyword, "end") {
        of_none(alone(line, Form::End))
    } else {
        None
    }
}

/// A form for no campaign by itself.
fn of_none(form: Option<Form<'_>>) -> Option<PairForm<'_>>
    ensures { result ≡ of_none form.entry }
{
    let form = form?;
    Some(PairForm {
        campaign: None,
        form,
    })
}

/// A form for the campaign that the line names.
fn of_named<'a>(named: Option<Campaign>, form: Option<Form<'a>>) -> Option<PairForm<'a>>
    ensures { result ≡ of_named named form.entry }
{
    let campaign = named?;
    let form = form?;
    Some(PairForm {
        campaign: Some(campaign),
        form,
    })
}

// ---- the campaign that a line names

/// The campaign whose letter stands at a place.
fn campaign_at(line: &[u8], place: usize) -> Option<Campaign>
    ensures { result ≡ campaign_at line.now place }
{
    if is_word(line, place, "a") {
        Some(Campaign::A)
    } else if is_word(line, place, "b") {
        Some(Campaign::B)
    } else {
        None
    }
}

/// The campaign whose letter stands before a number's digits.
fn letter_of(word: &[u8]) -> Option<Campaign>
    ensures { result ≡ letter_of word.now }
{
    match word {
        [b'a', ..] => Some(Campaign::A),
        [b'b', ..] => Some(Campaign::B),
        _ => None,
    }
}

/// The number after the letter.
fn number_behind(word: &[u8]) -> Option<u64>
    ensures { result ≡ number_behind word.now }
{
    match word {
        [_, digits @ ..] => decimal(digits),
        _ => None,
    }
}

// ---- the forms

/// `fuota 2`
fn pair_header(line: &[u8]) -> Option<Form<'_>>
    ensures { result ≡ pair_header line.now }
{
    if count_words(line) == 2 && is_word(line, 1, "2") {
        Some(Form::Header)
    } else {
        None
    }
}

/// `image X FRAGSIZE PARITY INDEX`
fn pair_image(line: &[u8]) -> Option<Form<'_>>
    ensures { result ≡ pair_image line.now }
{
    if count_words(line) != 5 {
        return None;
    }
    let index = decimal(word(line, 4))?;
    image_words(line, 2, index)
}

/// `group X ID ADDR KEY MIN MAX`
fn pair_group(line: &[u8]) -> Option<Form<'_>>
    ensures { result ≡ pair_group line.now }
{
    if count_words(line) != 7 {
        return None;
    }
    let id = decimal(word(line, 2))?;
    group_words(line, 3, id)
}

/// `frag X` or `status X`
fn pair_alone<'a>(line: &[u8], form: Form<'a>) -> Option<Form<'a>>
    ensures { result ≡ pair_alone line.now form.entry }
{
    if count_words(line) == 2 {
        Some(form)
    } else {
        None
    }
}

/// `down XS D [WORD]`
fn pair_down(line: &[u8]) -> Option<Form<'_>>
    ensures { result ≡ pair_down line.now }
{
    down_of(line, number_behind(word(line, 1)))
}

/// `up XU`
fn pair_up(line: &[u8]) -> Option<Form<'_>>
    ensures { result ≡ pair_up line.now }
{
    if count_words(line) != 2 {
        return None;
    }
    let number = number_behind(word(line, 1))?;
    Some(Form::Up { number })
}
