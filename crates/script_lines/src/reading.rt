//! The form that a line spells: its first word says which, and each form has its own function.

ghost use Rattle.std.specs.Prelude.{◌≡◌};
ghost use Rattle.std.specs.Str.{bytes_eq};
ghost use Rattle.script_lines.specs.Lines.{word};
ghost use Rattle.script_lines.specs.Forms.{form_of, event_form, sent_form, alone, header_form, image_form, group_form, window_from, device_from, at_form, wake_form, migrate_form, power_form, ask_form, down_form, down_of, down_words, raw_form, raw_words, in_the_air, air_form, raw_air_form, raw_air_words, up_form};

use crate::fast_forms::{
    air_numbers, asked_device, down_numbers, is_frag, is_status, migrated_device, powered_device,
    raw_air_parts, raw_parts, time_at, up_number, woken_device,
};
use crate::forms::Form;
use crate::hex_bytes::HexBytes;
use crate::numbers::decimal;
use crate::plan_forms::{device_from, group_form, header_form, image_form, window_from};
use crate::words::{count_words, word};

/// Returns the form that a line spells; None exactly where it spells none.
pub fn form(line: &[u8]) -> Option<Form<'_>>
    ensures { result ≡ form_of line.now }
{
    if let Some(numbers) = down_numbers(line) {
        Some(Form::Down {
            number: numbers.number,
            device: numbers.device,
            word: numbers.random,
        })
    } else if let Some(parts) = raw_parts(line) {
        Some(Form::Raw {
            device: parts.device,
            port: parts.port,
            payload: parts.payload,
            word: parts.random,
        })
    } else if is_frag(line) {
        Some(Form::Frag)
    } else if let Some(number) = up_number(line) {
        Some(Form::Up { number })
    } else if let Some(device) = asked_device(line) {
        Some(Form::Ask { device })
    } else if let Some(time) = time_at(line) {
        Some(Form::At { time })
    } else if let Some(device) = woken_device(line) {
        Some(Form::Wake { device })
    } else if let Some(device) = migrated_device(line) {
        Some(Form::Migrate { device })
    } else if let Some(device) = powered_device(line) {
        Some(Form::Power { device })
    } else if is_status(line) {
        Some(Form::Status)
    } else if let Some(numbers) = air_numbers(line) {
        Some(Form::Air {
            number: numbers.number,
            device: numbers.device,
            word: numbers.random,
        })
    } else if let Some(parts) = raw_air_parts(line) {
        Some(Form::RawAir {
            device: parts.device,
            bytes: parts.bytes,
            word: parts.random,
        })
    } else {
        any_form(line)
    }
}

/// The form of any line, word by word.
#[tactic(auto, unfolding(crate::specs::Forms::form_of))]
fn any_form(line: &[u8]) -> Option<Form<'_>>
    ensures { result ≡ form_of line.now }
{
    let keyword = word(line, 0);
    if is_keyword(keyword, "fuota") {
        header_form(line)
    } else if is_keyword(keyword, "image") {
        image_form(line)
    } else if is_keyword(keyword, "group") {
        group_form(line)
    } else if is_keyword(keyword, "window") {
        window_from(line, 1)
    } else if is_keyword(keyword, "device") {
        device_from(line, 2)
    } else {
        event_form(line, keyword)
    }
}

/// The form of a line that is not of the plan: the moment, what happens to a device, what the server is asked for.
fn event_form<'a>(line: &'a [u8], keyword: &[u8]) -> Option<Form<'a>>
    requires { keyword.now ≡ word line.now 0 }
    ensures { result ≡ event_form line.now }
{
    if is_keyword(keyword, "at") {
        at_form(line)
    } else if is_keyword(keyword, "wake") {
        wake_form(line)
    } else if is_keyword(keyword, "migrate") {
        migrate_form(line)
    } else if is_keyword(keyword, "power") {
        power_form(line)
    } else if is_keyword(keyword, "ask") {
        ask_form(line)
    } else if is_keyword(keyword, "frag") {
        alone(line, Form::Frag)
    } else if is_keyword(keyword, "status") {
        alone(line, Form::Status)
    } else {
        sent_form(line, keyword)
    }
}

/// The form of any other line: what goes to a device or comes from one, and the end.
fn sent_form<'a>(line: &'a [u8], keyword: &[u8]) -> Option<Form<'a>>
    requires { keyword.now ≡ word line.now 0 }
    ensures { result ≡ sent_form line.now }
{
    if is_keyword(keyword, "down") {
        down_form(line)
    } else if is_keyword(keyword, "raw") {
        raw_form(line)
    } else if is_keyword(keyword, "air") {
        air_form(line)
    } else if is_keyword(keyword, "rawair") {
        raw_air_form(line)
    } else if is_keyword(keyword, "up") {
        up_form(line)
    } else if is_keyword(keyword, "end") {
        alone(line, Form::End)
    } else {
        None
    }
}

/// Whether a word is this keyword.
pub(crate) fn is_keyword(word: &[u8], keyword: &str) -> bool
    ensures { result ≡ bytes_eq word.now keyword.now }
{
    word == keyword.as_bytes()
}

/// A form of only its keyword.
pub(crate) fn alone<'a>(line: &[u8], form: Form<'a>) -> Option<Form<'a>>
    ensures { result ≡ alone line.now form.entry }
{
    if count_words(line) == 1 {
        Some(form)
    } else {
        None
    }
}

/// `at MS`
pub(crate) fn at_form(line: &[u8]) -> Option<Form<'_>>
    ensures { result ≡ at_form line.now }
{
    if count_words(line) != 2 {
        return None;
    }
    let time = decimal(word(line, 1))?;
    Some(Form::At { time })
}

/// `wake D`
pub(crate) fn wake_form(line: &[u8]) -> Option<Form<'_>>
    ensures { result ≡ wake_form line.now }
{
    if count_words(line) != 2 {
        return None;
    }
    let device = decimal(word(line, 1))?;
    Some(Form::Wake { device })
}

/// `migrate D`
pub(crate) fn migrate_form(line: &[u8]) -> Option<Form<'_>>
    ensures { result ≡ migrate_form line.now }
{
    if count_words(line) != 2 {
        return None;
    }
    let device = decimal(word(line, 1))?;
    Some(Form::Migrate { device })
}

/// `power D`
pub(crate) fn power_form(line: &[u8]) -> Option<Form<'_>>
    ensures { result ≡ power_form line.now }
{
    if count_words(line) != 2 {
        return None;
    }
    let device = decimal(word(line, 1))?;
    Some(Form::Power { device })
}

/// `ask D`
pub(crate) fn ask_form(line: &[u8]) -> Option<Form<'_>>
    ensures { result ≡ ask_form line.now }
{
    if count_words(line) != 2 {
        return None;
    }
    let device = decimal(word(line, 1))?;
    Some(Form::Ask { device })
}

/// `down S D [WORD]`
fn down_form(line: &[u8]) -> Option<Form<'_>>
    ensures { result ≡ down_form line.now }
{
    down_of(line, decimal(word(line, 1)))
}

/// The same of the payload that its first word names.
pub(crate) fn down_of(line: &[u8], payload: Option<u64>) -> Option<Form<'_>>
    ensures { result ≡ down_of line.now payload }
{
    match count_words(line) {
        3 => down_words(line, payload, 0),
        4 => {
            let random = decimal(word(line, 3))?;
            down_words(line, payload, random)
        }
        _ => None,
    }
}

fn down_words(line: &[u8], payload: Option<u64>, random: u64) -> Option<Form<'_>>
    ensures { result ≡ down_words line.now payload random }
{
    let number = payload?;
    let device = decimal(word(line, 2))?;
    Some(Form::Down {
        number,
        device,
        word: random,
    })
}

/// `raw D PORT HEX [WORD]`
fn raw_form(line: &[u8]) -> Option<Form<'_>>
    ensures { result ≡ raw_form line.now }
{
    match count_words(line) {
        4 => raw_words(line, 0),
        5 => {
            let random = decimal(word(line, 4))?;
            raw_words(line, random)
        }
        _ => None,
    }
}

fn raw_words(line: &[u8], random: u64) -> Option<Form<'_>>
    ensures { result ≡ raw_words line.now random }
{
    let device = decimal(word(line, 1))?;
    let port = decimal(word(line, 2))?;
    let payload = HexBytes::read(word(line, 3))?;
    Some(Form::Raw {
        device,
        port,
        payload,
        word: random,
    })
}

/// `air S D [WORD]`
fn air_form(line: &[u8]) -> Option<Form<'_>>
    ensures { result ≡ air_form line.now }
{
    in_the_air(down_form(line))
}

/// A payload that comes as a frame, where there is one.
pub(crate) fn in_the_air(form: Option<Form<'_>>) -> Option<Form<'_>>
    ensures { result ≡ in_the_air form.entry }
{
    match form {
        Some(
            Form::Down {
                number,
                device,
                word,
            },
        ) => Some(Form::Air {
            number,
            device,
            word,
        }),
        _ => None,
    }
}

/// `rawair D HEX [WORD]`
fn raw_air_form(line: &[u8]) -> Option<Form<'_>>
    ensures { result ≡ raw_air_form line.now }
{
    match count_words(line) {
        3 => raw_air_words(line, 0),
        4 => {
            let random = decimal(word(line, 3))?;
            raw_air_words(line, random)
        }
        _ => None,
    }
}

fn raw_air_words(line: &[u8], random: u64) -> Option<Form<'_>>
    ensures { result ≡ raw_air_words line.now random }
{
    let device = decimal(word(line, 1))?;
    let bytes = HexBytes::read(word(line, 2))?;
    Some(Form::RawAir {
        device,
        bytes,
        word: random,
    })
}

/// `up U`
fn up_form(line: &[u8]) -> Option<Form<'_>>
    ensures { result ≡ up_form line.now }
{
    if count_words(line) != 2 {
        return None;
    }
    let number = decimal(word(line, 1))?;
    Some(Form::Up { number })
}
