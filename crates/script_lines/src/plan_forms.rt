//! The forms of the plan: the first line, the image, the group, its window and the devices.

ghost use Rattle.std.specs.Prelude.{◌≡◌, ◌≤◌, ◌+◌};
ghost use Rattle.script_lines.specs.Forms.{header_form, image_form, image_words, group_form, group_words, window_from, window_c_words, window_b_words, device_from, device_to, device_of_words, device_words, class_at};

use crate::forms::{Class, DeviceLine, Form};
use crate::numbers::{decimal, hex_number, key};
use crate::words::{count_words, is_word, word};

/// `fuota 1`
pub(crate) fn header_form(line: &[u8]) -> Option<Form<'_>>
    ensures { result ≡ header_form line.now }
{
    if count_words(line) == 2 && is_word(line, 1, "1") {
        Some(Form::Header)
    } else {
        None
    }
}

/// `image FRAGSIZE PARITY`
pub(crate) fn image_form(line: &[u8]) -> Option<Form<'_>>
    ensures { result ≡ image_form line.now }
{
    if count_words(line) == 3 {
        image_words(line, 1, 0)
    } else {
        None
    }
}

/// FRAGSIZE and PARITY, from a place on.
pub(crate) fn image_words(line: &[u8], place: usize, index: u64) -> Option<Form<'_>>
    requires { place ≤ 8 }
    ensures { result ≡ image_words line.now place index }
{
    let frag_size = decimal(word(line, place))?;
    let parity = decimal(word(line, place + 1))?;
    Some(Form::Image {
        frag_size,
        parity,
        index,
    })
}

/// `group ADDR KEY MIN MAX`
pub(crate) fn group_form(line: &[u8]) -> Option<Form<'_>>
    ensures { result ≡ group_form line.now }
{
    if count_words(line) == 5 {
        group_words(line, 1, 0)
    } else {
        None
    }
}

/// ADDR, KEY, MIN and MAX, from a place on.
pub(crate) fn group_words(line: &[u8], place: usize, id: u64) -> Option<Form<'_>>
    requires { place ≤ 8 }
    ensures { result ≡ group_words line.now place id }
{
    let addr = hex_number(word(line, place))?;
    let key = key(word(line, place + 1))?;
    let min = decimal(word(line, place + 2))?;
    let max = decimal(word(line, place + 3))?;
    Some(Form::Group {
        id,
        addr,
        key,
        min,
        max,
    })
}

/// `window c ..` or `window b ..`, with the letter at a place.
pub(crate) fn window_from(line: &[u8], place: usize) -> Option<Form<'_>>
    requires { place ≤ 8 }
    ensures { result ≡ window_from line.now place }
{
    let count = count_words(line);
    if count == place + 5 && is_word(line, place, "c") {
        window_c_words(line, place + 1)
    } else if count == place + 6 && is_word(line, place, "b") {
        window_b_words(line, place + 1)
    } else {
        None
    }
}

/// START, TIMEOUT, FREQ and DR, from a place on.
fn window_c_words(line: &[u8], place: usize) -> Option<Form<'_>>
    requires { place ≤ 9 }
    ensures { result ≡ window_c_words line.now place }
{
    let start = decimal(word(line, place))?;
    let timeout = decimal(word(line, place + 1))?;
    let freq = decimal(word(line, place + 2))?;
    let dr = decimal(word(line, place + 3))?;
    Some(Form::WindowC {
        start,
        timeout,
        freq,
        dr,
    })
}

/// START, PERIODICITY, TIMEOUT, FREQ and DR, from a place on.
fn window_b_words(line: &[u8], place: usize) -> Option<Form<'_>>
    requires { place ≤ 9 }
    ensures { result ≡ window_b_words line.now place }
{
    let start = decimal(word(line, place))?;
    let periodicity = decimal(word(line, place + 1))?;
    let timeout = decimal(word(line, place + 2))?;
    let freq = decimal(word(line, place + 3))?;
    let dr = decimal(word(line, place + 4))?;
    Some(Form::WindowB {
        start,
        periodicity,
        timeout,
        freq,
        dr,
    })
}

/// `device ID CLASS HW ROWS OFFSET KEY [DESCRIPTOR] [v1] [k11] [flash]`, with CLASS at a place.
pub(crate) fn device_from(line: &[u8], place: usize) -> Option<Form<'_>>
    requires { place ≤ 8 }
    ensures { result ≡ device_from line.now place }
{
    let count = count_words(line);
    if place + 5 < count && is_word(line, count - 1, "flash") {
        device_to(line, place, count - 1, true)
    } else {
        device_to(line, place, count, false)
    }
}

/// The same in so many words, those before `flash`.
fn device_to(line: &[u8], place: usize, count: usize, flash: bool) -> Option<Form<'_>>
    requires { place ≤ 8 }
    ensures { result ≡ device_to line.now place count flash }
{
    if place + 5 < count && is_word(line, count - 1, "k11") {
        device_of_words(line, place, count - 1, true, flash)
    } else {
        device_of_words(line, place, count, false, flash)
    }
}

/// The same in so many words, those before `k11`.
fn device_of_words(
    line: &[u8],
    place: usize,
    count: usize,
    k11: bool,
    flash: bool,
) -> Option<Form<'_>>
    requires { place ≤ 8 }
    ensures { result ≡ device_of_words line.now place count k11 flash }
{
    if count == place + 5 {
        return device_words(line, place, None, false, k11, flash);
    }
    if count == place + 6 {
        return device_of_one_more(line, place, k11, flash);
    }
    if count == place + 7 && is_word(line, place + 6, "v1") {
        let descriptor = hex_number(word(line, place + 5))?;
        return device_words(line, place, Some(descriptor), true, k11, flash);
    }
    None
}

/// With one word after KEY, `v1` or DESCRIPTOR.
fn device_of_one_more(line: &[u8], place: usize, k11: bool, flash: bool) -> Option<Form<'_>>
    requires { place ≤ 8 }
    ensures { result ≡ device_of_words line.now place (place + 6) k11 flash }
{
    if is_word(line, place + 5, "v1") {
        return device_words(line, place, None, true, k11, flash);
    }
    let descriptor = hex_number(word(line, place + 5))?;
    device_words(line, place, Some(descriptor), false, k11, flash)
}

fn device_words(
    line: &[u8],
    place: usize,
    descriptor: Option<u32>,
    v1: bool,
    k11: bool,
    flash: bool,
) -> Option<Form<'_>>
    requires { place ≤ 8 }
    ensures { result ≡ device_words line.now place descriptor v1 k11 flash }
{
    let id = decimal(word(line, 1))?;
    let class = class_at(line, place)?;
    let hw = decimal(word(line, place + 1))?;
    let rows = decimal(word(line, place + 2))?;
    let offset = decimal(word(line, place + 3))?;
    let key = key(word(line, place + 4))?;
    Some(Form::Device(DeviceLine {
        id,
        class,
        hw,
        rows,
        offset,
        key,
        descriptor,
        v1,
        k11,
        flash,
    }))
}

/// The class that a word names.
fn class_at(line: &[u8], place: usize) -> Option<Class>
    ensures { result ≡ class_at line.now place }
{
    if is_word(line, place, "a") {
        Some(Class::A)
    } else if is_word(line, place, "c") {
        Some(Class::C)
    } else {
        None
    }
}
