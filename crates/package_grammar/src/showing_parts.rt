//! The texts of fields.
ghost use Rattle.std.specs.Prelude.{◌≡◌, ◌++◌, OnOk, codes, string_bytes};
ghost use Rattle.std.specs.Fmt.{decimal};
ghost use Rattle.hex.specs.Hex.{encode_lower};
ghost use Rattle.package_grammar.specs.Texts.{truth, number_hex, there, group_text, other_groups, groups_text, pieces_text, coding_text, group_key_text, frames_text, fragment_text, status_text};

use cast_wire::GroupAddress;
use std::alloc::AllocError;
use wire_base::flag_value;

/// Puts words at the end.
#[inline(always)]
pub fn put_text(words: &str, text: &mut String) -> Result<(), AllocError>
    ensures { OnOk result (string_bytes text.new ≡ string_bytes text.old ++ words.now) }
{
    text.push_str(words)
}

/// Puts 8 hex digits at the end, the most significant first.
fn put_number_hex(number: u32, text: &mut String) -> Result<(), AllocError>
    ensures { OnOk result (string_bytes text.new ≡ string_bytes text.old ++ number_hex number) }
{
    let mut digits = [0; 8];
    match hex::encode_to_slice(number.to_be_bytes(), &mut digits) {
        Ok(()) => {}
        Err(_) => unreachable!(),
    }
    match str::from_utf8(&digits) {
        Ok(digits) => text.push_str(digits),
        Err(_) => unreachable!(),
    }
}

/// Puts two hex digits for each byte at the end.
fn put_bytes_hex(bytes: &[u8], text: &mut String) -> Result<(), AllocError>
    ensures { OnOk result
        (string_bytes text.new ≡ string_bytes text.old ++ encode_lower bytes.now) }
{
    let digits = hex::encode(*text.allocator(), bytes)?;
    put_text(digits.as_str(), text)
}

/// Puts a number at the end, quickly where it has one digit.
#[inline(always)]
pub fn put_small(number: u8, text: &mut String) -> Result<(), AllocError>
    ensures { OnOk result (string_bytes text.new ≡ string_bytes text.old ++ decimal number) }
{
    if number < 10 {
        return text.push(char::from(b'0' + number));
    }
    write!(text, "{number}")
}

/// Puts a name or a word's head and then a number at the end.
#[inline(always)]
pub fn put_word(head: &str, number: u8, text: &mut String) -> Result<(), AllocError>
    ensures { OnOk result
        (string_bytes text.new ≡ string_bytes text.old ++ (head.now ++ decimal number)) }
{
    put_text(head, text)?;
    put_small(number, text)
}

/// Puts a head and then a larger number at the end.
pub fn put_number(head: &str, number: u32, text: &mut String) -> Result<(), AllocError>
    ensures { OnOk result
        (string_bytes text.new ≡ string_bytes text.old ++ (head.now ++ decimal number)) }
{
    put_text(head, text)?;
    write!(text, "{number}")
}

/// Puts a head and then a truth value, 0 or 1, at the end.
pub fn put_truth(head: &str, value: bool, text: &mut String) -> Result<(), AllocError>
    ensures { OnOk result
        (string_bytes text.new ≡ string_bytes text.old ++ (head.now ++ truth value)) }
{
    put_word(head, flag_value(value, 1), text)
}

/// Puts a head and then a number at the end, or a dash where there is none.
pub fn put_there(head: &str, number: Option<u32>, text: &mut String) -> Result<(), AllocError>
    ensures { OnOk result
        (string_bytes text.new ≡ string_bytes text.old ++ (head.now ++ there number)) }
{
    match number {
        Some(number) => put_number(head, number, text),
        None => {
            put_text(head, text)?;
            text.push('-')
        }
    }
}

/// Puts two heads, each with its number, at the end.
pub fn put_words(
    head: &str,
    number: u8,
    next: &str,
    other: u8,
    text: &mut String,
) -> Result<(), AllocError>
    ensures { OnOk result (string_bytes text.new
        ≡ string_bytes text.old ++ (head.now ++ decimal number ++ (next.now ++ decimal other))) }
{
    put_word(head, number, text)?;
    put_word(next, other, text)
}

/// Puts a head with its number, and one with a truth value, at the end.
pub fn put_flagged(
    head: &str,
    number: u8,
    next: &str,
    value: bool,
    text: &mut String,
) -> Result<(), AllocError>
    ensures { OnOk result (string_bytes text.new
        ≡ string_bytes text.old ++ (head.now ++ decimal number ++ (next.now ++ truth value))) }
{
    put_word(head, number, text)?;
    put_truth(next, value, text)
}

fn put_group(group: &GroupAddress, text: &mut String) -> Result<(), AllocError>
    ensures { OnOk result (string_bytes text.new
        ≡ string_bytes text.old ++ group_text group.now.id group.now.addr) }
{
    put_small(group.id, text)?;
    text.push(':')?;
    put_number_hex(group.addr, text)
}

/// Puts the groups after the first at the end.
fn put_other_groups(groups: &[GroupAddress], text: &mut String) -> Result<(), AllocError>
    ensures { OnOk result
        (string_bytes text.new ≡ string_bytes text.old ++ other_groups groups.now) }
{
    match groups {
        [] => Ok(()),
        [first, others @ ..] => {
            text.push(',')?;
            put_group(first, text)?;
            put_other_groups(others, text)
        }
    }
}

/// Puts the groups at the end, or a dash where there is none.
fn put_groups(groups: &[GroupAddress], text: &mut String) -> Result<(), AllocError>
    ensures { OnOk result
        (string_bytes text.new ≡ string_bytes text.old ++ groups_text groups.now) }
{
    match groups {
        [] => text.push('-'),
        [first, others @ ..] => {
            put_group(first, text)?;
            put_other_groups(others, text)
        }
    }
}

/// Puts a FragSessionSetupReq (TS004-1.0.0).
pub fn put_setup(
    index: u8,
    mask: u8,
    nb_frag: u16,
    frag_size: u8,
    algo: u8,
    delay: u8,
    padding: u8,
    descriptor: u32,
    text: &mut String,
) -> Result<(), AllocError>
    ensures { OnOk result (string_bytes text.new
        ≡ string_bytes text.old ++ (pieces_text index mask nb_frag frag_size
        ++ coding_text algo delay padding descriptor)) }
{
    put_pieces(index, mask, nb_frag, frag_size, text)?;
    put_coding(algo, delay, padding, descriptor, text)
}

/// Puts a FragSessionSetupReq's session and pieces.
fn put_pieces(
    index: u8,
    mask: u8,
    nb_frag: u16,
    frag_size: u8,
    text: &mut String,
) -> Result<(), AllocError>
    ensures { OnOk result (string_bytes text.new
        ≡ string_bytes text.old ++ pieces_text index mask nb_frag frag_size) }
{
    put_word("FragSessionSetupReq index=", index, text)?;
    put_word(" mask=", mask, text)?;
    put_number(" nbfrag=", nb_frag as u32, text)?;
    put_word(" fragsize=", frag_size, text)
}

/// Puts a FragSessionSetupReq's coding, and what the file is.
fn put_coding(
    algo: u8,
    delay: u8,
    padding: u8,
    descriptor: u32,
    text: &mut String,
) -> Result<(), AllocError>
    ensures { OnOk result (string_bytes text.new
        ≡ string_bytes text.old ++ coding_text algo delay padding descriptor) }
{
    put_word(" algo=", algo, text)?;
    put_word(" delay=", delay, text)?;
    put_word(" padding=", padding, text)?;
    put_text(" descriptor=", text)?;
    put_number_hex(descriptor, text)
}

/// Puts a FragSessionStatusAns (TS004-1.0.0).
pub fn put_counts(
    index: u8,
    received: u16,
    missing: u8,
    norows: bool,
    text: &mut String,
) -> Result<(), AllocError>
    ensures { OnOk result (string_bytes text.new
        ≡ string_bytes text.old ++ (codes "FragSessionStatusAns index=" ++ decimal index
        ++ (codes " received=" ++ decimal received
        ++ (codes " missing=" ++ decimal missing ++ (codes " norows=" ++ truth norows))))) }
{
    put_word("FragSessionStatusAns index=", index, text)?;
    put_number(" received=", received as u32, text)?;
    put_word(" missing=", missing, text)?;
    put_truth(" norows=", norows, text)
}

/// Puts a McGroupSetupReq (TS005-1.0.0).
pub fn put_group_setup(
    id: u8,
    addr: u32,
    key: &[u8],
    min: u32,
    max: u32,
    text: &mut String,
) -> Result<(), AllocError>
    ensures { OnOk result (string_bytes text.new
        ≡ string_bytes text.old ++ (group_key_text id addr key.now ++ frames_text min max)) }
{
    put_group_key(id, addr, key, text)?;
    put_frames(min, max, text)
}

/// Puts a McGroupSetupReq's group, with its wrapped key.
fn put_group_key(id: u8, addr: u32, key: &[u8], text: &mut String) -> Result<(), AllocError>
    ensures { OnOk result
        (string_bytes text.new ≡ string_bytes text.old ++ group_key_text id addr key.now) }
{
    put_word("McGroupSetupReq id=", id, text)?;
    put_text(" addr=", text)?;
    put_number_hex(addr, text)?;
    put_text(" key=", text)?;
    put_bytes_hex(key, text)
}

/// Puts a McGroupSetupReq's frame counts.
fn put_frames(min: u32, max: u32, text: &mut String) -> Result<(), AllocError>
    ensures { OnOk result (string_bytes text.new ≡ string_bytes text.old ++ frames_text min max) }
{
    put_number(" min=", min, text)?;
    put_number(" max=", max, text)
}

/// Puts a McClassCSessionReq (TS005-1.0.0).
pub fn put_class_c(
    id: u8,
    time: u32,
    timeout: u8,
    freq: u32,
    dr: u8,
    text: &mut String,
) -> Result<(), AllocError>
    ensures { OnOk result (string_bytes text.new
        ≡ string_bytes text.old ++ (codes "McClassCSessionReq id=" ++ decimal id
        ++ (codes " time=" ++ decimal time
        ++ (codes " timeout=" ++ decimal timeout
        ++ (codes " freq=" ++ decimal freq ++ (codes " dr=" ++ decimal dr)))))) }
{
    put_word("McClassCSessionReq id=", id, text)?;
    put_number(" time=", time, text)?;
    put_session(timeout, freq, dr, text)
}

/// Puts a McClassBSessionReq (TS005-1.0.0).
pub fn put_class_b(
    id: u8,
    time: u32,
    periodicity: u8,
    timeout: u8,
    freq: u32,
    dr: u8,
    text: &mut String,
) -> Result<(), AllocError>
    ensures { OnOk result (string_bytes text.new
        ≡ string_bytes text.old ++ (codes "McClassBSessionReq id=" ++ decimal id
        ++ (codes " time=" ++ decimal time
        ++ (codes " periodicity=" ++ decimal periodicity
        ++ (codes " timeout=" ++ decimal timeout
        ++ (codes " freq=" ++ decimal freq ++ (codes " dr=" ++ decimal dr))))))) }
{
    put_word("McClassBSessionReq id=", id, text)?;
    put_number(" time=", time, text)?;
    put_word(" periodicity=", periodicity, text)?;
    put_session(timeout, freq, dr, text)
}

/// Puts how long a session lasts at most, and how it is heard.
fn put_session(timeout: u8, freq: u32, dr: u8, text: &mut String) -> Result<(), AllocError>
    ensures { OnOk result (string_bytes text.new
        ≡ string_bytes text.old ++ (codes " timeout=" ++ decimal timeout
        ++ (codes " freq=" ++ decimal freq ++ (codes " dr=" ++ decimal dr)))) }
{
    put_word(" timeout=", timeout, text)?;
    put_number(" freq=", freq, text)?;
    put_word(" dr=", dr, text)
}

/// Puts the answer to a session's request: its bits, and when the session begins.
pub fn put_session_answer(
    head: &str,
    id: u8,
    bits: u8,
    start: Option<u32>,
    text: &mut String,
) -> Result<(), AllocError>
    ensures { OnOk result (string_bytes text.new
        ≡ string_bytes text.old ++ (head.now ++ decimal id
        ++ (codes " bits=" ++ decimal bits ++ (codes " start=" ++ there start)))) }
{
    put_word(head, id, text)?;
    put_word(" bits=", bits, text)?;
    put_there(" start=", start, text)
}

/// Puts a DataFragment (TS004-1.0.0).
pub fn put_fragment(index: u8, n: u16, bytes: &[u8], text: &mut String) -> Result<(), AllocError>
    ensures { OnOk result
        (string_bytes text.new ≡ string_bytes text.old ++ fragment_text index n bytes.now) }
{
    put_word("DataFragment index=", index, text)?;
    put_number(" n=", n as u32, text)?;
    put_text(" bytes=", text)?;
    put_bytes_hex(bytes, text)
}

/// Puts a McGroupStatusAns (TS005-1.0.0).
pub fn put_status(
    total: u8,
    mask: u8,
    groups: &[GroupAddress],
    text: &mut String,
) -> Result<(), AllocError>
    ensures { OnOk result
        (string_bytes text.new ≡ string_bytes text.old ++ status_text total mask groups.now) }
{
    put_word("McGroupStatusAns total=", total, text)?;
    put_word(" mask=", mask, text)?;
    put_text(" groups=", text)?;
    put_groups(groups, text)
}
