//! The answer of the program to words, over files in memory.

ghost use Rattle.std.specs.Prelude.{◌≡◌, IfOk, length, map, string_bytes};
ghost use Rattle.fuota_run.specs.Answer.{IsAnswer, read_fault};
ghost use Rattle.fuota_run.specs.Memory.{held_by};
ghost use Rattle.fuota_run_c.specs.Given.{files_in, filled, is_too_long};
ghost use Rattle.fuota_run_c.specs.Ran.{answer_in};

use crate::given::{FileFields, GivenFiles};
use crate::text_sink::TextSink;
use fuota_run::{Status, run};
use std::alloc::{AllocError, Global};

/// How a run ended, and its text.
#[derive(Drop)]
pub struct Ran {
    pub status: Status,
    pub text: Vec<u8>,
}

/// One byte more than any source of the program may have.
const TOO_LONG: usize = 1_048_577;

const READ_FAULT: &str = "read fault\n";

/// The answer to the words over these files. A name that none of them has cannot be read, as a file that is absent.
///
/// For `run` each name holds something. So a name that is not there holds first more than any source may have: where such a name
/// is read, the answer is that it is too long. That may be said of a file that is there too, so the run is made again with nothing
/// under such names, which is never too long.
pub fn answer(alloc: Global, words: &[String], files: &[FileFields]) -> Result<Ran, AllocError>
    ensures { IfOk result (λ ran. IsAnswer (map string_bytes words.now)
        (held_by (files_in files.now)) (answer_in ran)) }
{
    let long = zeros(alloc, TOO_LONG)?;
    let ran = run_over(alloc, words, files, &long)?;
    if !is_too_long(ran.status) {
        return Ok(ran);
    }
    let again = run_over(alloc, words, files, &[])?;
    if is_too_long(again.status) {
        Ok(again)
    } else {
        unread(alloc)
    }
}

/// So many bytes.
fn zeros(alloc: Global, count: usize) -> Result<Vec<u8>, AllocError>
    ensures { IfOk result (λ bytes. length bytes.items ≡ count) }
{
    Vec::from_elem(alloc, 0, count)
}

/// The answer where all other names hold these bytes.
fn run_over(
    alloc: Global,
    words: &[String],
    files: &[FileFields],
    others: &[u8],
) -> Result<Ran, AllocError>
    ensures { IfOk result (λ ran. IsAnswer (map string_bytes words.now)
        (filled (files_in files.now) others.now) (answer_in ran)) }
{
    let mut given = GivenFiles::new(files, others);
    let mut text = TextSink::new(alloc);
    match run(alloc, words, &mut given, &mut text) {
        Status::Memory | Status::WriteFault => Err(AllocError),
        status => Ok(Ran {
            status,
            text: text.into_bytes(),
        }),
    }
}

fn is_too_long(status: Status) -> bool
    ensures { result ≡ is_too_long status }
{
    match status {
        Status::TooLong(_) => true,
        _ => false,
    }
}

/// The answer where a file could not be read.
fn unread(alloc: Global) -> Result<Ran, AllocError>
    ensures { IfOk result (λ ran. answer_in ran ≡ read_fault) }
{
    Ok(Ran {
        status: Status::ReadFault,
        text: READ_FAULT.as_bytes().to_vec(alloc)?,
    })
}
