//! The program as a call.

ghost use Rattle.std.specs.Prelude.{IfOk};
ghost use Rattle.fuota_run_c.specs.Given.{files_in, words_in};
ghost use Rattle.fuota_run_c.specs.Ran.{IsProgrammed, IsRun, answer_in};

use crate::answering::{Ran, answer};
use crate::given::FileFields;
use crate::words::{WordFields, words_of};
use c_base::answer::{DONE, NO_MEMORY, NO_ROOM};
use c_base::put_whole;
use std::alloc::{AllocError, Global};

/// The bytes of what the program wrote, and the status with which it ended.
#[repr(C)]
#[derive(Drop)]
pub struct RanFields {
    pub length: usize,
    pub status: u8,
}

/// Runs the program on the words of a command line, the program's name first, over these files: done, with what it wrote at the
/// front of `text`, its length and the program's status; no room where that has more bytes, with length and status alone; no
/// memory.
#[unsafe(no_mangle)]
pub extern "C" fn fuota_run(
    alloc: Global,
    words: &[WordFields],
    files: &[FileFields],
    text: &mut [u8],
    out: &mut RanFields,
) -> u8
    ensures { IsRun (words_in words.now) (files_in files.now)
        text.old text.new out.old out.new result }
{
    let Ok(ran) = ran_over(alloc, words, files) else {
        return NO_MEMORY;
    };
    out.length = ran.text.len();
    out.status = ran.status.code();
    if ran.text.len() > text.len() {
        return NO_ROOM;
    }
    // (C has the count already)
    let _count = put_whole(&ran.text, text);
    DONE
}

fn ran_over(alloc: Global, words: &[WordFields], files: &[FileFields]) -> Result<Ran, AllocError>
    ensures { IfOk result (λ ran. IsProgrammed (words_in words.now) (files_in files.now)
        (answer_in ran)) }
{
    let words = words_of(alloc, words)?;
    answer(alloc, &words, files)
}
