//! The words of a command line, out of C's memory.

ghost use Rattle.std.specs.Prelude.{◌≡◌, IfOk, map, string_bytes};
ghost use Rattle.fuota_run_c.specs.Given.{AreWords, words_in};

use std::alloc::{AllocError, Global};

/// A word of a command line.
#[repr(C)]
#[derive(Drop)]
pub struct WordFields<'a> {
    pub bytes: &'a [u8],
}

/// The words as texts. Where one of them is no text there are none, as for the program.
pub fn words_of(alloc: Global, told: &[WordFields]) -> Result<Vec<String>, AllocError>
    ensures { IfOk result (λ words. AreWords (words_in told.now) (map string_bytes words.items)) }
{
    let mut words = Vec::new(alloc);
    for word in told {
        let Ok(text) = str::from_utf8(word.bytes) else {
            return Ok(Vec::new(alloc));
        };
        words.push(String::from_str(alloc, text)?)?;
    }
    Ok(words)
}
