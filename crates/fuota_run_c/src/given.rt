//! Files that lie in C's memory.

ghost use Rattle.std.specs.Prelude.{◌≡◌, false, [], Some};
ghost use Rattle.fuota_run_c.specs.Given.{files_in, filled, held_with};

use fuota_run::{Failed, Files};
use std::marker::Model;

/// A file by its name.
#[repr(C)]
#[derive(Drop)]
pub struct FileFields<'a> {
    pub name: &'a [u8],
    pub bytes: &'a [u8],
}

/// The files of a call, and what each name holds that none of them has. No call of `Files` fails.
#[derive(Drop)]
pub struct GivenFiles<'a> {
    files: &'a [FileFields<'a>],
    others: &'a [u8],
    left: &'a [u8],
    is_chosen: bool,
}

impl<'a> Model for GivenFiles<'a> {
    ghost use Rattle.fuota_run_c.specs.Seen.{SeenGiven};
    ghost use Rattle.fuota_run_c.specs.Given.{files_in};

    ghost Value = { SeenGiven };

    ghost view = { λ g. record {
      files = files_in g.files.now;
      others = g.others.now;
      left = g.left.now;
      chosen = g.is_chosen;
    } };
}

impl<'a> GivenFiles<'a> {
    /// Makes files by name, none of them chosen. Where two names are equal, the first is the file of that name; a name that none
    /// has holds `others`.
    pub fn new(files: &'a [FileFields<'a>], others: &'a [u8]) -> Self
        ensures files { result.files ≡ files_in files.now }
        ensures others { result.others ≡ others.now }
        ensures unchosen { result.chosen ≡ false }
    {
        GivenFiles {
            files,
            others,
            left: &[],
            is_chosen: false,
        }
    }
}

/// The bytes of the first file of that name, or else the others.
fn bytes_under<'a>(files: &'a [FileFields<'a>], others: &'a [u8], name: &str) -> &'a [u8]
    ensures { result.now ≡ held_with (files_in files.now) others.now name.now }
{
    for file in files {
        if file.name == name.as_bytes() {
            return file.bytes;
        }
    }
    others
}

impl Files for GivenFiles<'_> {
    ghost held = { λ g. Some (filled g.files g.others) };

    ghost left = { λ g. Some g.left };

    ghost chosen = { λ g. g.chosen };

    ghost faults = { λ g. 0 };

    fn choose(&mut self, name: &str) -> Result<(), Failed> {
        self.left = bytes_under(self.files, self.others, name);
        self.is_chosen = true;
        Ok(())
    }

    fn read(&mut self, buf: &mut [u8]) -> Result<usize, Failed> {
        let count = self.left.len().min(buf.len());
        let (front, rest) = self.left.split_at(count);
        buf[..count].copy_from_slice(front);
        self.left = rest;
        Ok(count)
    }
}
