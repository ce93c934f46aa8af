//! The text of a command.
ghost use Rattle.std.specs.Prelude.{◌≡◌, ◌++◌, OnOk, OnErr, string_bytes};
ghost use Rattle.package_grammar.specs.HeldMessage.{ShowsNext};
ghost use Rattle.package_grammar.specs.Texts.{fragment_text, text_of};

use crate::command::Command;
use crate::message::Message;
use crate::showing_cast::put_cast;
use crate::showing_parts::put_fragment;
use crate::showing_sync::put_sync;
use std::alloc::AllocError;

/// The bytes that a text has room for at first: enough for each command but a DataFragment, whose hex digits make it grow.
const TEXT_ROOM: usize = 120;

/// Puts the text of a command at the end: its name, and a word for each field, several error flags together as one `bits=`.
/// Numbers are decimal, addresses and descriptors 8 hex digits with the most significant first, keys and fragments two hex digits
/// a byte in their order, groups `id:address` separated by commas, truth values 0 or 1, and an absent field `-`; no line feed.
/// Where memory is missing nothing is put.
pub fn show(command: &Command, out: &mut Vec<u8>) -> Result<(), AllocError>
    ensures shown { OnOk result (out.new.items ≡ out.old.items ++ text_of command.now) }
    ensures same { OnErr result (out.new.items ≡ out.old.items) }
{
    let mut text = String::with_capacity(*out.allocator(), TEXT_ROOM)?;
    put(command, &mut text)?;
    out.extend_from_slice(text.as_bytes())
}

impl<'a> Message<'a> {
    /// Takes the next command and puts its text at the end, as `show` does; false exactly where none is left. The text is made in
    /// `room`, whose content is not kept. Where memory is missing nothing is put, and the command may be taken.
    pub fn show_next(&mut self, room: &mut String, out: &mut Vec<u8>) -> Result<bool, AllocError>
        ensures { ShowsNext self.old self.new out.old.items out.new.items result }
    {
        match self.next_name() {
            Some(name) => {
                out.extend_from_slice(name.as_bytes())?;
                Ok(true)
            }
            None => self.show_fields(room, out),
        }
    }

    /// The same, with a DataFragment's bytes not copied.
    fn show_fields(&mut self, room: &mut String, out: &mut Vec<u8>) -> Result<bool, AllocError>
        ensures { ShowsNext self.old self.new out.old.items out.new.items result }
    {
        match self.next_fragment() {
            Some(fragment) => {
                room.clear();
                put_fragment(fragment.index, fragment.n, fragment.bytes, room)?;
                out.extend_from_slice(room.as_bytes())?;
                Ok(true)
            }
            None => self.show_whole(room, out),
        }
    }

    /// The same. It is a function by itself, so that none of the others has to make room for a whole command.
    #[inline(never)]
    fn show_whole(&mut self, room: &mut String, out: &mut Vec<u8>) -> Result<bool, AllocError>
        ensures { ShowsNext self.old self.new out.old.items out.new.items result }
    {
        if self.text_next(room)? {
            out.extend_from_slice(room.as_bytes())?;
            return Ok(true);
        }
        Ok(false)
    }
}

fn put(command: &Command, text: &mut String) -> Result<(), AllocError>
    ensures { OnOk result (string_bytes text.new ≡ string_bytes text.old ++ text_of command.now) }
{
    match command {
        Command::Sync(cmd) => put_sync(cmd, text),
        Command::Cast(cmd) => put_cast(cmd, text),
    }
}
