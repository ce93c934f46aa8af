//! A message, command by command.
ghost use Rattle.std.specs.Prelude.{◌≡◌, ◌<◌, ◌≤◌, [], length, string_bytes, IfOk, IfSome, IfNone, Some};
ghost use Rattle.wire_base.specs.Payload.{max_payload};
ghost use Rattle.wire_base.specs.Rows.{IsListed};
ghost use Rattle.package_grammar.specs.Grammar.{row, IsValid};
ghost use Rattle.package_grammar.specs.Reading.{reading_of};
ghost use Rattle.package_grammar.specs.HeldMessage.{message_of, TakesCommand, ShowsCommand, LeavesFragment};
ghost use Rattle.package_grammar.specs.Texts.{text_of};
ghost use Rattle.cast_wire.specs.declared.cmd.Cmd.TheVariants.{DataFragment};
ghost use Rattle.package_grammar.specs.declared.command.Command.{Command};
ghost use Rattle.package_grammar.specs.declared.command.Command.TheVariants.{Cast};

use crate::command::Command;
use crate::names::{is_port, name_at};
use crate::reading::read_one;
use crate::showing_place::put_at;
use cast_wire::{FRAGMENT_PORT, Fragment, fragment_at};
use std::alloc::AllocError;
use std::marker::Model;
use wire_base::{Direction, MAX_PAYLOAD, Refusal};

/// A payload that was read whole and is a message. It gives its commands one by one; contracts see those that are left.
#[derive(Drop)]
pub struct Message<'a> {
    port: u8,
    direction: Direction,
    bytes: &'a [u8],
    /// The place of the next command.
    at: u16,
}

impl<'a> Model for Message<'a> {
    ghost use Rattle.package_grammar.specs.HeldMessage.{HeldMessage};
    ghost use Rattle.package_grammar.specs.MessageInside.{commands_left, IsAt};

    ghost Value = { HeldMessage };

    ghost view = { λ m. record {
      port = m.port;
      direction = m.direction;
      commands = commands_left m.port m.direction m.bytes.now m.at;
    } };

    ghost invariant = { λ m. IsAt m.port m.direction m.bytes.now m.at };
}

impl<'a> Message<'a> {
    /// Reads a whole payload: a message of its commands, or the place at which reading stops, and why.
    pub fn read(port: u8, direction: Direction, bytes: &'a [u8]) -> Result<Self, Refusal>
        ensures reading { result ≡ message_of port direction (reading_of port direction bytes.now) }
        ensures few { IfOk result (λ m. length m.commands ≤ max_payload) }
    {
        if !is_port(port) {
            return Err(Refusal::port());
        }
        if bytes.len() > MAX_PAYLOAD {
            return Err(Refusal::too_long());
        }
        let mut at = 0;
        while (at as usize) < bytes.len() {
            match name_at(port, direction, bytes, at) {
                Some(_) => at += 1,
                None => match read_one(port, direction, bytes, at) {
                    Ok((_command, next)) => at = next,
                    Err(refusal) => return Err(refusal),
                },
            }
        }
        Ok(Message {
            port,
            direction,
            bytes,
            at: 0,
        })
    }

    /// Takes the next command; None exactly where none is left.
    #[inline(always)]
    pub fn next(&mut self) -> Option<Command<'a>>
        ensures takes { TakesCommand self.old self.new result }
        ensures valid { IfSome result (λ c. IsValid c) }
        ensures listed { IfSome result (λ c. IsListed (row c) self.old.port self.old.direction) }
    {
        if self.at as usize == self.bytes.len() {
            return None;
        }
        match read_one(self.port, self.direction, self.bytes, self.at) {
            Ok((command, next)) => {
                self.at = next;
                Some(command)
            }
            Err(_) => None,
        }
    }

    /// Takes the next command and returns its text, where it is one without fields.
    #[inline(always)]
    pub(crate) fn next_name(&mut self) -> Option<&'static str>
        ensures named { IfSome result (λ name. (c : Command)
            × TakesCommand self.old self.new (Some c) × (text_of c ≡ name.now)) }
        ensures same { IfNone result (self.new ≡ self.old) }
    {
        if self.at as usize >= self.bytes.len() {
            return None;
        }
        match name_at(self.port, self.direction, self.bytes, self.at) {
            Some(name) => {
                self.at += 1;
                Some(name)
            }
            None => None,
        }
    }

    /// Makes `text` the text of the next command, and takes it; false exactly where none is left.
    #[inline(always)]
    pub(crate) fn text_next(&mut self, text: &mut String) -> Result<bool, AllocError>
        ensures shown { IfOk result
            (λ more. ShowsCommand self.old self.new [] (string_bytes text.new) more) }
    {
        text.clear();
        if self.bytes.len() == self.at as usize {
            return Ok(false);
        }
        match put_at(self.port, self.direction, self.bytes, self.at, text)? {
            Some(next) => {
                self.at = next;
                Ok(true)
            }
            None => Ok(false),
        }
    }

    /// Returns the DataFragment that comes next, which is then the last command; its bytes are not copied. None exactly where
    /// none comes next.
    pub fn fragment(&self) -> Option<Fragment<'a>>
        ensures leaves { LeavesFragment self.now result }
        ensures index { IfSome result (λ f. f.index < 4) }
    {
        match self.direction {
            Direction::Down if self.port == FRAGMENT_PORT => fragment_at(self.bytes, self.at),
            _ => None,
        }
    }

    /// Takes the DataFragment that comes next. None exactly where none comes next.
    #[inline(always)]
    pub(crate) fn next_fragment(&mut self) -> Option<Fragment<'a>>
        ensures taken { IfSome result (λ f. TakesCommand self.old self.new
            (Some (Cast (DataFragment f.index f.n f.bytes.now)))) }
        ensures same { IfNone result (self.new ≡ self.old) }
    {
        match self.fragment() {
            Some(fragment) => {
                self.at = self.bytes.len() as u16;
                Some(fragment)
            }
            None => None,
        }
    }

    /// Makes a second message of the same commands.
    pub fn again(&self) -> Message<'a>
        ensures { result ≡ self.now }
    {
        Message {
            port: self.port,
            direction: self.direction,
            bytes: self.bytes,
            at: self.at,
        }
    }

    /// Returns how many commands are left.
    pub fn count(mut self) -> u16
        requires { length self.commands ≤ max_payload }
        ensures { result ≡ length self.entry.commands }
    {
        let mut count = 0;
        while let Some(_command) = self.next() {
            count += 1;
        }
        count
    }
}
