ghost use Rattle.std.specs.Prelude.{◌≡◌, ◌+◌, ◌^◌, ◌<◌, length, option_map, IfSome};
ghost use Rattle.acl_text.specs.Cursors.{GivesLine, all_or_none, first_line, lines_of};

use crate::cuts::split_at_byte;
use crate::faults::Place;
use std::marker::Model;

/// Goes over the lines of a file, and counts them.
///
/// A contract sees the file's number, the number of the line last given, and the lines that are not yet given.
#[derive(Drop)]
pub struct Cursor<'a> {
    file: u32,
    number: u32,
    rest: &'a [u8],
}

impl<'a> Model for Cursor<'a> {
    ghost use Rattle.std.specs.Prelude.{◌+◌, ◌^◌, ◌<◌, length};
    ghost use Rattle.acl_text.specs.Cursors.{Remaining, lines_of};

    ghost Value = { Remaining };

    ghost view = { λ c. record { file = c.file; line = c.number; lines = lines_of c.rest.now } };

    ghost invariant = { λ c. c.number + length c.rest.now < 2 ^ 32 };
}

impl<'a> Cursor<'a> {
    /// A cursor before the first line.
    pub fn new(file: u32, bytes: &'a [u8]) -> Cursor<'a>
        requires { length bytes.now < 2 ^ 32 }
        ensures { result ≡ record { file = file; line = 0; lines = lines_of bytes.now } }
    {
        Cursor {
            file,
            number: 0,
            rest: bytes,
        }
    }

    /// The next line, without its line feed. `None` exactly at the end.
    pub fn line(&mut self) -> Option<&'a [u8]>
        ensures { GivesLine self.old self.new (option_map (λ l. l.now) result) }
    {
        let (line, rest) = first_line(self.rest)?;
        self.rest = rest;
        self.number += 1;
        Some(line)
    }

    /// The place of the line last given: line 0 before the first one.
    pub fn place(&self) -> Place
        ensures { result ≡ record { file = self.now.file; line = self.now.line } }
    {
        Place {
            file: self.file,
            line: self.number,
        }
    }
}

fn first_line(bytes: &[u8]) -> Option<(&[u8], &[u8])>
    ensures exact { option_map (λ p. (p.0.now, p.1.now)) result ≡ first_line bytes.now }
    ensures shorter { IfSome result (λ p. length p.1.now < length bytes.now) }
{
    match split_at_byte(bytes, b'\n') {
        Some((line, rest)) => Some((line, rest)),
        None => all_or_none(bytes),
    }
}

fn all_or_none(bytes: &[u8]) -> Option<(&[u8], &[u8])>
    ensures { option_map (λ p. (p.0.now, p.1.now)) result ≡ all_or_none bytes.now }
{
    match bytes {
        [] => None,
        [..] => Some((bytes, &[])),
    }
}
