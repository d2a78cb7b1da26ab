// Sources over a part of bytes in memory.
ghost use Rattle.std.specs.Prelude.{◌≡◌, ◌≤◌, length};

use bridge_io::{Failed, Source};
use shared_text::Text;
use std::marker::Model;

/// A source over a part of bytes in memory, which are borrowed. It never fails. Contracts see the bytes still to come.
#[derive(Drop)]
pub struct Part<'a> {
    rest: &'a [u8],
}

impl<'a> Model for Part<'a> {
    ghost use Rattle.std.specs.Prelude.{List, ℕ};

    ghost Value = { List ℕ };

    ghost view = { λ p. p.rest.now };
}

impl<'a> Part<'a> {
    /// All of these bytes are still to come.
    pub fn new(bytes: &'a [u8]) -> Part<'a>
        ensures { result ≡ bytes.now }
    {
        Part { rest: bytes }
    }
}

impl<'a> Source for Part<'a> {
    ghost use Rattle.std.specs.Prelude.{true, is_ok, Some, IfOk, min, length};
    ghost use Rattle.std.specs.Io.{ReadsAtMost};
    ghost use Rattle.std.specs.Io.KnownBytes.{ReadConsumes};
    ghost use Rattle.bridge_io.specs.Causes.{HasCause};

    ghost left = { λ p. Some p };

    ghost faults = { λ _. 0 };

    /// Gives as much as the buffer and the bytes still to come allow. It never answers `Failed`.
    fn read(&mut self, buf: &mut [u8]) -> Result<usize, Failed>
        ensures bound { ReadsAtMost result buf.new }
        ensures bytes { ReadConsumes (Some self.old) (Some self.new) result buf.new }
        ensures cause { HasCause 0 0 result }
        ensures never_fails { is_ok result ≡ true }
        ensures count { IfOk result (λ n. n ≡ min (length buf.new) (length self.old)) }
    {
        let count = buf.len().min(self.rest.len());
        let (front, rest) = self.rest.split_at(count);
        buf[..count].copy_from_slice(front);
        self.rest = rest;
        Ok(count)
    }
}

/// A source over a text that is shared, of which it lends parts. It never fails. Contracts see the bytes still to come.
#[derive(Drop)]
pub struct SharedPart {
    rest: Text,
}

impl Model for SharedPart {
    ghost use Rattle.std.specs.Prelude.{List, ℕ};

    ghost Value = { List ℕ };

    ghost view = { λ p. p.rest };
}

impl SharedPart {
    /// All of the text is still to come.
    pub fn new(text: Text) -> SharedPart
        ensures { result ≡ text }
    {
        SharedPart { rest: text }
    }
}

impl Source for SharedPart {
    ghost use Rattle.std.specs.Prelude.{true, is_ok, Some, IfOk, IfSome, MatchOption, min, length};
    ghost use Rattle.std.specs.Io.{ReadsAtMost};
    ghost use Rattle.std.specs.Io.KnownBytes.{Consumes, ReadConsumes};
    ghost use Rattle.bridge_io.specs.Causes.{HasCause};

    ghost left = { λ p. Some p };

    ghost faults = { λ _. 0 };

    /// Gives as much as the buffer and the bytes still to come allow. It never answers `Failed`.
    fn read(&mut self, buf: &mut [u8]) -> Result<usize, Failed>
        ensures bound { ReadsAtMost result buf.new }
        ensures bytes { ReadConsumes (Some self.old) (Some self.new) result buf.new }
        ensures cause { HasCause 0 0 result }
        ensures never_fails { is_ok result ≡ true }
        ensures count { IfOk result (λ n. n ≡ min (length buf.new) (length self.old)) }
    {
        let count = buf.len().min(self.rest.len());
        buf[..count].copy_from_slice(&self.rest.as_slice()[..count]);
        self.rest.advance(count);
        Ok(count)
    }

    /// `None` comes where fewer bytes are still to come, or where there is no memory for another owner.
    fn lend(&mut self, count: usize) -> Option<Text>
        ensures bytes { MatchOption result (Some self.new ≡ Some self.old) (Consumes (Some self.old) (Some self.new)) }
        ensures count { IfSome result (λ lent. length lent ≡ count) }
    {
        if self.rest.len() < count {
            return None;
        }
        match self.rest.split_to(count) {
            Ok(lent) => Some(lent),
            Err(_) => None,
        }
    }
}
