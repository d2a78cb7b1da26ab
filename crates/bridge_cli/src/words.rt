// The words of a command line.
ghost use Rattle.std.specs.Prelude.{◌≡◌, ◌++◌, ◌∷◌, [], List, ℕ, map, OnOk, OnErr, option_map};
ghost use Rattle.command_model.specs.Command.{command_of, command_named};
ghost use Rattle.bridge_cli.specs.Status.{command_value};

use bridge_text::{Bytes, NoMemory, decimal_of};
use std::alloc::Global;
use std::marker::Model;

/// What the program is asked to do.
#[derive(Clone, Copy, Debug, PartialEq, Eq)]
pub enum Command {
    /// List the entries of a bundle.
    ListHg,
    /// Check a bundle and count its entries.
    CheckHg,
    /// List the objects of a stream.
    ListGit,
    /// Check a stream and count its objects.
    CheckGit,
    /// Take a bundle into the state, and write the objects of its commits.
    PullHg,
    /// Take a stream into the state, and write the bundle of its changesets.
    PullGit,
    /// Write the bundle of the whole history.
    DumpHg,
    /// Write the stream of the whole history.
    DumpGit,
    /// Write the ids of each commit and its changeset.
    Map,
    /// Set the names that a text of Mercurial's side gives.
    SetNamesHg,
    /// Set the names that a text of refs gives.
    SetNamesGit,
    /// Write the names for Mercurial's side.
    NamesHg,
    /// Write the names as refs.
    NamesGit,
    /// Audit the saved state, and count its blocks.
    Verify,
    /// Make a history of so many changesets from a number, take it there and back, and count it.
    Make { n: u64, seed: u64 },
}

/// The word of each command that has no numbers.
const COMMANDS: [(&[u8], Command); 14] = [
    (b"list-hg", Command::ListHg),
    (b"check-hg", Command::CheckHg),
    (b"list-git", Command::ListGit),
    (b"check-git", Command::CheckGit),
    (b"pull-hg", Command::PullHg),
    (b"pull-git", Command::PullGit),
    (b"dump-hg", Command::DumpHg),
    (b"dump-git", Command::DumpGit),
    (b"map", Command::Map),
    (b"verify", Command::Verify),
    (b"set-names-hg", Command::SetNamesHg),
    (b"set-names-git", Command::SetNamesGit),
    (b"names-hg", Command::NamesHg),
    (b"names-git", Command::NamesGit),
];

/// The words of a command line, after the program's name.
#[derive(Debug, Drop)]
pub struct Words {
    alloc: Global,
    list: Vec<Bytes>,
}

impl Model for Words {
    ghost Value = { List (List ℕ) };

    ghost view = { λ w. w.list.items };
}

impl Words {
    /// No words.
    pub fn new(alloc: Global) -> Words
        ensures { result ≡ [] }
    {
        Words {
            alloc,
            list: Vec::new(alloc),
        }
    }

    /// Adds a word at the end. Where memory runs out, the words are as they were.
    pub fn push(&mut self, word: &[u8]) -> Result<(), NoMemory>
        ensures ok { OnOk result (self.new ≡ self.old ++ word.now ∷ []) }
        ensures err { OnErr result (self.new ≡ self.old) }
    {
        let word = Bytes::of(self.alloc, word)?;
        self.list.push(word)?;
        Ok(())
    }

    /// The command that the words ask for. No words at all ask for the listing of a bundle.
    pub fn command(&self) -> Option<Command>
        ensures { option_map command_value result ≡ command_of self.now }
    {
        match self.list.as_slice() {
            [] => Some(Command::ListHg),
            [word] => command_among(&COMMANDS, word.as_slice()),
            [word, n, seed] => made_command(word.as_slice(), n.as_slice(), seed.as_slice()),
            _ => None,
        }
    }
}

// The command of a word in a table.
fn command_among(mut table: &[(&[u8], Command)], word: &[u8]) -> Option<Command>
    ensures { option_map command_value result ≡ command_named word.now (map (λ p. (p.0.now, command_value p.1)) table.entry.now) }
{
    while let [named, rest @ ..] = table {
        if named.0 == word {
            return Some(named.1);
        }
        table = rest;
    }
    None
}

fn made_command(word: &[u8], n: &[u8], seed: &[u8]) -> Option<Command>
    ensures { option_map command_value result ≡ command_of (word.now ∷ n.now ∷ seed.now ∷ []) }
{
    let n = decimal_of(n)?;
    let seed = decimal_of(seed)?;
    if b"make".as_slice() == word {
        return Some(Command::Make { n, seed });
    }
    None
}
