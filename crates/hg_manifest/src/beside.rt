ghost use Rattle.std.specs.Prelude.{◌≡◌, [], ◌∷◌, None, IfSome, option_map};
ghost use Rattle.text_model.specs.Lists.{Each};
ghost use Rattle.hg_manifest.specs.Values.{manifest_entry};
ghost use Rattle.hg_manifest.specs.Beside.{IsLineOf, IsNewer, IsPassed};

use crate::ahead::Ahead;
use crate::entry::Entry;
use crate::near::Near;
use crate::newer::Newer;
use std::marker::Model;

/// The lines of a manifest beside those of another one, as a parent's, which has most of them. Contracts see those of both that are still ahead.
#[derive(Drop)]
pub struct Beside<'a> {
    ahead: Ahead<'a>,
    // Which of the lines the other one may lack, where that is known.
    gaps: Option<&'a [usize]>,
}

impl<'a> Model for Beside<'a> {
    ghost use Rattle.std.specs.Prelude.{IfSome};
    ghost use Rattle.hg_manifest.specs.Beside.{IsNewer};
    ghost use Rattle.hg_manifest.specs.declared.ahead.Ahead.{Ahead};

    ghost Value = { Ahead };

    ghost view = { λ b. b.ahead };

    ghost invariant = { λ b. IfSome b.gaps (λ gaps. IsNewer (b.ahead).other gaps.now (b.ahead).lines) };
}

impl<'a> Beside<'a> {
    /// The lines of two manifests. Where it is known which of the first ones the other may lack, no lines are compared.
    pub fn of(lines: Near<'a>, other: Near<'a>, newer: Option<&'a Newer>) -> Beside<'a>
        requires { IfSome newer (λ newer. IsNewer other newer.now lines) }
        ensures { result ≡ record { lines = lines.entry; other = other.entry } }
    {
        Beside {
            ahead: Ahead { lines, other },
            gaps: gaps_of(newer),
        }
    }

    /// The entry of the next line that the other manifest may lack; it has each line before that one, and where there is `None` it has all.
    pub fn next(&mut self) -> Option<&'a Entry>
        ensures some { IfSome result (λ entry. IsPassed self.old self.new (manifest_entry entry.now ∷ [])) }
        ensures none { result ≡ None → Each (IsLineOf (self.old).other) (self.old).lines }
    {
        match self.gaps {
            Some(gaps) => self.next_newer(gaps),
            None => self.ahead.next(),
        }
    }

    // The same where it is known how many lines stand before each that is to be told.
    fn next_newer(&mut self, gaps: &'a [usize]) -> Option<&'a Entry>
        requires { IsNewer (self.old).other gaps.now (self.old).lines }
        ensures some { IfSome result (λ entry. IsPassed self.old self.new (manifest_entry entry.now ∷ [])) }
        ensures none { result ≡ None → Each (IsLineOf (self.old).other) (self.old).lines }
    {
        let (gap, rest) = gaps.split_first()?;
        let (_, _, lines) = self.ahead.lines.front(*gap)?;
        let (entry, _, behind) = lines.split()?;
        self.ahead.lines = behind;
        self.gaps = Some(rest);
        Some(entry)
    }
}

fn gaps_of(newer: Option<&Newer>) -> Option<&[usize]>
    ensures { option_map (λ gaps. gaps.now) result ≡ option_map (λ newer. newer.now) newer.entry }
{
    Some(newer?.gaps())
}
