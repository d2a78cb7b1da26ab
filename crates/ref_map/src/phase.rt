// How far changesets have come.
ghost use Rattle.std.specs.Prelude.{◌≡◌, option_map};
ghost use Rattle.name_model.specs.Line.{phase_word, phase_of};
ghost use Rattle.ref_map.specs.Values.{phase_value};

/// How far a changeset has come, as `hg help phases` has it.
#[derive(Clone, Copy, Debug, PartialEq, Eq)]
pub enum Phase {
    /// Shared for good.
    Public,
    /// To be shared.
    Draft,
    /// Kept back.
    Secret,
}

impl Phase {
    /// The phase that this number names, if it names one.
    pub fn of(word: &[u8]) -> Option<Phase>
        ensures { option_map phase_value result ≡ phase_of word.now }
    {
        if word == b"0".as_slice() {
            Some(Phase::Public)
        } else if word == b"1".as_slice() {
            Some(Phase::Draft)
        } else if word == b"2".as_slice() {
            Some(Phase::Secret)
        } else {
            None
        }
    }

    /// The number that Mercurial gives the phase.
    pub fn word(&self) -> &'static [u8]
        ensures { result.now ≡ phase_word (phase_value self.now) }
    {
        match self {
            Phase::Public => b"0",
            Phase::Draft => b"1",
            Phase::Secret => b"2",
        }
    }
}
