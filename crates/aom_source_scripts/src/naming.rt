//! The names of a script.
ghost use Rattle.std.specs.Prelude.{◌≡◌};
ghost use Rattle.aom_source_scripts.specs.Scripts.{number_of};

/// A name, and the number that it stands for.
#[derive(Clone, Copy)]
pub struct ScriptName<'a> {
    pub name: &'a [u8],
    pub number: usize,
}

/// The number that a word stands for: that of the first name that it is.
pub(crate) fn number_of(names: &[ScriptName<'_>], word: &[u8]) -> Option<usize>
    ensures { result ≡ number_of names.now word.now }
{
    for named in names {
        if named.name == word {
            return Some(named.number);
        }
    }
    None
}
