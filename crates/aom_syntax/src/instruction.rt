//! The statements of a method's code.
ghost use Rattle.std.specs.Prelude.{◌≡◌, option_map};
ghost use Rattle.aom_syntax.specs.Reading.{Reads, seen};
ghost use Rattle.aom_syntax.specs.Methods.{label_of, named_mnemonic, check_label, after_label, instruction};

use crate::keyword::unexpected_word;
use crate::{NameList, Scope, WordReader};
use aom_image::{Instr, Mnemonic, Version};
use aom_text::{AsmFaultKind, is_name};

/// The label that a word is, if it ends with a colon.
pub fn label_of(word: &[u8]) -> Option<&[u8]>
    ensures { option_map (λ l. l.now) result ≡ label_of word.now }
{
    match word {
        [label @ .., b':'] => Some(label),
        _ => None,
    }
}

/// The mnemonic that a word is, of which the version has the instruction.
fn mnemonic_of(word: &[u8], version: Version) -> Result<Mnemonic, AsmFaultKind>
    ensures { result ≡ named_mnemonic version word.now }
{
    match Mnemonic::of(word) {
        Some(mnemonic) if mnemonic.is_in(version) => Ok(mnemonic),
        Some(_) => Err(AsmFaultKind::BadShape),
        None => Err(unexpected_word(word)),
    }
}

/// A label is a name, and is declared first at this place.
fn check_label(label: &[u8], labels: &NameList, place: usize) -> Result<(), AsmFaultKind>
    ensures { result ≡ check_label place labels.now label.now }
{
    if !is_name(label) {
        return Err(AsmFaultKind::BadShape);
    }
    match labels.place_of(label) {
        Some(first) if first == place => Ok(()),
        _ => Err(AsmFaultKind::DoubleName),
    }
}

impl<'a> WordReader<'a> {
    /// The first word that is no label. A label is declared at its place, and is not left without an instruction.
    fn after_label(&mut self, labels: &NameList, place: usize) -> Result<&'a [u8], AsmFaultKind>
        ensures { Reads (λ w. (w.now, self.new)) result (after_label place labels.now self.old) }
    {
        let first = self.word()?;
        match label_of(first) {
            Some(label) => {
                check_label(label, labels, place)?;
                self.word()
            }
            None => Ok(first),
        }
    }

    /// The mnemonic of an instruction, behind its label.
    fn mnemonic(
        &mut self,
        version: Version,
        labels: &NameList,
        place: usize,
    ) -> Result<Mnemonic, AsmFaultKind>
        ensures { Reads (λ x. (x, self.new)) result (seen (named_mnemonic version) (after_label place labels.now) self.old) }
    {
        mnemonic_of(self.after_label(labels, place)?, version)
    }

    /// An instruction with its label, at its place in a method.
    pub fn instruction(
        &mut self,
        scope: &Scope,
        version: Version,
        labels: &NameList,
        place: usize,
    ) -> Result<Instr, AsmFaultKind>
        ensures { Reads (λ x. (x, self.new)) result (instruction scope.now version labels.now place self.old) }
    {
        let mnemonic = self.mnemonic(version, labels, place)?;
        let instr = self.behind(mnemonic, scope, labels)?;
        self.nothing_more(false)?;
        Ok(instr)
    }
}
