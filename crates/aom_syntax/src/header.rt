//! The statement that opens a text.
ghost use Rattle.std.specs.Prelude.{◌≡◌};
ghost use Rattle.aom_syntax.specs.Reading.{Reads};
ghost use Rattle.aom_syntax.specs.Headers.{optional_version, optional_root, limits_and_root, image_statement};

use crate::{Keyword, Scope, WordReader};
use aom_image::{ClassNumber, Header, Version};
use aom_text::AsmFaultKind;

impl<'a> WordReader<'a> {
    /// The version, where it is said. It can only be 2.
    fn optional_version(&mut self) -> Result<Version, AsmFaultKind>
        ensures { Reads (λ x. (x, self.new)) result (optional_version self.old) }
    {
        if !self.took(Keyword::Version) {
            return Ok(Version::One);
        }
        self.number(2, 2)?;
        Ok(Version::Two)
    }

    /// The end of the statement, with the class of the root or without.
    fn optional_root(&mut self, scope: &Scope) -> Result<Option<ClassNumber>, AsmFaultKind>
        ensures { Reads (λ x. (x, self.new)) result (optional_root scope.now self.old) }
    {
        if self.took(Keyword::Root) {
            let root = self.class(scope)?;
            self.nothing_more(false)?;
            Ok(Some(root))
        } else {
            self.nothing_more(true)?;
            Ok(None)
        }
    }

    /// The limits, main's budget and the class of the root.
    fn limits_and_root(&mut self, scope: &Scope, version: Version) -> Result<Header, AsmFaultKind>
        ensures { Reads (λ x. (x, self.new)) result (limits_and_root scope.now version self.old) }
    {
        let cells = self.optional_number(Keyword::Cells, 4096)?;
        let messages = self.optional_number(Keyword::Messages, 1024)?;
        let natives = self.optional_number(Keyword::Natives, 16)?;
        self.keyword(Keyword::Budget)?;
        let budget = self.number(0, u32::MAX)?;
        let root = self.optional_root(scope)?;
        Ok(Header {
            version,
            cells: cells as u16,
            messages: messages as u16,
            natives: natives as u8,
            root,
            budget,
        })
    }

    /// What a text says of the whole program, from the word `image` on.
    pub fn image_statement(&mut self, scope: &Scope) -> Result<Header, AsmFaultKind>
        ensures { Reads (λ x. (x, self.new)) result (image_statement scope.now self.old) }
    {
        self.keyword(Keyword::Image)?;
        let version = self.optional_version()?;
        self.limits_and_root(scope, version)
    }
}
