//! The statement that opens a listing.
ghost use Rattle.std.specs.Prelude.{◌≡◌, [], ◌∷◌, ◌++◌, OnOk, decimal};
ghost use Rattle.aom_syntax.specs.Keywords.{keyword_text};
ghost use Rattle.aom_disassembler.specs.Headers.{version_words, limit_words, header_words};
ghost use Rattle.aom_disassembler.specs.Text.{behind, line_of};

use crate::writer::ListingWriter;
use aom_image::{Header, Version};
use aom_syntax::Keyword;
use std::alloc::AllocError;

impl ListingWriter {
    /// A keyword and a number behind it.
    pub fn counted(&mut self, keyword: Keyword, number: u32) -> Result<(), AllocError>
        ensures { OnOk result (self.new ≡ self.old ++ behind 32 (keyword_text keyword ∷ decimal number ∷ [])) }
    {
        self.keyword(keyword)?;
        self.number(number)
    }

    /// The version, where it is the second.
    fn version(&mut self, version: Version) -> Result<(), AllocError>
        ensures { OnOk result (self.new ≡ self.old ++ behind 32 (version_words version)) }
    {
        match version {
            Version::One => Ok(()),
            Version::Two => self.counted(Keyword::Version, 2),
        }
    }

    fn limits(&mut self, header: &Header) -> Result<(), AllocError>
        ensures { OnOk result (self.new ≡ self.old ++ behind 32 (limit_words header.now)) }
    {
        self.counted(Keyword::Cells, u32::from(header.cells))?;
        self.counted(Keyword::Messages, u32::from(header.messages))?;
        self.counted(Keyword::Natives, u32::from(header.natives))
    }

    pub fn header(&mut self, header: &Header) -> Result<(), AllocError>
        ensures { OnOk result (self.new ≡ self.old ++ line_of (header_words header.now)) }
    {
        self.first(Keyword::Image)?;
        self.version(header.version)?;
        self.limits(header)?;
        self.counted(Keyword::Budget, header.budget)?;
        self.class_after(Keyword::Root, header.root)?;
        self.end_line()
    }
}
