//! The header, and the numbers of classes.
ghost use Rattle.std.specs.Prelude.{◌≡◌, ◌≤◌, IfOk};
ghost use Rattle.aom_codec.specs.Format.{header_fields, opening, version as version_format, class_or_none, class_from, index_from};
ghost use Rattle.aom_codec.specs.Reads.{Reads};

use crate::LoadFault;
use crate::reader::ByteReader;
use aom_image::{ClassNumber, Header, Version};

/// The header with the counts that an image shows by its lists.
#[derive(Clone, Copy)]
pub struct Opening {
    pub classes: u16,
    pub methods: u16,
    pub header: Header,
}

/// The class of that number, which has to be there.
pub fn class_below(number: u16, classes: u16) -> Result<ClassNumber, LoadFault>
    requires { classes ≤ 256 }
    ensures { result ≡ index_from classes number }
{
    if number >= classes {
        return Err(LoadFault::BadIndex);
    }
    match ClassNumber::new(number) {
        Some(class) => Ok(class),
        None => Err(LoadFault::BadIndex),
    }
}

impl<'a> ByteReader<'a> {
    pub fn class_or_none(&mut self, classes: u16) -> Result<Option<ClassNumber>, LoadFault>
        requires { classes ≤ 256 }
        ensures { Reads (λ x. (x, self.new)) result ((class_or_none classes).read self.old) }
    {
        match self.next_u16()? {
            0xffff => Ok(None),
            number => Ok(Some(class_below(number, classes)?)),
        }
    }

    fn version(&mut self) -> Result<Version, LoadFault>
        ensures { Reads (λ x. (x, self.new)) result (version_format.read self.old) }
    {
        match self.next_u16()? {
            1 => Ok(Version::One),
            2 => Ok(Version::Two),
            _ => Err(LoadFault::BadVersion),
        }
    }

    pub fn opening(&mut self) -> Result<Opening, LoadFault>
        ensures read { Reads (λ x. (x, self.new)) result (opening.read self.old) }
        ensures classes { IfOk result (λ o. o.classes ≤ 256) }
        ensures methods { IfOk result (λ o. o.methods ≤ 1024) }
        ensures natives { IfOk result (λ o. o.header.natives ≤ 16) }
    {
        self.expect_u32(0x414f494d, LoadFault::BadMagic)?;
        let version = self.version()?;
        let classes = self.next_u16_at_most(0, 256)?;
        let methods = self.next_u16_at_most(1, 1024)?;
        let header = self.header(version, classes)?;
        Ok(Opening {
            classes,
            methods,
            header,
        })
    }

    /// What stands behind the counts.
    fn header(&mut self, version: Version, classes: u16) -> Result<Header, LoadFault>
        requires { classes ≤ 256 }
        ensures read { Reads (λ h. ((h.cells, (h.messages, (h.natives, (h.root, h.budget)))), self.new)) result ((header_fields classes).read self.old) }
        ensures version { IfOk result (λ h. h.version ≡ version) }
        ensures natives { IfOk result (λ h. h.natives ≤ 16) }
    {
        let cells = self.next_u16_at_most(0, 4096)?;
        let messages = self.next_u16_at_most(0, 1024)?;
        let natives = self.limited_byte(0, 16)?;
        self.fixed_byte(0, LoadFault::NotZero)?;
        let root = self.class_or_none(classes)?;
        self.expect_u16(0, LoadFault::NotZero)?;
        let budget = self.next_u32()?;
        Ok(Header {
            version,
            cells,
            messages,
            natives,
            root,
            budget,
        })
    }
}
