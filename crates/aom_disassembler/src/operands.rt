//! Names, and the operands of instructions.
ghost use Rattle.std.specs.Prelude.{◌≡◌, ◌∷◌, ◌++◌, OnOk};
ghost use Rattle.aom_disassembler.specs.Operands.{class_after, class_name, method_after, register_word, field_word, target_word};
ghost use Rattle.aom_disassembler.specs.Text.{behind};

use crate::writer::ListingWriter;
use aom_image::{ClassNumber, FieldIndex, MethodNumber, Register, Target};
use aom_syntax::Keyword;
use std::alloc::AllocError;

impl ListingWriter {
    pub fn class_name(&mut self, class: ClassNumber) -> Result<(), AllocError>
        ensures { OnOk result (self.new ≡ self.old ++ 32 ∷ class_name class) }
    {
        self.name(b'c', u32::from(class.number()))
    }

    /// A keyword and the name of a class behind it, where there is one.
    pub fn class_after(
        &mut self,
        keyword: Keyword,
        class: Option<ClassNumber>,
    ) -> Result<(), AllocError>
        ensures { OnOk result (self.new ≡ self.old ++ behind 32 (class_after keyword class)) }
    {
        match class {
            None => Ok(()),
            Some(class) => {
                self.keyword(keyword)?;
                self.class_name(class)
            }
        }
    }

    /// A keyword and the name of a method behind it, where there is one.
    pub fn method_after(
        &mut self,
        keyword: Keyword,
        method: Option<MethodNumber>,
    ) -> Result<(), AllocError>
        ensures { OnOk result (self.new ≡ self.old ++ behind 32 (method_after keyword method)) }
    {
        match method {
            None => Ok(()),
            Some(method) => {
                self.keyword(keyword)?;
                self.name(b'm', u32::from(method.number()))
            }
        }
    }

    pub fn register(&mut self, register: Register) -> Result<(), AllocError>
        ensures { OnOk result (self.new ≡ self.old ++ 32 ∷ register_word register) }
    {
        self.name(b'r', u32::from(register.number()))
    }

    pub fn field(&mut self, field: FieldIndex) -> Result<(), AllocError>
        ensures { OnOk result (self.new ≡ self.old ++ 32 ∷ field_word field) }
    {
        self.name(b'f', u32::from(field.number()))
    }

    pub fn target(&mut self, target: Target) -> Result<(), AllocError>
        ensures { OnOk result (self.new ≡ self.old ++ 32 ∷ target_word target) }
    {
        match target {
            Target::This => self.keyword(Keyword::This),
            Target::Register(register) => self.register(register),
            Target::Field(field) => self.field(field),
            Target::Entry(entry) => self.name(b'c', u32::from(entry.number())),
        }
    }
}
