//! The way from an image to its listing.
ghost use Rattle.std.specs.Prelude.{◌≡◌, ◌≤◌, [], ◌∷◌, ◌++◌, All, length, IfOk, OnOk};
ghost use Rattle.aom_disassembler.specs.Listing.{label_words, instr_statements, method_statements, methods_statements, classes_statements, lines_text, end_words, listing_text};
ghost use Rattle.aom_disassembler.specs.Operands.{label_name};
ghost use Rattle.aom_disassembler.specs.Text.{line_of};
ghost use Rattle.aom_disassembler.specs.Words.{words_statement};

use crate::jumps::targets;
use crate::writer::ListingWriter;
use aom_image::{ClassDecl, Image, Instr, Method};
use aom_syntax::Keyword;
use std::alloc::{AllocError, Global};

impl ListingWriter {
    fn label(&mut self, place: u32) -> Result<(), AllocError>
        ensures { OnOk result (self.new ≡ self.old ++ (label_name place ++ 58 ∷ 32 ∷ [])) }
    {
        self.numbered(b'L', place)?;
        self.push(b": ")
    }

    /// An instruction, with its label where something jumps to it.
    pub fn instruction(
        &mut self,
        is_target: bool,
        place: u32,
        instr: Instr,
    ) -> Result<(), AllocError>
        ensures { OnOk result (self.new ≡ self.old ++ line_of (label_words is_target place ++ words_statement instr)) }
    {
        if is_target {
            self.label(place)?;
        }
        self.statement(&instr)?;
        self.end_line()
    }

    fn code(&mut self, code: &[Instr]) -> Result<(), AllocError>
        requires { length code.now ≤ 1024 }
        ensures { OnOk result (self.new ≡ self.old ++ lines_text (instr_statements code.now 0 code.now)) }
    {
        let targets = targets(code);
        for (place, instr) in code.iter().enumerate() {
            self.instruction(targets[place], place as u32, *instr)?;
        }
        Ok(())
    }

    fn end(&mut self) -> Result<(), AllocError>
        ensures { OnOk result (self.new ≡ self.old ++ line_of end_words) }
    {
        self.first(Keyword::End)?;
        self.end_line()
    }

    fn method(&mut self, place: u32, method: &Method) -> Result<(), AllocError>
        requires { length method.now.code ≤ 1024 }
        ensures { OnOk result (self.new ≡ self.old ++ lines_text (method_statements place method.now)) }
    {
        self.heading(place, method)?;
        self.code(method.code.as_slice())?;
        self.end()
    }

    fn methods(&mut self, methods: &[Method]) -> Result<(), AllocError>
        requires count { length methods.now ≤ 1024 }
        requires code { All (λ m. length m.code ≤ 1024) methods.now }
        ensures { OnOk result (self.new ≡ self.old ++ lines_text (methods_statements 0 methods.now)) }
    {
        for (place, method) in methods.iter().enumerate() {
            self.method(place as u32, method)?;
        }
        Ok(())
    }

    fn classes(&mut self, classes: &[ClassDecl]) -> Result<(), AllocError>
        requires { length classes.now ≤ 256 }
        ensures { OnOk result (self.new ≡ self.old ++ lines_text (classes_statements 0 classes.now)) }
    {
        for (place, class) in classes.iter().enumerate() {
            self.class(place as u32, class)?;
        }
        Ok(())
    }
}

/// The listing of an image.
pub fn disassemble(alloc: Global, image: &Image) -> Result<Vec<u8>, AllocError>
    ensures { IfOk result (λ v. v.items ≡ listing_text image.now) }
{
    let mut writer = ListingWriter::new(alloc);
    writer.header(image.header())?;
    writer.classes(image.classes().as_slice())?;
    writer.methods(image.methods().as_slice())?;
    Ok(writer.into_text())
}
