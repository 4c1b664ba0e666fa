//! The statement that declares a class.
ghost use Rattle.std.specs.Prelude.{◌≡◌, ◌++◌, OnOk};
ghost use Rattle.aom_image.specs.WellFormed.{is_dispatched};
ghost use Rattle.aom_disassembler.specs.Classes.{thing_word, provider_words, kind_words, budget_words, field_words, class_words};
ghost use Rattle.aom_disassembler.specs.Text.{behind, line_of};

use crate::writer::ListingWriter;
use aom_image::{ClassDecl, ClassKind, Provider, Thing};
use aom_syntax::Keyword;
use std::alloc::AllocError;

impl ListingWriter {
    /// What may be owned, without a space before it.
    pub fn thing(&mut self, thing: Thing) -> Result<(), AllocError>
        ensures { OnOk result (self.new ≡ self.old ++ thing_word thing) }
    {
        match thing {
            Thing::Object(class) => self.numbered(b'c', u32::from(class.number())),
            Thing::Message => self.push(Keyword::Message.text()),
        }
    }

    fn provider(&mut self, provider: Provider) -> Result<(), AllocError>
        ensures { OnOk result (self.new ≡ self.old ++ behind 32 (provider_words provider)) }
    {
        match provider {
            Provider::Own => self.keyword(Keyword::This),
            Provider::Timer => self.keyword(Keyword::Timer),
            Provider::Native(native) => self.counted(Keyword::Native, u32::from(native.number())),
            Provider::Token => self.keyword(Keyword::Token),
        }
    }

    fn kind(&mut self, kind: ClassKind) -> Result<(), AllocError>
        ensures { OnOk result (self.new ≡ self.old ++ behind 32 (kind_words kind)) }
    {
        match kind {
            ClassKind::Plain => self.keyword(Keyword::Plain),
            ClassKind::Active { provider } => {
                self.keyword(Keyword::Active)?;
                self.provider(provider)
            }
            ClassKind::Server { sessions, session } => {
                self.keyword(Keyword::Server)?;
                self.class_name(session)?;
                self.counted(Keyword::Max, u32::from(sessions))
            }
            ClassKind::Session => self.keyword(Keyword::Session),
        }
    }

    fn budget(&mut self, class: &ClassDecl) -> Result<(), AllocError>
        ensures { OnOk result (self.new ≡ self.old ++ behind 32 (budget_words (is_dispatched class.now.kind) class.now.budget)) }
    {
        if class.kind.is_dispatched() {
            self.counted(Keyword::Budget, class.budget)
        } else {
            Ok(())
        }
    }

    fn fields(&mut self, class: &ClassDecl) -> Result<(), AllocError>
        ensures { OnOk result (self.new ≡ self.old ++ behind 32 (field_words class.now)) }
    {
        self.counted(Keyword::Words, u32::from(class.words))?;
        self.keyword(Keyword::Own)?;
        self.list(class.fields.as_slice())
    }

    pub fn class(&mut self, place: u32, class: &ClassDecl) -> Result<(), AllocError>
        ensures { OnOk result (self.new ≡ self.old ++ line_of (class_words place class.now)) }
    {
        self.first(Keyword::Class)?;
        self.name(b'c', place)?;
        self.kind(class.kind)?;
        self.class_after(Keyword::From, class.parent)?;
        self.fields(class)?;
        self.budget(class)?;
        self.end_line()
    }
}
