//! A text while it is read.
ghost use Rattle.std.specs.Prelude.{◌≡◌, ◌≤◌, ◌+◌, ◌^◌, [], ◌∷◌, ◌++◌, None, Some, Ok, count_by, IfOk};
ghost use Rattle.aom_image.specs.WellFormed.{is_server, WellFormed};
ghost use Rattle.aom_syntax.specs.Reading.{Reads, ReadsOrNoMemory};
ghost use Rattle.aom_asm.specs.Denoted.{grown, opened, with_class, with_heading, with_method, in_body, step, step_by, closed, image_of};

use crate::body::Body;
use crate::names::labels_of;
use crate::statements::Statements;
use aom_image::{ClassDecl, Header, Image, Items, Method};
use aom_syntax::{Keyword, Scope, WordReader};
use aom_text::AsmFaultKind;
use std::alloc::Global;
use std::marker::Model;

/// The most bytes of an image.
const MAX_BYTES: usize = 1 << 20;

/// What was read, and how many bytes will spell it.
#[derive(Drop)]
pub struct ParsedProgram<'a> {
    header: Header,
    classes: Vec<ClassDecl>,
    methods: Vec<Method>,
    body: Option<Body<'a>>,
    size: usize,
}

impl<'a> Model for ParsedProgram<'a> {
    ghost use Rattle.std.specs.Prelude.{◌≤◌, ◌^◌};
    ghost use Rattle.aom_asm.specs.Body.{Program as ProgramRecord};

    ghost Value = { ProgramRecord };

    ghost view = { λ p. record { header = p.header; classes = p.classes.items; methods = p.methods.items; body = p.body; size = p.size } };

    ghost invariant = { λ p. p.size ≤ 2 ^ 20 };
}

fn grown(bytes: usize, size: usize) -> Result<usize, AsmFaultKind>
    requires bytes { bytes ≤ 32 }
    requires size { size ≤ 2 ^ 20 }
    ensures read { result ≡ grown bytes size }
    ensures within { IfOk result (λ n. n ≤ 2 ^ 20) }
{
    if size + bytes <= MAX_BYTES {
        Ok(size + bytes)
    } else {
        Err(AsmFaultKind::LimitPassed)
    }
}

impl<'a> ParsedProgram<'a> {
    /// What the first statement says.
    pub fn open(
        alloc: Global,
        scope: &Scope,
        mut reader: WordReader<'a>,
    ) -> Result<ParsedProgram<'a>, AsmFaultKind>
        ensures { ReadsOrNoMemory (λ p. p) result (opened scope.now reader.entry) }
    {
        let header = reader.image_statement(scope)?;
        Ok(ParsedProgram {
            header,
            classes: Vec::new(alloc),
            methods: Vec::new(alloc),
            body: None,
            size: 24,
        })
    }

    fn servers(&self) -> usize
        ensures { result ≡ count_by is_server self.now.classes }
    {
        self.classes
            .iter()
            .filter(|class| class.is_server())
            .count()
    }

    fn add_class(
        &mut self,
        alloc: Global,
        scope: &Scope,
        reader: &mut WordReader<'a>,
    ) -> Result<(), AsmFaultKind>
        ensures { ReadsOrNoMemory (λ _. self.new) result (with_class scope.now self.old reader.old) }
    {
        let place = self.classes.len();
        if place >= 256 {
            return Err(AsmFaultKind::LimitPassed);
        }
        let servers = self.servers();
        let version = self.header.version;
        let natives = self.header.natives;
        let class = reader.class_statement(alloc, scope, version, natives, place, servers)?;
        self.keep_class(class)?;
        self.size = grown(28 + version.family_bytes(), self.size)?;
        Ok(())
    }

    /// One more class.
    fn keep_class(&mut self, class: ClassDecl) -> Result<(), AsmFaultKind>
        ensures { ReadsOrNoMemory (λ _. self.new) result (Ok (record self.old { classes = self.old.classes ++ class ∷ [] })) }
    {
        self.classes.push(class)?;
        Ok(())
    }

    fn open_method(
        &mut self,
        alloc: Global,
        scope: &Scope,
        reader: &mut WordReader<'a>,
        text: &Statements<'_, 'a>,
    ) -> Result<(), AsmFaultKind>
        ensures { ReadsOrNoMemory (λ _. self.new) result (with_heading scope.now text.now self.old reader.old) }
    {
        let place = self.methods.len();
        if place >= 1024 {
            return Err(AsmFaultKind::LimitPassed);
        }
        let labels = labels_of(alloc, text.again())?;
        let version = self.header.version;
        let heading = reader.heading(alloc, scope, version, place)?;
        self.open_body(Body::open(alloc, heading, labels));
        self.size = grown(24 + version.family_bytes(), self.size)?;
        Ok(())
    }

    /// Adds what a statement says of the method that is open: its end, or an instruction.
    fn add_to_method(
        &mut self,
        scope: &Scope,
        mut body: Body<'a>,
        mut reader: WordReader<'a>,
    ) -> Result<(), AsmFaultKind>
        requires { self.old.body ≡ None }
        ensures { ReadsOrNoMemory (λ _. self.new) result (in_body scope.now self.old body.entry reader.entry) }
    {
        if reader.took(Keyword::End) {
            self.add_method(body, reader)
        } else {
            let added = body.add(scope, self.header.version, reader);
            self.open_body(body);
            added?;
            self.size = grown(8, self.size)?;
            Ok(())
        }
    }

    /// Adds the method that ends here.
    fn add_method(&mut self, body: Body<'a>, mut reader: WordReader<'a>) -> Result<(), AsmFaultKind>
        requires { self.old.body ≡ None }
        ensures { ReadsOrNoMemory (λ _. self.new) result (with_method self.old body.entry reader.entry) }
    {
        self.methods.push(body.close()?)?;
        reader.nothing_more(false)
    }

    /// Adds what a statement says, before the statements that are left.
    pub fn take(
        &mut self,
        alloc: Global,
        scope: &Scope,
        reader: WordReader<'a>,
        text: &Statements<'_, 'a>,
    ) -> Result<(), AsmFaultKind>
        ensures { ReadsOrNoMemory (λ _. self.new) result (step scope.now text.now self.old reader.entry) }
    {
        match self.take_body() {
            Some(body) => self.add_to_method(scope, body, reader),
            None => self.declare(alloc, scope, reader, text),
        }
    }

    /// From here on that method is open.
    fn open_body(&mut self, body: Body<'a>)
        ensures { self.new ≡ record self.old { body = Some body.entry } }
    {
        self.body = Some(body);
    }

    /// The method that is open, which is open no more.
    fn take_body(&mut self) -> Option<Body<'a>>
        ensures body { result ≡ self.old.body }
        ensures rest { self.new ≡ record self.old { body = None } }
    {
        self.body.take()
    }

    /// Adds a class, or the beginning of a method.
    fn declare(
        &mut self,
        alloc: Global,
        scope: &Scope,
        mut reader: WordReader<'a>,
        text: &Statements<'_, 'a>,
    ) -> Result<(), AsmFaultKind>
        ensures { ReadsOrNoMemory (λ _. self.new) result (step_by None scope.now text.now self.old reader.entry) }
    {
        match reader.any_keyword()? {
            Keyword::Class => self.add_class(alloc, scope, &mut reader),
            Keyword::Method => self.open_method(alloc, scope, &mut reader, text),
            _ => Err(AsmFaultKind::BadShape),
        }
    }

    /// Whether a text may end here.
    pub fn check_closed(&self) -> Result<(), AsmFaultKind>
        ensures { Reads (λ _. self.now) result (closed self.now) }
    {
        if self.body.is_some() {
            Err(AsmFaultKind::BadShape)
        } else if self.methods.is_empty() {
            Err(AsmFaultKind::LimitPassed)
        } else {
            Ok(())
        }
    }

    pub fn into_classes(self) -> Items<ClassDecl>
        ensures { result ≡ self.entry.classes }
    {
        Items::from_vec(self.classes)
    }

    /// The image of what was read.
    pub fn into_image(self) -> Image
        requires { WellFormed (image_of self) }
        ensures { result ≡ image_of self.entry }
    {
        Image::make(self.header, self.classes, self.methods)
    }
}
