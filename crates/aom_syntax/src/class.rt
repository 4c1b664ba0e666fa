//! The statement that declares a class.
ghost use Rattle.std.specs.Prelude.{◌≡◌, ◌≤◌, ◌∷◌, ◌==◌, ◌<◌, length, option_map, IfSome};
ghost use Rattle.std.specs.List.{slice_split, position};
ghost use Rattle.aom_image.specs.WellFormed.{is_dispatched};
ghost use Rattle.aom_syntax.specs.Reading.{Reads, ReadsOrNoMemory};
ghost use Rattle.aom_syntax.specs.Classes.{declared, parts_left, class_of, thing_of, thing, things, provider, server, kind, optional_parent, said_budget, budget, fields, class_statement};

use crate::list::listed;
use crate::{Keyword, NameList, Scope, WordReader};
use aom_image::{ClassDecl, ClassKind, ClassNumber, Items, NativeNumber, Provider, Thing, Version};
use aom_text::{AsmFaultKind, is_name};
use std::alloc::Global;

/// The first element of a list, and what comes after its comma.
pub fn split_element(list: &[u8]) -> (&[u8], Option<&[u8]>)
    ensures parts { slice_split (λ b. b == 44) list.now ≡ result.0.now ∷ parts_left (option_map (λ r. r.now) result.1) }
    ensures shorter { IfSome result.1 (λ r. length r.now < length list.now) }
{
    match find_comma(list) {
        Some(end) => (&list[..end], Some(&list[end + 1..])),
        None => (list, None),
    }
}

fn find_comma(list: &[u8]) -> Option<usize>
    ensures { result ≡ position (λ b. b == 44) list.now }
{
    list.iter().position(|b| *b == b',')
}

fn class_of(word: &[u8], scope: &Scope) -> Result<ClassNumber, AsmFaultKind>
    ensures { result ≡ class_of scope.now word.now }
{
    if !is_name(word) {
        return Err(AsmFaultKind::BadShape);
    }
    ClassNumber::new(scope.classes.number_of(word, scope.is_strict, 256)?).ok_or(
        AsmFaultKind::LimitPassed,
    )
}

pub fn thing_of(word: &[u8], scope: &Scope) -> Result<Thing, AsmFaultKind>
    ensures { result ≡ thing_of scope.now word.now }
{
    if word == b"msg".as_slice() {
        return Ok(Thing::Message);
    }
    Ok(Thing::Object(class_of(word, scope)?))
}

impl<'a> WordReader<'a> {
    /// A name that is declared here, at its place among all of its kind.
    pub fn declared(&mut self, place: usize, names: &NameList) -> Result<(), AsmFaultKind>
        ensures { Reads (λ x. (x, self.new)) result (declared place names.now self.old) }
    {
        let name = self.name()?;
        match names.place_of(name) {
            Some(first) if first == place => Ok(()),
            _ => Err(AsmFaultKind::DoubleName),
        }
    }

    pub fn thing(&mut self, scope: &Scope) -> Result<Thing, AsmFaultKind>
        ensures { Reads (λ x. (x, self.new)) result (thing scope.now self.old) }
    {
        thing_of(self.word()?, scope)
    }

    fn things(&mut self, alloc: Global, scope: &Scope) -> Result<Vec<Thing>, AsmFaultKind>
        ensures { ReadsOrNoMemory (λ x. (x.items, self.new)) result (things scope.now self.old) }
    {
        listed(alloc, self.word()?, scope, 8)
    }

    /// The provider that a keyword says.
    fn provider(
        &mut self,
        key: Keyword,
        version: Version,
        natives: u8,
    ) -> Result<Provider, AsmFaultKind>
        ensures { Reads (λ x. (x, self.new)) result (provider version natives key self.old) }
    {
        match key {
            Keyword::This => Ok(Provider::Own),
            Keyword::Timer => Ok(Provider::Timer),
            Keyword::Token if version.includes(Version::Two) => Ok(Provider::Token),
            Keyword::Native => match NativeNumber::new(self.number(0, 15)? as u8) {
                Some(native) if native.number() < natives => Ok(Provider::Native(native)),
                _ => Err(AsmFaultKind::LimitPassed),
            },
            _ => Err(AsmFaultKind::BadShape),
        }
    }

    fn server(&mut self, scope: &Scope) -> Result<ClassKind, AsmFaultKind>
        ensures { Reads (λ x. (x, self.new)) result (server scope.now self.old) }
    {
        let session = self.class(scope)?;
        self.keyword(Keyword::Max)?;
        let sessions = self.number(1, 64)? as u8;
        Ok(ClassKind::Server { sessions, session })
    }

    /// What a keyword says that a class is for.
    fn kind(
        &mut self,
        key: Keyword,
        scope: &Scope,
        version: Version,
        natives: u8,
        servers: usize,
    ) -> Result<ClassKind, AsmFaultKind>
        ensures { Reads (λ x. (x, self.new)) result (kind scope.now version natives servers key self.old) }
    {
        match key {
            Keyword::Plain => Ok(ClassKind::Plain),
            Keyword::Session => Ok(ClassKind::Session),
            Keyword::Active => {
                let key = self.any_keyword()?;
                let provider = self.provider(key, version, natives)?;
                Ok(ClassKind::Active { provider })
            }
            Keyword::Server if servers < 8 => self.server(scope),
            Keyword::Server => Err(AsmFaultKind::LimitPassed),
            _ => Err(AsmFaultKind::BadShape),
        }
    }

    /// The parent, where it is said.
    fn optional_parent(
        &mut self,
        scope: &Scope,
        version: Version,
        kind: ClassKind,
    ) -> Result<Option<ClassNumber>, AsmFaultKind>
        ensures { Reads (λ x. (x, self.new)) result (optional_parent scope.now version kind self.old) }
    {
        if !self.took(Keyword::From) {
            return Ok(None);
        }
        match version {
            Version::Two if kind.may_descend() => Ok(Some(self.class(scope)?)),
            _ => Err(AsmFaultKind::BadShape),
        }
    }

    fn said_budget(&mut self) -> Result<u32, AsmFaultKind>
        ensures { Reads (λ x. (x, self.new)) result (said_budget self.old) }
    {
        self.keyword(Keyword::Budget)?;
        let budget = self.number(0, u32::MAX)?;
        self.nothing_more(false)?;
        Ok(budget)
    }

    /// The end of the statement, where owned fields were listed or not.
    fn budget(&mut self, has_fields: bool, kind: ClassKind) -> Result<u32, AsmFaultKind>
        ensures { Reads (λ x. (x, self.new)) result (budget has_fields (is_dispatched kind) self.old) }
    {
        if kind.is_dispatched() {
            return self.said_budget();
        }
        self.nothing_more(!has_fields)?;
        Ok(0)
    }

    /// The owned fields, where they are listed.
    fn fields(
        &mut self,
        alloc: Global,
        has_fields: bool,
        scope: &Scope,
    ) -> Result<Vec<Thing>, AsmFaultKind>
        ensures { ReadsOrNoMemory (λ x. (x.items, self.new)) result (fields scope.now has_fields self.old) }
    {
        if has_fields {
            self.things(alloc, scope)
        } else {
            Ok(Vec::new(alloc))
        }
    }

    /// The class of a statement, after the word `class`: at its place among the classes, after so many servers.
    pub fn class_statement(
        &mut self,
        alloc: Global,
        scope: &Scope,
        version: Version,
        natives: u8,
        place: usize,
        servers: usize,
    ) -> Result<ClassDecl, AsmFaultKind>
        ensures { ReadsOrNoMemory (λ x. (x, self.new)) result (class_statement scope.now version natives place servers self.old) }
    {
        self.declared(place, &scope.classes)?;
        let key = self.any_keyword()?;
        let kind = self.kind(key, scope, version, natives, servers)?;
        let mut class = ClassDecl {
            kind,
            parent: None,
            words: 0,
            fields: Items::from_vec(Vec::new(alloc)),
            budget: 0,
        };
        class.parent = self.optional_parent(scope, version, class.kind)?;
        class.words = self.optional_number(Keyword::Words, 8)? as u8;
        let has_fields = self.took(Keyword::Own);
        class.fields = Items::from_vec(self.fields(alloc, has_fields, scope)?);
        class.budget = self.budget(has_fields, class.kind)?;
        Ok(class)
    }
}
