//! The statement that declares a method.
ghost use Rattle.std.specs.Prelude.{◌≡◌, ◌≤◌, ◌<◌, ◌∷◌, length, option_map, replicate, Ok};
ghost use Rattle.aom_image.specs.declared.method.Argument.TheVariants.{Word};
ghost use Rattle.aom_syntax.specs.Reading.{Reads, ReadsOrNoMemory};
ghost use Rattle.aom_syntax.specs.Methods.{role, role_of, kind_of, all_states, accepted, default_before, default_after, default_words, default_gives, omitted_gives, is_quiet_role, optional_states, optional_class, optional_over, argument_of, optional_arguments, gives, optional_gives, flags_of, promised, heading};

use crate::class::thing_of;
use crate::list::listed;
use crate::states::{set_of, states_of};
use crate::{Keyword, Scope, WordReader};
use aom_image::{
    Argument, ClassDecl, ClassKind, ClassNumber, Gives, Items, MethodFlags, MethodNumber, Role,
    States, Thing, Version,
};
use aom_text::AsmFaultKind;
use std::alloc::Global;

/// A method but its code.
#[derive(Drop)]
pub struct Heading {
    pub class: Option<ClassNumber>,
    pub over: Option<MethodNumber>,
    pub role: Role,
    pub flags: MethodFlags,
    pub before: States,
    pub after: States,
    pub arguments: Items<Argument>,
    pub gives: Gives,
}

/// The kind of a class among those that were read before.
fn kind_of(classes: &Items<ClassDecl>, class: Option<ClassNumber>) -> ClassKind
    ensures { result ≡ kind_of classes.now class }
{
    match class {
        Some(class) => match classes.as_slice().get(class.number() as usize) {
            Some(decl) => decl.kind,
            None => ClassKind::Plain,
        },
        None => ClassKind::Plain,
    }
}

/// All request states of a class's objects outside a cancel.
fn all_states(kind: ClassKind) -> u8
    ensures all { result ≡ all_states kind }
    ensures few { result < 64 }
{
    match kind {
        ClassKind::Active { .. } => 11,
        ClassKind::Server { .. } => 3,
        ClassKind::Plain | ClassKind::Session => 0,
    }
}

/// The states in which a method may begin and those in which it may end, where none are said.
fn default_states(role: Role, all: u8) -> (u8, u8)
    requires { all < 64 }
    ensures before { result.0 ≡ default_before role all }
    ensures after { result.1 ≡ default_after role all }
    ensures few { (result.0 < 64) × (result.1 < 64) }
{
    match role {
        Role::Do => (all, all),
        Role::Construct if all != 0 => (1, all),
        Role::Destruct if all != 0 => (all, 3),
        Role::Run => (2, 11),
        Role::Cancel => (16, 32),
        Role::Error => (10, 11),
        Role::Accept => (2, 3),
        Role::Main | Role::Construct | Role::Destruct | Role::Service | Role::Undo => (0, 0),
    }
}

/// How many words it takes, where no arguments are said.
fn default_words(role: Role) -> usize
    ensures { result ≡ default_words role }
{
    match role {
        Role::Error | Role::Undo => 1,
        Role::Service => 5,
        _ => 0,
    }
}

/// What it gives, where nothing is said; none where it has to be said.
fn default_gives(known: bool, role: Role, kind: ClassKind) -> Option<Gives>
    ensures { result ≡ default_gives known role kind }
{
    match role {
        Role::Error => Some(Gives::Word),
        Role::Accept => accepted(known, kind),
        _ => Some(Gives::Nothing),
    }
}

/// What an accept of such a class gives. Before the classes are known, any may be a server's.
fn accepted(known: bool, kind: ClassKind) -> Option<Gives>
    ensures { result ≡ accepted known kind }
{
    match kind {
        ClassKind::Server { session, .. } => Some(Gives::Own(Thing::Object(session))),
        _ if known => None,
        _ => Some(Gives::Nothing),
    }
}

/// What stands for a result that is missing.
fn omitted_gives(default: Option<Gives>) -> Result<Gives, AsmFaultKind>
    ensures { result ≡ omitted_gives default }
{
    match default {
        Some(gives) => Ok(gives),
        None => Err(AsmFaultKind::BadShape),
    }
}

/// Whether it is quiet, said or not.
fn is_quiet_role(role: Role) -> bool
    ensures { result ≡ is_quiet_role role }
{
    match role {
        Role::Destruct | Role::Cancel | Role::Undo => true,
        _ => false,
    }
}

fn flags_of(leaves: bool, quiet: bool) -> MethodFlags
    ensures { result ≡ flags_of leaves quiet }
{
    let byte = match (leaves, quiet) {
        (false, false) => 0,
        (true, false) => 1,
        (false, true) => 2,
        (true, true) => 3,
    };
    match MethodFlags::of_byte(byte) {
        Some(flags) => flags,
        None => MethodFlags::NONE,
    }
}

fn role_of(key: Keyword) -> Result<Role, AsmFaultKind>
    ensures { result ≡ role_of key }
{
    match key {
        Keyword::Do => Ok(Role::Do),
        Keyword::Main => Ok(Role::Main),
        Keyword::Construct => Ok(Role::Construct),
        Keyword::Destruct => Ok(Role::Destruct),
        Keyword::Run => Ok(Role::Run),
        Keyword::Cancel => Ok(Role::Cancel),
        Keyword::Error => Ok(Role::Error),
        Keyword::Accept => Ok(Role::Accept),
        Keyword::Service => Ok(Role::Service),
        Keyword::Undo => Ok(Role::Undo),
        _ => Err(AsmFaultKind::BadShape),
    }
}

pub fn argument_of(word: &[u8], scope: &Scope) -> Result<Argument, AsmFaultKind>
    ensures { result ≡ argument_of scope.now word.now }
{
    if word == b"word".as_slice() {
        return Ok(Argument::Word);
    }
    Ok(Argument::Own(thing_of(word, scope)?))
}

fn words(alloc: Global, count: usize) -> Result<Vec<Argument>, AsmFaultKind>
    ensures { ReadsOrNoMemory (λ v. v.items) result (Ok (replicate count Word)) }
{
    let _reported: Option<Thing> = None;
    Ok(vec![in alloc; Argument::Word; count]?)
}

impl<'a> WordReader<'a> {
    fn role(&mut self) -> Result<Role, AsmFaultKind>
        ensures { Reads (λ x. (x, self.new)) result (role self.old) }
    {
        role_of(self.any_keyword()?)
    }

    /// A set behind its keyword, and else the usual one.
    fn optional_states(&mut self, key: Keyword, default: u8) -> Result<States, AsmFaultKind>
        requires { default < 64 }
        ensures { Reads (λ x. (x, self.new)) result (optional_states key default self.old) }
    {
        if self.took(key) {
            states_of(self.word()?)
        } else {
            Ok(set_of(default))
        }
    }

    fn optional_class(&mut self, scope: &Scope) -> Result<Option<ClassNumber>, AsmFaultKind>
        ensures { Reads (λ x. (x, self.new)) result (optional_class scope.now self.old) }
    {
        if self.took(Keyword::Of) {
            Ok(Some(self.class(scope)?))
        } else {
            Ok(None)
        }
    }

    fn optional_over(
        &mut self,
        scope: &Scope,
        version: Version,
    ) -> Result<Option<MethodNumber>, AsmFaultKind>
        ensures { Reads (λ x. (x, self.new)) result (optional_over scope.now version self.old) }
    {
        if !self.took(Keyword::Over) {
            return Ok(None);
        }
        match version {
            Version::One => Err(AsmFaultKind::BadShape),
            Version::Two => Ok(Some(self.method(scope)?)),
        }
    }

    /// The arguments that are said, and else so many words.
    fn optional_arguments(
        &mut self,
        alloc: Global,
        scope: &Scope,
        default: usize,
    ) -> Result<Vec<Argument>, AsmFaultKind>
        ensures { ReadsOrNoMemory (λ x. (x.items, self.new)) result (optional_arguments scope.now default self.old) }
    {
        if self.took(Keyword::Args) {
            listed(alloc, self.word()?, scope, 6)
        } else {
            words(alloc, default)
        }
    }

    /// What a method gives, by the keyword before it.
    fn gives(&mut self, key: Keyword, scope: &Scope) -> Result<Gives, AsmFaultKind>
        ensures { Reads (λ x. (x, self.new)) result (gives scope.now key self.old) }
    {
        match key {
            Keyword::Nothing => Ok(Gives::Nothing),
            Keyword::Word => Ok(Gives::Word),
            Keyword::Own => Ok(Gives::Own(self.thing(scope)?)),
            Keyword::Maybe => Ok(Gives::Maybe(self.thing(scope)?)),
            Keyword::Left => Ok(Gives::Left(self.class(scope)?)),
            _ => Err(AsmFaultKind::BadShape),
        }
    }

    /// The end of the statement: what is said to be given, and else the usual, if there is one.
    fn optional_gives(
        &mut self,
        scope: &Scope,
        default: Option<Gives>,
    ) -> Result<Gives, AsmFaultKind>
        ensures { Reads (λ x. (x, self.new)) result (optional_gives scope.now default self.old) }
    {
        if self.took(Keyword::Gives) {
            let key = self.any_keyword()?;
            let gives = self.gives(key, scope)?;
            self.nothing_more(false)?;
            Ok(gives)
        } else {
            self.nothing_more(true)?;
            omitted_gives(default)
        }
    }

    /// What a method promises behind its flags: its states, its arguments and its result.
    fn promised(
        &mut self,
        alloc: Global,
        scope: &Scope,
        role: Role,
        class: Option<ClassNumber>,
        over: Option<MethodNumber>,
        leaves: bool,
        quiet: bool,
    ) -> Result<Heading, AsmFaultKind>
        ensures { ReadsOrNoMemory (λ x. (x, self.new)) result (promised scope.now role class over leaves quiet self.old) }
    {
        let kind = kind_of(&scope.kinds, class);
        let (default_before, default_after) = default_states(role, all_states(kind));
        let before = self.optional_states(Keyword::In, default_before)?;
        let after = self.optional_states(Keyword::Out, default_after)?;
        let arguments = self.optional_arguments(alloc, scope, default_words(role))?;
        let gives = self.optional_gives(scope, default_gives(scope.is_strict, role, kind))?;
        Ok(Heading {
            class,
            over,
            role,
            flags: flags_of(leaves, quiet || is_quiet_role(role)),
            before,
            after,
            arguments: Items::from_vec(arguments),
            gives,
        })
    }

    /// The method of a statement, after the word `method`: at its place among the methods.
    pub fn heading(
        &mut self,
        alloc: Global,
        scope: &Scope,
        version: Version,
        place: usize,
    ) -> Result<Heading, AsmFaultKind>
        ensures { ReadsOrNoMemory (λ x. (x, self.new)) result (heading scope.now version place self.old) }
    {
        self.declared(place, &scope.methods)?;
        let role = self.role()?;
        let class = self.optional_class(scope)?;
        let over = self.optional_over(scope, version)?;
        let leaves = self.took(Keyword::Leaves);
        let quiet = self.took(Keyword::Quiet);
        self.promised(alloc, scope, role, class, over, leaves, quiet)
    }
}
