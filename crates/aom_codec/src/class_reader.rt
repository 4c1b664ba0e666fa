//! Classes, as they are read.
ghost use Rattle.std.specs.Prelude.{◌≡◌, ◌≤◌, ◌<◌, ◌+◌};
ghost use Rattle.aom_codec.specs.Format.{thing_from, thing, last_provider, sort_of_provider, provider, bare, kind, budget, parent_from, parent, kind_sort, class, no_session, active_part, server_part, count_server};
ghost use Rattle.aom_codec.specs.Reads.{Reads, ReadsOrNoMemory};
ghost use Rattle.aom_codec.specs.Codec.{many, many_from};

use crate::LoadFault;
use crate::header::class_below;
use crate::reader::ByteReader;
use aom_image::{ClassDecl, ClassKind, ClassNumber, Items, NativeNumber, Provider, Thing, Version};
use std::alloc::Global;

/// The servers up to a class, after so many.
fn count_server(servers: u16, class: &ClassDecl) -> u16
    requires { servers < 65535 }
    ensures count { result ≡ count_server servers class.now }
    ensures one_more { result ≤ servers + 1 }
{
    if class.is_server() {
        servers + 1
    } else {
        servers
    }
}

/// The last sort of provider that a version has.
fn last_provider(version: Version) -> u8
    ensures { result ≡ last_provider version }
{
    match version {
        Version::One => 2,
        Version::Two => 3,
    }
}

pub fn thing_of(number: u16, classes: u16) -> Result<Thing, LoadFault>
    requires { classes ≤ 256 }
    ensures { result ≡ thing_from classes number }
{
    match number {
        0xfffe => Ok(Thing::Message),
        _ => Ok(Thing::Object(class_below(number, classes)?)),
    }
}

/// The parent of a class of that kind, by its number.
fn parent_of(number: u16, kind: ClassKind, classes: u16) -> Result<Option<ClassNumber>, LoadFault>
    requires { classes ≤ 256 }
    ensures { result ≡ parent_from kind classes number }
{
    match number {
        0xffff => Ok(None),
        _ if kind.may_descend() => Ok(Some(class_below(number, classes)?)),
        _ => Err(LoadFault::BadOperand),
    }
}

impl<'a> ByteReader<'a> {
    fn thing(&mut self, classes: u16) -> Result<Thing, LoadFault>
        requires { classes ≤ 256 }
        ensures { Reads (λ x. (x, self.new)) result ((thing classes).read self.old) }
    {
        thing_of(self.next_u16()?, classes)
    }

    fn provider_sort(&mut self, version: Version) -> Result<u8, LoadFault>
        ensures { Reads (λ x. (x, self.new)) result ((sort_of_provider version).read self.old) }
    {
        match self.byte()? {
            sort if sort <= last_provider(version) => Ok(sort),
            _ => Err(LoadFault::BadOperand),
        }
    }

    fn provider(&mut self, version: Version, natives: u8) -> Result<Provider, LoadFault>
        requires { natives ≤ 16 }
        ensures { Reads (λ x. (x, self.new)) result ((provider version natives).read self.old) }
    {
        match self.provider_sort(version)? {
            0 => {
                self.fixed_byte(0, LoadFault::NotZero)?;
                Ok(Provider::Own)
            }
            1 => {
                self.fixed_byte(0, LoadFault::NotZero)?;
                Ok(Provider::Timer)
            }
            2 => match NativeNumber::new(self.byte()?) {
                Some(native) if native.number() < natives => Ok(Provider::Native(native)),
                _ => Err(LoadFault::BadIndex),
            },
            _ => {
                self.fixed_byte(0, LoadFault::NotZero)?;
                Ok(Provider::Token)
            }
        }
    }

    fn no_session(&mut self) -> Result<(), LoadFault>
        ensures { Reads (λ x. (x, self.new)) result (no_session.read self.old) }
    {
        self.expect_u16(0xffff, LoadFault::BadOperand)
    }

    fn bare(&mut self) -> Result<(), LoadFault>
        ensures { Reads (λ x. (x, self.new)) result (bare.read self.old) }
    {
        self.fixed_byte(0, LoadFault::NotZero)?;
        self.fixed_byte(0, LoadFault::NotZero)?;
        self.fixed_byte(0, LoadFault::NotZero)?;
        self.no_session()
    }

    fn active(&mut self, version: Version, natives: u8) -> Result<Provider, LoadFault>
        requires { natives ≤ 16 }
        ensures { Reads (λ x. ((x, tt), self.new)) result ((active_part version natives).read self.old) }
    {
        let provider = self.provider(version, natives)?;
        self.fixed_byte(0, LoadFault::NotZero)?;
        self.no_session()?;
        Ok(provider)
    }

    fn server(&mut self, classes: u16) -> Result<(u8, ClassNumber), LoadFault>
        requires { classes ≤ 256 }
        ensures { Reads (λ x. (x, self.new)) result ((server_part classes).read self.old) }
    {
        self.fixed_byte(0, LoadFault::NotZero)?;
        let sessions = self.limited_byte(1, 64)?;
        self.fixed_byte(0, LoadFault::NotZero)?;
        let session = class_below(self.next_u16()?, classes)?;
        Ok((sessions, session))
    }

    /// What stands between the counts and the fields.
    fn kind(
        &mut self,
        version: Version,
        sort: u8,
        classes: u16,
        natives: u8,
    ) -> Result<ClassKind, LoadFault>
        requires classes { classes ≤ 256 }
        requires natives { natives ≤ 16 }
        ensures { Reads (λ x. (x, self.new)) result ((kind version classes natives sort).read self.old) }
    {
        match sort {
            0 => {
                self.bare()?;
                Ok(ClassKind::Plain)
            }
            1 => {
                let provider = self.active(version, natives)?;
                Ok(ClassKind::Active { provider })
            }
            2 => {
                let (sessions, session) = self.server(classes)?;
                Ok(ClassKind::Server { sessions, session })
            }
            _ => {
                self.bare()?;
                Ok(ClassKind::Session)
            }
        }
    }

    /// What stands after the fields.
    fn budget(&mut self, kind: ClassKind) -> Result<u32, LoadFault>
        ensures { Reads (λ x. (x, self.new)) result ((budget kind).read self.old) }
    {
        let budget = self.next_u32()?;
        if kind.may_declare(budget) {
            Ok(budget)
        } else {
            Err(LoadFault::NotZero)
        }
    }

    /// What tells of the parent.
    fn parent(
        &mut self,
        version: Version,
        kind: ClassKind,
        classes: u16,
    ) -> Result<Option<ClassNumber>, LoadFault>
        requires { classes ≤ 256 }
        ensures { Reads (λ x. (x, self.new)) result ((parent version kind classes).read self.old) }
    {
        match version {
            Version::One => Ok(None),
            Version::Two => {
                let parent = parent_of(self.next_u16()?, kind, classes)?;
                self.expect_u16(0, LoadFault::NotZero)?;
                Ok(parent)
            }
        }
    }

    /// The byte of a class's kind, after so many servers.
    fn kind_sort(&mut self, servers: u16) -> Result<u8, LoadFault>
        ensures { Reads (λ x. (x, self.new)) result ((kind_sort servers).read self.old) }
    {
        match self.byte()? {
            2 if servers >= 8 => Err(LoadFault::LimitPassed),
            sort if sort <= 3 => Ok(sort),
            _ => Err(LoadFault::BadOperand),
        }
    }

    fn things(&mut self, alloc: Global, count: u8, classes: u16) -> Result<Vec<Thing>, LoadFault>
        requires { classes ≤ 256 }
        ensures { ReadsOrNoMemory (λ x. (x.items, self.new)) result ((many count (thing classes)).read self.old) }
    {
        let mut things = Vec::with_capacity(alloc, count as usize)?;
        for _ in 0..count {
            let thing = self.thing(classes)?;
            things.push(thing)?;
        }
        Ok(things)
    }

    fn class(
        &mut self,
        alloc: Global,
        version: Version,
        classes: u16,
        natives: u8,
        servers: u16,
    ) -> Result<ClassDecl, LoadFault>
        requires classes { classes ≤ 256 }
        requires natives { natives ≤ 16 }
        ensures { ReadsOrNoMemory (λ x. (x, self.new)) result ((class version classes natives servers).read self.old) }
    {
        let sort = self.kind_sort(servers)?;
        let words = self.limited_byte(0, 8)?;
        let count = self.limited_byte(0, 8)?;
        let kind = self.kind(version, sort, classes, natives)?;
        let fields = self.things(alloc, count, classes)?;
        self.unused_pairs(8 - count)?;
        let mut class = ClassDecl {
            kind,
            parent: None,
            words,
            fields: Items::from_vec(fields),
            budget: 0,
        };
        class.budget = self.budget(class.kind)?;
        class.parent = self.parent(version, class.kind, classes)?;
        Ok(class)
    }

    pub fn classes(
        &mut self,
        alloc: Global,
        version: Version,
        count: u16,
        natives: u8,
    ) -> Result<Vec<ClassDecl>, LoadFault>
        requires classes { count ≤ 256 }
        requires natives { natives ≤ 16 }
        ensures { ReadsOrNoMemory (λ x. (x.items, self.new)) result ((many_from (class version count natives) count_server 0 count).read self.old) }
    {
        let mut classes = Vec::with_capacity(alloc, count as usize)?;
        let mut servers = 0;
        for _ in 0..count {
            let class = self.class(alloc, version, count, natives, servers)?;
            servers = count_server(servers, &class);
            classes.push(class)?;
        }
        Ok(classes)
    }
}
