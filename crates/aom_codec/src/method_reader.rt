//! Methods, as they are read.
ghost use Rattle.std.specs.Prelude.{◌≡◌, ◌≤◌};
ghost use Rattle.aom_codec.specs.Codec.{many};
ghost use Rattle.aom_codec.specs.Instructions.{Bounded, instruction};
ghost use Rattle.aom_codec.specs.Format.{argument_from, argument, class_from, role, flags, states, gives_from, over as over_format, result as result_format, result_sort, method};
ghost use Rattle.aom_codec.specs.Reads.{Reads, ReadsOrNoMemory};

use crate::LoadFault;
use crate::class_reader::thing_of;
use crate::header::class_below;
use crate::reader::ByteReader;
use aom_image::{
    Argument, Gives, Instr, Items, Limits, Method, MethodFlags, MethodNumber, Role, States, Target,
    Thing, Version,
};
use std::alloc::Global;

fn argument_of(number: u16, classes: u16) -> Result<Argument, LoadFault>
    requires { classes ≤ 256 }
    ensures { result ≡ argument_from classes number }
{
    match number {
        0xffff => Ok(Argument::Word),
        _ => Ok(Argument::Own(thing_of(number, classes)?)),
    }
}

/// The result of a kind from 0 to 4, with the number of its class.
fn gives_of(sort: u8, number: u16, classes: u16) -> Result<Gives, LoadFault>
    requires { classes ≤ 256 }
    ensures { result ≡ gives_from classes sort number }
{
    match (sort, number) {
        (0, 0xffff) => Ok(Gives::Nothing),
        (1, 0xffff) => Ok(Gives::Word),
        (0 | 1, _) | (4, 0xfffe..=0xffff) | (_, 0xffff) => Err(LoadFault::BadOperand),
        (2, _) => Ok(Gives::Own(thing_of(number, classes)?)),
        (4, _) => Ok(Gives::Left(class_below(number, classes)?)),
        _ => Ok(Gives::Maybe(thing_of(number, classes)?)),
    }
}

/// The method that is overridden, by its number.
fn overridden_from(number: u16, methods: u16) -> Result<Option<MethodNumber>, LoadFault>
    requires { methods ≤ 1024 }
    ensures { result ≡ class_from methods number }
{
    if number == 0xffff {
        return Ok(None);
    }
    match MethodNumber::new(number) {
        Some(method) if method.number() < methods => Ok(Some(method)),
        _ => Err(LoadFault::BadIndex),
    }
}

impl<'a> ByteReader<'a> {
    fn argument(&mut self, classes: u16) -> Result<Argument, LoadFault>
        requires { classes ≤ 256 }
        ensures { Reads (λ x. (x, self.new)) result ((argument classes).read self.old) }
    {
        argument_of(self.next_u16()?, classes)
    }

    fn role(&mut self) -> Result<Role, LoadFault>
        ensures { Reads (λ x. (x, self.new)) result (role.read self.old) }
    {
        match self.byte()? {
            0 => Ok(Role::Do),
            1 => Ok(Role::Main),
            2 => Ok(Role::Construct),
            3 => Ok(Role::Destruct),
            4 => Ok(Role::Run),
            5 => Ok(Role::Cancel),
            6 => Ok(Role::Error),
            7 => Ok(Role::Accept),
            8 => Ok(Role::Service),
            9 => Ok(Role::Undo),
            _ => Err(LoadFault::BadOperand),
        }
    }

    fn flags(&mut self) -> Result<MethodFlags, LoadFault>
        ensures { Reads (λ x. (x, self.new)) result (flags.read self.old) }
    {
        match MethodFlags::of_byte(self.byte()?) {
            Some(flags) => Ok(flags),
            None => Err(LoadFault::BadOperand),
        }
    }

    fn states(&mut self) -> Result<States, LoadFault>
        ensures { Reads (λ x. (x, self.new)) result (states.read self.old) }
    {
        match States::of_byte(self.byte()?) {
            Some(states) => Ok(states),
            None => Err(LoadFault::BadOperand),
        }
    }

    /// The kind of a result, from 0 to 4.
    fn result_sort(&mut self) -> Result<u8, LoadFault>
        ensures { Reads (λ x. (x, self.new)) result (result_sort.read self.old) }
    {
        match self.byte()? {
            sort if sort <= 4 => Ok(sort),
            _ => Err(LoadFault::BadOperand),
        }
    }

    fn result(&mut self, sort: u8, classes: u16) -> Result<Gives, LoadFault>
        requires { classes ≤ 256 }
        ensures { Reads (λ x. (x, self.new)) result ((result_format classes sort).read self.old) }
    {
        gives_of(sort, self.next_u16()?, classes)
    }

    fn arguments(
        &mut self,
        alloc: Global,
        count: u8,
        classes: u16,
    ) -> Result<Vec<Argument>, LoadFault>
        requires { classes ≤ 256 }
        ensures { ReadsOrNoMemory (λ x. (x.items, self.new)) result ((many count (argument classes)).read self.old) }
    {
        // The check has to be told of the type that `Argument` holds.
        let _reported: Option<Thing> = None;
        let mut arguments = Vec::with_capacity(alloc, count as usize)?;
        for _ in 0..count {
            let argument = self.argument(classes)?;
            arguments.push(argument)?;
        }
        Ok(arguments)
    }

    fn code(&mut self, alloc: Global, limits: Limits) -> Result<Vec<Instr>, LoadFault>
        requires { Bounded limits }
        ensures { ReadsOrNoMemory (λ x. (x.items, self.new)) result ((many limits.places (instruction limits)).read self.old) }
    {
        // The check has to be told of the type that `Instr` holds.
        let _reported: Option<Target> = None;
        let mut code = Vec::with_capacity(alloc, limits.places)?;
        for _ in 0..limits.places {
            let instr = self.instruction(limits)?;
            code.push(instr)?;
        }
        Ok(code)
    }

    fn over(&mut self, version: Version, methods: u16) -> Result<Option<MethodNumber>, LoadFault>
        requires { methods ≤ 1024 }
        ensures { Reads (λ x. (x, self.new)) result ((over_format version methods).read self.old) }
    {
        match version {
            Version::One => Ok(None),
            Version::Two => {
                let over = overridden_from(self.next_u16()?, methods)?;
                self.expect_u16(0, LoadFault::NotZero)?;
                Ok(over)
            }
        }
    }

    fn method(
        &mut self,
        alloc: Global,
        version: Version,
        classes: u16,
        methods: u16,
    ) -> Result<Method, LoadFault>
        requires classes { classes ≤ 256 }
        requires methods { methods ≤ 1024 }
        ensures { ReadsOrNoMemory (λ x. (x, self.new)) result ((method version classes methods).read self.old) }
    {
        let class = self.class_or_none(classes)?;
        let role = self.role()?;
        let flags = self.flags()?;
        let before = self.states()?;
        let after = self.states()?;
        let count = self.limited_byte(0, 6)?;
        let sort = self.result_sort()?;
        let arguments = self.arguments(alloc, count, classes)?;
        self.unused_pairs(6 - count)?;
        let gives = self.result(sort, classes)?;
        let length = self.next_u16_at_most(1, 1024)?;
        let over = self.over(version, methods)?;
        let limits = Limits {
            version,
            classes: classes as usize,
            methods: methods as usize,
            places: length as usize,
        };
        let code = self.code(alloc, limits)?;
        Ok(Method {
            class,
            over,
            role,
            flags,
            before,
            after,
            arguments: Items::from_vec(arguments),
            gives,
            code: Items::from_vec(code),
        })
    }

    pub fn methods(
        &mut self,
        alloc: Global,
        version: Version,
        count: u16,
        classes: u16,
    ) -> Result<Vec<Method>, LoadFault>
        requires classes { classes ≤ 256 }
        requires methods { count ≤ 1024 }
        ensures { ReadsOrNoMemory (λ x. (x.items, self.new)) result ((many count (method version classes count)).read self.old) }
    {
        let mut methods = Vec::with_capacity(alloc, count as usize)?;
        for _ in 0..count {
            let method = self.method(alloc, version, classes, count)?;
            methods.push(method)?;
        }
        Ok(methods)
    }
}
