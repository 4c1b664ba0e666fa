//! The way out: the bytes that spell an image.
ghost use Rattle.std.specs.Prelude.{◌≡◌, ◌≤◌, ◌-◌, ◌++◌, ◌∷◌, All, length, flat_map, OnOk, IfOk};
ghost use Rattle.aom_codec.specs.Serialization.{version_number, family_bytes, next_u16, next_u32, unused_pairs, class_number, thing_number, argument_number, gives_byte, result_number, kind_byte, provider_byte, number_byte, session_number, class as class_bytes, target_byte, small_byte, large_number, instruction as instruction_bytes, method as method_bytes, serialize};

use aom_image::{
    Argument, ClassDecl, ClassKind, ClassNumber, Gives, Header, Image, Instr, Large, Method,
    Operands, Provider, Role, Small, Target, Thing, Version, serialized_len,
};
use bitflags::Flags;
use std::alloc::{AllocError, Global};

fn class_number(class: Option<ClassNumber>) -> u16
    ensures { result ≡ class_number class }
{
    match class {
        None => 0xffff,
        Some(class) => class.number(),
    }
}

fn thing_number(thing: Thing) -> u16
    ensures { result ≡ thing_number thing }
{
    match thing {
        Thing::Object(class) => class.number(),
        Thing::Message => 0xfffe,
    }
}

fn argument_number(argument: Argument) -> u16
    ensures { result ≡ argument_number argument }
{
    match argument {
        Argument::Word => 0xffff,
        Argument::Own(thing) => thing_number(thing),
    }
}

fn result_number(gives: Gives) -> u16
    ensures { result ≡ result_number gives }
{
    match gives {
        Gives::Nothing | Gives::Word => 0xffff,
        Gives::Own(thing) | Gives::Maybe(thing) => thing_number(thing),
        Gives::Left(class) => class.number(),
    }
}

fn gives_byte(gives: Gives) -> u8
    ensures { result ≡ gives_byte gives }
{
    match gives {
        Gives::Nothing => 0,
        Gives::Word => 1,
        Gives::Own(_) => 2,
        Gives::Maybe(_) => 3,
        Gives::Left(_) => 4,
    }
}

fn kind_byte(kind: ClassKind) -> u8
    ensures { result ≡ kind_byte kind }
{
    match kind {
        ClassKind::Plain => 0,
        ClassKind::Active { .. } => 1,
        ClassKind::Server { .. } => 2,
        ClassKind::Session => 3,
    }
}

/// The byte of an active class's provider, and the number of a native or a server's most sessions.
fn provider_and_number(kind: ClassKind) -> (u8, u8)
    ensures { result ≡ (provider_byte kind, number_byte kind) }
{
    match kind {
        ClassKind::Plain | ClassKind::Session => (0, 0),
        ClassKind::Active { provider } => match provider {
            Provider::Own => (0, 0),
            Provider::Timer => (1, 0),
            Provider::Native(native) => (2, native.number()),
            Provider::Token => (3, 0),
        },
        ClassKind::Server { sessions, .. } => (0, sessions),
    }
}

fn session_number(kind: ClassKind) -> u16
    ensures { result ≡ session_number kind }
{
    match kind {
        ClassKind::Server { session, .. } => session.number(),
        _ => 0xffff,
    }
}

/// The high half says what the target is, the low half which one.
fn target_byte(target: Target) -> u8
    ensures { result ≡ target_byte target }
{
    match target {
        Target::This => 0x00,
        Target::Register(register) => 0x10 + register.number(),
        Target::Field(field) => 0x20 + field.number(),
        Target::Entry(entry) => 0x30 + entry.number(),
    }
}

fn small_byte(operand: Small) -> u8
    ensures { result ≡ small_byte operand }
{
    match operand {
        Small::Unused => 0,
        Small::Register(register) => register.number(),
        Small::Word(word) => word.number(),
        Small::Field(field) => field.number(),
        Small::Depth(depth) => depth.number(),
        Small::CallTarget(target) => target_byte(target),
    }
}

fn large_number(operand: Large) -> u32
    ensures { result ≡ large_number operand }
{
    match operand {
        Large::Nothing => 0,
        Large::Number(number) => number.cast_unsigned(),
        Large::Rounds(rounds) => u32::from(rounds),
        Large::Place(place) => u32::from(place.number()),
        Large::Class(class) => u32::from(class.number()),
        Large::Method(method) => u32::from(method.number()),
    }
}

fn encode_u16(out: &mut Vec<u8>, number: u16) -> Result<(), AllocError>
    ensures { OnOk result (out.new.items ≡ out.old.items ++ next_u16 number) }
{
    out.extend_from_slice(&number.to_be_bytes())
}

fn encode_u32(out: &mut Vec<u8>, number: u32) -> Result<(), AllocError>
    ensures { OnOk result (out.new.items ≡ out.old.items ++ next_u32 number) }
{
    out.extend_from_slice(&number.to_be_bytes())
}

fn encode_unused_u16s(out: &mut Vec<u8>, count: usize) -> Result<(), AllocError>
    ensures { OnOk result (out.new.items ≡ out.old.items ++ unused_pairs count) }
{
    for _ in 0..count {
        encode_u16(out, 0)?;
    }
    Ok(())
}

fn version_number(version: Version) -> u16
    ensures { result ≡ version_number version }
{
    match version {
        Version::One => 1,
        Version::Two => 2,
    }
}

fn encode_counts(
    out: &mut Vec<u8>,
    version: Version,
    classes: u16,
    methods: u16,
) -> Result<(), AllocError>
    ensures { OnOk result (out.new.items ≡ out.old.items ++ (next_u32 0x414f494d ++ (next_u16 (version_number version) ++ (next_u16 classes ++ next_u16 methods)))) }
{
    encode_u32(out, 0x414f494d)?;
    encode_u16(out, version_number(version))?;
    encode_u16(out, classes)?;
    encode_u16(out, methods)
}

fn encode_limits(out: &mut Vec<u8>, header: &Header) -> Result<(), AllocError>
    ensures { OnOk result (out.new.items ≡ out.old.items ++ (next_u16 header.now.cells ++ (next_u16 header.now.messages ++ (header.now.natives ∷ 0 ∷ (next_u16 (class_number header.now.root) ++ (next_u16 0 ++ next_u32 header.now.budget)))))) }
{
    encode_u16(out, header.cells)?;
    encode_u16(out, header.messages)?;
    out.push(header.natives)?;
    out.push(0)?;
    encode_u16(out, class_number(header.root))?;
    encode_u16(out, 0)?;
    encode_u32(out, header.budget)
}

fn encode_things(out: &mut Vec<u8>, things: &[Thing]) -> Result<(), AllocError>
    ensures { OnOk result (out.new.items ≡ out.old.items ++ flat_map (λ t. next_u16 (thing_number t)) things.now) }
{
    for thing in things {
        encode_u16(out, thing_number(*thing))?;
    }
    Ok(())
}

/// What tells of a parent or of what is overridden, by its number.
fn encode_family(out: &mut Vec<u8>, version: Version, number: Option<u16>) -> Result<(), AllocError>
    ensures { OnOk result (out.new.items ≡ out.old.items ++ family_bytes version number) }
{
    match version {
        Version::One => Ok(()),
        Version::Two => {
            encode_u16(out, number.unwrap_or(0xffff))?;
            encode_u16(out, 0)
        }
    }
}

fn encode_class(out: &mut Vec<u8>, version: Version, class: &ClassDecl) -> Result<(), AllocError>
    requires { length class.now.fields ≤ 8 }
    ensures { OnOk result (out.new.items ≡ out.old.items ++ class_bytes version class.now) }
{
    let count = class.fields.len();
    let (provider, number) = provider_and_number(class.kind);
    let front = [
        kind_byte(class.kind),
        class.words,
        count as u8,
        provider,
        number,
        0,
    ];
    out.extend_from_slice(&front)?;
    encode_u16(out, session_number(class.kind))?;
    encode_things(out, class.fields.as_slice())?;
    encode_unused_u16s(out, 8 - count)?;
    encode_u32(out, class.budget)?;
    encode_family(out, version, class.parent.map(|parent| parent.number()))
}

fn encode_arguments(out: &mut Vec<u8>, arguments: &[Argument]) -> Result<(), AllocError>
    ensures { OnOk result (out.new.items ≡ out.old.items ++ flat_map (λ a. next_u16 (argument_number a)) arguments.now) }
{
    for argument in arguments {
        encode_u16(out, argument_number(*argument))?;
    }
    Ok(())
}

fn encode_instruction(out: &mut Vec<u8>, instr: Instr) -> Result<(), AllocError>
    ensures { OnOk result (out.new.items ≡ out.old.items ++ instruction_bytes instr) }
{
    let row = instr.mnemonic().row();
    let Operands { a, b, c, d } = instr.operands();
    let front = [row.opcode(), small_byte(a), small_byte(b), small_byte(c)];
    out.extend_from_slice(&front)?;
    encode_u32(out, large_number(d))
}

fn encode_code(out: &mut Vec<u8>, code: &[Instr]) -> Result<(), AllocError>
    ensures { OnOk result (out.new.items ≡ out.old.items ++ flat_map instruction_bytes code.now) }
{
    for instr in code {
        encode_instruction(out, *instr)?;
    }
    Ok(())
}

fn encode_method(out: &mut Vec<u8>, version: Version, method: &Method) -> Result<(), AllocError>
    requires arguments { length method.now.arguments ≤ 6 }
    requires code { length method.now.code ≤ 1024 }
    ensures { OnOk result (out.new.items ≡ out.old.items ++ method_bytes version method.now) }
{
    let count = method.arguments.len();
    encode_u16(out, class_number(method.class))?;
    let front = [
        method.role.number(),
        method.flags.bits(),
        method.before.bits(),
        method.after.bits(),
        count as u8,
        gives_byte(method.gives),
    ];
    out.extend_from_slice(&front)?;
    encode_arguments(out, method.arguments.as_slice())?;
    encode_unused_u16s(out, 6 - count)?;
    encode_u16(out, result_number(method.gives))?;
    encode_u16(out, method.code.len() as u16)?;
    encode_family(out, version, method.over.map(|over| over.number()))?;
    encode_code(out, method.code.as_slice())
}

fn encode_classes(
    out: &mut Vec<u8>,
    version: Version,
    classes: &[ClassDecl],
) -> Result<(), AllocError>
    requires { All (λ c. length c.fields ≤ 8) classes.now }
    ensures { OnOk result (out.new.items ≡ out.old.items ++ flat_map (class_bytes version) classes.now) }
{
    for class in classes {
        encode_class(out, version, class)?;
    }
    Ok(())
}

fn encode_methods(out: &mut Vec<u8>, version: Version, methods: &[Method]) -> Result<(), AllocError>
    requires arguments { All (λ m. length m.arguments ≤ 6) methods.now }
    requires code { All (λ m. length m.code ≤ 1024) methods.now }
    ensures { OnOk result (out.new.items ≡ out.old.items ++ flat_map (method_bytes version) methods.now) }
{
    for method in methods {
        encode_method(out, version, method)?;
    }
    Ok(())
}

/// The one spelling of an image.
pub fn encode(alloc: Global, image: &Image) -> Result<Vec<u8>, AllocError>
    ensures { IfOk result (λ v. v.items ≡ serialize image.now) }
{
    let classes = image.classes().as_slice();
    let methods = image.methods().as_slice();
    let version = image.header().version;
    let mut out = Vec::with_capacity(alloc, serialized_len(version, classes.len(), methods))?;
    encode_counts(
        &mut out,
        version,
        classes.len() as u16,
        methods.len() as u16,
    )?;
    encode_limits(&mut out, image.header())?;
    encode_classes(&mut out, version, classes)?;
    encode_methods(&mut out, version, methods)?;
    Ok(out)
}
