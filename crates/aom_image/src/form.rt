//! Whether parts make a well-formed image.
ghost use Rattle.std.specs.Prelude.{◌≡◌, ◌<◌, ◌≤◌, ◌↔◌, IsTrue, IfSome, All, length, count_by, ◌+◌, ◌*◌, ◌^◌, sum_by, codes};
ghost use Rattle.aom_image.specs.WellFormed.{ThingFits, ProviderFits, KindFits, ClassFits, ClassesFit, MethodsFit, ArgumentFits, GivesFits, MethodFits, HeaderFits, ParentFits, OverFits, FamiliesFit, WellFormed, is_server, serialized_size};
ghost use Rattle.aom_instructions.specs.Fits.{InstrFits};

use crate::{
    Argument, ClassDecl, ClassKind, ClassNumber, Gives, Header, Instr, Method, MethodNumber,
    Provider, Thing, Version,
};
use aom_instructions::{Limits, fits};

fn class_fits(class: ClassNumber, classes: usize) -> bool
    ensures { IsTrue result ↔ (class < classes) }
{
    (class.number() as usize) < classes
}

fn thing_fits(thing: Thing, classes: usize) -> bool
    ensures { IsTrue result ↔ ThingFits classes thing }
{
    match thing {
        Thing::Object(class) => class_fits(class, classes),
        Thing::Message => true,
    }
}

fn argument_fits(argument: Argument, classes: usize) -> bool
    ensures { IsTrue result ↔ ArgumentFits classes argument }
{
    match argument {
        Argument::Word => true,
        Argument::Own(thing) => thing_fits(thing, classes),
    }
}

fn arguments_fit(arguments: &[Argument], classes: usize) -> bool
    ensures { IsTrue result ↔ All (ArgumentFits classes) arguments.now }
{
    arguments
        .iter()
        .all(|argument| argument_fits(*argument, classes))
}

fn gives_fits(gives: Gives, classes: usize) -> bool
    ensures { IsTrue result ↔ GivesFits classes gives }
{
    match gives {
        Gives::Nothing | Gives::Word => true,
        Gives::Own(thing) | Gives::Maybe(thing) => thing_fits(thing, classes),
        Gives::Left(class) => class_fits(class, classes),
    }
}

fn provider_fits(provider: Provider, version: Version, natives: u8) -> bool
    ensures { IsTrue result ↔ ProviderFits version natives provider }
{
    match provider {
        Provider::Own | Provider::Timer => true,
        Provider::Native(native) => native.number() < natives,
        Provider::Token => version.includes(Version::Two),
    }
}

fn kind_fits(kind: ClassKind, version: Version, classes: usize, natives: u8) -> bool
    ensures { IsTrue result ↔ KindFits version classes natives kind }
{
    match kind {
        ClassKind::Plain | ClassKind::Session => true,
        ClassKind::Active { provider } => provider_fits(provider, version, natives),
        ClassKind::Server { sessions, session } => {
            1 <= sessions && sessions <= 64 && class_fits(session, classes)
        }
    }
}

fn fields_fit(fields: &[Thing], classes: usize) -> bool
    ensures { IsTrue result ↔ All (ThingFits classes) fields.now }
{
    fields.iter().all(|field| thing_fits(*field, classes))
}

fn class_ok(class: &ClassDecl, version: Version, classes: usize, natives: u8) -> bool
    ensures { IsTrue result ↔ ClassFits version classes natives class.now }
{
    let fields = class.fields.as_slice();
    kind_fits(class.kind, version, classes, natives)
        && class.words <= 8
        && fields.len() <= 8
        && fields_fit(fields, classes)
        && class.kind.may_declare(class.budget)
}

fn parent_fits(
    parent: Option<ClassNumber>,
    version: Version,
    kind: ClassKind,
    classes: usize,
) -> bool
    ensures { IsTrue result ↔ ParentFits version classes kind parent }
{
    match parent {
        None => true,
        Some(class) => version.has_families() && kind.may_descend() && class_fits(class, classes),
    }
}

fn over_fits(over: Option<MethodNumber>, version: Version, methods: usize) -> bool
    ensures { IsTrue result ↔ OverFits version methods over }
{
    match over {
        None => true,
        Some(method) => version.has_families() && (method.number() as usize) < methods,
    }
}

fn code_fits(code: &[Instr], limits: Limits) -> bool
    ensures { IsTrue result ↔ All (InstrFits limits) code.now }
{
    code.iter().all(|instr| fits(instr, limits))
}

fn method_ok(method: &Method, version: Version, classes: usize, methods: usize) -> bool
    ensures { IsTrue result ↔ MethodFits version classes methods method.now }
{
    let limits = Limits {
        version,
        classes,
        methods,
        places: method.code.len(),
    };
    let class_is_there = match method.class {
        Some(class) => class_fits(class, classes),
        None => true,
    };
    class_is_there
        && method.flags.is_known()
        && method.before.is_known()
        && method.after.is_known()
        && method.arguments.len() <= 6
        && arguments_fit(method.arguments.as_slice(), classes)
        && gives_fits(method.gives, classes)
        && 1 <= limits.places
        && limits.places <= 1024
        && code_fits(method.code.as_slice(), limits)
}

fn header_ok(header: &Header, classes: usize) -> bool
    ensures { IsTrue result ↔ HeaderFits classes header.now }
{
    let _budget = header.budget;
    let root_is_there = match header.root {
        Some(class) => class_fits(class, classes),
        None => true,
    };
    header.cells <= 4096 && header.messages <= 1024 && header.natives <= 16 && root_is_there
}

/// How many bytes spell so many classes and these methods.
pub fn serialized_len(version: Version, classes: usize, methods: &[Method]) -> usize
    requires few { classes ≤ 256 }
    requires fits { All (λ m. length m.code ≤ 1024) methods.now }
    requires some { length methods.now ≤ 1024 }
    ensures { result ≡ serialized_size version classes methods.now }
{
    let more = version.family_bytes();
    let mut len = 24 + (28 + more) * classes;
    for method in methods {
        len += 24 + more + 8 * method.code.len();
    }
    len
}

fn each_class_ok(classes: &[ClassDecl], version: Version, count: usize, natives: u8) -> bool
    ensures { IsTrue result ↔ All (ClassFits version count natives) classes.now }
{
    classes
        .iter()
        .all(|class| class_ok(class, version, count, natives))
}

/// How many of the classes are of servers.
fn servers_in(classes: &[ClassDecl]) -> usize
    ensures { result ≡ count_by is_server classes.now }
{
    let mut count = 0;
    for class in classes {
        if class.is_server() {
            count += 1;
        }
    }
    count
}

fn classes_ok(classes: &[ClassDecl], version: Version, natives: u8) -> bool
    ensures { IsTrue result ↔ ClassesFit version natives classes.now }
{
    classes.len() <= 256
        && each_class_ok(classes, version, classes.len(), natives)
        && servers_in(classes) <= 8
}

fn each_method_ok(methods: &[Method], version: Version, classes: usize, count: usize) -> bool
    ensures { IsTrue result ↔ All (MethodFits version classes count) methods.now }
{
    methods
        .iter()
        .all(|method| method_ok(method, version, classes, count))
}

fn methods_ok(methods: &[Method], version: Version, classes: usize) -> bool
    ensures { IsTrue result ↔ MethodsFit version classes methods.now }
{
    1 <= methods.len()
        && methods.len() <= 1024
        && each_method_ok(methods, version, classes, methods.len())
}

fn parents_fit(classes: &[ClassDecl], version: Version, count: usize) -> bool
    ensures { IsTrue result ↔ All (λ c. ParentFits version count c.kind c.parent) classes.now }
{
    classes.iter().all(|class| parent_fits(class.parent, version, class.kind, count))
}

fn overridden_methods_fit(methods: &[Method], version: Version, count: usize) -> bool
    ensures { IsTrue result ↔ All (λ m. OverFits version count m.over) methods.now }
{
    methods
        .iter()
        .all(|method| over_fits(method.over, version, count))
}

fn families_ok(version: Version, classes: &[ClassDecl], methods: &[Method]) -> bool
    ensures { IsTrue result ↔ FamiliesFit version classes.now methods.now }
{
    parents_fit(classes, version, classes.len())
        && overridden_methods_fit(methods, version, methods.len())
}

/// Whether these are the parts of a well-formed image.
pub fn form_ok(header: &Header, classes: &[ClassDecl], methods: &[Method]) -> bool
    ensures { IsTrue result ↔ WellFormed (record { header = header.now; classes = classes.now; methods = methods.now }) }
{
    let version = header.version;
    if !header_ok(header, classes.len())
        || !classes_ok(classes, version, header.natives)
        || !methods_ok(methods, version, classes.len())
        || !families_ok(version, classes, methods)
    {
        return false;
    }
    serialized_len(version, classes.len(), methods) <= 1 << 20
}
