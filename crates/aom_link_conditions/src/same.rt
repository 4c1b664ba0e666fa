//! Whether two parts of classes and methods are one.
ghost use Rattle.std.specs.Prelude.{◌≡◌, ◌↔◌, IsTrue};

use aom_image::{Argument, ClassKind, ClassNumber, Gives, NativeNumber, Provider, Thing};

fn is_native(native: NativeNumber, provider: Provider) -> bool
    ensures { IsTrue result ↔ (Provider.Native native ≡ provider) }
{
    match provider {
        Provider::Native(it) => native.number() == it.number(),
        _ => false,
    }
}

fn same_provider(one: Provider, other: Provider) -> bool
    ensures { IsTrue result ↔ (one ≡ other) }
{
    match one {
        Provider::Own => matches!(other, Provider::Own),
        Provider::Timer => matches!(other, Provider::Timer),
        Provider::Native(native) => is_native(native, other),
        Provider::Token => matches!(other, Provider::Token),
    }
}

fn is_active(provider: Provider, kind: ClassKind) -> bool
    ensures { IsTrue result ↔ (ClassKind.Active provider ≡ kind) }
{
    match kind {
        ClassKind::Active { provider: it } => same_provider(provider, it),
        _ => false,
    }
}

fn is_server(sessions: u8, session: ClassNumber, kind: ClassKind) -> bool
    ensures { IsTrue result ↔ (ClassKind.Server sessions session ≡ kind) }
{
    match kind {
        ClassKind::Server {
            sessions: most,
            session: class,
        } => sessions == most && session.number() == class.number(),
        _ => false,
    }
}

pub fn same_kind(one: ClassKind, other: ClassKind) -> bool
    ensures { IsTrue result ↔ (one ≡ other) }
{
    match one {
        ClassKind::Plain => matches!(other, ClassKind::Plain),
        ClassKind::Session => matches!(other, ClassKind::Session),
        ClassKind::Active { provider } => is_active(provider, other),
        ClassKind::Server { sessions, session } => is_server(sessions, session, other),
    }
}

fn is_object(class: ClassNumber, thing: Thing) -> bool
    ensures { IsTrue result ↔ (Thing.Object class ≡ thing) }
{
    match thing {
        Thing::Object(it) => class.number() == it.number(),
        Thing::Message => false,
    }
}

pub fn same_thing(one: Thing, other: Thing) -> bool
    ensures { IsTrue result ↔ (one ≡ other) }
{
    match one {
        Thing::Object(class) => is_object(class, other),
        Thing::Message => matches!(other, Thing::Message),
    }
}

fn is_argument(thing: Thing, argument: Argument) -> bool
    ensures { IsTrue result ↔ (Argument.Own thing ≡ argument) }
{
    match argument {
        Argument::Own(it) => same_thing(thing, it),
        Argument::Word => false,
    }
}

pub fn same_argument(one: Argument, other: Argument) -> bool
    ensures { IsTrue result ↔ (one ≡ other) }
{
    match one {
        Argument::Word => matches!(other, Argument::Word),
        Argument::Own(thing) => is_argument(thing, other),
    }
}

fn gives_own(thing: Thing, gives: Gives) -> bool
    ensures { IsTrue result ↔ (Gives.Own thing ≡ gives) }
{
    match gives {
        Gives::Own(it) => same_thing(thing, it),
        _ => false,
    }
}

fn gives_maybe(thing: Thing, gives: Gives) -> bool
    ensures { IsTrue result ↔ (Gives.Maybe thing ≡ gives) }
{
    match gives {
        Gives::Maybe(it) => same_thing(thing, it),
        _ => false,
    }
}

fn gives_left(class: ClassNumber, gives: Gives) -> bool
    ensures { IsTrue result ↔ (Gives.Left class ≡ gives) }
{
    match gives {
        Gives::Left(it) => class.number() == it.number(),
        _ => false,
    }
}

pub fn same_gives(one: Gives, other: Gives) -> bool
    ensures { IsTrue result ↔ (one ≡ other) }
{
    match one {
        Gives::Nothing => matches!(other, Gives::Nothing),
        Gives::Word => matches!(other, Gives::Word),
        Gives::Own(thing) => gives_own(thing, other),
        Gives::Maybe(thing) => gives_maybe(thing, other),
        Gives::Left(class) => gives_left(class, other),
    }
}
