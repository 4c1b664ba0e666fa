//! What may stand for a declared thing.
ghost use Rattle.std.specs.Prelude.{◌≡◌};
ghost use Rattle.aom_abstract_state.specs.Kinds.{entry_kind, is_own_for, may_be};
ghost use Rattle.aom_abstract_state.specs.declared.kind.CleanupEntry.TheVariants.{Operation};
ghost use Rattle.aom_needs.specs.Sentences.{may_be_object, may_stand};
ghost use Rattle.aom_needs.specs.Wanted.{held};
ghost use Rattle.aom_roles.specs.Tables.{at};
ghost use Rattle.aom_roles.specs.Things.{is_subtype};
ghost use Rattle.aom_typing_rules.specs.Cleanup.{owns_object, top_matches_object, top_matches_operation};

use crate::Operand;
use aom_abstract_state::{AbstractState, Kind, is_object};
use aom_image::{EntryDepth, Thing};
use aom_linker::Linked;
use aom_roles::descends;
use aom_rule_context::RuleContext;

fn is_subtype(linked: &Linked, one: Thing, other: Thing) -> bool
    ensures { result ≡ is_subtype linked.now one other }
{
    match one {
        Thing::Object(class) => match other {
            Thing::Object(ancestor) => descends(linked.image(), class, ancestor),
            Thing::Message => false,
        },
        Thing::Message => match other {
            Thing::Object(_) => false,
            Thing::Message => true,
        },
    }
}

/// It owns what may stand for that thing.
pub(crate) fn is_own_for(linked: &Linked, thing: Thing, kind: Kind) -> bool
    ensures { result ≡ is_own_for linked.now thing kind }
{
    match kind {
        Kind::Unset | Kind::Word | Kind::Null | Kind::Maybe(_, _) => false,
        Kind::Own(own, _) => is_subtype(linked, own, thing),
    }
}

/// It is what may stand for that thing, or null.
pub(crate) fn may_be(linked: &Linked, thing: Thing, kind: Kind) -> bool
    ensures { result ≡ may_be linked.now thing kind }
{
    match kind {
        Kind::Unset | Kind::Word => false,
        Kind::Null => true,
        Kind::Own(own, _) | Kind::Maybe(own, _) => is_subtype(linked, own, thing),
    }
}

/// What is perhaps there may stand for that thing.
pub(crate) fn may_stand(linked: &Linked, thing: Thing, kind: Kind) -> bool
    ensures { result ≡ may_stand linked.now thing kind }
{
    match kind {
        Kind::Unset | Kind::Word | Kind::Null | Kind::Own(_, _) => false,
        Kind::Maybe(own, _) => is_subtype(linked, own, thing),
    }
}

/// What is perhaps there is an object.
pub(crate) fn may_be_object(kind: Kind) -> bool
    ensures { result ≡ may_be_object kind }
{
    match kind {
        Kind::Unset | Kind::Word | Kind::Null | Kind::Own(_, _) => false,
        Kind::Maybe(thing, _) => is_object(thing),
    }
}

/// It owns an object, which is no message.
pub(crate) fn owns_object(kind: Kind) -> bool
    ensures { result ≡ owns_object kind }
{
    match kind {
        Kind::Own(thing, _) => is_object(thing),
        Kind::Unset | Kind::Word | Kind::Null | Kind::Maybe(_, _) => false,
    }
}

/// The last cleanup entry is that of an object.
pub(crate) fn is_object_last(shape: &AbstractState<'_>) -> bool
    ensures { result ≡ top_matches_object shape.now.entries }
{
    match shape.entry(0) {
        None => false,
        Some(last) => last.is_object(),
    }
}

/// The last cleanup entry is that of an operation.
pub(crate) fn is_operation_last(shape: &AbstractState<'_>) -> bool
    ensures { result ≡ top_matches_operation shape.now.entries }
{
    match shape.entry(0) {
        None => false,
        Some(last) => !last.is_object(),
    }
}

fn entry_kind(shape: &AbstractState<'_>, number: EntryDepth) -> Kind
    ensures { result ≡ entry_kind (at Operation shape.now.entries number) }
{
    match shape.entry(number.number() as usize) {
        None => Kind::Null,
        Some(entry) => entry.kind(),
    }
}

/// What an operand holds.
pub(crate) fn held(site: &RuleContext<'_>, operand: Operand) -> Kind
    ensures { result ≡ held site.now.image site.now.method site.now.shape operand }
{
    match operand {
        Operand::Register(register) => site.shape.register(register),
        Operand::Field(field) => site.shape.field(field).kind(site.declared(field)),
        Operand::Entry(number) => entry_kind(site.shape, number),
    }
}
