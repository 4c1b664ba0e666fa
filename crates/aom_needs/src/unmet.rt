//! The first need that is not met.
ghost use Rattle.std.specs.Prelude.{◌≡◌, not};
ghost use Rattle.aom_image.specs.Views.{has};
ghost use Rattle.aom_needs.specs.Wanted.{cancelling, first_at, is_met, is_told};
ghost use Rattle.aom_roles.specs.States.{active};
ghost use Rattle.aom_roles.specs.Tests.{only_if};
ghost use Rattle.aom_typing_rules.specs.Calls.{is_destructor};

use crate::Wanted;
use crate::classes::{is_class, own_kind};
use crate::methods::{
    after_of, are_within, awaits, is_argument, is_destructor, may_begin, stands_here,
};
use crate::owners::{held, is_object_last, is_operation_last, is_own_for, may_be, owns_object};
use aom_abstract_state::{Reason, only_if};
use aom_image::States;
use aom_rule_context::RuleContext;
use bitflags::Flags;

/// A reason for which a sentence is told.
pub(crate) fn is_told(why: Reason) -> bool
    ensures { result ≡ is_told why }
{
    matches!(
        why,
        Reason::RegisterKind | Reason::StillActive | Reason::EntryState
    )
}

/// Being cancelled.
pub(crate) fn cancelling() -> States
    ensures { result.0 ≡ cancelling }
{
    States::OPEN.union(States::DONE)
}

pub(crate) fn is_met(site: &RuleContext<'_>, wanted: Wanted) -> bool
    ensures { result ≡ is_met site.now.image site.now.method site.now.shape wanted }
{
    let linked = site.linked;
    let shape = site.shape;
    match wanted {
        Wanted::Word(r) => shape.register(r).is_word(),
        Wanted::Unowning(r) => shape.register(r).is_unowning(),
        Wanted::ObjectOrNull(r) => shape.register(r).is_object_or_null(),
        Wanted::Deletable(r) => shape.register(r).may_be_destroyed(),
        Wanted::Pushable(r) => owns_object(shape.register(r)),
        Wanted::Owner(operand, thing) => is_own_for(linked, thing, held(site, operand)),
        Wanted::OwnerOrNull(r, thing) => may_be(linked, thing, shape.register(r)),
        Wanted::ObjectWord(w) => site.needs_word_of_object(w).0,
        Wanted::Field(f) => site.declared(f).is_some(),
        Wanted::MethodOfObjects(_) => false,
        Wanted::OwnObject(callee) => stands_here(linked, site.method, callee),
        Wanted::NoArgument(r, first, callee) => !is_argument(linked, callee, first, r),
        Wanted::Arguments(callee, first) => are_within(linked, callee, first),
        Wanted::ResultRegister(callee, c) => awaits(linked, callee, shape.register(c)),
        Wanted::NoResult(a) => a.number() == 0,
        Wanted::LastObject => is_object_last(shape),
        Wanted::LastOperation => is_operation_last(shape),
        Wanted::Service => site.needs_service().0,
        Wanted::Message => shape.message_state().is_here(),
        Wanted::OfClass(need) => is_class(need, own_kind(site)),
        Wanted::Begin(callee, target) => may_begin(linked, callee, target, shape.states()),
        Wanted::End => after_of(linked, site.method).contains(shape.states()),
        Wanted::Cancelling => cancelling().contains(shape.states()),
        Wanted::Inactive => is_inactive(site),
    }
}

/// No request is active where a destructor ends.
fn is_inactive(site: &RuleContext<'_>) -> bool
    ensures { result ≡ only_if (is_destructor site.now.image site.now.method) (not (has site.now.shape.states active)) }
{
    let active = site.shape.states().contains(States::ACTIVE);
    only_if(is_destructor(site.linked, site.method), !active)
}

/// The first that is not met.
pub(crate) fn first_unmet(site: &RuleContext<'_>, wants: &[Wanted]) -> Option<Wanted>
    ensures { result ≡ first_at site.now wants.now }
{
    for wanted in wants {
        if !is_met(site, *wanted) {
            return Some(*wanted);
        }
    }
    None
}
