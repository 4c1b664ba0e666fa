//! The rules of instructions on the native that serves the method's own object.
ghost use Rattle.std.specs.Prelude.{◌≡◌, Some};
ghost use Rattle.aom_roles.specs.Kinds.{is_native_kind};
ghost use Rattle.aom_roles.specs.Classes.{kind_at};
ghost use Rattle.aom_roles.specs.Shapes.{kind_of};
ghost use Rattle.aom_typing_rules.specs.Finding.{Finds};
ghost use Rattle.aom_typing_rules.specs.Natives.{rule_ask, rule_close, rule_connect};
ghost use Rattle.aom_typing_rules.specs.Requests.{own_kind};
ghost use Rattle.aom_typing_rules.specs.Ways.{As_before, Goes_on, Holding};
ghost use Rattle.aom_abstract_state.specs.declared.kind.Kind.TheVariants.{Word};
ghost use Rattle.aom_abstract_state.specs.declared.why.Reason.TheVariants.{RegisterKind};

use crate::requests::{needs_states, server_states};
use crate::rules::Ruling;
use crate::words::with_word;
use aom_abstract_state::{Flow, Reason, judge};
use aom_image::{ClassKind, ClassNumber, Provider, Register};
use aom_linker::Linked;
use aom_rule_context::RuleContext;

fn is_native_kind(kind: ClassKind) -> bool
    ensures { result ≡ is_native_kind (Some kind) }
{
    match kind {
        ClassKind::Active { provider } => matches!(provider, Provider::Native(_)),
        _ => false,
    }
}

/// A native serves the objects of the class.
fn is_native(linked: &Linked, class: ClassNumber) -> bool
    ensures { result ≡ is_native_kind (kind_at linked.now class) }
{
    let classes = linked.image().classes();
    match classes.as_slice().get(class.number() as usize) {
        None => false,
        Some(declared) => is_native_kind(declared.kind),
    }
}

/// A native serves what a method of that class works on.
#[tactic(auto, unfolding(aom_roles::specs::Shapes::kind_of))]
fn is_native_of(linked: &Linked, class: Option<ClassNumber>) -> bool
    ensures { result ≡ is_native_kind (kind_of linked.now class) }
{
    match class {
        None => false,
        Some(class) => is_native(linked, class),
    }
}

/// The method works on an object that a native serves.
#[tactic(auto, using(aom_abstract_state::proofs::AbstractStateLemmas::class_there))]
fn needs_native_kind(site: &RuleContext<'_>) -> (bool, Reason)
    ensures { result ≡ (is_native_kind (own_kind site.now.image site.now.method), RegisterKind) }
{
    let class = site.linked.method(site.method).class;
    (is_native_of(site.linked, class), Reason::RegisterKind)
}

pub(crate) fn rule_connect(site: &RuleContext<'_>, a: Register) -> Ruling
    ensures { Finds site.now (rule_connect site.now.image site.now.method site.now.shape a) (Goes_on (Holding a Word)) result }
{
    let needs = [site.needs_unowning(a), needs_native_kind(site)];
    judge(&needs, with_word(site, a))
}

pub(crate) fn rule_ask(site: &RuleContext<'_>, a: Register, b: Register, c: Register) -> Ruling
    ensures { Finds site.now (rule_ask site.now.image site.now.method site.now.shape a b c) (Goes_on (Holding a Word)) result }
{
    let needs = [
        site.needs_word(b),
        site.needs_word(c),
        site.needs_unowning(a),
        needs_native_kind(site),
    ];
    judge(&needs, with_word(site, a))
}

pub(crate) fn rule_close(site: &RuleContext<'_>) -> Ruling
    ensures { Finds site.now (rule_close site.now.image site.now.method site.now.shape) (Goes_on As_before) result }
{
    let needs = [
        needs_native_kind(site),
        needs_states(site, server_states(), Reason::NotIdle),
    ];
    judge(&needs, site.next(site.shape))
}
