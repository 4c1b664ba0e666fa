//! The kind of a method's class.
ghost use Rattle.std.specs.Prelude.{◌≡◌, Some};
ghost use Rattle.aom_needs.specs.Wanted.{is_class};
ghost use Rattle.aom_roles.specs.Classes.{kind_at};
ghost use Rattle.aom_roles.specs.Kinds.{is_active_kind, is_issuing_kind, is_listed_kind, is_native_kind, is_token_kind};
ghost use Rattle.aom_typing_rules.specs.Requests.{own_kind};

use crate::ClassNeed;
use crate::methods::class_of;
use aom_image::{ClassKind, ClassNumber, Provider};
use aom_linker::Linked;
use aom_rule_context::RuleContext;

#[tactic(auto, unfolding(aom_roles::specs::Classes::kind_in, aom_image::specs::Views::class_at))]
fn kind_at(linked: &Linked, class: ClassNumber) -> Option<ClassKind>
    ensures { result ≡ kind_at linked.now class }
{
    let classes = linked.image().classes();
    match classes.as_slice().get(class.number() as usize) {
        Some(declared) => Some(declared.kind),
        None => None,
    }
}

/// The kind of the class whose objects the method works on.
#[tactic(auto, unfolding(aom_roles::specs::Shapes::kind_of))]
pub(crate) fn own_kind(site: &RuleContext<'_>) -> Option<ClassKind>
    ensures { result ≡ own_kind site.now.image site.now.method }
{
    match class_of(site.linked, site.method) {
        Some(class) => kind_at(site.linked, class),
        None => None,
    }
}

fn is_active(kind: ClassKind) -> bool
    ensures { result ≡ is_active_kind (Some kind) }
{
    matches!(kind, ClassKind::Active { .. })
}

fn is_listed(kind: ClassKind) -> bool
    ensures { result ≡ is_listed_kind (Some kind) }
{
    matches!(kind, ClassKind::Active { .. } | ClassKind::Server { .. })
}

fn is_native(kind: ClassKind) -> bool
    ensures { result ≡ is_native_kind (Some kind) }
{
    match kind {
        ClassKind::Active { provider } => matches!(provider, Provider::Native(_)),
        _ => false,
    }
}

fn is_token(kind: ClassKind) -> bool
    ensures { result ≡ is_token_kind (Some kind) }
{
    match kind {
        ClassKind::Active { provider } => matches!(provider, Provider::Token),
        _ => false,
    }
}

fn is_issuing(kind: ClassKind) -> bool
    ensures { result ≡ is_issuing_kind (Some kind) }
{
    match kind {
        ClassKind::Active { provider } => !matches!(provider, Provider::Token),
        _ => false,
    }
}

fn is_kind(need: ClassNeed, kind: ClassKind) -> bool
    ensures { result ≡ is_class need (Some kind) }
{
    match need {
        ClassNeed::Active => is_active(kind),
        ClassNeed::Issuing => is_issuing(kind),
        ClassNeed::Listed => is_listed(kind),
        ClassNeed::Native => is_native(kind),
        ClassNeed::Token => is_token(kind),
    }
}

/// A class of that kind has the instruction in its methods.
pub(crate) fn is_class(need: ClassNeed, kind: Option<ClassKind>) -> bool
    ensures { result ≡ is_class need kind }
{
    match kind {
        Some(kind) => is_kind(need, kind),
        None => false,
    }
}
