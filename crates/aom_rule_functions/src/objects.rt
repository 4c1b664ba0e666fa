//! The rules of instructions on objects.
ghost use Rattle.std.specs.Prelude.{◌≡◌};
ghost use Rattle.aom_image.specs.declared.method.Thing.TheVariants.{Object};
ghost use Rattle.aom_typing_rules.specs.Finding.{Finds};
ghost use Rattle.aom_typing_rules.specs.Objects.{flow_jump_empty, flow_jump_null, new_age, rule_delete, rule_jump_empty, rule_jump_null, rule_move, rule_new, rule_put, rule_take};
ghost use Rattle.aom_typing_rules.specs.Ways.{Branches_on_empty, Branches_on_null, Filled, Goes_on, Holding, Moved, Taken};
ghost use Rattle.aom_abstract_state.specs.Changes.{ways_from};
ghost use Rattle.aom_abstract_state.specs.Kinds.{register, field};
ghost use Rattle.aom_abstract_state.specs.declared.kind.Kind.TheVariants.{Maybe, Null};

use crate::rules::Ruling;
use aom_abstract_state::{FieldState, Flow, InitState, Kind, Reason, judge};
use aom_image::{ClassNumber, FieldIndex, InstrPlace, Register, Role, Thing};
use aom_rule_context::RuleContext;

pub(crate) fn rule_move(site: &RuleContext<'_>, a: Register, b: Register) -> Ruling
    ensures { Finds site.now (rule_move site.now.image site.now.method site.now.place site.now.shape a b) (Goes_on (Moved a b)) result }
{
    let needs = [site.needs_object_or_null(b), site.needs_unowning(a)];
    let next = site
        .shape
        .with_register(b, Kind::Null)
        .with_register(a, site.shape.register(b));
    judge(&needs, site.next(&next))
}

/// A flow that cannot be is left out.
fn flow_jump_null(site: &RuleContext<'_>, a: Register, to: InstrPlace) -> Flow
    ensures { ways_from site.now.shape.entries result ≡ flow_jump_null site.now.image site.now.method site.now.place site.now.shape (register site.now.shape a) a to }
{
    match site.shape.register(a) {
        Kind::Null => Flow::to(to.number() as usize, site.shape),
        Kind::Own(_, _) => site.next(site.shape),
        Kind::Maybe(thing, age) => {
            let own = site.shape.with_register(a, Kind::Own(thing, age));
            let null = site.shape.with_register(a, Kind::Null);
            site.fork(&own, to, &null)
        }
        Kind::Unset | Kind::Word => Flow::none(),
    }
}

pub(crate) fn rule_jump_null(site: &RuleContext<'_>, a: Register, to: InstrPlace) -> Ruling
    ensures { Finds site.now (rule_jump_null site.now.image site.now.method site.now.place site.now.shape a) (Branches_on_null a to) result }
{
    judge(&[site.needs_object_or_null(a)], flow_jump_null(site, a, to))
}

/// A flow that cannot be is left out.
fn flow_jump_empty(site: &RuleContext<'_>, f: FieldIndex, to: InstrPlace) -> Flow
    ensures { ways_from site.now.shape.entries result ≡ flow_jump_empty site.now.image site.now.method site.now.place site.now.shape (field site.now.shape f) f to }
{
    match site.shape.field(f) {
        FieldState::Empty => Flow::to(to.number() as usize, site.shape),
        FieldState::Full => site.next(site.shape),
        FieldState::Perhaps => {
            let full = site.shape.with_field(f, FieldState::Full);
            let empty = site.shape.with_field(f, FieldState::Empty);
            site.fork(&full, to, &empty)
        }
    }
}

pub(crate) fn rule_jump_empty(site: &RuleContext<'_>, f: FieldIndex, to: InstrPlace) -> Ruling
    ensures { Finds site.now (rule_jump_empty site.now.image site.now.method site.now.place site.now.shape f) (Branches_on_empty f to) result }
{
    judge(&[site.needs_field(f)], flow_jump_empty(site, f, to))
}

pub(crate) fn rule_take(site: &RuleContext<'_>, a: Register, f: FieldIndex) -> Ruling
    ensures { Finds site.now (rule_take site.now.image site.now.method site.now.place site.now.shape a f) (Goes_on (Taken a f)) result }
{
    let needs = [site.needs_unowning(a), site.needs_field(f)];
    let taken = site.shape.field(f).kind(site.declared(f));
    let next = site
        .shape
        .with_field(f, FieldState::Empty)
        .with_register(a, taken);
    judge(&needs, site.next(&next))
}

pub(crate) fn rule_put(site: &RuleContext<'_>, f: FieldIndex, b: Register) -> Ruling
    ensures { Finds site.now (rule_put site.now.image site.now.method site.now.place site.now.shape f b) (Goes_on (Filled f b)) result }
{
    let needs = [
        site.needs_declared(f, b),
        site.needs_ready(b),
        (site.shape.field(f).is_empty(), Reason::FieldNotNull),
    ];
    let next = site
        .shape
        .with_register(b, Kind::Null)
        .with_field(f, site.shape.register(b).field_state());
    judge(&needs, site.next(&next))
}

/// The age of a new object.
pub(crate) fn new_age(site: &RuleContext<'_>, class: ClassNumber) -> InitState
    ensures { result ≡ new_age site.now.image class }
{
    if site.linked.role(class, Role::Construct).is_some() {
        InitState::Fresh
    } else {
        InitState::Ready
    }
}

pub(crate) fn rule_new(site: &RuleContext<'_>, a: Register, class: ClassNumber) -> Ruling
    ensures { Finds site.now (rule_new site.now.image site.now.method site.now.place site.now.shape a) (Goes_on (Holding a (Maybe (Object class) (new_age site.now.image class)))) result }
{
    let needs = [site.needs_unowning(a), site.needs_nonquiet()];
    let made = Kind::Maybe(Thing::Object(class), new_age(site, class));
    judge(&needs, site.next(&site.shape.with_register(a, made)))
}

pub(crate) fn rule_delete(site: &RuleContext<'_>, a: Register) -> Ruling
    ensures { Finds site.now (rule_delete site.now.image site.now.method site.now.place site.now.shape a) (Goes_on (Holding a Null)) result }
{
    let needs = [(
        site.shape.register(a).may_be_destroyed(),
        Reason::RegisterKind,
    )];
    judge(&needs, site.next(&site.shape.with_register(a, Kind::Null)))
}
