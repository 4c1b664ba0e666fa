//! The rules of the cleanup stack, and of leaves.
ghost use Rattle.std.specs.Prelude.{◌≡◌, ◌∷◌};
ghost use Rattle.aom_image.specs.declared.method.Thing.TheVariants.{Object};
ghost use Rattle.aom_typing_rules.specs.Cleanup.{owns_object, thing_entry, entry_of, top_matches_object, top_matches_operation, top_kind, rule_leave, rule_new_or_leave, rule_pop, rule_pop_delete, rule_pop_operation, rule_push, rule_push_operation};
ghost use Rattle.aom_typing_rules.specs.Finding.{Finds};
ghost use Rattle.aom_typing_rules.specs.Objects.{new_age};
ghost use Rattle.aom_typing_rules.specs.Ways.{As_before, Dropped, Ends, Goes_on, Holding, Popped, Pushed, Pushed_operation};
ghost use Rattle.aom_typing_rules.specs.RuleContext.{leave_point};
ghost use Rattle.aom_abstract_state.specs.Needs.{tested};
ghost use Rattle.aom_abstract_state.specs.declared.kind.Kind.TheVariants.{Own};

use crate::objects::new_age;
use crate::rules::Ruling;
use aom_abstract_state::{
    AbstractState, CleanupEntry, Flow, InitState, Kind, Next, Reason, is_object, judge, judge_all,
};
use aom_image::{ClassNumber, Register, Thing};
use aom_rule_context::RuleContext;

/// It owns an object, which is no message.
fn owns_object(kind: Kind) -> bool
    ensures { result ≡ owns_object kind }
{
    match kind {
        Kind::Own(thing, _) => is_object(thing),
        Kind::Unset | Kind::Word | Kind::Null | Kind::Maybe(_, _) => false,
    }
}

fn thing_entry(thing: Thing, age: InitState) -> CleanupEntry
    ensures { result ≡ thing_entry thing age }
{
    match thing {
        Thing::Object(class) => CleanupEntry::Object(class, age),
        Thing::Message => CleanupEntry::Operation,
    }
}

/// The entry of what is pushed.
fn entry_of(kind: Kind) -> CleanupEntry
    ensures { result ≡ entry_of kind }
{
    match kind {
        Kind::Own(thing, age) => thing_entry(thing, age),
        Kind::Unset | Kind::Word | Kind::Null | Kind::Maybe(_, _) => CleanupEntry::Operation,
    }
}

/// The last entry is that of an object.
fn top_matches_object(shape: &AbstractState<'_>) -> bool
    ensures { result ≡ top_matches_object shape.now.entries }
{
    match shape.entry(0) {
        None => false,
        Some(last) => last.is_object(),
    }
}

/// The last entry is that of an operation.
fn top_matches_operation(shape: &AbstractState<'_>) -> bool
    ensures { result ≡ top_matches_operation shape.now.entries }
{
    match shape.entry(0) {
        None => false,
        Some(last) => !last.is_object(),
    }
}

/// What the last entry owns.
fn top_kind(shape: &AbstractState<'_>) -> Kind
    ensures { result ≡ top_kind shape.now.entries }
{
    match shape.entry(0) {
        None => Kind::Null,
        Some(last) => last.kind(),
    }
}

/// Whether the need is met and the method may leave in that state.
fn judge_leave(
    site: &RuleContext<'_>,
    need: (bool, Reason),
    left: &AbstractState<'_>,
) -> Result<(), Reason>
    ensures { result ≡ tested (need ∷ leave_point site.now.image site.now.method site.now.place site.now.shape left.now) }
{
    let [may_leave, unowned, unissued, here] = site.leave_point(left);
    judge_all(&[need, may_leave, unowned, unissued, here])
}

pub(crate) fn rule_new_or_leave(site: &RuleContext<'_>, a: Register, class: ClassNumber) -> Ruling
    ensures { Finds site.now (rule_new_or_leave site.now.image site.now.method site.now.place site.now.shape a) (Goes_on (Holding a (Own (Object class) (new_age site.now.image class)))) result }
{
    let [may_leave, unowned, unissued, here] = site.leave_point(site.shape);
    let needs = [
        site.needs_unowning(a),
        site.needs_nonquiet(),
        may_leave,
        unowned,
        unissued,
        here,
    ];
    let made = Kind::Own(Thing::Object(class), new_age(site, class));
    judge(&needs, site.next(&site.shape.with_register(a, made)))
}

/// The object is on the cleanup stack before the push may leave.
pub(crate) fn rule_push(site: &RuleContext<'_>, a: Register) -> Ruling
    ensures { Finds site.now (rule_push site.now.image site.now.method site.now.place site.now.shape a) (Goes_on (Pushed a)) result }
{
    let moved = site.shape.with_register(a, Kind::Null);
    let pushed = Next::of(&moved).with_entry(entry_of(site.shape.register(a)));
    let need = (owns_object(site.shape.register(a)), Reason::RegisterKind);
    match judge_leave(site, need, &moved) {
        Ok(()) => Ok(site.on(pushed)),
        Err(why) => Err(why),
    }
}

pub(crate) fn rule_push_operation(site: &RuleContext<'_>, a: Register) -> Ruling
    ensures { Finds site.now (rule_push_operation site.now.image site.now.method site.now.place site.now.shape a) (Goes_on Pushed_operation) result }
{
    let pushed = Next::of(site.shape).with_entry(CleanupEntry::Operation);
    match judge_leave(site, site.needs_word(a), site.shape) {
        Ok(()) => Ok(site.on(pushed)),
        Err(why) => Err(why),
    }
}

pub(crate) fn rule_pop(site: &RuleContext<'_>, a: Register) -> Ruling
    ensures { Finds site.now (rule_pop site.now.image site.now.method site.now.place site.now.shape a) (Goes_on (Popped a)) result }
{
    let needs = [
        site.needs_unowning(a),
        site.needs_entry(),
        (top_matches_object(site.shape), Reason::RegisterKind),
    ];
    let popped = site.shape.with_register(a, top_kind(site.shape));
    judge(&needs, site.on(Next::of(&popped).without_entry()))
}

pub(crate) fn rule_pop_operation(site: &RuleContext<'_>) -> Ruling
    ensures { Finds site.now (rule_pop_operation site.now.image site.now.method site.now.place site.now.shape) (Goes_on Dropped) result }
{
    let needs = [
        site.needs_entry(),
        (top_matches_operation(site.shape), Reason::RegisterKind),
    ];
    judge(&needs, site.on(Next::of(site.shape).without_entry()))
}

/// An object is destroyed, and an operation is run.
pub(crate) fn rule_pop_delete(site: &RuleContext<'_>) -> Ruling
    ensures { Finds site.now (rule_pop_delete site.now.image site.now.method site.now.place site.now.shape) (Goes_on Dropped) result }
{
    let next = Next::of(site.shape).without_entry();
    judge(&[site.needs_entry()], site.on(next))
}

pub(crate) fn rule_leave(site: &RuleContext<'_>, a: Register) -> Ruling
    ensures { Finds site.now (rule_leave site.now.image site.now.method site.now.place site.now.shape a) Ends result }
{
    match judge_leave(site, site.needs_word(a), site.shape) {
        Ok(()) => Ok(Flow::none()),
        Err(why) => Err(why),
    }
}

/// It leaves where the word is negative.
pub(crate) fn rule_leave_if(site: &RuleContext<'_>, a: Register) -> Ruling
    ensures { Finds site.now (rule_leave site.now.image site.now.method site.now.place site.now.shape a) (Goes_on As_before) result }
{
    match judge_leave(site, site.needs_word(a), site.shape) {
        Ok(()) => Ok(site.next(site.shape)),
        Err(why) => Err(why),
    }
}
