//! The rules of messages.
ghost use Rattle.std.specs.Prelude.{◌≡◌, Some};
ghost use Rattle.aom_roles.specs.Kinds.{is_token_kind};
ghost use Rattle.aom_roles.specs.Classes.{kind_at};
ghost use Rattle.aom_roles.specs.Shapes.{kind_of};
ghost use Rattle.aom_typing_rules.specs.Finding.{Finds};
ghost use Rattle.aom_typing_rules.specs.Messages.{after_hand, after_take_message, rule_hand, rule_reply, rule_take_message};
ghost use Rattle.aom_typing_rules.specs.Requests.{own_kind};
ghost use Rattle.aom_typing_rules.specs.Ways.{Goes_on, Handed, Holding, Taken_message};
ghost use Rattle.aom_abstract_state.specs.declared.kind.Kind.TheVariants.{Null};
ghost use Rattle.aom_abstract_state.specs.declared.why.Reason.TheVariants.{RegisterKind};

use crate::requests::{needs_added, needs_states};
use crate::rules::Ruling;
use aom_abstract_state::{AbstractState, Flow, InitState, Kind, MessageState, Reason, judge};
use aom_image::{ClassKind, ClassNumber, Provider, Register, States, Thing};
use aom_linker::Linked;
use aom_rule_context::RuleContext;

/// The state once the message is in that register.
fn with_message<'a>(site: &RuleContext<'a>, a: Register) -> AbstractState<'a>
    ensures { result ≡ after_take_message site.now.image site.now.method site.now.shape a }
{
    let message = Kind::Own(Thing::Message, InitState::Ready);
    site.shape
        .with_register(a, message)
        .with_message_state(MessageState::Gone)
}

pub(crate) fn rule_take_message(site: &RuleContext<'_>, a: Register) -> Ruling
    ensures { Finds site.now (rule_take_message site.now.image site.now.method site.now.shape a) (Goes_on (Taken_message a)) result }
{
    let needs = [
        site.needs_unowning(a),
        site.needs_service(),
        (site.shape.message_state().is_here(), Reason::RegisterKind),
    ];
    judge(&needs, site.next(&with_message(site, a)))
}

pub(crate) fn rule_reply(site: &RuleContext<'_>, a: Register, b: Register) -> Ruling
    ensures { Finds site.now (rule_reply site.now.image site.now.method site.now.shape a b) (Goes_on (Holding a Null)) result }
{
    let needs = [site.needs_message(a), site.needs_word(b)];
    judge(&needs, site.next(&site.shape.with_register(a, Kind::Null)))
}

fn is_token_kind(kind: ClassKind) -> bool
    ensures { result ≡ is_token_kind (Some kind) }
{
    match kind {
        ClassKind::Active { provider } => matches!(provider, Provider::Token),
        _ => false,
    }
}

/// The objects of the class hand tokens.
fn is_token(linked: &Linked, class: ClassNumber) -> bool
    ensures { result ≡ is_token_kind (kind_at linked.now class) }
{
    let classes = linked.image().classes();
    match classes.as_slice().get(class.number() as usize) {
        None => false,
        Some(declared) => is_token_kind(declared.kind),
    }
}

/// What a method of that class works on hands tokens.
#[tactic(auto, unfolding(aom_roles::specs::Shapes::kind_of))]
fn is_token_of(linked: &Linked, class: Option<ClassNumber>) -> bool
    ensures { result ≡ is_token_kind (kind_of linked.now class) }
{
    match class {
        None => false,
        Some(class) => is_token(linked, class),
    }
}

/// The method works on an object that hands tokens.
#[tactic(auto, using(aom_abstract_state::proofs::AbstractStateLemmas::class_there))]
pub(crate) fn needs_token_kind(site: &RuleContext<'_>) -> (bool, Reason)
    ensures { result ≡ (is_token_kind (own_kind site.now.image site.now.method), RegisterKind) }
{
    let class = site.linked.method(site.method).class;
    (is_token_of(site.linked, class), Reason::RegisterKind)
}

/// The state once a request is made, with the token or null in that register.
fn with_token<'a>(site: &RuleContext<'a>, a: Register) -> AbstractState<'a>
    ensures { result ≡ after_hand site.now.image site.now.method site.now.shape a }
{
    let token = Kind::Maybe(Thing::Message, InitState::Ready);
    site.shape
        .with_register(a, token)
        .with_states(States::ISSUED)
}

pub(crate) fn rule_hand(site: &RuleContext<'_>, a: Register) -> Ruling
    ensures { Finds site.now (rule_hand site.now.image site.now.method site.now.shape a) (Goes_on (Handed a)) result }
{
    let needs = [
        site.needs_unowning(a),
        needs_token_kind(site),
        needs_added(site),
        needs_states(site, States::IDLE, Reason::NotIdle),
    ];
    judge(&needs, site.next(&with_token(site, a)))
}
