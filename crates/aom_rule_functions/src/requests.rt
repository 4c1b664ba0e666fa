//! The rules of instructions on the request of the method's own object.
ghost use Rattle.std.specs.Prelude.{◌≡◌, ◌++◌, ◌∷◌, [], not, suc};
ghost use Rattle.aom_image.specs.Views.{has};
ghost use Rattle.aom_roles.specs.Kinds.{is_active_kind, is_issuing_kind, is_listed_kind};
ghost use Rattle.aom_roles.specs.States.{active, active_states, cancel_done, idle, issued, server_states, unlisted};
ghost use Rattle.aom_typing_rules.specs.Finding.{Finds};
ghost use Rattle.aom_typing_rules.specs.Requests.{enlisted, flow_narrowed, inactive, once_cancelled, outstanding, own_kind, resting, rule_abort, rule_cancel, rule_enlist, rule_issue, rule_jump_active, rule_jump_added, rule_set_active, rule_status};
ghost use Rattle.aom_typing_rules.specs.Ways.{Branches_in, Cancelled, Goes_on, Holding, Left_in};
ghost use Rattle.aom_abstract_state.specs.Changes.{ways_from};
ghost use Rattle.aom_abstract_state.specs.Needs.{to_next};
ghost use Rattle.aom_abstract_state.specs.declared.kind.Kind.TheVariants.{Word};
ghost use Rattle.aom_abstract_state.specs.declared.why.Reason.TheVariants.{NotAdded, NotIdle, RegisterKind};

use crate::messages::needs_token_kind;
use crate::rules::Ruling;
use crate::words::with_word;
use aom_abstract_state::{Flow, Reason, judge};
use aom_image::{InstrPlace, Register, States};
use aom_rule_context::RuleContext;
use bitflags::Flags;

/// The states of a server.
pub(crate) fn server_states() -> States
    ensures { result.0 ≡ server_states }
{
    States::UNLISTED.union(States::IDLE)
}

/// The states of an active object while nothing works on it.
fn active_states() -> States
    ensures { result.0 ≡ active_states }
{
    server_states().union(States::ACTIVE)
}

/// The states once the request is cancelled: it is idle where it was active, and as it was where not.
fn once_cancelled(states: States) -> States
    ensures { result.0 ≡ once_cancelled states.0 }
{
    let others = states.intersection(server_states());
    if states.contains(States::ACTIVE) {
        others.union(States::IDLE)
    } else {
        others
    }
}

/// The request is active, or was so as its cancel began.
pub fn outstanding() -> States
    ensures { result.0 ≡ outstanding }
{
    States::ACTIVE.union(States::OPEN.union(States::DONE))
}

/// The request is not active.
pub fn inactive() -> States
    ensures { result.0 ≡ inactive }
{
    server_states().union(States::ISSUED)
}

/// The object is enlisted.
pub fn enlisted() -> States
    ensures { result.0 ≡ enlisted }
{
    States::IDLE.union(States::ISSUED).union(outstanding())
}

/// The method works on an active object.
#[tactic(auto, using(crate::proofs::Resting::active_kind_rests))]
fn needs_active_kind(site: &RuleContext<'_>) -> (bool, Reason)
    ensures { result ≡ (is_active_kind (own_kind site.now.image site.now.method), RegisterKind) }
{
    (
        site.resting().contains(States::ACTIVE),
        Reason::RegisterKind,
    )
}

/// The method works on an active object that hands no tokens.
#[tactic(auto, using(crate::proofs::Resting::active_kind_rests))]
fn needs_issuing_kind(site: &RuleContext<'_>) -> (bool, Reason)
    ensures { result ≡ (is_issuing_kind (own_kind site.now.image site.now.method), RegisterKind) }
{
    let active = needs_active_kind(site).0;
    let token = needs_token_kind(site).0;
    (active && !token, Reason::RegisterKind)
}

/// The method works on an object of a class whose objects are enlisted.
#[tactic(auto, using(crate::proofs::Resting::listed_kind_rests))]
fn needs_listed_kind(site: &RuleContext<'_>) -> (bool, Reason)
    ensures { result ≡ (is_listed_kind (own_kind site.now.image site.now.method), RegisterKind) }
{
    (site.resting().contains(States::IDLE), Reason::RegisterKind)
}

/// Each state in which the object may be is one of these.
pub(crate) fn needs_states(site: &RuleContext<'_>, states: States, why: Reason) -> (bool, Reason)
    ensures { result ≡ (has states.0 site.now.shape.states, why) }
{
    (states.contains(site.shape.states()), why)
}

/// The method works on an active object, and each state in which that may be is one of these.
fn needs_active_in(site: &RuleContext<'_>, states: States, why: Reason) -> [(bool, Reason); 2]
    ensures { result ≡ (is_active_kind (own_kind site.now.image site.now.method), RegisterKind) ∷ (has states.0 site.now.shape.states, why) ∷ [] }
{
    [needs_active_kind(site), needs_states(site, states, why)]
}

/// The object is enlisted.
pub(crate) fn needs_added(site: &RuleContext<'_>) -> (bool, Reason)
    ensures { result ≡ (not (has site.now.shape.states unlisted), NotAdded) }
{
    let unlisted = site.shape.states().contains(States::UNLISTED);
    (!unlisted, Reason::NotAdded)
}

/// On to the next place, with the object's request in these states.
fn left_in(site: &RuleContext<'_>, states: States) -> Flow
    ensures { ways_from site.now.shape.entries result ≡ to_next site.now.place (record site.now.shape { states = states.0 }) }
{
    site.next(&site.shape.with_states(states))
}

/// To that place in some of the states in which the object may be, to the next place in others. A flow for which no
/// state is left is none.
fn branches_in(site: &RuleContext<'_>, there: States, here: States, to: InstrPlace) -> Flow
    ensures { ways_from site.now.shape.entries result ≡ flow_narrowed site.now.shape (suc site.now.place) here.0 ++ flow_narrowed site.now.shape to there.0 }
{
    let stays = site.shape.states().intersection(here);
    let goes = site.shape.states().intersection(there);
    let after = site.shape.with_states(stays);
    let turned = site.shape.with_states(goes);
    match (stays.is_empty(), goes.is_empty()) {
        (false, false) => site.fork(&after, to, &turned),
        (false, true) => site.next(&after),
        (true, false) => Flow::to(to.number() as usize, &turned),
        (true, true) => Flow::none(),
    }
}

pub(crate) fn rule_jump_active(site: &RuleContext<'_>, to: InstrPlace) -> Ruling
    ensures { Finds site.now (rule_jump_active site.now.image site.now.method site.now.shape) (Branches_in outstanding inactive to) result }
{
    let flow = branches_in(site, outstanding(), inactive(), to);
    judge(&[needs_active_kind(site)], flow)
}

pub(crate) fn rule_jump_added(site: &RuleContext<'_>, to: InstrPlace) -> Ruling
    ensures { Finds site.now (rule_jump_added site.now.image site.now.method site.now.shape) (Branches_in enlisted unlisted to) result }
{
    let flow = branches_in(site, enlisted(), States::UNLISTED, to);
    judge(&[needs_listed_kind(site)], flow)
}

pub(crate) fn rule_enlist(site: &RuleContext<'_>) -> Ruling
    ensures { Finds site.now (rule_enlist site.now.image site.now.method site.now.shape) (Goes_on (Left_in idle)) result }
{
    let needs = [
        needs_listed_kind(site),
        needs_states(site, States::UNLISTED, Reason::NotAdded),
    ];
    judge(&needs, left_in(site, States::IDLE))
}

pub(crate) fn rule_issue(site: &RuleContext<'_>, a: Register, b: Register) -> Ruling
    ensures { Finds site.now (rule_issue site.now.image site.now.method site.now.shape a b) (Goes_on (Left_in issued)) result }
{
    let needs = [
        site.needs_word(a),
        site.needs_word(b),
        needs_issuing_kind(site),
        needs_added(site),
        needs_states(site, States::IDLE, Reason::NotIdle),
    ];
    judge(&needs, left_in(site, States::ISSUED))
}

pub(crate) fn rule_set_active(site: &RuleContext<'_>) -> Ruling
    ensures { Finds site.now (rule_set_active site.now.image site.now.method site.now.shape) (Goes_on (Left_in active)) result }
{
    let needs = needs_active_in(site, States::ISSUED, Reason::NotIssued);
    judge(&needs, left_in(site, States::ACTIVE))
}

pub(crate) fn rule_cancel(site: &RuleContext<'_>) -> Ruling
    ensures { Finds site.now (rule_cancel site.now.image site.now.method site.now.shape) (Goes_on Cancelled) result }
{
    let needs = needs_active_in(site, active_states(), Reason::NotIdle);
    let states = once_cancelled(site.shape.states());
    let after = site.shape.with_fields_unknown().with_states(states);
    judge(&needs, site.next(&after))
}

pub(crate) fn rule_abort(site: &RuleContext<'_>) -> Ruling
    ensures { Finds site.now (rule_abort site.now.image site.now.method site.now.shape) (Goes_on (Left_in cancel_done)) result }
{
    let cancelling = States::OPEN.union(States::DONE);
    let needs = needs_active_in(site, cancelling, Reason::EntryState);
    judge(&needs, left_in(site, States::DONE))
}

pub(crate) fn rule_status(site: &RuleContext<'_>, a: Register) -> Ruling
    ensures { Finds site.now (rule_status site.now.image site.now.method site.now.shape a) (Goes_on (Holding a Word)) result }
{
    let needs = [site.needs_unowning(a), needs_active_kind(site)];
    judge(&needs, with_word(site, a))
}
