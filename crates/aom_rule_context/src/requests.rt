//! What rules say of request states and of the message in service.
ghost use Rattle.std.specs.Prelude.{◌≡◌, IsSome, not};
ghost use Rattle.aom_image.specs.Views.{has, method_at, method_class, method_role};
ghost use Rattle.aom_roles.specs.Tests.{only_if};
ghost use Rattle.aom_roles.specs.Roles.{is_cancel, is_construct, is_service};
ghost use Rattle.aom_roles.specs.Families.{fields_above};
ghost use Rattle.aom_roles.specs.States.{active, cancel_done};
ghost use Rattle.aom_typing_rules.specs.Calls.{empty_past, fields_done, is_destruct, is_destructor, rule_ended};
ghost use Rattle.aom_typing_rules.specs.Beginning.{begins_here, begins_there, may_begin, resting, unissued};
ghost use Rattle.aom_abstract_state.specs.Arguments.{after_of};
ghost use Rattle.aom_abstract_state.specs.Kinds.{is_empty, is_here};
ghost use Rattle.aom_roles.specs.Tables.{at};
ghost use Rattle.aom_roles.specs.Things.{holder_by, holder_of};
ghost use Rattle.aom_abstract_state.specs.declared.kind.FieldState.TheVariants.{Perhaps};
ghost use Rattle.aom_abstract_state.specs.declared.why.Reason.TheVariants.{EntryState, FieldsLeft, IssuedAtReturn, MessageAtReturn, NotCancelled, StillActive};

use crate::site::RuleContext;
use crate::things::class_fields;
use aom_abstract_state::{AbstractState, FieldState, Reason, only_if};
use aom_image::{ClassNumber, MethodNumber, Role, States, Target, Thing};
use aom_linker::Linked;
use aom_roles::{parent_of, resting_states};
use bitflags::Flags;

/// The object has no request that is not set active.
pub(crate) fn unissued(states: States) -> bool
    ensures { result ≡ unissued states.0 }
{
    !states.contains(States::ISSUED)
}

/// The states in which an object of a class may be while nothing works on it.
pub(crate) fn resting(linked: &Linked, class: Option<ClassNumber>) -> States
    ensures { result.0 ≡ resting linked.now class }
{
    resting_states(linked.image(), class)
}

pub(crate) fn is_construct(role: Role) -> bool
    ensures { result ≡ is_construct (Some role) }
{
    matches!(role, Role::Construct)
}

/// The method begins in each state in which the caller's object may be, unless it is static.
fn begins_here(linked: &Linked, method: MethodNumber, states: States) -> bool
    requires { IsSome (method_at linked.now method) }
    ensures { result ≡ begins_here linked.now method (method_class linked.now method) states.0 }
{
    let callee = linked.method(method);
    match callee.class {
        None => true,
        Some(_) => callee.before.contains(states),
    }
}

/// The method begins in each state in which another object may be, unless it constructs that.
#[tactic(auto, using(aom_abstract_state::proofs::AbstractStateLemmas::before_there, aom_abstract_state::proofs::AbstractStateLemmas::class_there, aom_abstract_state::proofs::AbstractStateLemmas::role_there))]
fn begins_there(linked: &Linked, method: MethodNumber) -> bool
    requires { IsSome (method_at linked.now method) }
    ensures { result ≡ begins_there linked.now method }
{
    let callee = linked.method(method);
    let rested = resting(linked, callee.class);
    only_if(!is_construct(callee.role), callee.before.contains(rested))
}

/// The method may be called on that target, where the caller's object may be in those states.
pub(crate) fn may_begin(
    linked: &Linked,
    method: MethodNumber,
    target: Target,
    states: States,
) -> bool
    requires { IsSome (method_at linked.now method) }
    ensures { result ≡ may_begin linked.now method target states.0 }
{
    match target {
        Target::This => begins_here(linked, method, states),
        Target::Register(_) => begins_there(linked, method),
        Target::Field(_) => begins_there(linked, method),
        Target::Entry(_) => begins_there(linked, method),
    }
}

fn is_destruct(role: Role) -> bool
    ensures { result ≡ is_destruct (Some role) }
{
    matches!(role, Role::Destruct)
}

/// How many fields a class has of its parent.
fn fields_above(linked: &Linked, parent: Option<ClassNumber>) -> usize
    ensures { result ≡ fields_above linked.now parent }
{
    match parent {
        None => 0,
        Some(parent) => class_fields(linked, parent).len(),
    }
}

fn is_empty_at(field_states: &[FieldState], index: usize) -> bool
    ensures { result ≡ is_empty (at Perhaps field_states.now index) }
{
    match field_states.get(index) {
        Some(field_state) => field_state.is_empty(),
        None => false,
    }
}

/// The fields that are declared past so many are null.
fn empty_past(past: usize, declared: &[Thing], field_states: &[FieldState]) -> bool
    ensures { result ≡ empty_past past declared.now field_states.now }
{
    for index in past..declared.len() {
        if !is_empty_at(field_states, index) {
            return false;
        }
    }
    true
}

/// Whether the fields may be left as they are, by the role and the class of the method: a destructor leaves those of its class past the
/// parent's null.
fn done_by(
    linked: &Linked,
    role: Role,
    class: Option<ClassNumber>,
    shape: &AbstractState<'_>,
) -> bool
    ensures { result ≡ fields_done linked.now (is_destruct (Some role)) (holder_by (Some role) class) shape.now.fields }
{
    match role {
        Role::Destruct => match class {
            None => true,
            Some(class) => {
                let inherited = fields_above(linked, parent_of(linked.image(), class));
                empty_past(
                    inherited,
                    class_fields(linked, class),
                    &shape.known().fields,
                )
            }
        },
        _ => true,
    }
}

fn is_cancel(role: Role) -> bool
    ensures { result ≡ is_cancel (Some role) }
{
    matches!(role, Role::Cancel)
}

pub(crate) fn is_service(role: Role) -> bool
    ensures { result ≡ is_service (Some role) }
{
    matches!(role, Role::Service)
}

impl RuleContext<'_> {
    /// The states in which an object of the method's class may be while nothing works on it.
    pub fn resting(&self) -> States
        ensures { result.0 ≡ resting self.now.image (method_class self.now.image self.now.method) }
    {
        resting(self.linked, self.linked.method(self.method).class)
    }

    /// Whether the fields may be left as they are at a return.
    #[tactic(auto, using(aom_abstract_state::proofs::AbstractStateLemmas::holder_there, aom_abstract_state::proofs::AbstractStateLemmas::role_there))]
    fn fields_done(&self) -> bool
        ensures { result ≡ fields_done self.now.image (is_destructor self.now.image self.now.method) (holder_of self.now.image self.now.method) self.now.shape.fields }
    {
        let declared = self.linked.method(self.method);
        done_by(self.linked, declared.role, declared.class, self.shape)
    }

    /// A method that cancels has done so.
    fn needs_cancelled(&self) -> (bool, Reason)
        ensures { result ≡ (only_if (is_cancel (method_role self.now.image self.now.method)) (has cancel_done self.now.shape.states), NotCancelled) }
    {
        let cancels = is_cancel(self.linked.method(self.method).role);
        let done = States::DONE.contains(self.shape.states());
        (only_if(cancels, done), Reason::NotCancelled)
    }

    /// A destructor leaves no request active.
    fn needs_still(&self) -> (bool, Reason)
        ensures { result ≡ (only_if (is_destructor self.now.image self.now.method) (not (has self.now.shape.states active)), StillActive) }
    {
        let destroys = is_destruct(self.linked.method(self.method).role);
        let active = self.shape.states().contains(States::ACTIVE);
        (only_if(destroys, !active), Reason::StillActive)
    }

    /// The object is in a state in which the method may end.
    #[tactic(auto, using(aom_abstract_state::proofs::AbstractStateLemmas::after_there))]
    fn needs_end(&self) -> (bool, Reason)
        ensures { result ≡ (has (after_of self.now.image self.now.method) self.now.shape.states, EntryState) }
    {
        let after = self.linked.method(self.method).after;
        (after.contains(self.shape.states()), Reason::EntryState)
    }

    /// A service has taken its message.
    #[tactic(auto, using(aom_abstract_state::proofs::AbstractStateLemmas::role_there))]
    fn needs_taken(&self) -> (bool, Reason)
        ensures { result ≡ (only_if (is_service (method_role self.now.image self.now.method)) (not (is_here self.now.shape.message_state)), MessageAtReturn) }
    {
        let serves = is_service(self.linked.method(self.method).role);
        let taken = !self.shape.message_state().is_here();
        (only_if(serves, taken), Reason::MessageAtReturn)
    }

    /// How the object and the message are left at a return.
    pub(crate) fn ended(&self) -> [(bool, Reason); 6]
        ensures { result ≡ rule_ended self.now.image self.now.method self.now.place self.now.shape }
    {
        [
            (unissued(self.shape.states()), Reason::IssuedAtReturn),
            self.needs_cancelled(),
            self.needs_still(),
            (self.fields_done(), Reason::FieldsLeft),
            self.needs_end(),
            self.needs_taken(),
        ]
    }
}
