//! Where a rule is applied, and the needs that many rules share.
ghost use Rattle.std.specs.Prelude.{◌≡◌, ◌<◌, ◌^◌, List, [], ◌∷◌, IsSome, is_some, nat_lt, not, suc};
ghost use Rattle.aom_image.specs.Views.{gives_of, is_quiet, leaves, method_at, method_role};
ghost use Rattle.aom_image.specs.declared.method.Thing.TheVariants.{Message};
ghost use Rattle.aom_roles.specs.Roles.{is_service};
ghost use Rattle.aom_abstract_state.specs.Changes.{next_shape, ways_from};
ghost use Rattle.aom_abstract_state.specs.Kinds.{is_object_or_null, is_own_for, is_ready_kind, is_unowning, is_word, may_be_declared, no_entry, register};
ghost use Rattle.aom_abstract_state.specs.Needs.{to_next};
ghost use Rattle.aom_roles.specs.Things.{field_thing, holder_of, word_count};
ghost use Rattle.aom_typing_rules.specs.RuleContext.{leave_point};
ghost use Rattle.aom_abstract_state.specs.declared.kind.CleanupEntry.{CleanupEntry as EntryData};
ghost use Rattle.aom_abstract_state.specs.declared.why.Reason.TheVariants.{PopEmpty, QuietBroken, RegisterKind, StillFresh};

use crate::requests::{is_service, unissued};
use crate::things::{field_thing, is_own_for, may_be_declared, word_count};
use aom_abstract_state::{AbstractState, Flow, Next, Reason};
use aom_image::{
    FieldIndex, Gives, InstrPlace, MethodFlags, MethodNumber, Register, Thing, WordIndex,
};
use aom_linker::Linked;
use bitflags::Flags;
use std::marker::Model;

/// Where a rule is applied: a place of a method, and what is known there.
#[derive(Drop)]
pub struct RuleContext<'a> {
    pub linked: &'a Linked,
    pub method: MethodNumber,
    pub place: usize,
    pub shape: &'a AbstractState<'a>,
}

impl<'a> Model for RuleContext<'a> {
    ghost use Rattle.std.specs.Prelude.{IsSome, suc, ◌<◌, ◌^◌};
    ghost use Rattle.aom_image.specs.Views.{method_at};
    ghost use Rattle.aom_typing_rules.specs.RuleContext.{RuleContext as SiteRecord};

    ghost Value = { SiteRecord };

    ghost view = { λ s. record { image = s.linked.now; method = s.method; place = s.place; shape = s.shape.now } };

    ghost invariant = { λ s. IsSome (method_at s.linked.now s.method) × (suc s.place < 2 ^ 64) };
}

/// A method that makes no objects.
#[tactic(auto, using(aom_abstract_state::proofs::AbstractStateLemmas::quiet_there))]
pub(crate) fn is_quiet(linked: &Linked, method: MethodNumber) -> bool
    requires { IsSome (method_at linked.now method) }
    ensures { result ≡ is_quiet linked.now method }
{
    linked.method(method).flags.contains(MethodFlags::QUIET)
}

#[tactic(auto, using(aom_abstract_state::proofs::AbstractStateLemmas::leaves_there))]
pub(crate) fn leaves(linked: &Linked, method: MethodNumber) -> bool
    requires { IsSome (method_at linked.now method) }
    ensures { result ≡ leaves linked.now method }
{
    linked.method(method).flags.contains(MethodFlags::LEAVES)
}

/// What a method gives back.
#[tactic(auto, using(aom_abstract_state::proofs::AbstractStateLemmas::gives_there))]
pub(crate) fn gives(linked: &Linked, method: MethodNumber) -> Gives
    requires { IsSome (method_at linked.now method) }
    ensures { result ≡ gives_of linked.now method }
{
    linked.method(method).gives
}

impl<'a> RuleContext<'a> {
    pub fn new(
        linked: &'a Linked,
        method: MethodNumber,
        place: usize,
        shape: &'a AbstractState<'a>,
    ) -> RuleContext<'a>
        requires method { IsSome (method_at linked.now method) }
        requires place { suc place < 2 ^ 64 }
        ensures { result ≡ record { image = linked.now; method = method; place = place; shape = shape.now } }
    {
        RuleContext {
            linked,
            method,
            place,
            shape,
        }
    }

    /// On to the next place, in that state.
    pub fn next(&self, after: &AbstractState<'_>) -> Flow
        ensures { ways_from after.now.entries result ≡ to_next self.now.place after.now }
    {
        Flow::to_next(self.place, after)
    }

    /// On to the next place, with that known.
    pub fn on(&self, after: Next) -> Flow
        ensures { (es : List EntryData) → ways_from es result ≡ to_next self.now.place (next_shape es after) }
    {
        Flow::on(self.place, after)
    }

    /// On to the next place in one state, or to that place in the other.
    pub fn fork(&self, after: &AbstractState<'_>, to: InstrPlace, there: &AbstractState<'_>) -> Flow
        requires { there.now.entries ≡ after.now.entries }
        ensures { ways_from after.now.entries result ≡ (suc self.now.place, after.now) ∷ (to, there.now) ∷ [] }
    {
        Flow::to_either(self.place + 1, after, to.number() as usize, there)
    }

    /// What is declared of a field that the method works on.
    pub fn declared(&self, field: FieldIndex) -> Option<Thing>
        ensures { result ≡ field_thing self.now.image (holder_of self.now.image self.now.method) field }
    {
        field_thing(self.linked, self.method, field)
    }

    pub fn needs_word(&self, a: Register) -> (bool, Reason)
        ensures { result ≡ (is_word (register self.now.shape a), RegisterKind) }
    {
        (self.shape.register(a).is_word(), Reason::RegisterKind)
    }

    pub fn needs_unowning(&self, a: Register) -> (bool, Reason)
        ensures { result ≡ (is_unowning (register self.now.shape a), RegisterKind) }
    {
        (self.shape.register(a).is_unowning(), Reason::RegisterKind)
    }

    pub fn needs_object_or_null(&self, a: Register) -> (bool, Reason)
        ensures { result ≡ (is_object_or_null (register self.now.shape a), RegisterKind) }
    {
        (
            self.shape.register(a).is_object_or_null(),
            Reason::RegisterKind,
        )
    }

    pub fn needs_ready(&self, a: Register) -> (bool, Reason)
        ensures { result ≡ (is_ready_kind (register self.now.shape a), StillFresh) }
    {
        (self.shape.register(a).is_ready(), Reason::StillFresh)
    }

    pub fn needs_field(&self, field: FieldIndex) -> (bool, Reason)
        ensures { result ≡ (is_some (field_thing self.now.image (holder_of self.now.image self.now.method) field), RegisterKind) }
    {
        (self.declared(field).is_some(), Reason::RegisterKind)
    }

    /// There is a cleanup entry.
    pub fn needs_entry(&self) -> (bool, Reason)
        ensures { result ≡ (not (no_entry self.now.shape.entries), PopEmpty) }
    {
        (!self.shape.has_no_entry(), Reason::PopEmpty)
    }

    /// The method is not quiet.
    pub fn needs_nonquiet(&self) -> (bool, Reason)
        ensures { result ≡ (not (is_quiet self.now.image self.now.method), QuietBroken) }
    {
        (!is_quiet(self.linked, self.method), Reason::QuietBroken)
    }

    /// The method serves messages.
    pub fn needs_service(&self) -> (bool, Reason)
        ensures { result ≡ (is_service (method_role self.now.image self.now.method), RegisterKind) }
    {
        let serves = is_service(self.linked.method(self.method).role);
        (serves, Reason::RegisterKind)
    }

    /// A register owns a message.
    pub fn needs_message(&self, a: Register) -> (bool, Reason)
        ensures { result ≡ (is_own_for self.now.image Message (register self.now.shape a), RegisterKind) }
    {
        let owns = is_own_for(self.linked, Thing::Message, self.shape.register(a));
        (owns, Reason::RegisterKind)
    }

    /// The object has such a word.
    pub fn needs_word_of_object(&self, w: WordIndex) -> (bool, Reason)
        ensures { result ≡ (nat_lt w (word_count self.now.image (holder_of self.now.image self.now.method)), RegisterKind) }
    {
        (
            w.number() < word_count(self.linked, self.method),
            Reason::RegisterKind,
        )
    }

    /// The register holds what may come into the field.
    pub fn needs_declared(&self, field: FieldIndex, a: Register) -> (bool, Reason)
        ensures { result ≡ (may_be_declared self.now.image (field_thing self.now.image (holder_of self.now.image self.now.method) field) (register self.now.shape a), RegisterKind) }
    {
        let fits = may_be_declared(self.linked, self.declared(field), self.shape.register(a));
        (fits, Reason::RegisterKind)
    }

    /// What is asked where the method may leave in that state: it is one that may, no register owns, no request waits to be
    /// set active, and the message in service is not taken.
    pub fn leave_point(&self, left: &AbstractState<'_>) -> [(bool, Reason); 4]
        ensures { result ≡ leave_point self.now.image self.now.method self.now.place self.now.shape left.now }
    {
        [
            (leaves(self.linked, self.method), Reason::LeaveNotAllowed),
            (left.none_owns(), Reason::OwnedAtLeave),
            (unissued(left.states()), Reason::IssuedAtLeave),
            (left.message_state().is_here(), Reason::MessageAtLeave),
        ]
    }
}
