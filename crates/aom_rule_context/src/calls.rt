//! The rules of calls and of returns.
ghost use Rattle.std.specs.Prelude.{◌≡◌, ◌≤◌, ◌+◌, List, [], ◌∷◌, suc, ◌&&◌, nat_lt, IsSome, Some, length};
ghost use Rattle.aom_image.specs.Views.{gives_of, method_at, method_role};
ghost use Rattle.aom_image.specs.declared.method.Role.TheVariants.{Construct};
ghost use Rattle.aom_image.specs.declared.method.Thing.TheVariants.{Object};
ghost use Rattle.aom_link_conditions.specs.Roles.{role_of};
ghost use Rattle.aom_typing_rules.specs.Calls.{stands_here, is_target, is_that, constructs_thing, constructs_owned, constructs_class, empty_by, age_need, object_needs, awaits, brought, while_called, argument_needs, rule_arguments, rule_given, rule_target, rule_moved, caught, leaves_one, entries_done, rule_result, result_moved};
ghost use Rattle.aom_typing_rules.specs.Beginning.{may_begin};
ghost use Rattle.aom_typing_rules.specs.RuleContext.{call_answer, return_answer, trap_answer};
ghost use Rattle.aom_instructions.specs.declared.instr.Target.TheVariants.{This, Register as OnRegister};
ghost use Rattle.aom_roles.specs.Tests.{only_if};
ghost use Rattle.aom_roles.specs.Roles.{is_construct};
ghost use Rattle.aom_roles.specs.Families.{parent_above};
ghost use Rattle.aom_abstract_state.specs.Arguments.{arguments_moved};
ghost use Rattle.aom_abstract_state.specs.Changes.{next_shape, reported};
ghost use Rattle.aom_abstract_state.specs.Kinds.{is_own_for, entry_kind, is_ready_kind, is_unowning, register};
ghost use Rattle.aom_abstract_state.specs.Needs.{judged, tested};
ghost use Rattle.aom_roles.specs.Tables.{at, is_among};
ghost use Rattle.aom_abstract_state.specs.declared.flow.Last.TheVariants.{Same};
ghost use Rattle.aom_abstract_state.specs.declared.kind.CleanupEntry.{CleanupEntry as EntryData};
ghost use Rattle.aom_abstract_state.specs.declared.kind.CleanupEntry.TheVariants.{Operation};
ghost use Rattle.aom_abstract_state.specs.declared.why.Reason.TheVariants.{EntryState, FieldNotNull, NotFresh, RegisterKind, PopEmpty};

use crate::requests::{is_construct, may_begin, resting, unissued};
use crate::site::{RuleContext, gives, is_quiet, leaves};
use crate::things::{class_fields, is_own_for, is_subtype, may_be};
use aom_abstract_state::{
    AbstractState, CleanupEntry, Flow, InitState, Kind, Next, Reason, judge, judge_all, only_if,
};
use aom_image::{
    Argument, ClassNumber, EntryDepth, Gives, Method, MethodNumber, Register, Role, States, Target,
    Thing,
};
use aom_linker::Linked;
use aom_roles::parent_of;

/// A call, as its instruction says it.
#[derive(Clone, Copy)]
pub struct Call {
    pub target: Target,
    pub method: MethodNumber,
    pub first: Register,
    pub result: Register,
}

impl Call {
    pub fn new(target: Target, method: MethodNumber, first: Register, into: Register) -> Call
        ensures { result ≡ record { target = target; method = method; first = first; result = into } }
    {
        Call {
            target,
            method,
            first,
            result: into,
        }
    }
}

/// A method of the first class may call one of the second class on its own object, and any method a static one.
fn stands_here(linked: &Linked, here: Option<ClassNumber>, class: Option<ClassNumber>) -> bool
    ensures { result ≡ stands_here linked.now here class }
{
    match class {
        None => true,
        Some(class) => match here {
            None => false,
            Some(here) => is_subtype(linked, Thing::Object(here), Thing::Object(class)),
        },
    }
}

/// It owns an object on which a method of that class works.
fn is_target(linked: &Linked, class: Option<ClassNumber>, kind: &Kind) -> bool
    ensures { result ≡ is_target linked.now class kind.now }
{
    match class {
        None => false,
        Some(class) => is_own_for(linked, Thing::Object(class), *kind),
    }
}

/// It is the method that constructs an object of that class.
fn constructs_class(linked: &Linked, method: MethodNumber, class: ClassNumber) -> bool
    ensures { result ≡ is_that method (role_of linked.now class Construct) }
{
    match linked.role(class, Role::Construct) {
        None => false,
        Some(construct) => construct.number() == method.number(),
    }
}

fn constructs_thing(linked: &Linked, method: MethodNumber, thing: Thing) -> bool
    ensures { result ≡ constructs_thing linked.now method thing }
{
    match thing {
        Thing::Object(class) => constructs_class(linked, method, class),
        Thing::Message => false,
    }
}

/// It is the method that constructs what is owned.
fn constructs_owned(linked: &Linked, method: MethodNumber, kind: &Kind) -> bool
    ensures { result ≡ constructs_owned linked.now method kind.now }
{
    match *kind {
        Kind::Unset | Kind::Word | Kind::Null | Kind::Maybe(_, _) => false,
        Kind::Own(thing, _) => constructs_thing(linked, method, thing),
    }
}

/// A construct method works on a fresh object of a class that it constructs, another method on a ready one.
fn age_need(linked: &Linked, method: MethodNumber, constructs: bool, kind: &Kind) -> (bool, Reason)
    ensures { result ≡ age_need linked.now method constructs kind.now }
{
    if constructs {
        let fresh = kind.is_fresh() && constructs_owned(linked, method, kind);
        (fresh, Reason::NotFresh)
    } else {
        (kind.is_ready(), Reason::StillFresh)
    }
}

fn constructs_above(linked: &Linked, method: MethodNumber, parent: Option<ClassNumber>) -> bool
    ensures { result ≡ constructs_class linked.now method parent }
{
    match parent {
        None => false,
        Some(parent) => constructs_class(linked, method, parent),
    }
}

/// The fields that a class declares are null.
fn empty_by(linked: &Linked, class: Option<ClassNumber>, shape: &AbstractState<'_>) -> bool
    ensures { result ≡ empty_by linked.now class shape.now.fields }
{
    match class {
        None => true,
        Some(class) => shape.are_empty(class_fields(linked, class)),
    }
}

/// The register is one of so many from the first on.
fn is_among(first: Register, count: usize, register: Register) -> bool
    ensures { result ≡ is_among first count register }
{
    let first = first.number() as usize;
    let number = register.number() as usize;
    first <= number && number - first < count
}

/// What is asked of an object that a method so declared is called on.
fn judge_object(
    linked: &Linked,
    method: MethodNumber,
    callee: &Method,
    kind: &Kind,
) -> Result<(), Reason>
    ensures { result ≡ tested (object_needs linked.now method callee.now.class (is_construct (Some callee.now.role)) kind.now) }
{
    let needs = [
        (is_target(linked, callee.class, kind), Reason::RegisterKind),
        age_need(linked, method, is_construct(callee.role), kind),
    ];
    judge_all(&needs)
}

fn judge_argument(linked: &Linked, argument: Argument, kind: &Kind) -> Result<(), Reason>
    ensures { result ≡ tested (argument_needs linked.now argument kind.now) }
{
    match argument {
        Argument::Word => {
            let needs = [(kind.is_word(), Reason::RegisterKind)];
            judge_all(&needs)
        }
        Argument::Own(thing) => {
            let needs = [
                (is_own_for(linked, thing, *kind), Reason::RegisterKind),
                (kind.is_ready(), Reason::StillFresh),
            ];
            judge_all(&needs)
        }
    }
}

/// What is asked of the arguments, which stand in the registers from the first on.
fn judge_arguments(
    linked: &Linked,
    shape: &AbstractState<'_>,
    arguments: &[Argument],
    first: Register,
) -> Result<(), Reason>
    ensures { result ≡ tested (rule_arguments linked.now shape.now arguments.now first) }
{
    let first = first.number() as usize;
    if 16 - first < arguments.len() {
        return Err(Reason::RegisterKind);
    }
    for index in 0..arguments.len() {
        judge_argument(linked, arguments[index], &shape.kind_at(first + index))?;
    }
    Ok(())
}

/// The result has a register to come to.
fn awaits(gives: Gives, kind: Kind) -> bool
    ensures { result ≡ awaits gives kind }
{
    match gives {
        Gives::Nothing | Gives::Left(_) => true,
        Gives::Word | Gives::Own(_) | Gives::Maybe(_) => kind.is_unowning(),
    }
}

/// The state while a call of a method of that class lasts, which ends in these states.
fn while_called(
    target: Target,
    class: Option<ClassNumber>,
    ended: States,
    shape: &AbstractState<'_>,
) -> Next
    ensures value { next_shape shape.now.entries result ≡ while_called target class ended.0 shape.now }
    ensures same { result.change.last ≡ Same }
{
    match target {
        Target::This => match class {
            None => Next::of(shape),
            Some(_) => Next::of(&shape.with_fields_unknown().with_states(ended)),
        },
        Target::Register(register) => {
            Next::of(&shape.with_register(register, shape.register(register).made_ready()))
        }
        Target::Field(_) => Next::of(shape),
        Target::Entry(number) => Next::of(shape).with_made_ready_entry(number),
    }
}

/// The state with the result.
fn brought(gives: Gives, c: Register, lasting: Next) -> Next
    requires { lasting.change.last ≡ Same }
    ensures { (es : List EntryData) → next_shape es result ≡ brought gives c (next_shape es lasting) }
{
    let number = c.number() as usize;
    match gives {
        Gives::Nothing => lasting,
        Gives::Word => lasting.with_kind(number, Kind::Word),
        Gives::Own(thing) => lasting.with_kind(number, Kind::Own(thing, InitState::Ready)),
        Gives::Maybe(thing) => lasting.with_kind(number, Kind::Maybe(thing, InitState::Ready)),
        Gives::Left(class) => lasting.with_entry(CleanupEntry::Object(class, InitState::Ready)),
    }
}

/// What is asked under a trap once the arguments have moved: nothing leaves on, and the code has a register too.
fn judge_trapped(linked: &Linked, moved: &AbstractState<'_>, call: &Call) -> Result<(), Reason>
    requires callee { IsSome (method_at linked.now call.now.method) }
    requires code { call.now.result ≤ 14 }
    ensures { result ≡ tested ((may_begin linked.now call.now.method call.now.target moved.now.states, EntryState) ∷ (awaits (gives_of linked.now call.now.method) (register moved.now call.now.result), RegisterKind) ∷ (is_unowning (register moved.now (suc call.now.result)), RegisterKind) ∷ []) }
{
    let begins = may_begin(linked, call.method, call.target, moved.states());
    let gives = gives(linked, call.method);
    let code = moved.kind_at(call.result.number() as usize + 1);
    let needs = [
        (begins, Reason::EntryState),
        (
            awaits(gives, moved.register(call.result)),
            Reason::RegisterKind,
        ),
        (code.is_unowning(), Reason::RegisterKind),
    ];
    judge_all(&needs)
}

/// The state after a trap, which may have left: with the code, and with the result, if there is one.
fn caught(gives: Gives, c: Register, lasting: Next) -> Next
    requires { c ≤ 14 }
    ensures { (es : List EntryData) → next_shape es result ≡ caught gives c (next_shape es lasting) }
{
    let number = c.number() as usize;
    let given = match gives {
        Gives::Nothing | Gives::Left(_) => lasting,
        Gives::Word => lasting.with_kind(number, Kind::Word),
        Gives::Own(thing) | Gives::Maybe(thing) => {
            lasting.with_kind(number, Kind::Maybe(thing, InitState::Ready))
        }
    };
    given.with_kind(number + 1, Kind::Word)
}

/// It is an entry of an object of that class, ready.
fn is_left(linked: &Linked, class: ClassNumber, entry: &CleanupEntry) -> bool
    ensures { result ≡ (is_own_for linked.now (Object class) (entry_kind entry.now) && is_ready_kind (entry_kind entry.now)) }
{
    is_own_for(linked, Thing::Object(class), entry.kind()) && entry.kind().is_ready()
}

/// One entry alone is left: of an object of that class, ready.
fn leaves_one(linked: &Linked, class: ClassNumber, shape: &AbstractState<'_>) -> bool
    ensures { result ≡ leaves_one linked.now class shape.now.entries }
{
    match shape.entry(0) {
        None => false,
        Some(last) => is_left(linked, class, &last) && shape.height() == 1,
    }
}

impl<'a> RuleContext<'a> {
    /// What is asked of the cleanup entry that the method is called on.
    fn judge_entry(
        &self,
        number: EntryDepth,
        method: MethodNumber,
        callee: &Method,
    ) -> Result<(), Reason>
        ensures { result ≡ tested ((nat_lt number (length self.now.shape.entries), PopEmpty) ∷ object_needs self.now.image method callee.now.class (is_construct (Some callee.now.role)) (entry_kind (at Operation self.now.shape.entries number))) }
    {
        match self.shape.entry(number.number() as usize) {
            None => Err(Reason::PopEmpty),
            Some(entry) => judge_object(self.linked, method, callee, &entry.kind()),
        }
    }

    /// The parent of the method's class.
    #[tactic(auto, using(aom_abstract_state::proofs::AbstractStateLemmas::class_there))]
    fn parent_above(&self) -> Option<ClassNumber>
        ensures { result ≡ parent_above self.now.image self.now.method }
    {
        match self.linked.method(self.method).class {
            None => None,
            Some(class) => parent_of(self.linked.image(), class),
        }
    }

    /// The method is a construct, and calls that of its class's parent.
    #[tactic(auto, using(aom_abstract_state::proofs::AbstractStateLemmas::role_there))]
    fn calls_above(&self, method: MethodNumber) -> bool
        ensures { result ≡ (is_construct (method_role self.now.image self.now.method) && constructs_class self.now.image method (parent_above self.now.image self.now.method)) }
    {
        let here = is_construct(self.linked.method(self.method).role);
        here && constructs_above(self.linked, method, self.parent_above())
    }

    /// A construct is called on self by a construct alone, and is the one of the parent.
    fn needs_above(&self, method: MethodNumber, constructs: bool) -> (bool, Reason)
        ensures { result ≡ (only_if constructs (is_construct (method_role self.now.image self.now.method) && constructs_class self.now.image method (parent_above self.now.image self.now.method)), NotFresh) }
    {
        if !constructs {
            return (true, Reason::NotFresh);
        }
        (self.calls_above(method), Reason::NotFresh)
    }

    /// And the fields of the parent are null.
    fn needs_empty_above(&self, constructs: bool) -> (bool, Reason)
        ensures { result ≡ (only_if constructs (empty_by self.now.image (parent_above self.now.image self.now.method) self.now.shape.fields), FieldNotNull) }
    {
        if !constructs {
            return (true, Reason::FieldNotNull);
        }
        let empty = empty_by(self.linked, self.parent_above(), self.shape);
        (empty, Reason::FieldNotNull)
    }

    /// What is asked where the method is called on the object that it works on itself.
    #[tactic(auto, using(aom_abstract_state::proofs::AbstractStateLemmas::class_there))]
    fn judge_this(&self, method: MethodNumber, callee: &Method) -> Result<(), Reason>
        ensures { result ≡ tested (rule_target self.now.image self.now.method self.now.shape This method callee.now.class (is_construct (Some callee.now.role)) 0 (length callee.now.arguments)) }
    {
        let here = self.linked.method(self.method).class;
        let constructs = is_construct(callee.role);
        let needs = [
            (
                stands_here(self.linked, here, callee.class),
                Reason::RegisterKind,
            ),
            self.needs_above(method, constructs),
            self.needs_empty_above(constructs),
        ];
        judge_all(&needs)
    }

    /// What is asked of a register that the method is called on.
    fn judge_register(&self, register: Register, call: &Call, callee: &Method) -> Result<(), Reason>
        ensures { result ≡ tested (rule_target self.now.image self.now.method self.now.shape (OnRegister register) call.now.method callee.now.class (is_construct (Some callee.now.role)) call.now.first (length callee.now.arguments)) }
    {
        let kind = self.shape.register(register);
        let is_argument = is_among(call.first, callee.arguments.len(), register);
        let needs = [
            (
                is_target(self.linked, callee.class, &kind),
                Reason::RegisterKind,
            ),
            (!is_argument, Reason::RegisterKind),
            age_need(self.linked, call.method, is_construct(callee.role), &kind),
        ];
        judge_all(&needs)
    }

    /// What is asked of what the method is called on.
    fn judge_target(&self, call: &Call, callee: &Method) -> Result<(), Reason>
        ensures { result ≡ tested (rule_target self.now.image self.now.method self.now.shape call.now.target call.now.method callee.now.class (is_construct (Some callee.now.role)) call.now.first (length callee.now.arguments)) }
    {
        match call.target {
            Target::This => self.judge_this(call.method, callee),
            Target::Register(register) => self.judge_register(register, call, callee),
            Target::Field(field) => {
                let kind = self.shape.field(field).kind(self.declared(field));
                judge_object(self.linked, call.method, callee, &kind)
            }
            Target::Entry(number) => self.judge_entry(number, call.method, callee),
        }
    }

    /// What is known once the arguments have moved, if what the method is called on and they are as they must be.
    fn given(&self, call: &Call, callee: &Method) -> Result<AbstractState<'a>, Reason>
        ensures { result ≡ judged (rule_given self.now.image self.now.method self.now.shape call.now.target call.now.method callee.now call.now.first) (arguments_moved callee.now.arguments call.now.first self.now.shape) }
    {
        let shape = self.shape;
        let arguments = callee.arguments.as_slice();
        self.judge_target(call, callee)?;
        judge_arguments(self.linked, shape, arguments, call.first)?;
        Ok(shape.without_arguments(arguments, call.first))
    }

    /// What is asked once the arguments have moved.
    fn judge_moved(&self, moved: &AbstractState<'_>, call: &Call) -> Result<(), Reason>
        requires { IsSome (method_at self.now.image call.now.method) }
        ensures { result ≡ tested (rule_moved self.now.image self.now.method moved.now call.now.target call.now.method call.now.result) }
    {
        let begins = may_begin(self.linked, call.method, call.target, moved.states());
        let gives = gives(self.linked, call.method);
        let may_leave = leaves(self.linked, call.method);
        let quiet = is_quiet(self.linked, self.method);
        let needs = [
            (begins, Reason::EntryState),
            (
                only_if(quiet, is_quiet(self.linked, call.method)),
                Reason::QuietBroken,
            ),
            (
                awaits(gives, moved.register(call.result)),
                Reason::RegisterKind,
            ),
            (
                only_if(may_leave, leaves(self.linked, self.method)),
                Reason::LeaveNotAllowed,
            ),
            (only_if(may_leave, moved.none_owns()), Reason::OwnedAtLeave),
            (
                only_if(may_leave, unissued(moved.states())),
                Reason::IssuedAtLeave,
            ),
            (
                only_if(may_leave, moved.message_state().is_here()),
                Reason::MessageAtLeave,
            ),
        ];
        judge_all(&needs)
    }

    pub fn rule_call(&self, call: &Call) -> Result<Flow, Reason>
        requires { IsSome (method_at self.now.image call.now.method) }
        ensures { reported self.now.shape.entries result ≡ call_answer self.now call.now.target call.now.method call.now.first call.now.result }
    {
        let callee = self.linked.method(call.method);
        let moved = self.given(call, callee)?;
        self.judge_moved(&moved, call)?;
        let lasting = while_called(call.target, callee.class, callee.after, &moved);
        Ok(self.on(brought(callee.gives, call.result, lasting)))
    }

    pub fn rule_trap(&self, call: &Call) -> Result<Flow, Reason>
        requires callee { IsSome (method_at self.now.image call.now.method) }
        requires code { call.now.result ≤ 14 }
        ensures { reported self.now.shape.entries result ≡ trap_answer self.now call.now.target call.now.method call.now.first call.now.result }
    {
        if is_quiet(self.linked, self.method) {
            return Err(Reason::QuietBroken);
        }
        let callee = self.linked.method(call.method);
        let moved = self.given(call, callee)?;
        judge_trapped(self.linked, &moved, call)?;
        let rested = resting(self.linked, callee.class);
        let lasting = while_called(call.target, callee.class, rested, &moved);
        Ok(self.on(caught(callee.gives, call.result, lasting)))
    }

    /// No cleanup entry is left but the one that the method leaves.
    fn entries_done(&self) -> bool
        ensures { result ≡ entries_done self.now.image (gives_of self.now.image self.now.method) self.now.shape.entries }
    {
        match gives(self.linked, self.method) {
            Gives::Nothing | Gives::Word | Gives::Own(_) | Gives::Maybe(_) => {
                self.shape.has_no_entry()
            }
            Gives::Left(class) => leaves_one(self.linked, class, self.shape),
        }
    }

    /// What is asked of the register of the result.
    fn judge_result(&self, a: Register) -> Result<(), Reason>
        ensures { result ≡ tested (rule_result self.now.image self.now.method self.now.place self.now.shape (gives_of self.now.image self.now.method) a) }
    {
        match gives(self.linked, self.method) {
            Gives::Nothing | Gives::Left(_) => {
                judge_all(&[(a.number() == 0, Reason::RegisterKind)])
            }
            Gives::Word => judge_all(&[self.needs_word(a)]),
            Gives::Own(thing) => {
                let owns = is_own_for(self.linked, thing, self.shape.register(a));
                judge_all(&[(owns, Reason::RegisterKind), self.needs_ready(a)])
            }
            Gives::Maybe(thing) => {
                let owns = may_be(self.linked, thing, self.shape.register(a));
                judge_all(&[(owns, Reason::RegisterKind), self.needs_ready(a)])
            }
        }
    }

    /// The registers once the result has moved out.
    fn result_moved(&self, a: Register) -> AbstractState<'a>
        ensures { result ≡ result_moved self.now.image self.now.method self.now.place self.now.shape (gives_of self.now.image self.now.method) a }
    {
        match gives(self.linked, self.method) {
            Gives::Nothing | Gives::Word | Gives::Left(_) => self.shape.same(),
            Gives::Own(_) | Gives::Maybe(_) => self.shape.with_register(a, Kind::Null),
        }
    }

    pub fn rule_return(&self, a: Register) -> Result<Flow, Reason>
        ensures { reported self.now.shape.entries result ≡ return_answer self.now a }
    {
        self.judge_result(a)?;
        let left = self.result_moved(a);
        let needs = [
            (self.entries_done(), Reason::CleanupAtReturn),
            (left.none_owns(), Reason::OwnedAtReturn),
        ];
        judge_all(&needs)?;
        judge(&self.ended(), Flow::none())
    }
}
