//! The shape that each role asks of a method.
ghost use Rattle.std.specs.Prelude.{◌≡◌, ◌↔◌, ◌||◌, IsTrue, All};
ghost use Rattle.std.specs.List.{list_all};
ghost use Rattle.aom_image.specs.Views.{gives_of, method_role};
ghost use Rattle.aom_roles.specs.Roles.{role_number};
ghost use Rattle.aom_roles.specs.States.{states_of};
ghost use Rattle.aom_roles.specs.Shapes.{may_leave, is_quiet, is_word, TakesWords, gives_nothing, gives_word, gives_left, is_object, gives_object, is_active_in, kind_of, StandsStill, DoesActive, DoesServer, IsDo, IsMain, IsConstruct, IsDestruct, IsRun, IsCancel, IsError, IsAccept, IsService, IsUndo, HasShape, FlagsFit, is_role, has_role, IsTrapped, NamesRoles, IsShaped, AllShaped};
ghost use Rattle.aom_roles.specs.Firsts.{FirstOf};

use crate::class_order::{is_session_in, kind_at, sessions_in};
use crate::roles::same_role;
use crate::states::{
    active_states, first_of, is_nonempty_subset, last_of, same_states, server_states, states_of,
};
use aom_image::{
    Argument, ClassKind, ClassNumber, Gives, Image, Instr, Method, MethodFlags, MethodNumber, Role,
    States, Thing,
};
use aom_instructions::{Action, CallMode};
use bitflags::Flags;

/// Whether a method may leave.
pub fn may_leave(method: &Method) -> bool
    ensures { result ≡ may_leave method.now }
{
    method.flags.contains(MethodFlags::LEAVES)
}

/// Whether a method is quiet.
pub fn is_quiet(method: &Method) -> bool
    ensures { result ≡ is_quiet method.now }
{
    method.flags.contains(MethodFlags::QUIET)
}

#[tactic(auto, unfolding(crate::specs::Shapes::is_word))]
fn is_word(argument: Argument) -> bool
    ensures { result ≡ is_word argument }
{
    matches!(argument, Argument::Word)
}

fn are_words(arguments: &[Argument]) -> bool
    ensures { result ≡ list_all is_word arguments.now }
{
    arguments.iter().all(|argument| is_word(*argument))
}

fn takes_words(method: &Method, count: usize) -> bool
    ensures { IsTrue result ↔ TakesWords count method.now }
{
    method.arguments.len() == count && are_words(method.arguments.as_slice())
}

#[tactic(auto, unfolding(crate::specs::Shapes::gives_nothing))]
pub fn gives_nothing(gives: Gives) -> bool
    ensures { result ≡ gives_nothing gives }
{
    matches!(gives, Gives::Nothing)
}

#[tactic(auto, unfolding(crate::specs::Shapes::gives_word))]
fn gives_word(gives: Gives) -> bool
    ensures { result ≡ gives_word gives }
{
    matches!(gives, Gives::Word)
}

#[tactic(auto, unfolding(crate::specs::Shapes::gives_left))]
fn gives_left(gives: Gives) -> bool
    ensures { result ≡ gives_left gives }
{
    matches!(gives, Gives::Left(_))
}

#[tactic(auto, unfolding(crate::specs::Shapes::is_object))]
fn is_object(class: ClassNumber, thing: Thing) -> bool
    ensures { result ≡ is_object class thing }
{
    match thing {
        Thing::Object(given) => given.number() == class.number(),
        Thing::Message => false,
    }
}

#[tactic(auto, unfolding(crate::specs::Shapes::gives_object))]
fn gives_object(class: ClassNumber, gives: Gives) -> bool
    ensures { result ≡ gives_object class gives }
{
    match gives {
        Gives::Own(thing) => is_object(class, thing),
        _ => false,
    }
}

#[tactic(auto, unfolding(crate::specs::Shapes::is_active_in))]
fn is_active_in(kind: Option<ClassKind>) -> bool
    ensures { result ≡ is_active_in kind }
{
    matches!(kind, Some(ClassKind::Active { .. }))
}

/// The kind of class whose objects a method works on.
#[tactic(auto, unfolding(crate::specs::Shapes::kind_of))]
fn kind_of(image: &Image, class: Option<ClassNumber>) -> Option<ClassKind>
    ensures { result ≡ kind_of image.now class }
{
    match class {
        Some(class) => kind_at(image, class),
        None => None,
    }
}

/// The states in which the object of a method of that class may be while nothing works on it. None where it has no class.
pub fn resting_states(image: &Image, class: Option<ClassNumber>) -> States
    ensures { result.0 ≡ states_of (kind_of image.now class) }
{
    states_of(kind_of(image, class))
}

/// It takes nothing and gives nothing.
fn has_plain_signature(method: &Method) -> bool
    ensures { IsTrue result ↔ (TakesWords 0 method.now × IsTrue (gives_nothing method.now.gives)) }
{
    takes_words(method, 0) && gives_nothing(method.gives)
}

fn stands_still(method: &Method) -> bool
    ensures { IsTrue result ↔ StandsStill method.now }
{
    same_states(method.before, States::NONE) && same_states(method.after, States::NONE)
}

fn does_active(method: &Method) -> bool
    ensures { IsTrue result ↔ DoesActive method.now }
{
    !same_states(method.before, States::NONE)
        && !same_states(method.after, States::NONE)
        && !method.after.contains(States::ISSUED)
}

fn does_server(method: &Method) -> bool
    ensures { IsTrue result ↔ DoesServer method.now }
{
    is_nonempty_subset(server_states(), method.before)
        && is_nonempty_subset(server_states(), method.after)
}

fn is_do(kind: Option<ClassKind>, method: &Method) -> bool
    ensures { IsTrue result ↔ IsDo kind method.now }
{
    match kind {
        Some(ClassKind::Active { .. }) => does_active(method),
        Some(ClassKind::Server { .. }) => does_server(method),
        None | Some(ClassKind::Plain | ClassKind::Session) => stands_still(method),
    }
}

fn is_main(kind: Option<ClassKind>, method: &Method) -> bool
    ensures { IsTrue result ↔ IsMain kind method.now }
{
    kind.is_none() && has_plain_signature(method) && stands_still(method) && !is_quiet(method)
}

fn is_construct(kind: Option<ClassKind>, method: &Method) -> bool
    ensures { IsTrue result ↔ IsConstruct kind method.now }
{
    kind.is_some()
        && gives_nothing(method.gives)
        && same_states(method.before, first_of(kind))
        && is_nonempty_subset(states_of(kind), method.after)
}

fn is_destruct(kind: Option<ClassKind>, method: &Method) -> bool
    ensures { IsTrue result ↔ IsDestruct kind method.now }
{
    kind.is_some()
        && has_plain_signature(method)
        && same_states(method.before, states_of(kind))
        && same_states(method.after, last_of(kind))
        && is_quiet(method)
}

fn is_run(kind: Option<ClassKind>, method: &Method) -> bool
    ensures { IsTrue result ↔ IsRun kind method.now }
{
    is_active_in(kind)
        && has_plain_signature(method)
        && same_states(method.before, States::IDLE)
        && is_nonempty_subset(active_states(), method.after)
}

fn is_cancel(kind: Option<ClassKind>, method: &Method) -> bool
    ensures { IsTrue result ↔ IsCancel kind method.now }
{
    is_active_in(kind)
        && has_plain_signature(method)
        && same_states(method.before, States::OPEN)
        && same_states(method.after, States::DONE)
        && is_quiet(method)
}

fn is_error(kind: Option<ClassKind>, method: &Method) -> bool
    ensures { IsTrue result ↔ IsError kind method.now }
{
    is_active_in(kind)
        && takes_words(method, 1)
        && gives_word(method.gives)
        && same_states(method.before, States::IDLE.union(States::ACTIVE))
        && is_nonempty_subset(active_states(), method.after)
        && !may_leave(method)
}

fn is_accept(kind: Option<ClassKind>, method: &Method) -> bool
    ensures { IsTrue result ↔ IsAccept kind method.now }
{
    let Some(sessions) = sessions_in(kind) else {
        return false;
    };
    takes_words(method, 0)
        && gives_object(sessions, method.gives)
        && same_states(method.before, States::IDLE)
        && is_nonempty_subset(server_states(), method.after)
}

fn is_service(kind: Option<ClassKind>, method: &Method) -> bool
    ensures { IsTrue result ↔ IsService kind method.now }
{
    is_session_in(kind)
        && takes_words(method, 5)
        && gives_nothing(method.gives)
        && stands_still(method)
}

fn is_undo(kind: Option<ClassKind>, method: &Method) -> bool
    ensures { IsTrue result ↔ IsUndo kind method.now }
{
    kind.is_none()
        && takes_words(method, 1)
        && gives_nothing(method.gives)
        && stands_still(method)
        && is_quiet(method)
}

fn has_shape(kind: Option<ClassKind>, method: &Method) -> bool
    ensures { IsTrue result ↔ HasShape method.now.role kind method.now }
{
    match method.role {
        Role::Do => is_do(kind, method),
        Role::Main => is_main(kind, method),
        Role::Construct => is_construct(kind, method),
        Role::Destruct => is_destruct(kind, method),
        Role::Run => is_run(kind, method),
        Role::Cancel => is_cancel(kind, method),
        Role::Error => is_error(kind, method),
        Role::Accept => is_accept(kind, method),
        Role::Service => is_service(kind, method),
        Role::Undo => is_undo(kind, method),
    }
}

fn flags_fit(method: &Method) -> bool
    ensures { IsTrue result ↔ FlagsFit method.now }
{
    (!is_quiet(method) || !may_leave(method)) && (!gives_left(method.gives) || may_leave(method))
}

#[tactic(auto, unfolding(crate::specs::Shapes::is_role, aom_image::specs::Views::role_in, aom_image::specs::Views::method_at))]
fn has_role(image: &Image, method: MethodNumber, role: Role) -> bool
    ensures { result ≡ has_role image.now method role }
{
    let methods = image.methods();
    match methods.as_slice().get(method.number() as usize) {
        Some(method) => same_role(method.role, role),
        None => false,
    }
}

/// What a method gives.
#[tactic(auto, unfolding(aom_image::specs::Views::gives_in, aom_image::specs::Views::method_at))]
pub fn gives_of(image: &Image, method: MethodNumber) -> Gives
    ensures { result ≡ gives_of image.now method }
{
    let methods = image.methods();
    match methods.as_slice().get(method.number() as usize) {
        Some(method) => method.gives,
        None => Gives::Nothing,
    }
}

fn is_trapped(image: &Image, method: MethodNumber) -> bool
    ensures { IsTrue result ↔ IsTrapped image.now method }
{
    has_role(image, method, Role::Do) && !gives_left(gives_of(image, method))
}

fn names_roles(image: &Image, instr: &Instr) -> bool
    ensures { IsTrue result ↔ NamesRoles image.now instr.now }
{
    match &instr.action() {
        Action::Call(CallMode::Plain, _, method, _, _) => {
            has_role(image, *method, Role::Do) || has_role(image, *method, Role::Construct)
        }
        Action::Call(CallMode::Trapped, _, method, _, _) => is_trapped(image, *method),
        Action::PushOperation(_, method) => has_role(image, *method, Role::Undo),
        _ => true,
    }
}

/// The first instruction that names a method of a role that it may not.
pub fn first_misnaming(image: &Image, code: &[Instr]) -> Option<usize>
    ensures { FirstOf (λ _. NamesRoles image.now) code.now result }
{
    for (place, instr) in code.iter().enumerate() {
        if !names_roles(image, instr) {
            return Some(place);
        }
    }
    None
}

fn each_names_roles(image: &Image, code: &[Instr]) -> bool
    ensures { IsTrue result ↔ All (NamesRoles image.now) code.now }
{
    first_misnaming(image, code).is_none()
}

fn is_shaped(image: &Image, method: &Method) -> bool
    ensures { IsTrue result ↔ IsShaped image.now method.now }
{
    flags_fit(method)
        && has_shape(kind_of(image, method.class), method)
        && each_names_roles(image, method.code.as_slice())
}

/// The first method that has not the shape of its role, or that names one of a role that it may not.
pub fn first_unshaped(image: &Image, methods: &[Method]) -> Option<usize>
    ensures { FirstOf (λ _. IsShaped image.now) methods.now result }
{
    for (number, method) in methods.iter().enumerate() {
        if !is_shaped(image, method) {
            return Some(number);
        }
    }
    None
}

/// Whether each method has the shape of its role, and each instruction names methods of the roles that it may.
pub fn all_are_shaped(image: &Image) -> bool
    ensures { IsTrue result ↔ AllShaped image.now }
{
    first_unshaped(image, image.methods().as_slice()).is_none()
}
