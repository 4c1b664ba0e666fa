//! What a need is about, and whether two states have it alike.
ghost use Rattle.std.specs.Prelude.{◌≡◌, IsSome};
ghost use Rattle.aom_image.specs.Views.{instr_at};
ghost use Rattle.aom_origins.specs.Subjects.{is_same, needed_subject, of_operand, of_target, same_field_state, same_kind, subject_of};

use aom_abstract_state::{AbstractState, FieldState, Kind, Known, Reason};
use aom_image::{FieldIndex, MethodNumber, Register, Target};
use aom_linker::Linked;
use aom_needs::{Operand, Wanted, first_needed};
use bitflags::Flags;

/// A part of what is known at a place.
#[derive(Clone, Copy)]
pub enum Subject {
    Register(Register),
    Field(FieldIndex),
    /// The states in which the request of the method's object may be.
    Request,
    /// What became of the message in service.
    Message,
}

fn of_operand(operand: Operand) -> Option<Subject>
    ensures { result ≡ of_operand operand }
{
    match operand {
        Operand::Register(r) => Some(Subject::Register(r)),
        Operand::Field(f) => Some(Subject::Field(f)),
        Operand::Entry(_) => None,
    }
}

fn of_target(target: Target) -> Option<Subject>
    ensures { result ≡ of_target target }
{
    match target {
        Target::This => Some(Subject::Request),
        Target::Register(_) | Target::Field(_) | Target::Entry(_) => None,
    }
}

/// What a need is about, if that is one part of what is known.
fn subject_of(wanted: Wanted) -> Option<Subject>
    ensures { result ≡ subject_of wanted }
{
    match wanted {
        Wanted::Word(r) => Some(Subject::Register(r)),
        Wanted::Unowning(r) => Some(Subject::Register(r)),
        Wanted::ObjectOrNull(r) => Some(Subject::Register(r)),
        Wanted::Deletable(r) => Some(Subject::Register(r)),
        Wanted::Pushable(r) => Some(Subject::Register(r)),
        Wanted::Owner(operand, _) => of_operand(operand),
        Wanted::OwnerOrNull(r, _) => Some(Subject::Register(r)),
        Wanted::ResultRegister(_, r) => Some(Subject::Register(r)),
        Wanted::Message => Some(Subject::Message),
        Wanted::Begin(_, target) => of_target(target),
        Wanted::End | Wanted::Cancelling | Wanted::Inactive => Some(Subject::Request),
        _ => None,
    }
}

fn is_same_kind(one: &Kind, other: &Kind) -> bool
    ensures { result ≡ same_kind one.now other.now }
{
    one.is_implied_by(other) && other.is_implied_by(one)
}

fn is_same_field_state(one: FieldState, other: FieldState) -> bool
    ensures { result ≡ same_field_state one other }
{
    one.is_implied_by(other) && other.is_implied_by(one)
}

/// Whether two states know the same of it.
pub(crate) fn is_same(subject: &Subject, one: &Known, other: &Known) -> bool
    ensures { result ≡ is_same subject.now one.now other.now }
{
    match *subject {
        Subject::Register(r) => {
            let index = r.number() as usize;
            is_same_kind(&one.kind_at(index), &other.kind_at(index))
        }
        Subject::Field(f) => is_same_field_state(one.field(f), other.field(f)),
        Subject::Request => one.states.bits() == other.states.bits(),
        Subject::Message => one.message_state.is_same(other.message_state),
    }
}

/// What the first need is about that the instruction at a place does not meet, where that is refused for a reason that is told.
pub fn needed_subject(
    linked: &Linked,
    method: MethodNumber,
    place: usize,
    shape: &AbstractState<'_>,
    why: Reason,
) -> Option<Subject>
    requires { IsSome (instr_at linked.now method place) }
    ensures { result ≡ needed_subject linked.now method place shape.now why }
{
    match first_needed(linked, method, place, shape, why) {
        Some(wanted) => subject_of(wanted),
        None => None,
    }
}
