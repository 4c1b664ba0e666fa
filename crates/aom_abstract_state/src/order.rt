//! The order between abstract states.
ghost use Rattle.std.specs.Prelude.{◌≡◌, ◌<◌, ◌&&◌, ◌↔◌, List, IsTrue, IfOk, IfErr, IfSome, None};
ghost use Rattle.aom_image.specs.Views.{has};
ghost use Rattle.aom_abstract_state.specs.Changes.{kept_shape, known_with};
ghost use Rattle.aom_abstract_state.specs.EntryStacks.{entries_of};
ghost use Rattle.aom_abstract_state.specs.Meet.{Met, Unmet, MetFillings, IsMeet, NoMeet, ReasonNoMeet};
ghost use Rattle.aom_abstract_state.specs.Order.{IsImpliedBy};
ghost use Rattle.aom_abstract_state.specs.Tests.{all_implied, all_implied_field_states, same_message_state};
ghost use Rattle.aom_abstract_state.specs.declared.kind.CleanupEntry.{CleanupEntry};

use crate::{AbstractState, EntryStacks, FieldState, Kept, Kind, Known, Reason};
use bitflags::Flags;

fn kinds_are_implied(a: &[Kind], b: &[Kind]) -> bool
    ensures { result ≡ all_implied a.now b.now }
{
    for (one, other) in a.iter().zip(b) {
        if !one.is_implied_by(other) {
            return false;
        }
    }
    true
}

fn field_states_are_implied(a: &[FieldState], b: &[FieldState]) -> bool
    ensures { result ≡ all_implied_field_states a.now b.now }
{
    for (one, other) in a.iter().zip(b) {
        if !one.is_implied_by(*other) {
            return false;
        }
    }
    true
}

/// The first may be in each state in which the second may be, and the same became of the message.
fn requests_are_implied(a: &Known, b: &Known) -> bool
    ensures { result ≡ (has a.now.states b.now.states && same_message_state a.now.message_state b.now.message_state) }
{
    a.states.contains(b.states) && a.message_state.is_same(b.message_state)
}

fn known_is_implied(a: &Known, b: &Known) -> bool
    ensures { (xs ys : List CleanupEntry) → xs ≡ ys → IsTrue result ↔ IsImpliedBy (known_with a.now xs) (known_with b.now ys) }
{
    if !requests_are_implied(a, b) {
        return false;
    }
    kinds_are_implied(&a.registers, &b.registers) && field_states_are_implied(&a.fields, &b.fields)
}

/// Whether a state says no more than another, by whether their cleanup entries are the same.
fn weaker_if(has_same_entries: bool, a: &Known, b: &Known) -> bool
    ensures { (xs ys : List CleanupEntry) → (IsTrue has_same_entries ↔ (xs ≡ ys)) → IsTrue result ↔ IsImpliedBy (known_with a.now xs) (known_with b.now ys) }
{
    has_same_entries && known_is_implied(a, b)
}

/// Whether the first state says no more than the second.
pub fn weaker(a: &AbstractState<'_>, b: &AbstractState<'_>) -> bool
    ensures { IsTrue result ↔ IsImpliedBy a.now b.now }
{
    weaker_if(a.has_same_entries(b), &a.known, &b.known)
}

/// The same of two states whose cleanup entries stand in one place.
pub fn weaker_kept(entry_stacks: &EntryStacks, a: &Kept, b: &Kept) -> bool
    ensures { IsTrue result ↔ IsImpliedBy (kept_shape entry_stacks.now a.now) (kept_shape entry_stacks.now b.now) }
{
    let has_same_entries = entry_stacks.are_same(a.entry_stack, b.entry_stack);
    weaker_if(has_same_entries, &a.known, &b.known)
}

fn meet_kinds(a: &[Kind; 16], b: &[Kind; 16]) -> Option<[Kind; 16]>
    ensures some { IfSome result (λ m. Met a.now b.now m 16) }
    ensures none { result ≡ None → Unmet a.now b.now }
{
    let mut kinds = [Kind::Unset; 16];
    for index in 0..16 {
        kinds[index] = a[index].meet(&b[index])?;
    }
    Some(kinds)
}

fn meet_fillings(a: &[FieldState; 8], b: &[FieldState; 8]) -> [FieldState; 8]
    ensures { MetFillings a.now b.now result 8 }
{
    let mut field_states = [FieldState::Perhaps; 8];
    for index in 0..8 {
        field_states[index] = a[index].meet(b[index]);
    }
    field_states
}

/// The meet of what is known apart from the cleanup entries, if the registers have one. What became of the message is taken
/// from the first.
fn meet_known(a: &Known, b: &Known) -> Option<Known>
    ensures some { IfSome result (λ m. (xs ys : List CleanupEntry) → xs ≡ ys → a.now.message_state ≡ b.now.message_state → IsMeet (known_with m xs) (known_with a.now xs) (known_with b.now ys)) }
    ensures met { IfSome result (λ m. ¬ Unmet a.now.registers b.now.registers) }
    ensures none { result ≡ None → Unmet a.now.registers b.now.registers }
    ensures byte { IfSome result (λ m. m.states < 256) }
{
    let registers = meet_kinds(&a.registers, &b.registers)?;
    let fields = meet_fillings(&a.fields, &b.fields);
    let states = a.states.union(b.states);
    Some(Known {
        registers,
        fields,
        states,
        message_state: a.message_state,
    })
}

/// What is known in the strongest state that says no more than either, by whether their cleanup entries are the same.
fn meet_if(has_same_entries: bool, a: &Known, b: &Known) -> Result<Known, Reason>
    ensures ok { (xs ys : List CleanupEntry) → (IsTrue has_same_entries ↔ (xs ≡ ys)) → IfOk result (λ m. IsMeet (known_with m xs) (known_with a.now xs) (known_with b.now ys)) }
    ensures byte { IfOk result (λ m. m.states < 256) }
    ensures err { (xs ys : List CleanupEntry) → (IsTrue has_same_entries ↔ (xs ≡ ys)) → IfErr result (λ why. NoMeet (known_with a.now xs) (known_with b.now ys) × ReasonNoMeet (known_with a.now xs) (known_with b.now ys) why) }
{
    let Some(known) = meet_known(a, b) else {
        return Err(Reason::RegisterKind);
    };
    if !has_same_entries {
        return Err(Reason::CleanupAtReturn);
    }
    if !a.message_state.is_same(b.message_state) {
        return Err(Reason::MessageAtReturn);
    }
    Ok(known)
}

/// The strongest state that says no more than either. A Why where nothing says no more than both: `RegisterKind` where
/// two registers have nothing in common, else `CleanupAtReturn` where the cleanup entries differ, and else `MessageAtReturn`,
/// where the message is here in one and gone in the other.
pub fn meet<'a>(a: &AbstractState<'a>, b: &AbstractState<'_>) -> Result<AbstractState<'a>, Reason>
    ensures ok { IfOk result (λ m. IsMeet m a.now b.now) }
    ensures byte { IfOk result (λ m. m.states < 256) }
    ensures err { IfErr result (λ why. NoMeet a.now b.now × ReasonNoMeet a.now b.now why) }
{
    match meet_if(a.has_same_entries(b), &a.known, &b.known) {
        Ok(known) => Ok(a.with_known(known)),
        Err(why) => Err(why),
    }
}

/// The same of two states whose cleanup entries stand in one place: what is known in the meet. Its entries are those of the first.
pub fn meet_kept(entry_stacks: &EntryStacks, a: &Kept, b: &Kept) -> Result<Known, Reason>
    ensures ok { IfOk result (λ m. IsMeet (known_with m (entries_of entry_stacks.now a.now.entry_stack)) (kept_shape entry_stacks.now a.now) (kept_shape entry_stacks.now b.now)) }
    ensures byte { IfOk result (λ m. m.states < 256) }
    ensures err { IfErr result (λ why. NoMeet (kept_shape entry_stacks.now a.now) (kept_shape entry_stacks.now b.now) × ReasonNoMeet (kept_shape entry_stacks.now a.now) (kept_shape entry_stacks.now b.now) why) }
{
    let has_same_entries = entry_stacks.are_same(a.entry_stack, b.entry_stack);
    meet_if(has_same_entries, &a.known, &b.known)
}
