//! What is known where a method stands.
ghost use Rattle.std.specs.Prelude.{◌≡◌, ◌++◌, ◌||◌, ◌<◌, IsSome, OnOk, decimal, not};
ghost use Rattle.aom_image.specs.Views.{has, method_at};
ghost use Rattle.aom_abstract_state.specs.Kinds.{field, register};
ghost use Rattle.aom_abstract_state.specs.Tests.{is_unset};
ghost use Rattle.aom_roles.specs.Things.{field_thing, holder_of};
ghost use Rattle.aom_diagnostics.specs.Known.{age_words, any_known, class_words, delivery_line, entries_line, entry_line, entry_part, entry_parts, entry_words, field_line, field_part, field_parts, fields_line, held_words, kind_words, known_text, lead_of, more_words, owned_words, pushed_words, register_part, register_parts, registers_line, rest_words, set_part, state_line, state_parts, states_line, thing_words, words_where};

use aom_abstract_state::{AbstractState, CleanupEntry, FieldState, InitState, Kind, MessageState};
use aom_cost_report::{FigureWriter, Names};
use aom_image::{ClassNumber, FieldIndex, MethodNumber, States, Thing};
use aom_linker::Linked;
use aom_rule_context::field_thing;
use bitflags::Flags;
use std::alloc::AllocError;

/// How many registers and cleanup entries an instruction may name.
const NAMED: u8 = 16;

/// Where a method stands, with what is known there.
#[derive(Clone, Copy)]
struct MethodPoint<'a> {
    linked: &'a Linked,
    method: MethodNumber,
    shape: &'a AbstractState<'a>,
}

fn write_class(
    out: &mut FigureWriter,
    names: &Names<'_>,
    class: ClassNumber,
) -> Result<(), AllocError>
    ensures { OnOk result (out.new ≡ out.old ++ class_words names.now class) }
{
    out.words(b"an object of class ")?;
    names.write_class(out, b"", class)
}

fn write_thing(out: &mut FigureWriter, names: &Names<'_>, thing: Thing) -> Result<(), AllocError>
    ensures { OnOk result (out.new ≡ out.old ++ thing_words names.now thing) }
{
    match thing {
        Thing::Object(class) => write_class(out, names, class),
        Thing::Message => out.words(b"a message"),
    }
}

fn write_age(out: &mut FigureWriter, age: InitState) -> Result<(), AllocError>
    ensures { OnOk result (out.new ≡ out.old ++ age_words age) }
{
    match age {
        InitState::Fresh => out.words(b", fresh"),
        InitState::Ready => Ok(()),
    }
}

fn write_owned(
    out: &mut FigureWriter,
    names: &Names<'_>,
    lead: &[u8],
    thing: Thing,
    age: InitState,
) -> Result<(), AllocError>
    ensures { OnOk result (out.new ≡ out.old ++ owned_words names.now lead.now thing age) }
{
    out.words(lead)?;
    write_thing(out, names, thing)?;
    write_age(out, age)
}

/// Writes what a register or a field holds.
pub fn write_kind(out: &mut FigureWriter, names: &Names<'_>, kind: Kind) -> Result<(), AllocError>
    ensures { OnOk result (out.new ≡ out.old ++ kind_words names.now kind) }
{
    match kind {
        Kind::Unset => out.words(b"unset"),
        Kind::Word => out.words(b"a word"),
        Kind::Null => out.words(b"null"),
        Kind::Own(thing, age) => write_owned(out, names, b"owns ", thing, age),
        Kind::Maybe(thing, age) => write_owned(out, names, b"null, or owns ", thing, age),
    }
}

fn write_number(out: &mut FigureWriter, lead: &[u8], number: u8) -> Result<(), AllocError>
    ensures { OnOk result (out.new ≡ out.old ++ (lead.now ++ decimal number)) }
{
    out.count(lead, u64::from(number))
}

/// Writes a place by its number, and what it holds.
fn write_held(
    out: &mut FigureWriter,
    names: &Names<'_>,
    lead: &[u8],
    number: u8,
    kind: Kind,
) -> Result<(), AllocError>
    ensures { OnOk result (out.new ≡ out.old ++ held_words names.now lead.now number kind) }
{
    out.count(lead, u64::from(number))?;
    out.words(b" ")?;
    write_kind(out, names, kind)
}

/// How the first place of its line begins, and how one behind others.
fn lead_of<'a>(number: u8, first: &'a [u8], later: &'a [u8]) -> &'a [u8]
    ensures { result.now ≡ lead_of number first.now later.now }
{
    if number == 0 { first } else { later }
}

/// Something is known of a register of that kind.
fn is_set(kind: Kind) -> bool
    ensures { result ≡ not (is_unset kind) }
{
    match kind {
        Kind::Unset => false,
        Kind::Word | Kind::Null | Kind::Own(_, _) | Kind::Maybe(_, _) => true,
    }
}

/// The same, or of one before.
fn or_set(any: bool, kind: Kind) -> bool
    ensures { result ≡ (any || not (is_unset kind)) }
{
    any || is_set(kind)
}

fn any_known(shape: &AbstractState<'_>) -> bool
    ensures { result ≡ any_known shape.now }
{
    let mut any = false;
    for number in 0..NAMED {
        any = or_set(any, shape.kind_at(number as usize));
    }
    any
}

fn write_set(
    out: &mut FigureWriter,
    names: &Names<'_>,
    number: u8,
    kind: Kind,
) -> Result<(), AllocError>
    ensures { OnOk result (out.new ≡ out.old ++ set_part names.now number kind) }
{
    write_held(out, names, b" r", number, kind)?;
    out.words(b";")
}

/// Writes what a register holds, if anything is known of it.
fn write_register(
    out: &mut FigureWriter,
    names: &Names<'_>,
    number: u8,
    kind: Kind,
) -> Result<(), AllocError>
    ensures { OnOk result (out.new ≡ out.old ++ register_part names.now number kind) }
{
    match kind {
        Kind::Unset => Ok(()),
        Kind::Word | Kind::Null | Kind::Own(_, _) | Kind::Maybe(_, _) => write_set(
            out, names, number, kind,
        ),
    }
}

#[tactic(auto, using(crate::proofs::Parts::one_part_more), unfolding(crate::specs::Known::register_parts))]
fn write_register_parts(
    out: &mut FigureWriter,
    names: &Names<'_>,
    shape: &AbstractState<'_>,
) -> Result<(), AllocError>
    ensures { OnOk result (out.new ≡ out.old ++ register_parts names.now shape.now) }
{
    for number in 0..NAMED {
        let kind = shape.kind_at(number as usize);
        write_register(out, names, number, kind)?;
    }
    Ok(())
}

/// Writes what is known of those that have no part, some others having one or none.
fn write_rest(out: &mut FigureWriter, any: bool) -> Result<(), AllocError>
    ensures { OnOk result (out.new ≡ out.old ++ rest_words any) }
{
    if any {
        out.words(b" all others unset")
    } else {
        out.words(b" all unset")
    }
}

fn write_registers(
    out: &mut FigureWriter,
    names: &Names<'_>,
    shape: &AbstractState<'_>,
) -> Result<(), AllocError>
    ensures { OnOk result (out.new ≡ out.old ++ registers_line names.now shape.now) }
{
    out.words(b"Known of registers:")?;
    write_register_parts(out, names, shape)?;
    write_rest(out, any_known(shape))?;
    out.words(b"\n")
}

/// Writes what a field holds, if it is declared.
fn write_field(
    out: &mut FigureWriter,
    names: &Names<'_>,
    number: FieldIndex,
    declared: Option<Thing>,
    field_state: FieldState,
) -> Result<(), AllocError>
    ensures { OnOk result (out.new ≡ out.old ++ field_part names.now number declared field_state) }
{
    match declared {
        Some(_) => {
            let number = number.number();
            write_held(
                out,
                names,
                lead_of(number, b" f", b"; f"),
                number,
                field_state.kind(declared),
            )
        }
        None => Ok(()),
    }
}

fn field_at(number: u8) -> FieldIndex
    requires { number < 8 }
    ensures { result ≡ number }
{
    FieldIndex::new(number).unwrap()
}

#[tactic(auto, using(crate::proofs::Parts::one_part_more), unfolding(crate::specs::Known::field_parts))]
fn write_field_parts(
    out: &mut FigureWriter,
    names: &Names<'_>,
    at: &MethodPoint<'_>,
) -> Result<(), AllocError>
    requires { IsSome (method_at at.now.linked.now at.now.method) }
    ensures { OnOk result (out.new ≡ out.old ++ field_parts names.now at.now.linked.now at.now.method at.now.shape.now) }
{
    for number in 0..8u8 {
        let field = field_at(number);
        let declared = field_thing(at.linked, at.method, field);
        write_field(out, names, field, declared, at.shape.field(field))?;
    }
    Ok(())
}

fn write_field_line(
    out: &mut FigureWriter,
    names: &Names<'_>,
    at: &MethodPoint<'_>,
) -> Result<(), AllocError>
    requires { IsSome (method_at at.now.linked.now at.now.method) }
    ensures { OnOk result (out.new ≡ out.old ++ field_line names.now at.now.linked.now at.now.method at.now.shape.now) }
{
    out.words(b"Known of fields:")?;
    write_field_parts(out, names, at)?;
    out.words(b"\n")
}

/// Writes what the fields hold that the method works on, if there are any.
fn write_fields(
    out: &mut FigureWriter,
    names: &Names<'_>,
    at: &MethodPoint<'_>,
) -> Result<(), AllocError>
    requires { IsSome (method_at at.now.linked.now at.now.method) }
    ensures { OnOk result (out.new ≡ out.old ++ fields_line names.now at.now.linked.now at.now.method at.now.shape.now) }
{
    match field_thing(at.linked, at.method, FieldIndex::FIRST) {
        Some(_) => write_field_line(out, names, at),
        None => Ok(()),
    }
}

fn write_object(
    out: &mut FigureWriter,
    names: &Names<'_>,
    class: ClassNumber,
    age: InitState,
) -> Result<(), AllocError>
    ensures { OnOk result (out.new ≡ out.old ++ (class_words names.now class ++ age_words age)) }
{
    write_class(out, names, class)?;
    write_age(out, age)
}

fn write_pushed(
    out: &mut FigureWriter,
    names: &Names<'_>,
    entry: CleanupEntry,
) -> Result<(), AllocError>
    ensures { OnOk result (out.new ≡ out.old ++ pushed_words names.now entry) }
{
    match entry {
        CleanupEntry::Object(class, age) => write_object(out, names, class, age),
        CleanupEntry::Operation => out.words(b"an operation"),
    }
}

/// Writes a cleanup entry by its number, and what it is.
fn write_numbered(
    out: &mut FigureWriter,
    names: &Names<'_>,
    lead: &[u8],
    number: u8,
    entry: CleanupEntry,
) -> Result<(), AllocError>
    ensures { OnOk result (out.new ≡ out.old ++ entry_words names.now lead.now number entry) }
{
    write_number(out, lead, number)?;
    out.words(b" ")?;
    write_pushed(out, names, entry)
}

/// Writes a cleanup entry, if it is there.
fn write_entry_part(
    out: &mut FigureWriter,
    names: &Names<'_>,
    number: u8,
    entry: Option<CleanupEntry>,
) -> Result<(), AllocError>
    ensures { OnOk result (out.new ≡ out.old ++ entry_part names.now number entry) }
{
    match entry {
        Some(entry) => write_numbered(out, names, lead_of(number, b" c", b"; c"), number, entry),
        None => Ok(()),
    }
}

#[tactic(auto, using(crate::proofs::Parts::one_part_more), unfolding(crate::specs::Known::entry_parts))]
fn write_entry_parts(
    out: &mut FigureWriter,
    names: &Names<'_>,
    shape: &AbstractState<'_>,
) -> Result<(), AllocError>
    ensures { OnOk result (out.new ≡ out.old ++ entry_parts names.now shape.now) }
{
    for number in 0..NAMED {
        write_entry_part(out, names, number, shape.entry(number as usize))?;
    }
    Ok(())
}

/// Writes that there are more than are named, where that is so.
fn write_more(out: &mut FigureWriter, height: usize) -> Result<(), AllocError>
    ensures { OnOk result (out.new ≡ out.old ++ more_words height) }
{
    if height > NAMED as usize {
        out.words(b"; others below them")
    } else {
        Ok(())
    }
}

fn write_entry_line(
    out: &mut FigureWriter,
    names: &Names<'_>,
    shape: &AbstractState<'_>,
) -> Result<(), AllocError>
    ensures { OnOk result (out.new ≡ out.old ++ entry_line names.now shape.now) }
{
    out.words(b"Known of cleanup entries:")?;
    write_entry_parts(out, names, shape)?;
    write_more(out, shape.height())?;
    out.words(b"\n")
}

/// Writes the method's own cleanup entries, if there are any.
fn write_entries(
    out: &mut FigureWriter,
    names: &Names<'_>,
    shape: &AbstractState<'_>,
) -> Result<(), AllocError>
    ensures { OnOk result (out.new ≡ out.old ++ entries_line names.now shape.now) }
{
    if shape.height() == 0 {
        return Ok(());
    }
    write_entry_line(out, names, shape)
}

/// Writes words, where that state is in the set.
fn write_state(
    out: &mut FigureWriter,
    set: States,
    state: States,
    words: &[u8],
) -> Result<(), AllocError>
    ensures { OnOk result (out.new ≡ out.old ++ words_where (has set.0 state.0) words.now) }
{
    if set.contains(state) {
        out.words(words)
    } else {
        Ok(())
    }
}

fn write_state_parts(out: &mut FigureWriter, set: States) -> Result<(), AllocError>
    ensures { OnOk result (out.new ≡ out.old ++ state_parts set.0) }
{
    write_state(out, set, States::UNLISTED, b" not enlisted (u);")?;
    write_state(out, set, States::IDLE, b" idle (i);")?;
    write_state(out, set, States::ISSUED, b" issued (s);")?;
    write_state(out, set, States::ACTIVE, b" active (a);")?;
    write_state(out, set, States::OPEN, b" being cancelled, open (o);")?;
    write_state(out, set, States::DONE, b" being cancelled, done (d);")
}

fn write_state_line(out: &mut FigureWriter, set: States) -> Result<(), AllocError>
    ensures { OnOk result (out.new ≡ out.old ++ state_line set.0) }
{
    out.words(b"Known of request states:")?;
    write_state_parts(out, set)?;
    out.words(b" no others\n")
}

/// Writes in which request states the object may be, if its class has any.
fn write_states(out: &mut FigureWriter, set: States) -> Result<(), AllocError>
    ensures { OnOk result (out.new ≡ out.old ++ states_line set.0) }
{
    if set.bits() == 0 {
        return Ok(());
    }
    write_state_line(out, set)
}

fn write_delivery(out: &mut FigureWriter, message_state: MessageState) -> Result<(), AllocError>
    ensures { OnOk result (out.new ≡ out.old ++ delivery_line message_state) }
{
    match message_state {
        MessageState::Here => Ok(()),
        MessageState::Gone => out.words(b"Known of the message: taken\n"),
    }
}

/// Writes all that is known where a method stands, each part on its line.
pub fn write_known(
    out: &mut FigureWriter,
    names: &Names<'_>,
    linked: &Linked,
    method: MethodNumber,
    shape: &AbstractState<'_>,
) -> Result<(), AllocError>
    requires { IsSome (method_at linked.now method) }
    ensures { OnOk result (out.new ≡ out.old ++ known_text names.now linked.now method shape.now) }
{
    write_registers(out, names, shape)?;
    let at = MethodPoint {
        linked,
        method,
        shape,
    };
    write_fields(out, names, &at)?;
    write_entries(out, names, shape)?;
    write_states(out, shape.states())?;
    write_delivery(out, shape.message_state())
}
