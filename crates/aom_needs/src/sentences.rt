//! The sentence of what is needed, and what is there instead.
ghost use Rattle.std.specs.Prelude.{◌≡◌, ◌++◌, OnOk, codes, length};
ghost use Rattle.aom_image.specs.Views.{arguments_of};
ghost use Rattle.aom_abstract_state.specs.Kinds.{register};
ghost use Rattle.aom_needs.specs.Sentences.{arguments_need, ask_of, ask_words, class_clause, class_named, class_words, entry_clause, kind_clause, method_need, need_words, numbered, object_need, operand_clause, operand_words, owner_need, owner_place, owner_or_null, provider_clause, pushed_clause, register_need, rid_of, rid_words, sentence, states_clause, sure_words, thing_words, two_numbers, unowning_need, word_need};
ghost use Rattle.aom_roles.specs.Things.{holder_of, word_count};
ghost use Rattle.aom_typing_rules.specs.Requests.{own_kind};

use crate::classes::own_kind;
use crate::methods::{after_of, arguments_of, before_of, called_in, word_count};
use crate::owners::{held, may_be_object, may_stand};
use crate::states::{write_begin, write_states_clause, write_states_need};
use crate::unmet::cancelling;
use crate::{ClassNeed, Operand, Wanted};
use aom_abstract_state::{AbstractState, CleanupEntry, Kind};
use aom_cost_report::{FigureWriter, Names};
use aom_image::{
    ClassKind, ClassNumber, FieldIndex, MethodNumber, Provider, Register, States, Thing, WordIndex,
};
use aom_rule_context::RuleContext;
use std::alloc::AllocError;

fn write_class(
    out: &mut FigureWriter,
    names: &Names<'_>,
    class: ClassNumber,
) -> Result<(), AllocError>
    ensures { OnOk result (out.new ≡ out.old ++ class_named names.now class) }
{
    out.words(b"an object of class ")?;
    names.write_class(out, b"", class)
}

fn write_thing(out: &mut FigureWriter, names: &Names<'_>, thing: Thing) -> Result<(), AllocError>
    ensures { OnOk result (out.new ≡ out.old ++ thing_words names.now thing) }
{
    match thing {
        Thing::Object(class) => write_class(out, names, class),
        Thing::Message => out.words(b"a message"),
    }
}

fn write_owned(
    out: &mut FigureWriter,
    names: &Names<'_>,
    lead: &[u8],
    thing: Thing,
) -> Result<(), AllocError>
    ensures { OnOk result (out.new ≡ out.old ++ (lead.now ++ thing_words names.now thing)) }
{
    out.words(lead)?;
    write_thing(out, names, thing)
}

/// Writes what is there.
fn write_kind_clause(
    out: &mut FigureWriter,
    names: &Names<'_>,
    kind: Kind,
) -> Result<(), AllocError>
    ensures { OnOk result (out.new ≡ out.old ++ kind_clause names.now kind) }
{
    match kind {
        Kind::Unset => out.words(b"; it is unset"),
        Kind::Word => out.words(b"; it is a word"),
        Kind::Null => out.words(b"; it is null"),
        Kind::Own(thing, _) => write_owned(out, names, b"; it owns ", thing),
        Kind::Maybe(thing, _) => write_owned(out, names, b"; it is null, or owns ", thing),
    }
}

fn write_pushed_clause(
    out: &mut FigureWriter,
    names: &Names<'_>,
    entry: CleanupEntry,
) -> Result<(), AllocError>
    ensures { OnOk result (out.new ≡ out.old ++ pushed_clause names.now entry) }
{
    match entry {
        CleanupEntry::Operation => out.words(b"; it is an operation"),
        CleanupEntry::Object(class, _) => write_owned(
            out,
            names,
            b"; it owns ",
            Thing::Object(class),
        ),
    }
}

fn write_entry_clause(
    out: &mut FigureWriter,
    names: &Names<'_>,
    entry: Option<CleanupEntry>,
) -> Result<(), AllocError>
    ensures { OnOk result (out.new ≡ out.old ++ entry_clause names.now entry) }
{
    match entry {
        None => out.words(b"; it is not there"),
        Some(entry) => write_pushed_clause(out, names, entry),
    }
}

/// Writes a need of a register, and what that holds.
fn write_register_need(
    out: &mut FigureWriter,
    names: &Names<'_>,
    lead: &[u8],
    number: u8,
    kind: Kind,
) -> Result<(), AllocError>
    ensures { OnOk result (out.new ≡ out.old ++ register_need names.now lead.now number kind) }
{
    out.count(lead, u64::from(number))?;
    write_kind_clause(out, names, kind)
}

/// Writes how to be rid of an owner.
fn write_rid_of(out: &mut FigureWriter, thing: Thing) -> Result<(), AllocError>
    ensures { OnOk result (out.new ≡ out.old ++ rid_of thing) }
{
    match thing {
        Thing::Object(_) => out.words(b": delete, put or move it before"),
        Thing::Message => out.words(b": reply to it, put or move it before"),
    }
}

fn write_rid(out: &mut FigureWriter, kind: Kind) -> Result<(), AllocError>
    ensures { OnOk result (out.new ≡ out.old ++ rid_words kind) }
{
    match kind {
        Kind::Unset | Kind::Word | Kind::Null => Ok(()),
        Kind::Own(thing, _) | Kind::Maybe(thing, _) => write_rid_of(out, thing),
    }
}

fn write_unowning_need(
    out: &mut FigureWriter,
    names: &Names<'_>,
    number: u8,
    kind: &Kind,
) -> Result<(), AllocError>
    ensures { OnOk result (out.new ≡ out.old ++ unowning_need names.now number kind.now) }
{
    write_register_need(out, names, b"nothing owned in r", number, *kind)?;
    write_rid(out, *kind)
}

fn write_operand(out: &mut FigureWriter, operand: Operand) -> Result<(), AllocError>
    ensures { OnOk result (out.new ≡ out.old ++ operand_words operand) }
{
    match operand {
        Operand::Register(register) => out.count(b" in r", u64::from(register.number())),
        Operand::Field(field) => out.count(b" in f", u64::from(field.number())),
        Operand::Entry(number) => out.count(b" in c", u64::from(number.number())),
    }
}

/// Writes that it has to be there, where it perhaps is.
fn write_sure(out: &mut FigureWriter, kind: Kind) -> Result<(), AllocError>
    ensures { OnOk result (out.new ≡ out.old ++ sure_words kind) }
{
    match kind {
        Kind::Unset | Kind::Word | Kind::Null | Kind::Own(_, _) => Ok(()),
        Kind::Maybe(_, _) => out.words(b", surely"),
    }
}

fn write_operand_clause(
    out: &mut FigureWriter,
    names: &Names<'_>,
    site: &RuleContext<'_>,
    operand: Operand,
) -> Result<(), AllocError>
    ensures { OnOk result (out.new ≡ out.old ++ operand_clause names.now site.now.image site.now.method site.now.shape operand) }
{
    match operand {
        Operand::Register(_) => write_kind_clause(out, names, held(site, operand)),
        Operand::Field(_) => write_kind_clause(out, names, held(site, operand)),
        Operand::Entry(number) => {
            write_entry_clause(out, names, site.shape.entry(number.number() as usize))
        }
    }
}

fn write_ask_of(out: &mut FigureWriter, operand: Operand) -> Result<(), AllocError>
    ensures { OnOk result (out.new ≡ out.old ++ ask_of operand) }
{
    match operand {
        Operand::Register(_) => out.words(b": ask by jnull before"),
        Operand::Field(_) => out.words(b": ask by jempty before"),
        Operand::Entry(_) => Ok(()),
    }
}

/// Writes which instruction tells an owner from null, where that helps.
fn write_ask(out: &mut FigureWriter, would_do: bool, operand: Operand) -> Result<(), AllocError>
    ensures { OnOk result (out.new ≡ out.old ++ ask_words would_do operand) }
{
    if would_do {
        write_ask_of(out, operand)
    } else {
        Ok(())
    }
}

/// Writes where an owner is needed, and what is there.
fn write_owner_at(
    out: &mut FigureWriter,
    names: &Names<'_>,
    site: &RuleContext<'_>,
    operand: &Operand,
    would_do: bool,
) -> Result<(), AllocError>
    ensures { OnOk result (out.new ≡ out.old ++ owner_place names.now site.now.image site.now.method site.now.shape operand.now would_do) }
{
    write_operand(out, *operand)?;
    write_sure(out, held(site, *operand))?;
    write_operand_clause(out, names, site, *operand)?;
    write_ask(out, would_do, *operand)
}

fn write_owner(
    out: &mut FigureWriter,
    names: &Names<'_>,
    site: &RuleContext<'_>,
    operand: &Operand,
    thing: &Thing,
) -> Result<(), AllocError>
    ensures { OnOk result (out.new ≡ out.old ++ owner_need names.now site.now.image site.now.method site.now.shape operand.now thing.now) }
{
    let would_do = may_stand(site.linked, *thing, held(site, *operand));
    write_thing(out, names, *thing)?;
    write_owner_at(out, names, site, operand, would_do)
}

fn write_object(
    out: &mut FigureWriter,
    names: &Names<'_>,
    site: &RuleContext<'_>,
    r: Register,
) -> Result<(), AllocError>
    ensures { OnOk result (out.new ≡ out.old ++ object_need names.now site.now.image site.now.method site.now.shape r) }
{
    let would_do = may_be_object(site.shape.register(r));
    out.words(b"an object")?;
    write_owner_at(out, names, site, &Operand::Register(r), would_do)
}

fn write_owner_or_null(
    out: &mut FigureWriter,
    names: &Names<'_>,
    thing: Thing,
    number: u8,
    kind: Kind,
) -> Result<(), AllocError>
    ensures { OnOk result (out.new ≡ out.old ++ owner_or_null names.now thing number kind) }
{
    write_thing(out, names, thing)?;
    write_register_need(out, names, b" or null in r", number, kind)
}

/// Writes a number within words.
fn write_numbered(
    out: &mut FigureWriter,
    lead: &[u8],
    number: u64,
    rest: &[u8],
) -> Result<(), AllocError>
    ensures { OnOk result (out.new ≡ out.old ++ numbered lead.now number rest.now) }
{
    out.count(lead, number)?;
    out.words(rest)
}

fn write_method_need(
    out: &mut FigureWriter,
    names: &Names<'_>,
    lead: &[u8],
    method: MethodNumber,
    rest: &[u8],
) -> Result<(), AllocError>
    ensures { OnOk result (out.new ≡ out.old ++ method_need names.now lead.now method rest.now) }
{
    out.words(lead)?;
    names.write_method(out, b"m", method)?;
    out.words(rest)
}

/// Writes two numbers within words.
fn write_two_numbers(
    out: &mut FigureWriter,
    lead: &[u8],
    first: u64,
    between: &[u8],
    second: u64,
    rest: &[u8],
) -> Result<(), AllocError>
    ensures { OnOk result (out.new ≡ out.old ++ two_numbers lead.now first between.now second rest.now) }
{
    out.count(lead, first)?;
    write_numbered(out, between, second, rest)
}

fn write_class_words(out: &mut FigureWriter, need: ClassNeed) -> Result<(), AllocError>
    ensures { OnOk result (out.new ≡ out.old ++ class_words need) }
{
    match need {
        ClassNeed::Active => out.words(b"a method of an active class"),
        ClassNeed::Issuing => out.words(b"a method of an active class that issues its requests"),
        ClassNeed::Listed => out.words(b"a method of an active or a server class"),
        ClassNeed::Native => out.words(b"a method of an active class that a native serves"),
        ClassNeed::Token => out.words(b"a method of an active token class"),
    }
}

fn write_provider(out: &mut FigureWriter, provider: Provider) -> Result<(), AllocError>
    ensures { OnOk result (out.new ≡ out.old ++ provider_clause provider) }
{
    match provider {
        Provider::Own => out.words(b"; it is of active self"),
        Provider::Timer => out.words(b"; it is of active timer"),
        Provider::Native(native) => {
            out.count(b"; it is of active native ", u64::from(native.number()))
        }
        Provider::Token => out.words(b"; it is of active token"),
    }
}

fn write_class_clause(out: &mut FigureWriter, kind: Option<ClassKind>) -> Result<(), AllocError>
    ensures { OnOk result (out.new ≡ out.old ++ class_clause kind) }
{
    match kind {
        None => out.words(b"; it is of no class"),
        Some(ClassKind::Plain) => out.words(b"; it is of a plain class"),
        Some(ClassKind::Active { provider }) => write_provider(out, provider),
        Some(ClassKind::Server { .. }) => out.words(b"; it is of a server"),
        Some(ClassKind::Session) => out.words(b"; it is of a session"),
    }
}

fn write_class_need(
    out: &mut FigureWriter,
    need: ClassNeed,
    kind: Option<ClassKind>,
) -> Result<(), AllocError>
    ensures { OnOk result (out.new ≡ out.old ++ (class_words need ++ class_clause kind)) }
{
    write_class_words(out, need)?;
    write_class_clause(out, kind)
}

fn write_arguments(
    out: &mut FigureWriter,
    site: &RuleContext<'_>,
    method: MethodNumber,
    first: Register,
) -> Result<(), AllocError>
    ensures { OnOk result (out.new ≡ out.old ++ arguments_need site.now.image method first) }
{
    let count = arguments_of(site.linked, method).len() as u64;
    let first = u64::from(first.number());
    write_two_numbers(
        out,
        b"all arguments up to r15; there are ",
        count,
        b" from r",
        first,
        b" on",
    )
}

fn write_field(out: &mut FigureWriter, field: FieldIndex) -> Result<(), AllocError>
    ensures { OnOk result (out.new ≡ out.old ++ numbered (codes "a field f") field (codes " of the method's object; none of that number is declared")) }
{
    let rest = b" of the method's object; none of that number is declared";
    write_numbered(out, b"a field f", u64::from(field.number()), rest)
}

fn write_static(
    out: &mut FigureWriter,
    names: &Names<'_>,
    method: MethodNumber,
) -> Result<(), AllocError>
    ensures { OnOk result (out.new ≡ out.old ++ method_need names.now (codes "a method that works on an object; ") method (codes " works on none: call it on self")) }
{
    let lead = b"a method that works on an object; ";
    write_method_need(out, names, lead, method, b" works on none: call it on self")
}

fn write_foreign(
    out: &mut FigureWriter,
    names: &Names<'_>,
    method: MethodNumber,
) -> Result<(), AllocError>
    ensures { OnOk result (out.new ≡ out.old ++ method_need names.now (codes "a method that works on the method's own object; ") method (codes " works on another")) }
{
    let lead = b"a method that works on the method's own object; ";
    write_method_need(out, names, lead, method, b" works on another")
}

fn write_argument(out: &mut FigureWriter, r: Register) -> Result<(), AllocError>
    ensures { OnOk result (out.new ≡ out.old ++ numbered (codes "an object that is no argument; r") r (codes " is one too")) }
{
    let lead = b"an object that is no argument; r";
    write_numbered(out, lead, u64::from(r.number()), b" is one too")
}

fn write_no_result(out: &mut FigureWriter, r: Register) -> Result<(), AllocError>
    ensures { OnOk result (out.new ≡ out.old ++ numbered (codes "ret alone, as the method gives nothing back in a register; r") r (codes " is named")) }
{
    let lead = b"ret alone, as the method gives nothing back in a register; r";
    write_numbered(out, lead, u64::from(r.number()), b" is named")
}

fn write_object_word(
    out: &mut FigureWriter,
    site: &RuleContext<'_>,
    word: WordIndex,
) -> Result<(), AllocError>
    ensures { OnOk result (out.new ≡ out.old ++ word_need site.now.image site.now.method word) }
{
    let word = u64::from(word.number());
    let count = u64::from(word_count(site.linked, site.method));
    write_two_numbers(
        out,
        b"a word w",
        word,
        b" of the method's object; it has ",
        count,
        b" of them",
    )
}

/// Writes that the request is not to be active, and in which states it may be.
fn write_inactive(out: &mut FigureWriter, states: States) -> Result<(), AllocError>
    ensures { OnOk result (out.new ≡ out.old ++ (states_clause (codes "the request not active") states.0 ++ codes ": cancel it before")) }
{
    write_states_clause(out, b"the request not active", states)?;
    out.words(b": cancel it before")
}

/// Writes a need of a register and what it holds at that place.
fn write_held_need(
    out: &mut FigureWriter,
    names: &Names<'_>,
    lead: &[u8],
    shape: &AbstractState<'_>,
    r: Register,
) -> Result<(), AllocError>
    ensures { OnOk result (out.new ≡ out.old ++ register_need names.now lead.now r (register shape.now r)) }
{
    write_register_need(out, names, lead, r.number(), shape.register(r))
}

fn write_held_unowning(
    out: &mut FigureWriter,
    names: &Names<'_>,
    shape: &AbstractState<'_>,
    r: Register,
) -> Result<(), AllocError>
    ensures { OnOk result (out.new ≡ out.old ++ unowning_need names.now r (register shape.now r)) }
{
    write_unowning_need(out, names, r.number(), &shape.register(r))
}

fn write_held_or_null(
    out: &mut FigureWriter,
    names: &Names<'_>,
    shape: &AbstractState<'_>,
    r: Register,
    thing: Thing,
) -> Result<(), AllocError>
    ensures { OnOk result (out.new ≡ out.old ++ owner_or_null names.now thing r (register shape.now r)) }
{
    write_owner_or_null(out, names, thing, r.number(), shape.register(r))
}

fn write_need(
    out: &mut FigureWriter,
    names: &Names<'_>,
    site: &RuleContext<'_>,
    wanted: Wanted,
) -> Result<(), AllocError>
    ensures { OnOk result (out.new ≡ out.old ++ need_words names.now site.now.image site.now.method site.now.shape wanted) }
{
    let linked = site.linked;
    let shape = site.shape;
    match wanted {
        Wanted::Word(r) => write_held_need(out, names, b"a word in r", shape, r),
        Wanted::Unowning(r) => write_held_unowning(out, names, shape, r),
        Wanted::ObjectOrNull(r) => {
            write_held_need(out, names, b"an object, a message or null in r", shape, r)
        }
        Wanted::Deletable(r) => write_held_need(out, names, b"an object or null in r", shape, r),
        Wanted::Pushable(r) => write_object(out, names, site, r),
        Wanted::Owner(operand, thing) => write_owner(out, names, site, &operand, &thing),
        Wanted::OwnerOrNull(r, thing) => write_held_or_null(out, names, shape, r, thing),
        Wanted::ObjectWord(w) => write_object_word(out, site, w),
        Wanted::Field(f) => write_field(out, f),
        Wanted::MethodOfObjects(callee) => write_static(out, names, callee),
        Wanted::OwnObject(callee) => write_foreign(out, names, callee),
        Wanted::NoArgument(r, _, _) => write_argument(out, r),
        Wanted::Arguments(callee, first) => write_arguments(out, site, callee, first),
        Wanted::ResultRegister(_, c) => write_held_unowning(out, names, shape, c),
        Wanted::NoResult(a) => write_no_result(out, a),
        Wanted::LastObject => out.words(
            b"an object as the last cleanup entry, c0; it is an operation: popop takes that down",
        ),
        Wanted::LastOperation => out.words(
            b"an operation as the last cleanup entry, c0; it is an object: pop or popdel takes that down",
        ),
        Wanted::Service => out.words(b"a service method; it is of another role"),
        Wanted::Message => out.words(b"the message of the service; it has been taken"),
        Wanted::OfClass(need) => write_class_need(out, need, own_kind(site)),
        Wanted::Begin(callee, target) => write_begin(
            out,
            names,
            callee,
            before_of(linked, callee),
            called_in(linked, callee, target, shape.states()),
        ),
        Wanted::End => write_states_need(
            out,
            after_of(linked, site.method),
            b" alone, where the method ends",
            shape.states(),
        ),
        Wanted::Cancelling => write_states_need(
            out,
            cancelling(),
            b" alone, in the cancel method",
            shape.states(),
        ),
        Wanted::Inactive => write_inactive(out, shape.states()),
    }
}

#[tactic(auto, unfolding(crate::specs::Sentences::sentence))]
pub(crate) fn write_sentence(
    out: &mut FigureWriter,
    names: &Names<'_>,
    site: &RuleContext<'_>,
    wanted: Wanted,
) -> Result<(), AllocError>
    ensures { OnOk result (out.new ≡ out.old ++ sentence names.now site.now.image site.now.method site.now.shape wanted) }
{
    out.words(b"Needed: ")?;
    write_need(out, names, site, wanted)?;
    out.words(b"\n")
}
