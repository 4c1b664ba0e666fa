//! The assembly text of a program, with the place in the source of each of its lines.
ghost use Rattle.std.specs.Prelude.{◌≡◌, [], ◌∷◌, IfOk, OnOk, false, flat_map, length, map};
ghost use Rattle.aom_source.specs.Map.{Adds, Names, at_line, class_tokens, line_count, line_tokens, method_names, method_tokens, names_of_method, program_names, program_tokens, tokens_of};

use crate::naming::{write_members, write_registers};
use crate::text::Text;
use aom_source_code::{Code, LabelId, Line, NamedRegister, Note, Operand, Operation, Reason};
use aom_source_methods::{Summaries, Summary, first_states};
use aom_source_program::{
    Class, ClassId, ClassKind, Fault, FaultKind, Method, MethodId, Program, Role, Thing, ValueKind,
};
use aom_source_states::RequestStates;
use std::alloc::Global;

/// Where a line of the text comes from: a token of the source, and why the line was added.
#[derive(Clone, Copy)]
pub struct Origin<'a> {
    pub token: u32,
    pub note: Note<'a>,
}

/// A text, where each of its lines comes from, and the names of registers, each from one line of the text to the one before another.
#[derive(Drop)]
pub struct Written<'a> {
    pub text: Vec<u8>,
    pub origins: Vec<Origin<'a>>,
    pub names: Vec<NamedRegister<'a>>,
}

/// The budgets that are written where the source says none: of main, and of each class.
#[derive(Drop)]
pub struct Budgets {
    pub main: u32,
    pub classes: Vec<u32>,
}

/// What is written.
#[derive(Clone, Copy)]
pub struct Parts<'s, 'a> {
    pub program: &'s Program<'a>,
    pub summaries: &'s Summaries<'a>,
    pub codes: &'s Vec<Option<Code<'a>>>,
    pub order: &'s Vec<MethodId>,
    pub quiet: &'s Vec<bool>,
}

/// A text on its way, with where each of its lines comes from.
#[derive(Drop)]
struct Writing<'a> {
    text: Text,
    origins: Vec<Origin<'a>>,
    names: Vec<NamedRegister<'a>>,
    /// Whether an origin or a name is missing, since there was no memory for it.
    lacks: bool,
}

impl<'a> Writing<'a> {
    /// Nothing yet.
    fn new(alloc: Global) -> Writing<'a>
        ensures origins { result.origins.items ≡ [] }
        ensures names { result.names.items ≡ [] }
    {
        Writing {
            text: Text::new(alloc),
            origins: Vec::new(alloc),
            names: Vec::new(alloc),
            lacks: false,
        }
    }

    /// Ends a line.
    fn end_line(&mut self, token: u32, note: Note<'a>)
        ensures origins { Adds self.old self.new (token ∷ []) }
        ensures names { self.new.names ≡ self.old.names }
    {
        self.text.words(b"\n");
        if self.origins.push(Origin { token, note }).is_err() {
            self.lacks = true;
        }
    }

    /// The registers of a method, whose first instruction comes in the next line, have these names.
    fn add_names(&mut self, names: &[NamedRegister<'a>]) -> Result<(), Fault<'a>>
        ensures names { OnOk result (Names self.old self.new (map (at_line (length self.old.origins.items)) names.now)) }
        ensures origins { self.new.origins ≡ self.old.origins }
        ensures lacks { self.new.lacks ≡ false → self.old.lacks ≡ false }
    {
        for named in names {
            let named = named_at(self.origins.len(), *named)?;
            if self.names.push(named).is_err() {
                self.lacks = true;
            }
        }
        Ok(())
    }

    /// What was written, where there was memory for all of it. A name with a line feed, which no source has, would part the lines otherwise.
    fn written(self) -> Result<Written<'a>, Fault<'a>>
        ensures origins { IfOk result (λ w. (self.entry.lacks ≡ false) × (w.origins ≡ self.entry.origins)) }
        ensures names { IfOk result (λ w. w.names ≡ self.entry.names) }
        ensures lines { IfOk result (λ w. line_count w.text.items ≡ length w.origins.items) }
    {
        let Writing {
            text,
            origins,
            names,
            lacks,
        } = self;
        let Some(text) = text.bytes() else {
            return Err(Fault::at(FaultKind::OutOfMemory, 0));
        };
        if lacks {
            return Err(Fault::at(FaultKind::OutOfMemory, 0));
        }
        if count_lines(&text) != origins.len() {
            return Err(Fault::internal());
        }
        Ok(Written {
            text,
            origins,
            names,
        })
    }
}

/// A name of a method's register, by the lines of a text in which the method's first instruction has this one.
fn named_at<'a>(line: usize, named: NamedRegister<'a>) -> Result<NamedRegister<'a>, Fault<'a>>
    ensures { IfOk result (λ n. n ≡ at_line line named.entry) }
{
    let from = line.checked_add(named.from).ok_or(Fault::internal())?;
    let to = line.checked_add(named.to).ok_or(Fault::internal())?;
    Ok(NamedRegister { from, to, ..named })
}

/// How many lines a text has: each ends with a line feed.
fn count_lines(text: &[u8]) -> usize
    ensures { result ≡ line_count text.now }
{
    text.iter().filter(|byte| **byte == b'\n').count()
}

/// The name of a class. One that is not there has none, and the text does not assemble.
fn class_name<'a>(program: &Program<'a>, class: ClassId) -> &'a [u8] {
    match program.classes.get(class.0) {
        Some(class) => class.name,
        None => b"",
    }
}

/// Writes the name of a method.
fn write_label<'a>(text: &mut Text, program: &Program<'a>, method: MethodId) {
    if let Some(method) = program.methods.get(method.0) {
        text.words(&method.label);
    }
}

/// The text of a program.
pub fn write_program<'a>(parts: Parts<'_, 'a>, budgets: &Budgets) -> Result<Written<'a>, Fault<'a>>
    ensures map { IfOk result (λ w. tokens_of w.origins.items ≡ program_tokens parts.entry.program.now parts.entry.codes.now.items parts.entry.order.now.items) }
    ensures lines { IfOk result (λ w. line_count w.text.items ≡ length w.origins.items) }
    ensures names { IfOk result (λ w. w.names.items ≡ program_names parts.entry.program.now parts.entry.codes.now.items parts.entry.order.now.items) }
{
    let mut written = Writing::new(parts.program.alloc);
    write_header(&mut written.text, parts.program, budgets);
    written.end_line(0, Note::written());
    write_classes(&mut written, parts.program, budgets)?;
    write_methods(&mut written, parts)?;
    written.written()
}

fn write_header<'a>(text: &mut Text, program: &Program<'a>, budgets: &Budgets) {
    text.words(b"image");
    if program.is_second_version() {
        text.words(b" version 2");
    }
    text.count(b" cells ", program.cells as i64);
    if 0 < program.messages {
        text.count(b" messages ", program.messages as i64);
    }
    if 0 < program.natives {
        text.count(b" natives ", program.natives as i64);
    }
    let budget = program.budget.unwrap_or(budgets.main);
    text.count(b" budget ", budget as i64);
    if let Some(root) = program.root {
        text.words(b" root ");
        text.words(class_name(program, root));
    }
}

fn write_classes<'a>(
    written: &mut Writing<'a>,
    program: &Program<'a>,
    budgets: &Budgets,
) -> Result<(), Fault<'a>>
    ensures origins { OnOk result (Adds written.old written.new (class_tokens program.now.classes.items program.now.class_order.items)) }
    ensures names { written.new.names ≡ written.old.names }
{
    for id in &program.class_order {
        let Some(class) = program.classes.get(id.0) else {
            return Err(Fault::internal());
        };
        write_class(&mut written.text, program, budgets, class, *id);
        written.end_line(class.token, Note::written());
    }
    Ok(())
}

fn write_class<'a>(
    text: &mut Text,
    program: &Program<'a>,
    budgets: &Budgets,
    class: &Class<'a>,
    id: ClassId,
) {
    text.words(b"class ");
    text.words(class.name);
    write_kind(text, program, class);
    if let Some(parent) = class.parent {
        text.words(b" from ");
        text.words(class_name(program, parent));
    }
    if !class.words.is_empty() {
        text.count(b" words ", class.words.len() as i64);
    }
    for at in 0..class.fields.len() {
        text.words(if at == 0 { b" own " } else { b"," });
        write_thing(text, program, class.fields[at].thing);
    }
    if class.kind.is_enlisted() {
        let found = match budgets.classes.get(id.0) {
            Some(budget) => *budget,
            None => u32::MAX,
        };
        text.count(b" budget ", class.budget.unwrap_or(found) as i64);
    }
    write_members(text, class);
}

fn write_kind<'a>(text: &mut Text, program: &Program<'a>, class: &Class<'a>) {
    match class.kind {
        ClassKind::Plain => text.words(b" plain"),
        ClassKind::Session => text.words(b" session"),
        ClassKind::Timer => text.words(b" active timer"),
        ClassKind::Active => text.words(b" active self"),
        ClassKind::Token => text.words(b" active token"),
        ClassKind::Native => text.count(b" active native ", class.number as i64),
        ClassKind::Server => {
            text.words(b" server ");
            if let Some(session) = class.session {
                text.words(class_name(program, session));
            }
            text.count(b" max ", class.number as i64);
        }
    }
}

fn write_thing<'a>(text: &mut Text, program: &Program<'a>, thing: Thing) {
    match thing {
        Thing::Message => text.words(b"msg"),
        Thing::Object(class) => text.words(class_name(program, class)),
    }
}

fn write_methods<'a>(written: &mut Writing<'a>, parts: Parts<'_, 'a>) -> Result<(), Fault<'a>>
    ensures origins { OnOk result (Adds written.old written.new (flat_map (method_tokens parts.entry.program.now.methods.items parts.entry.codes.now.items) parts.entry.order.now.items)) }
    ensures names { OnOk result (Names written.old written.new (method_names parts.entry.codes.now.items (length written.old.origins.items) parts.entry.order.now.items)) }
{
    for id in parts.order {
        write_method(written, parts, *id)?;
    }
    Ok(())
}

fn write_method<'a>(
    written: &mut Writing<'a>,
    parts: Parts<'_, 'a>,
    id: MethodId,
) -> Result<(), Fault<'a>>
    ensures origins { OnOk result (Adds written.old written.new (method_tokens parts.entry.program.now.methods.items parts.entry.codes.now.items id)) }
    ensures names { OnOk result (Names written.old written.new (names_of_method parts.entry.codes.now.items (length written.old.origins.items) id)) }
{
    let (Some(method), Some(Some(summary)), Some(Some(code))) = (
        parts.program.methods.get(id.0),
        parts.summaries.get(id.0),
        parts.codes.get(id.0),
    ) else {
        return Err(Fault::internal());
    };
    write_head(&mut written.text, parts, method, summary, id);
    write_states(&mut written.text, parts.program, method, summary, id)?;
    write_signature(&mut written.text, parts.program, method);
    write_registers(&mut written.text, code);
    written.end_line(method.token, Note::written());
    written.add_names(&code.names)?;
    write_code(written, parts.program, code)?;
    written.text.words(b"end");
    written.end_line(method.end_token, Note::written());
    Ok(())
}

fn write_head<'a>(
    text: &mut Text,
    parts: Parts<'_, 'a>,
    method: &Method<'a>,
    summary: &Summary<'a>,
    id: MethodId,
) {
    text.words(b"method ");
    text.words(&method.label);
    text.words(b" ");
    text.words(method.role.word().as_bytes());
    if let Some(class) = method.class {
        text.words(b" of ");
        text.words(class_name(parts.program, class));
    }
    if let Some(over) = method.over {
        text.words(b" over ");
        write_label(text, parts.program, over);
    }
    if summary.leaves {
        text.words(b" leaves");
    }
    let is_quiet = match parts.quiet.get(id.0) {
        Some(is_quiet) => *is_quiet,
        None => false,
    };
    if is_quiet && !method.role.is_quiet() {
        text.words(b" quiet");
    }
}

/// In which states it begins and ends, where that is not what every method of its role does.
fn write_states<'a>(
    text: &mut Text,
    program: &Program<'a>,
    method: &Method<'a>,
    summary: &Summary<'a>,
    id: MethodId,
) -> Result<(), Fault<'a>> {
    let Some(class) = method.class else {
        return Ok(());
    };
    let kind = program.class(class)?.kind;
    if !kind.is_enlisted() {
        return Ok(());
    }
    if method.role == Role::Function && summary.begin != first_states(program, id)? {
        text.words(b" in ");
        write_letters(text, summary.begin);
    }
    let is_told = matches!(method.role, Role::Function | Role::Construct);
    if is_told
        && !summary.end.is_none()
        && summary.end != RequestStates::at_end(method.role, kind)
    {
        text.words(b" out ");
        write_letters(text, summary.end);
    }
    Ok(())
}

fn write_letters<'a>(text: &mut Text, states: RequestStates) {
    for (letter, state) in RequestStates::LETTERS {
        if state.is_within(states) {
            text.words(&[letter]);
        }
    }
}

fn write_signature<'a>(text: &mut Text, program: &Program<'a>, method: &Method<'a>) {
    if matches!(method.role, Role::Function | Role::Construct) {
        for at in 0..method.parameters.len() {
            text.words(if at == 0 { b" args " } else { b"," });
            match method.parameters[at].kind.thing() {
                Some(thing) => write_thing(text, program, thing),
                None => text.words(b"word"),
            }
        }
    }
    if method.role != Role::Function {
        return;
    }
    match method.gives {
        ValueKind::Nothing => {}
        ValueKind::Word => text.words(b" gives word"),
        ValueKind::Owner { thing, is_maybe } => {
            text.words(if is_maybe {
                b" gives maybe "
            } else {
                b" gives own "
            });
            write_thing(text, program, thing);
        }
    }
}

fn write_code<'a>(
    written: &mut Writing<'a>,
    program: &Program<'a>,
    code: &Code<'a>,
) -> Result<(), Fault<'a>>
    ensures origins { OnOk result (Adds written.old written.new (line_tokens code.now)) }
    ensures names { written.new.names ≡ written.old.names }
{
    let labels = number_labels(program.alloc, code)?;
    for at in 0..code.lines.len() {
        let line = &code.lines[at];
        if let Some(label) = label_at(&labels, at) {
            written.text.count(b"L", label);
            written.text.words(b": ");
        }
        write_instruction(&mut written.text, program, code, &labels, line);
        written.end_line(line.token, line.note);
    }
    Ok(())
}

/// The number of the label at each instruction, 0 where there is none.
fn number_labels<'a>(alloc: Global, code: &Code<'a>) -> Result<Vec<i64>, Fault<'a>> {
    let mut labels: Vec<i64> = Vec::new(alloc);
    for _ in 0..code.lines.len() {
        labels.push(0)?;
    }
    for line in &code.lines {
        if let Some(place) = target(code, line) {
            if place < labels.len() {
                labels[place] = 1;
            }
        }
    }
    let mut number: i64 = 0;
    for at in 0..code.lines.len() {
        if at < labels.len() && 0 < labels[at] {
            number = number.saturating_add(1);
            labels[at] = number;
        }
    }
    Ok(labels)
}

fn target(code: &Code<'_>, line: &Line<'_>) -> Option<usize> {
    match line.label() {
        Some(label) => code.place_of(label),
        None => None,
    }
}

fn label_at(labels: &Vec<i64>, at: usize) -> Option<i64> {
    match labels.get(at) {
        Some(number) if 0 < *number => Some(*number),
        _ => None,
    }
}

fn write_instruction<'a>(
    text: &mut Text,
    program: &Program<'a>,
    code: &Code<'a>,
    labels: &Vec<i64>,
    line: &Line<'a>,
) {
    text.words(line.operation.word().as_bytes());
    let count = count_operands(line);
    for at in 0..4 {
        if at < count {
            text.words(b" ");
            match line.operands[at] {
                Operand::Label(label) => write_target(text, code, labels, label),
                operand => write_operand(text, program, operand),
            }
        }
    }
}

/// Writes the label to which an instruction leads. One that stands nowhere has no number, and the text does not assemble.
fn write_target<'a>(text: &mut Text, code: &Code<'a>, labels: &Vec<i64>, label: LabelId) {
    if let Some(place) = code.place_of(label) {
        if let Some(number) = label_at(labels, place) {
            text.count(b"L", number);
        }
    }
}

/// How many operands are written: those of a call that are the first register may be left out at the end.
fn count_operands(line: &Line<'_>) -> usize {
    let operands = line.operands;
    let mut count = 0;
    for at in 0..4 {
        if operands[at] != Operand::None {
            count = at.saturating_add(1);
        }
    }
    if line.operation == Operation::Call || line.operation == Operation::Trap {
        if count == 4 && operands[3] == Operand::Register(0) {
            count = 3;
        }
        if count == 3 && operands[2] == Operand::Register(0) {
            count = 2;
        }
    }
    count
}

fn write_operand<'a>(text: &mut Text, program: &Program<'a>, operand: Operand) {
    match operand {
        Operand::None | Operand::Label(_) => {}
        Operand::Register(number) => text.count(b"r", small(number)),
        Operand::Entry(number) => text.count(b"c", small(number)),
        Operand::Field(number) => text.count(b"f", small(number)),
        Operand::Word(number) => text.count(b"w", small(number)),
        Operand::Own => text.words(b"self"),
        Operand::Method(method) => write_label(text, program, method),
        Operand::Class(class) => text.words(class_name(program, class)),
        Operand::Number(number) => text.number(number),
    }
}

fn small(number: usize) -> i64 {
    number.min(65535) as i64
}

/// Whether the translator has added a line.
pub fn is_added(origin: &Origin<'_>) -> bool {
    origin.note.reason != Reason::Written
}
