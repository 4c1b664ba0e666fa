//! A source, translated.
ghost use Rattle.std.specs.Prelude.{◌≡◌, All, IfErr, IfOk, List, Ok, length, min, ℕ};
ghost use Rattle.aom_asm.specs.Denoted.{denoted};
ghost use Rattle.aom_source.specs.Budgets.{IsCostOfMain};
ghost use Rattle.aom_source.specs.Listing.{HasClassNames, HasMemberNames, HasMethodNames};
ghost use Rattle.aom_source.specs.Map.{IsNamed, line_count};
ghost use Rattle.aom_source.specs.Refusals.{IsToldIn};

use crate::driving::Driving;
use crate::labels::name_methods;
use crate::listing::{MOST_BYTES, are_all_named};
use crate::ordering::{listed_methods, order_methods, quiet_methods};
use crate::refusal::Refusal;
use crate::writing::{Budgets, Parts, Written, write_program};
use aom_asm::assemble;
use aom_budget::Figures;
use aom_image::{ClassNumber, Image};
use aom_link_conditions::LinkFault;
use aom_linker::{Linked, link};
use aom_source_methods::add_helpers;
use aom_source_program::{
    ClassId, Fault, FaultKind, MOST_METHODS, Program, Source, declare, resolve,
};
use aom_source_syntax::read_program;
use aom_source_tokens::Tokens;
use aom_text::{AsmFault, AsmFaultKind};
use aom_verify::{Checked, check};
use std::alloc::{AllocError, Global};

/// What a source is translated to: a text with its origins, and the image that it denotes.
#[derive(Drop)]
pub struct Translation<'a> {
    pub written: Written<'a>,
    pub image: Image,
}

impl<'a> Translation<'a> {
    /// The text alone.
    pub fn into_text(self) -> Vec<u8>
        ensures { result ≡ self.entry.written.text }
    {
        let Translation { written, .. } = self;
        let Written { text, .. } = written;
        text
    }
}

/// Translates a source, or tells the first fault of each method. A list without a refusal says that there is no memory.
pub fn translate<'a>(
    alloc: Global,
    tokens: &Tokens<'a>,
) -> Result<Translation<'a>, Vec<Refusal<'a>>>
    ensures image { IfOk result (λ t. denoted t.written.text.items ≡ Ok t.image) }
    ensures lines { IfOk result (λ t. line_count t.written.text.items ≡ length t.written.origins.items) }
    ensures names { IfOk result (λ t. All (IsNamed tokens.now t.written.origins.items) t.written.names.items) }
    ensures classes { IfOk result (λ t. HasClassNames tokens.now t.written) }
    ensures methods { IfOk result (λ t. HasMethodNames tokens.now t.written) }
    ensures members { IfOk result (λ t. HasMemberNames tokens.now t.written) }
    ensures places { IfErr result (λ refusals. All (IsToldIn tokens.now.bytes) refusals.items) }
{
    let written = match written_of(alloc, tokens) {
        Ok(written) => written,
        Err(refusals) => return Err(refusals),
    };
    match assemble(alloc, &written.text) {
        Ok(image) => Ok(Translation { written, image }),
        Err(fault) => Err(alone(alloc, of_assembling(tokens, fault))),
    }
}

/// A text that the translator has written and that does not assemble is a fault of its own.
fn of_assembling<'a>(tokens: &Tokens<'a>, fault: AsmFault) -> Refusal<'a>
    ensures { IsToldIn tokens.now.bytes result }
{
    if fault.kind == AsmFaultKind::OutOfMemory {
        return Refusal::OutOfMemory;
    }
    Refusal::of_fault(tokens, Fault::internal())
}

fn alone<'a>(alloc: Global, refusal: Refusal<'a>) -> Vec<Refusal<'a>>
    ensures { (bytes : List ℕ) → IsToldIn bytes refusal.entry → All (IsToldIn bytes) result.items }
{
    let mut refusals: Vec<Refusal<'a>> = Vec::new(alloc);
    // where there is no room for it, there is no memory, and an empty list says so
    let _ = refusals.push(refusal);
    refusals
}

fn written_of<'a>(alloc: Global, tokens: &Tokens<'a>) -> Result<Written<'a>, Vec<Refusal<'a>>>
    ensures lines { IfOk result (λ w. line_count w.text.items ≡ length w.origins.items) }
    ensures names { IfOk result (λ w. All (IsNamed tokens.now w.origins.items) w.names.items) }
    ensures classes { IfOk result (HasClassNames tokens.now) }
    ensures methods { IfOk result (HasMethodNames tokens.now) }
    ensures members { IfOk result (HasMemberNames tokens.now) }
    ensures places { IfErr result (λ refusals. All (IsToldIn tokens.now.bytes) refusals.items) }
{
    let items = match read_program(alloc, tokens) {
        Ok(items) => items,
        Err(fault) => return Err(alone(alloc, Refusal::of_syntax(tokens, fault))),
    };
    let source = match Source::of(alloc, &*tokens, &items) {
        Ok(source) => source,
        Err(fault) => return Err(alone(alloc, Refusal::of_fault(tokens, fault))),
    };
    match translate_source(alloc, &source) {
        Ok(written) => named(alloc, tokens, written),
        Err(faults) => Err(refusals_of(alloc, tokens, &faults)),
    }
}

/// What was written, if its names are those of the source: else the fault is the translator's own.
fn named<'a>(
    alloc: Global,
    tokens: &Tokens<'a>,
    written: Written<'a>,
) -> Result<Written<'a>, Vec<Refusal<'a>>>
    ensures same { IfOk result (λ w. w ≡ written.entry) }
    ensures names { IfOk result (λ w. All (IsNamed tokens.now w.origins.items) w.names.items) }
    ensures classes { IfOk result (HasClassNames tokens.now) }
    ensures methods { IfOk result (HasMethodNames tokens.now) }
    ensures members { IfOk result (HasMemberNames tokens.now) }
    ensures places { IfErr result (λ refusals. All (IsToldIn tokens.now.bytes) refusals.items) }
{
    match are_all_named(alloc, tokens, &written) {
        Ok(true) => Ok(written),
        Ok(false) => Err(alone(alloc, Refusal::of_fault(tokens, Fault::internal()))),
        Err(_) => Err(alone(alloc, Refusal::OutOfMemory)),
    }
}

fn refusals_of<'a>(alloc: Global, tokens: &Tokens<'a>, faults: &Vec<Fault<'a>>) -> Vec<Refusal<'a>>
    ensures { All (IsToldIn tokens.now.bytes) result.items }
{
    let mut refusals: Vec<Refusal<'a>> = Vec::new(alloc);
    for fault in faults {
        let _ = refusals.push(Refusal::of_fault(tokens, *fault));
    }
    refusals
}

fn one_fault<'a>(alloc: Global, fault: Fault<'a>) -> Vec<Fault<'a>> {
    let mut faults: Vec<Fault<'a>> = Vec::new(alloc);
    let _ = faults.push(fault);
    faults
}

fn translate_source<'a>(
    alloc: Global,
    source: &Source<'_, 'a>,
) -> Result<Written<'a>, Vec<Fault<'a>>>
    ensures { IfOk result (λ w. line_count w.text.items ≡ length w.origins.items) }
{
    let mut program = match declared(alloc, source) {
        Ok(program) => program,
        Err(fault) => return Err(one_fault(alloc, fault)),
    };
    let helpers = match add_helpers(&mut program) {
        Ok(helpers) => helpers,
        Err(fault) => return Err(one_fault(alloc, fault)),
    };
    if let Err(fault) = name_methods(&mut program) {
        return Err(one_fault(alloc, fault));
    }
    let mut driving = match Driving::new(source, &program, &helpers) {
        Ok(driving) => driving,
        Err(fault) => return Err(one_fault(alloc, fault)),
    };
    if let Err(fault) = visit_all(&mut driving, &program) {
        return Err(one_fault(alloc, fault));
    }
    let Driving {
        summaries,
        codes,
        faults,
        ..
    } = driving;
    if !faults.is_empty() {
        return Err(faults);
    }
    match written(&program, &summaries, &codes) {
        Ok(written) => Ok(written),
        Err(fault) => Err(one_fault(alloc, fault)),
    }
}

fn declared<'a>(alloc: Global, source: &Source<'_, 'a>) -> Result<Program<'a>, Fault<'a>> {
    let mut program = declare(alloc, source)?;
    resolve(&mut program)?;
    Ok(program)
}

fn visit_all<'a>(
    driving: &mut Driving<'_, '_, 'a>,
    program: &Program<'a>,
) -> Result<(), Fault<'a>> {
    for method in &listed_methods(program)? {
        driving.visit(*method)?;
    }
    driving.visit(program.main.ok_or(Fault::internal())?)
}

/// The text with the budgets that it wants: it is written with the greatest, and what its image costs is filled in.
fn written<'a>(
    program: &Program<'a>,
    summaries: &aom_source_methods::Summaries<'a>,
    codes: &Vec<Option<aom_source_code::Code<'a>>>,
) -> Result<Written<'a>, Fault<'a>>
    ensures { IfOk result (λ w. line_count w.text.items ≡ length w.origins.items) }
{
    let order = order_methods(program, summaries)?;
    if let Some(beyond) = order.get(MOST_METHODS) {
        let method = program.method(*beyond)?;
        return Err(Fault::at(FaultKind::TooManyMethods, method.token).about(method.name));
    }
    let quiet = quiet_methods(program, summaries)?;
    let parts = Parts {
        program,
        summaries,
        codes,
        order: &order,
        quiet: &quiet,
    };
    let greatest = Budgets {
        main: u32::MAX,
        classes: Vec::new(program.alloc),
    };
    let written = write_program(parts, &greatest)?;
    if MOST_BYTES < written.text.len() {
        return Err(Fault::at(FaultKind::ProgramTooLong, 0));
    }
    match budgets_of(program, &written.text)? {
        Some(budgets) => write_program(parts, &budgets),
        None => Ok(written),
    }
}

/// What the image of a text costs, if it is accepted so far.
fn budgets_of<'a>(program: &Program<'a>, text: &[u8]) -> Result<Option<Budgets>, Fault<'a>> {
    let alloc = program.alloc;
    let image = match assemble(alloc, text) {
        Ok(image) => image,
        Err(fault) if fault.kind == AsmFaultKind::OutOfMemory => return Err(no_memory()),
        Err(_) => return Ok(None),
    };
    let Some(checked) = checked(alloc, image)? else {
        return Ok(None);
    };
    let budgets = costs(program, &checked);
    drop(checked);
    Ok(Some(budgets?))
}

fn no_memory<'a>() -> Fault<'a> {
    Fault::at(FaultKind::OutOfMemory, 0)
}

/// An image that is accepted, but for its budgets. Want of memory is no refusal.
fn checked<'a>(alloc: Global, image: Image) -> Result<Option<Checked>, Fault<'a>> {
    let linked = match link(alloc, image) {
        Ok(linked) => linked,
        Err(LinkFault::OutOfMemory) => return Err(no_memory()),
        Err(_) => return Ok(None),
    };
    match check(alloc, linked) {
        Ok(checked) => Ok(Some(checked)),
        Err(aom_verify::Refusal::OutOfMemory) => Err(no_memory()),
        Err(_) => Ok(None),
    }
}

fn costs<'a>(program: &Program<'a>, checked: &Checked) -> Result<Budgets, AllocError>
    ensures main { IfOk result (λ budgets. IsCostOfMain checked.now budgets.main) }
{
    let figures = Figures::of_image(program.alloc, checked)?;
    let classes = class_budgets(program, &figures, checked.linked())?;
    Ok(Budgets {
        main: low(figures.main_price(checked.linked())),
        classes,
    })
}

/// The budgets that are written of the classes, by their numbers in the source.
fn class_budgets<'a>(
    program: &Program<'a>,
    figures: &Figures,
    linked: &Linked,
) -> Result<Vec<u32>, AllocError> {
    let mut budgets: Vec<u32> = Vec::new(program.alloc);
    for _ in 0..program.classes.len() {
        budgets.push(u32::MAX)?;
    }
    for at in 0..program.class_order.len() {
        let ClassId(id) = program.class_order[at];
        if let Some(price) = class_price(figures, linked, at) {
            if id < budgets.len() {
                budgets[id] = low(price);
            }
        }
    }
    Ok(budgets)
}

/// What a dispatch of an object of a class costs, by the class's number in the image.
fn class_price(figures: &Figures, linked: &Linked, at: usize) -> Option<u64> {
    if at >= 256 {
        return None;
    }
    let declared = linked.image().classes().as_slice().get(at)?;
    let number = ClassNumber::new(at as u16)?;
    Some(figures.kind_price(linked, number, declared.kind))
}

fn low(price: u64) -> u32
    ensures { result ≡ min price 4294967295 }
{
    price.min(4294967295) as u32
}
