//! Methods, with their figures, what they override and what leads from them to others.
ghost use Rattle.std.specs.Prelude.{◌≡◌, ◌≤◌, ◌++◌, OnOk, length};
ghost use Rattle.aom_cost_report.specs.Each.{numbered};
ghost use Rattle.aom_cost_report.specs.Methods.{role_word, of_text, heading_text, figures_label, over_line, over_text, method_text, methods_text};

use crate::edge::write_code;
use crate::over::{method_is_over, write_color};
use crate::{FigureWriter, Names, method_number};
use aom_budget::Figures;
use aom_image::{ClassNumber, Method, MethodNumber, Role};
use aom_linker::Linked;
use std::alloc::AllocError;

fn write_role(out: &mut FigureWriter, role: Role) -> Result<(), AllocError>
    ensures { OnOk result (out.new ≡ out.old ++ role_word role) }
{
    match role {
        Role::Do => out.words(b" do"),
        Role::Main => out.words(b" main"),
        Role::Construct => out.words(b" construct"),
        Role::Destruct => out.words(b" destruct"),
        Role::Run => out.words(b" run"),
        Role::Cancel => out.words(b" cancel"),
        Role::Error => out.words(b" error"),
        Role::Accept => out.words(b" accept"),
        Role::Service => out.words(b" service"),
        Role::Undo => out.words(b" undo"),
    }
}

/// The class whose objects a method works on, where there is one.
fn write_class_of(
    out: &mut FigureWriter,
    names: &Names,
    class: Option<ClassNumber>,
) -> Result<(), AllocError>
    ensures { OnOk result (out.new ≡ out.old ++ of_text names.now class) }
{
    match class {
        Some(class) => {
            out.words(b" ")?;
            names.write_class(out, b"c", class)
        }
        None => Ok(()),
    }
}

fn write_figures(
    out: &mut FigureWriter,
    figures: &Figures,
    method: MethodNumber,
) -> Result<(), AllocError>
    ensures { OnOk result (out.new ≡ out.old ++ figures_label figures.now method) }
{
    out.count(b"\\nprice ", figures.price(method))?;
    out.count(b" frames ", u64::from(figures.frames(method)))?;
    out.count(b" entries ", u64::from(figures.entries(method)))?;
    out.words(b"\"")
}

/// A method, told by its name, with its role and its class.
fn write_heading(
    out: &mut FigureWriter,
    names: &Names,
    number: MethodNumber,
    method: &Method,
) -> Result<(), AllocError>
    ensures { OnOk result (out.new ≡ out.old ++ heading_text names.now number method.now) }
{
    write_method_number(out, b"m", number)?;
    out.words(b" [label=\"")?;
    names.write_method(out, b"m", number)?;
    write_role(out, method.role)?;
    write_class_of(out, names, method.class)
}

/// Words, and a method behind them.
fn write_method_number(
    out: &mut FigureWriter,
    words: &[u8],
    method: MethodNumber,
) -> Result<(), AllocError>
    ensures { OnOk result (out.new ≡ out.old ++ numbered words.now method) }
{
    out.count(words, u64::from(method.number()))
}

fn write_over_line(
    out: &mut FigureWriter,
    method: MethodNumber,
    over: MethodNumber,
) -> Result<(), AllocError>
    ensures { OnOk result (out.new ≡ out.old ++ over_line method over) }
{
    write_method_number(out, b"m", method)?;
    write_method_number(out, b" -> m", over)?;
    out.words(b" [key=over arrowhead=empty]\n")
}

/// The method that one overrides, if there is one.
fn write_over(
    out: &mut FigureWriter,
    method: MethodNumber,
    over: Option<MethodNumber>,
) -> Result<(), AllocError>
    ensures { OnOk result (out.new ≡ out.old ++ over_text method over) }
{
    match over {
        Some(over) => write_over_line(out, method, over),
        None => Ok(()),
    }
}

/// A method with its figures, red where it is over a limit, the one that it overrides, and what its instructions lead to.
fn write_method(
    out: &mut FigureWriter,
    names: &Names,
    linked: &Linked,
    figures: &Figures,
    number: MethodNumber,
    method: &Method,
) -> Result<(), AllocError>
    ensures { OnOk result (out.new ≡ out.old ++ method_text names.now linked.now figures.now number method.now) }
{
    write_heading(out, names, number, method)?;
    write_figures(out, figures, number)?;
    write_color(out, method_is_over(linked, figures, number))?;
    out.words(b"]\n")?;
    write_over(out, number, method.over)?;
    write_code(out, number, method.code.as_slice())
}

pub(crate) fn write_methods(
    out: &mut FigureWriter,
    names: &Names,
    linked: &Linked,
    figures: &Figures,
    methods: &[Method],
) -> Result<(), AllocError>
    requires { length methods.now ≤ 1024 }
    ensures { OnOk result (out.new ≡ out.old ++ methods_text names.now linked.now figures.now methods.now) }
{
    for (index, method) in methods.iter().enumerate() {
        write_method(out, names, linked, figures, method_number(index), method)?;
    }
    Ok(())
}
