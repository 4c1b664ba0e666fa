//! The form of the command line: its commands with their arguments.
ghost use Rattle.std.specs.Prelude.{◌≡◌, IfOk, IsOkAnd};
ghost use Rattle.clap.specs.Words.{AddsArg, AddsSubcommand, App, app_of, with_subcommand};
ghost use Rattle.aom_command_line.specs.CommandLine.{HasForm, asm_form, check_form, compile_form, debug_form, dis_form, dot_form, explore_form, form, lsp_form, run_form, show_form, with_files, with_program};

use crate::args::{
    all_arg, asm_arg, base_arg, deaths_arg, expect_arg, explain_arg, file_arg, from_arg, kills_arg,
    limit_arg, lines_arg, map_arg, names_arg, native_arg, pairs_arg, prices_arg, prompt_arg,
    source_arg, text_arg, to_arg, tries_arg, warn_arg,
};
use clap::{Arg, Command};
use std::alloc::{AllocError, Global};

/// The program's version. Its number stands here alone: the tools take it from this line.
const VERSION: &str = "0.1.0";

/// What stands below the list of commands: what the files are, and the exit statuses.
const NOTES: &str = "\
A source is a program as you write it, a text the same as assembly, as compile
makes it, and an image the same in bytes, as asm makes it. With --source a
command takes the source itself, and with --asm the text. A script says what
happens to a run from outside, line by line; it may be empty.
With --explain, check, run and asm say what a fault means, where it is and what
usually mends it.

Exit status:
 0 all is well
 1 the image, the text or the source is refused
 2 the words, the script or the natives are refused
 3 the run waits for what will not come, or is at its limit
 4 main or a dispatch has ended in an error
 5 a file, the output or memory has failed";

/// The program's command line: a word for what is done, and that command's own words.
pub fn aom_command<'a>(alloc: Global) -> Result<Command<'a>, AllocError>
    ensures { IfOk result (λ c. app_of c ≡ form) }
{
    let command = Command::new(alloc, "aom")
        .about("Assembles, checks, runs and debugs programs of active objects")
        .after_help(NOTES)
        .version(VERSION)
        .subcommand_required(true);
    with_translations(alloc, with_uses(alloc, command))
}

/// Adds what is done with an image.
fn with_uses<'a>(alloc: Global, command: Command<'a>) -> Result<Command<'a>, AllocError>
    ensures { IfOk result (λ c. app_of c ≡ with_subcommand (with_subcommand (with_subcommand (with_subcommand (app_of command.entry) check_form.top) run_form.top) explore_form.top) debug_form.top) }
{
    let command = with_command(command, check_command(alloc));
    let command = with_made(command, run_command(alloc));
    let command = with_made(command, explore_command(alloc));
    with_made(command, debug_command(alloc))
}

/// Adds what makes an image of a text, texts of an image, and a text of a source, and the server of editors.
fn with_translations<'a>(
    alloc: Global,
    command: Result<Command<'a>, AllocError>,
) -> Result<Command<'a>, AllocError>
    ensures { (to : App) → IfOk command.entry (λ c. app_of c ≡ to) → IfOk result (λ c. app_of c ≡ with_subcommand (with_subcommand (with_subcommand (with_subcommand (with_subcommand (with_subcommand to asm_form.top) dis_form.top) dot_form.top) compile_form.top) show_form.top) lsp_form.top) }
{
    let command = with_made(command, asm_command(alloc));
    let command = with_made(command, dis_command(alloc));
    let command = with_made(command, dot_command(alloc));
    let command = with_made(command, compile_command(alloc));
    let command = with_made(command, show_command(alloc));
    with_made(command, lsp_command(alloc))
}

/// Adds a command, where both were made.
fn with_made<'a>(
    command: Result<Command<'a>, AllocError>,
    made: Result<Command<'a>, AllocError>,
) -> Result<Command<'a>, AllocError>
    ensures { IfOk result (λ c. IsOkAnd command.entry (λ b. IsOkAnd made.entry (λ m. AddsSubcommand b m c))) }
{
    match command {
        Ok(command) => with_command(command, made),
        Err(error) => {
            leave_made(made);
            Err(error)
        }
    }
}

/// Adds a command that was made.
fn with_command<'a>(
    command: Command<'a>,
    made: Result<Command<'a>, AllocError>,
) -> Result<Command<'a>, AllocError>
    ensures { IfOk result (λ c. IsOkAnd made.entry (λ m. AddsSubcommand command.entry m c)) }
{
    match made {
        Ok(made) => command.subcommand(made),
        Err(error) => {
            leave(command);
            Err(error)
        }
    }
}

/// Gives a command up, where it was made.
fn leave_made(made: Result<Command, AllocError>) {
    match made {
        Ok(made) => leave(made),
        Err(_) => {}
    }
}

/// Gives a command up: `clap` takes it with no words, and frees it.
fn leave(command: Command) {
    let no_words: &[&str] = Default::default();
    let _ = command.try_get_matches_from(no_words);
}

fn check_command<'a>(alloc: Global) -> Result<Command<'a>, AllocError>
    ensures { IfOk result (λ c. HasForm check_form c) }
{
    let command = Command::new(alloc, "check")
        .about("Says whether an image is accepted, or what is wrong with it first")
        .arg(prices_arg(alloc));
    let command = with_arg(command, explain_arg(alloc));
    let command = with_arg(command, lines_arg(alloc));
    let command = with_arg(command, all_arg(alloc));
    let command = with_arg(command, warn_arg(alloc));
    let command = with_arg(command, text_arg(alloc));
    with_program(alloc, command)
}

/// Adds the file of a program, and what it is.
fn with_program<'a>(
    alloc: Global,
    command: Result<Command<'a>, AllocError>,
) -> Result<Command<'a>, AllocError>
    ensures { (form : App) → IfOk command.entry (λ c. HasForm form c) → IfOk result (λ c. HasForm (with_program form) c) }
{
    let command = with_arg(command, asm_arg(alloc));
    let command = with_arg(command, source_arg(alloc));
    with_arg(
        command,
        file_arg(
            alloc,
            "IMAGE",
            "The file of an image; with --asm of an assembly text, with --source of a source",
        ),
    )
}

/// Adds an argument to a command, where that was made.
fn with_arg<'a>(
    command: Result<Command<'a>, AllocError>,
    arg: Arg<'a>,
) -> Result<Command<'a>, AllocError>
    ensures { IfOk result (λ c. IsOkAnd command.entry (λ m. AddsArg m arg.entry c)) }
{
    command?.arg(arg)
}

fn asm_command<'a>(alloc: Global) -> Result<Command<'a>, AllocError>
    ensures { IfOk result (λ c. HasForm asm_form c) }
{
    let command = Command::new(alloc, "asm")
        .about("Assembles a text: writes the image to standard output")
        .arg(explain_arg(alloc));
    with_arg(
        command,
        file_arg(alloc, "TEXT", "The file of an assembly text"),
    )
}

fn dis_command<'a>(alloc: Global) -> Result<Command<'a>, AllocError>
    ensures { IfOk result (λ c. HasForm dis_form c) }
{
    let command = Command::new(alloc, "dis")
        .about("Lists an image: writes it as a text to standard output")
        .arg(source_arg(alloc));
    with_arg(
        command,
        file_arg(
            alloc,
            "IMAGE",
            "The file of an image; with --source of a source",
        ),
    )
}

fn compile_command<'a>(alloc: Global) -> Result<Command<'a>, AllocError>
    ensures { IfOk result (λ c. HasForm compile_form c) }
{
    let command = Command::new(alloc, "compile")
        .about("Compiles a source: writes it as an assembly text to standard output")
        .arg(map_arg(alloc));
    with_arg(command, file_arg(alloc, "SOURCE", "The file of a source"))
}

fn show_command<'a>(alloc: Global) -> Result<Command<'a>, AllocError>
    ensures { IfOk result (λ c. HasForm show_form c) }
{
    Command::new(alloc, "show")
        .about("Shows a source with what the compiler has added to each line")
        .arg(file_arg(alloc, "SOURCE", "The file of a source"))
}

fn lsp_command<'a>(alloc: Global) -> Result<Command<'a>, AllocError>
    ensures { IfOk result (λ c. HasForm lsp_form c) }
{
    let command = Command::new(alloc, "lsp").about(
        "Answers editors what they ask of sources, over standard input and output",
    );
    Ok(command)
}

fn dot_command<'a>(alloc: Global) -> Result<Command<'a>, AllocError>
    ensures { IfOk result (λ c. HasForm dot_form c) }
{
    let command = Command::new(alloc, "dot")
        .about("Draws an image: writes its classes and methods as a graph for Graphviz")
        .arg(text_arg(alloc));
    with_program(alloc, command)
}

fn run_command<'a>(alloc: Global) -> Result<Command<'a>, AllocError>
    ensures { IfOk result (λ c. HasForm run_form c) }
{
    let command = Command::new(alloc, "run")
        .about("Checks an image, runs it under a script and writes the transcript")
        .arg(limit_arg(alloc));
    let command = with_arg(command, explain_arg(alloc));
    let command = with_arg(command, names_arg(alloc));
    let command = with_arg(command, warn_arg(alloc));
    let command = with_arg(command, text_arg(alloc));
    with_files(alloc, command)
}

fn explore_command<'a>(alloc: Global) -> Result<Command<'a>, AllocError>
    ensures { IfOk result (λ c. HasForm explore_form c) }
{
    let command = Command::new(alloc, "explore")
        .about("Runs an image again with each fault in turn, such as a refused request for memory")
        .arg(limit_arg(alloc));
    let command = with_arg(command, from_arg(alloc));
    let command = with_arg(command, to_arg(alloc));
    let command = with_arg(command, kills_arg(alloc));
    let command = with_arg(command, deaths_arg(alloc));
    let command = with_arg(command, pairs_arg(alloc));
    let command = with_arg(command, tries_arg(alloc));
    let command = with_arg(command, base_arg(alloc));
    let command = with_arg(command, expect_arg(alloc));
    let command = with_arg(command, text_arg(alloc));
    with_files(alloc, command)
}

fn debug_command<'a>(alloc: Global) -> Result<Command<'a>, AllocError>
    ensures { IfOk result (λ c. HasForm debug_form c) }
{
    let command = Command::new(alloc, "debug")
        .about("Runs an image step by step, by commands from standard input; help tells them")
        .arg(limit_arg(alloc));
    let command = with_arg(command, prompt_arg(alloc));
    let command = with_arg(command, text_arg(alloc));
    with_files(alloc, command)
}

/// Adds the files of a run, and its natives.
fn with_files<'a>(
    alloc: Global,
    command: Result<Command<'a>, AllocError>,
) -> Result<Command<'a>, AllocError>
    ensures { (form : App) → IfOk command.entry (λ c. HasForm form c) → IfOk result (λ c. HasForm (with_files form) c) }
{
    let command = with_program(alloc, command);
    let command = with_arg(
        command,
        file_arg(
            alloc,
            "SCRIPT",
            "The file of a script; /dev/null is an empty one",
        ),
    );
    with_arg(command, native_arg(alloc))
}
