//! The program: reads words and files, and hands their bytes on to the library.
//!
//! What is done with the bytes, what is written of it and with which status the program ends is said and proved there.
//! Here they are brought together with the command line as the system gives it, and with the files, the input and the two outputs of `aom_host`, of which a contract can say nothing.
#![tactic(auto)]

mod program;

ghost use Rattle.std.specs.Prelude.{◌≡◌, ◌≤◌};
ghost use Rattle.aom_command_line.specs.CommandLine.{KeepsLimit};
ghost use Rattle.aom_commands.specs.Beside.{AreNew};

use aom_command_line::{FileKind, RunWords, TriesWords, Words, WordsFault, read_words};
use aom_commands::{ExitStatus, Fault, Translation, assemble_bytes, translate_bytes};
use aom_diagnostic_commands::{
    Program, Telling, asm, check, check_all, debug, dot, explore_with, run, warn, warn_script,
};
use aom_fault_injection::{ExploreOptions, Part, Tries};
use aom_host::{Commands, Input, Output, ReadError, read_file};
use aom_language_server::{Ended, serve as serve_editor};
use aom_natives::{Counter, Delay, Line, Native, NativeKind};
use aom_source_commands::{Emit, compile_source, script_of_source, show_source};
use aom_transcript::{Sink, write_text};
use program::{ProgramFiles, Unready, compiled};
use std::env;
use std::io::{self, BufWriter, Stdin, Stdout, Write};
use std::process::ExitCode;

/// The most reads of standard input.
const MAX_READS: u64 = 1 << 32;

fn main(rt: HostRuntime) -> ExitCode {
    let mut errors = Output::new(rt.stderr());
    let status = match BufWriter::new(rt.alloc(), rt.stdout()) {
        Ok(writer) => serve(&rt, Output::new(writer), &mut errors),
        Err(_) => Telling::Plain.report(rt.alloc(), &Fault::Memory, b"", &mut errors),
    };
    ExitCode::from(status.number())
}

/// Does what the words of the command line ask.
fn serve<W: Write + Drop, E: Sink>(rt: &HostRuntime, out: Output<W>, errors: &mut E) -> ExitStatus {
    let words = match given_words(rt) {
        Ok(words) => words,
        Err(fault) => return refuse(rt, fault, Telling::Plain, errors),
    };
    let telling = plain_or_explained(asks_to_explain(&words));
    match read_words(rt.alloc(), words) {
        Ok(words) => answer(rt, &words, out, errors),
        Err(fault) => refuse(rt, fault, telling, errors),
    }
}

/// Whether a fault is to be explained, also where the words are refused. Behind `--` stand names of files alone.
fn asks_to_explain(words: &[String]) -> bool {
    for word in words {
        match word.as_str() {
            "--" => return false,
            "--explain" => return true,
            _ => {}
        }
    }
    false
}

fn plain_or_explained(explain: bool) -> Telling<'static> {
    if explain {
        Telling::Explained
    } else {
        Telling::Plain
    }
}

/// How a call tells its fault.
fn telling_of(words: &Words) -> Telling<'_> {
    match words {
        Words::Check {
            image,
            lines,
            text,
            ..
        } if *lines => Telling::AsLine(text.as_ref().unwrap_or(image).as_bytes()),
        Words::Check { explain, .. } | Words::Run { explain, .. } | Words::Asm { explain, .. } => {
            plain_or_explained(*explain)
        }
        _ => Telling::Plain,
    }
}

/// The words that the system has handed over. One that is no text is no word of any command.
fn given_words(rt: &HostRuntime) -> Result<Vec<String>, WordsFault> {
    let alloc = rt.alloc();
    match env::args(rt) {
        Ok(words) => Ok(words.collect(alloc)?),
        Err(error) if error.kind() == io::ErrorKind::OutOfMemory => Err(WordsFault::Memory),
        Err(_) => Err(WordsFault::Text(String::from_str(
            alloc,
            "error: a word that is no text\n",
        )?)),
    }
}

/// Does what the words ask, and sends on all that is written. That this fails is a fault too.
fn answer<W: Write + Drop, E: Sink>(
    rt: &HostRuntime,
    words: &Words,
    mut out: Output<W>,
    errors: &mut E,
) -> ExitStatus
    requires limit { KeepsLimit words.now }
{
    let telling = telling_of(words);
    let status = match execute(rt, words, telling, &mut out, errors) {
        Ok(status) => status,
        Err(Unready::Unread(error)) => report_read_error(rt, error, telling, errors),
        Err(Unready::Refused(told)) => {
            write_text(errors, &told);
            ExitStatus::ImageRefused
        }
    };
    if out.fails_at_end() {
        return telling.report(rt.alloc(), &Fault::Write, b"", errors);
    }
    status
}

/// Tells why the command has not begun: which file cannot be read, and why, where that is to be explained.
fn report_read_error<E: Sink>(
    rt: &HostRuntime,
    unready: ReadError<'_>,
    telling: Telling<'_>,
    errors: &mut E,
) -> ExitStatus {
    let alloc = rt.alloc();
    match (unready, telling) {
        (ReadError::File { name, why }, _) => {
            telling.report_unread(alloc, name.as_bytes(), why.as_bytes(), errors)
        }
        (ReadError::Memory, Telling::AsLine(_)) => {
            Telling::Plain.report(alloc, &Fault::Memory, b"", errors)
        }
        (ReadError::Memory, _) => telling.report(alloc, &Fault::Memory, b"", errors),
    }
}

/// Tells why the words are refused.
fn refuse<E: Sink>(
    rt: &HostRuntime,
    fault: WordsFault,
    telling: Telling<'_>,
    errors: &mut E,
) -> ExitStatus {
    let alloc = rt.alloc();
    match fault {
        WordsFault::Text(text) => {
            write_text(errors, text.as_bytes());
            ExitStatus::CallRefused
        }
        WordsFault::Native => telling.report(alloc, &Fault::Native, b"", errors),
        WordsFault::Memory => telling.report(alloc, &Fault::Memory, b"", errors),
    }
}

/// Reads the files and runs the command. All files are read before anything is looked at.
fn execute<'a, W: Sink, E: Sink>(
    rt: &HostRuntime,
    words: &'a Words,
    telling: Telling<'_>,
    out: &mut W,
    errors: &mut E,
) -> Result<ExitStatus, Unready<'a>>
    requires limit { KeepsLimit words.now }
{
    let alloc = rt.alloc();
    match words {
        Words::Check {
            image,
            kind,
            prices,
            all,
            warn: warned,
            text,
            ..
        } => {
            let files = ProgramFiles::read(rt, image, *kind, text)?;
            let program = files.program();
            let status = if *all {
                check_all(alloc, program, telling, *prices, out, errors)
            } else {
                check(alloc, program, telling, *prices, out, errors)
            };
            Ok(match status {
                ExitStatus::Done if *warned => warn(alloc, program, telling, out, errors),
                _ => status,
            })
        }
        Words::Run {
            run,
            names,
            warn,
            text,
            ..
        } => {
            let names = *names || run.kind == FileKind::Source;
            let warn = *warn;
            let purpose = Purpose::Run {
                telling,
                names,
                warn,
            };
            run_beside(rt, run, text, purpose, out, errors)
        }
        Words::Debug { run, prompt, text } => {
            let (file, prompt) = (text_name(run, text), *prompt);
            let purpose = Purpose::Debug { file, prompt };
            run_beside(rt, run, text, purpose, out, errors)
        }
        Words::Explore {
            run,
            tries,
            base,
            expected,
            text,
        } => {
            let options = ExploreOptions {
                tries: tries_of(*tries),
                base: *base,
                expected: expected.as_slice(),
            };
            explore_beside(rt, run, text, options, out, errors)
        }
        Words::Asm { text, .. } => {
            let text = read_file(rt, text)?;
            Ok(asm(alloc, Program::Text(&text), telling, out, errors))
        }
        Words::Compile { source, map } => {
            let text = read_file(rt, source)?;
            let emit = if *map { Emit::Map } else { Emit::Text };
            match compile_source(alloc, source.as_bytes(), &text, emit, out, errors) {
                Ok(status) => Ok(status),
                Err(fault) => Ok(telling.report(alloc, &fault, b"", errors)),
            }
        }
        Words::Show { source } => {
            let text = read_file(rt, source)?;
            match show_source(alloc, source.as_bytes(), &text, out, errors) {
                Ok(status) => Ok(status),
                Err(fault) => Ok(telling.report(alloc, &fault, b"", errors)),
            }
        }
        Words::Dis { image, source } => {
            let bytes = read_file(rt, image)?;
            if !*source {
                return Ok(translate_bytes(alloc, Translation::Dis, &bytes, out, errors));
            }
            match assemble_bytes(alloc, &compiled(rt, image, &bytes)?.text) {
                Ok(image) => Ok(translate_bytes(alloc, Translation::Dis, &image, out, errors)),
                Err(fault) => Ok(telling.report(alloc, &fault, b"", errors)),
            }
        }
        Words::Lsp => Ok(lsp(rt, telling, errors)),
        Words::Dot { image, kind, text } => {
            let files = ProgramFiles::read(rt, image, *kind, text)?;
            Ok(dot(alloc, files.program(), out, errors))
        }
    }
}

/// Answers an editor at standard input and output, until it ends the session or the input is at its end. What ends with no `shutdown` before has the status that
/// the protocol wants, that of a refusal.
fn lsp<E: Sink>(rt: &HostRuntime, telling: Telling<'_>, errors: &mut E) -> ExitStatus {
    let (mut input, mut out) = (Input::new(rt.stdin()), Output::new(rt.stdout()));
    let fault = match serve_editor(rt.alloc(), &mut input, MAX_READS, &mut out) {
        Ok(Ended::InOrder) => return ExitStatus::Done,
        Ok(Ended::Early) => return ExitStatus::ImageRefused,
        Ok(Ended::Failed) => Fault::Write,
        Err(_) => Fault::Memory,
    };
    telling.report(rt.alloc(), &fault, b"", errors)
}

/// The bytes of the files of a run.
#[derive(Drop)]
struct RunFiles {
    program: ProgramFiles,
    script: Vec<u8>,
}

impl RunFiles {
    fn read<'a>(
        rt: &HostRuntime,
        run: &'a RunWords,
        text: &'a Option<String>,
    ) -> Result<RunFiles, Unready<'a>> {
        let program = ProgramFiles::read(rt, &run.image, run.kind, text)?;
        Ok(RunFiles {
            script: script_beside(rt, run.kind, &program, read_file(rt, &run.script)?)?,
            program,
        })
    }
}

/// The script of a run: one beside a source may have comments and names.
fn script_beside<'a>(
    rt: &HostRuntime,
    kind: FileKind,
    program: &ProgramFiles,
    script: Vec<u8>,
) -> Result<Vec<u8>, Unready<'a>> {
    if kind != FileKind::Source {
        return Ok(script);
    }
    match script_of_source(rt.alloc(), &program.file, &script) {
        Ok(plain) => Ok(plain),
        Err(_) => Err(Unready::Unread(ReadError::Memory)),
    }
}

/// The name of the file in which a program's text is told to be, where there is one that the words name.
fn text_name<'a>(run: &'a RunWords, text: &'a Option<String>) -> &'a [u8] {
    match text {
        Some(name) => name.as_bytes(),
        None if run.kind != FileKind::Image => run.image.as_bytes(),
        None => b"",
    }
}

/// What a program and its natives are for.
#[derive(Clone, Copy)]
enum Purpose<'a> {
    /// To run, and to tell a fault so; with the names of the program's text in the transcript, or with numbers; and with warnings of the script before.
    Run {
        telling: Telling<'a>,
        names: bool,
        warn: bool,
    },
    /// To run as the commands say that come from standard input, each behind a prompt, if one is asked for; the program's text is told to be in that file.
    Debug {
        file: &'a [u8],
        prompt: bool,
    },
}

impl<'a> Purpose<'a> {
    /// Runs a program beside those natives, which are new ones of the kinds that the words name, in their order. The answers of a debugger go
    /// out as they come.
    fn run<W: Sink, E: Sink>(
        self,
        rt: &HostRuntime,
        words: &RunWords,
        files: &RunFiles,
        boxes: Vec<Box<dyn Native>>,
        out: &mut W,
        errors: &mut E,
    ) -> ExitStatus
        requires limit { (1 ≤ words.now.limit) × (words.now.limit ≤ 1000000000) }
        requires new { AreNew (λ b. record { owed = (⟦<dyn Native as Native>⟧ b.vtable).owed b.value; open_may = (⟦<dyn Native as Native>⟧ b.vtable).open_may b.value; start_may = (⟦<dyn Native as Native>⟧ b.vtable).start_may b.value; call_may = (⟦<dyn Native as Native>⟧ b.vtable).call_may b.value; poll_may = (⟦<dyn Native as Native>⟧ b.vtable).poll_may b.value }) words.now.natives.items boxes.items }
    {
        let (alloc, limit) = (rt.alloc(), words.limit);
        let (program, script) = (files.program.program(), &files.script);
        match self {
            Purpose::Run {
                telling,
                names,
                warn,
            } => {
                if warn {
                    warn_script(alloc, program, script, errors);
                }
                run(
                    alloc, program, telling, names, script, limit, boxes, out, errors,
                )
            }
            Purpose::Debug { file, prompt } => {
                let (mut out, mut commands) = (Output::new(rt.stdout()), commands_of(rt, prompt));
                debug(
                    alloc,
                    program,
                    files.program.text_file(file),
                    script,
                    limit,
                    boxes,
                    &mut commands,
                    MAX_READS,
                    &mut out,
                    errors,
                )
            }
        }
    }
}

/// The commands that come from standard input, each behind a prompt where one is asked for.
fn commands_of(rt: &HostRuntime, prompt: bool) -> Commands<Input<Stdin>, Output<Stdout>> {
    let prompts = if prompt {
        Some(Output::new(rt.stdout()))
    } else {
        None
    };
    Commands::new(Input::new(rt.stdin()), prompts)
}

/// Reads the files of a run, and runs the program beside the natives that the words name.
fn run_beside<'a, W: Sink, E: Sink>(
    rt: &HostRuntime,
    words: &'a RunWords,
    text: &'a Option<String>,
    purpose: Purpose<'_>,
    out: &mut W,
    errors: &mut E,
) -> Result<ExitStatus, Unready<'a>>
    requires limit { (1 ≤ words.now.limit) × (words.now.limit ≤ 1000000000) }
{
    let files = RunFiles::read(rt, words, text)?;
    let kinds = words.natives.as_slice();
    let ended = run_files(rt, purpose, words, kinds, &files, out, errors);
    drop(files);
    Ok(ended?)
}

/// Makes natives of the kinds that the words name, and runs a program beside them.
fn run_files<'a, W: Sink, E: Sink>(
    rt: &HostRuntime,
    purpose: Purpose<'_>,
    words: &'a RunWords,
    kinds: &[NativeKind],
    files: &RunFiles,
    out: &mut W,
    errors: &mut E,
) -> Result<ExitStatus, ReadError<'a>>
    requires limit { (1 ≤ words.now.limit) × (words.now.limit ≤ 1000000000) }
    requires kinds { kinds.now ≡ words.now.natives.items }
{
    let alloc = rt.alloc();
    let mut boxes: Vec<Box<dyn Native>> = Vec::new(alloc);
    for kind in kinds {
        match *kind {
            NativeKind::Counter => boxes.push(Box::new(alloc, Counter::new())?)?,
            NativeKind::Line => boxes.push(Box::new(alloc, Line::new())?)?,
            NativeKind::Delay => boxes.push(Box::new(alloc, Delay::new())?)?,
        }
    }
    Ok(purpose.run(rt, words, files, boxes, out, errors))
}

/// The tries that the words ask for.
fn tries_of(words: TriesWords) -> Tries {
    Tries {
        part: Part {
            first: words.first,
            last: words.last,
        },
        kills: words.kills,
        deaths: words.deaths,
        pairs: if words.pairs { Some(words.most) } else { None },
    }
}

/// Reads the files of a run, and runs the program again and again, each time with a fault injected.
fn explore_beside<'a, W: Sink, E: Sink>(
    rt: &HostRuntime,
    words: &'a RunWords,
    text: &'a Option<String>,
    options: ExploreOptions<'_>,
    out: &mut W,
    errors: &mut E,
) -> Result<ExitStatus, Unready<'a>>
    requires limit { (1 ≤ words.now.limit) × (words.now.limit ≤ 1000000000) }
{
    let files = RunFiles::read(rt, words, text)?;
    let (program, kinds) = (files.program.program(), words.natives.as_slice());
    Ok(explore_with(
        rt.alloc(),
        program,
        &files.script,
        words.limit,
        kinds,
        options,
        out,
        errors,
    ))
}
