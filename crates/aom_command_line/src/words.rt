//! The command line.
ghost use Rattle.std.specs.Prelude.{◌≡◌, ◌≢◌, ◌≤◌, ◌⊎◌, IfOk, IfErr, None, Some, false, true, codes, length};
ghost use Rattle.std.specs.String.{string_bytes};
ghost use Rattle.clap.specs.Words.{all_of, first_of, found_of, kind_of, one_of, rows_of, subcommand_of, subcommand_rows_of, takes};
ghost use Rattle.aom_command_line.specs.CommandLine.{form, texts_of, word_of, Asks, AsksKind, AsksLines, AsksNames, AsksRun, AsksText, AsksTries, AsksWarnings, Declines, DeclinesEndings, DeclinesKind, DeclinesLines, DeclinesNatives, DeclinesRun, DeclinesText, DeclinesTextless, DeclinesWarnings, IsFlag, IsNumberUpTo, KeepsLimit, NamesKinds, Says, SaysEndings, is_assembly, is_image, is_source, texts_in};

use crate::forms::aom_command;
use aom_fault_injection::ExpectedEnding;
use aom_natives::NativeKind;
use clap::error::ErrorKind;
use clap::{ArgMatches, Error};
use std::alloc::{AllocError, AllocFailed, Global};
use thiserror::Error as FaultText;

/// What the file of a program is.
#[derive(Clone, Copy, PartialEq, Eq, Debug)]
pub enum FileKind {
    Image,
    /// An assembly text.
    Assembly,
    Source,
}

impl FileKind {
    fn is_assembly(self) -> bool
        ensures { result ≡ is_assembly self }
    {
        matches!(self, FileKind::Assembly)
    }

    fn is_source(self) -> bool
        ensures { result ≡ is_source self }
    {
        matches!(self, FileKind::Source)
    }

    fn is_image(self) -> bool
        ensures { result ≡ is_image self }
    {
        matches!(self, FileKind::Image)
    }
}

/// What is asked, with the names of files.
#[derive(Drop)]
pub enum Words {
    Check {
        image: String,
        kind: FileKind,
        /// Whether what the methods come to and cost is asked for.
        prices: bool,
        /// Whether a fault is to be explained.
        explain: bool,
        /// Whether a fault is to be told in one line with its place in a text, as compilers do.
        lines: bool,
        /// Whether the first fault of each method is to be told.
        all: bool,
        /// Whether warnings of an accepted image are asked for.
        warn: bool,
        /// The text that the image is of, whose lines are told.
        text: Option<String>,
    },
    Run {
        run: RunWords,
        /// Whether a fault is to be explained.
        explain: bool,
        /// Whether the transcript has the names of a text in place of the numbers of classes.
        names: bool,
        /// Whether warnings of the script are asked for.
        warn: bool,
        /// The text that the image is of, whose lines an explanation names.
        text: Option<String>,
    },
    /// Run again and again, each time with a fault injected.
    Explore {
        run: RunWords,
        tries: TriesWords,
        /// Whether the run as it is is told too.
        base: bool,
        /// How runs are expected to end. Where there is nothing, none is judged.
        expected: Vec<ExpectedEnding>,
        /// The text that the image is of.
        text: Option<String>,
    },
    /// Run as commands say that come in.
    Debug {
        run: RunWords,
        /// Whether a prompt is written before each line is read.
        prompt: bool,
        /// The text that the image is of, whose names and lines are told.
        text: Option<String>,
    },
    Asm {
        text: String,
        /// Whether a fault is to be explained.
        explain: bool,
    },
    Dis {
        image: String,
        /// Whether the file is a source, and not an image.
        source: bool,
    },
    /// A source is to be compiled to an assembly text.
    Compile {
        source: String,
        /// Whether the map of the text is asked for, and not the text.
        map: bool,
    },
    /// A source is to be shown with what was added to it.
    Show {
        source: String,
    },
    Dot {
        image: String,
        kind: FileKind,
        /// The text that the image is of, whose names are told.
        text: Option<String>,
    },
    /// An editor is to be answered.
    Lsp,
}

/// Why a command line is refused.
#[derive(Debug, Drop, FaultText)]
pub enum WordsFault {
    /// What `clap` has to say, a fault, or the help or the version that was asked for; or that `--text`, `--asm`, `--source`, `--explain`, `--lines` and `--names` do not fit together; or that a word behind `--expect` says no ending.
    #[error("{0}")]
    Text(String),
    /// No native of that name, or one too many.
    #[error("native")]
    Native,
    #[error("memory")]
    Memory,
}

impl From<AllocError> for WordsFault {
    ghost use Rattle.aom_command_line.specs.declared.words.WordsFault.TheVariants.{Memory};

    ghost from_gives = { λ _ f. f ≡ Memory };

    fn from(_error: AllocError) -> WordsFault {
        WordsFault::Memory
    }
}

impl<T: Drop> From<AllocFailed<T>> for WordsFault {
    ghost use Rattle.aom_command_line.specs.declared.words.WordsFault.TheVariants.{Memory};

    ghost from_gives = { λ _ f. f ≡ Memory };

    fn from(_failed: AllocFailed<T>) -> WordsFault {
        WordsFault::Memory
    }
}

/// What every command that runs an image is given.
#[derive(Drop)]
pub struct RunWords {
    pub image: String,
    pub kind: FileKind,
    pub script: String,
    /// The most dispatches after main's, of each run.
    pub limit: u32,
    /// The natives, from number 0 on.
    pub natives: Vec<NativeKind>,
}

/// Which faults are injected, one after the other.
#[derive(Clone, Copy)]
pub struct TriesWords {
    /// The number of the first allocation request that is refused.
    pub first: u32,
    /// The number of the last one.
    pub last: u32,
    /// Whether natives are killed too.
    pub kills: bool,
    /// Whether clients die too.
    pub deaths: bool,
    /// Whether two requests are refused too.
    pub pairs: bool,
    /// The most pairs of them.
    pub most: u32,
}

/// The most natives that a command line may name.
const MAX_NATIVES: usize = 16;

/// Reads a command line, the program's own word first.
pub fn read_words(alloc: Global, words: Vec<String>) -> Result<Words, WordsFault>
    ensures asks { IfOk result (λ asked. Asks (subcommand_of form (texts_of words.items)) asked) }
    ensures declines { IfErr result (λ fault. Declines (takes form (texts_of words.items)) (subcommand_of form (texts_of words.items)) fault) }
    ensures limit { IfOk result (λ asked. KeepsLimit asked) }
{
    let command = aom_command(alloc)?;
    match command.try_get_matches_from(words.as_slice()) {
        Ok(matches) => {
            let asked = words_of(alloc, &matches);
            drop(matches);
            asked
        }
        Err(error) => {
            let refusal = refusal_of(alloc, &error);
            drop(error);
            Err(refusal)
        }
    }
}

/// What `clap` has to say of the words, unless it had no memory for that.
fn refusal_of(alloc: Global, error: &Error) -> WordsFault
    ensures { Says (kind_of error.now) result }
{
    if error.kind() == ErrorKind::OutOfMemory {
        return WordsFault::Memory;
    }
    match error.to_string(alloc) {
        Ok(text) => WordsFault::Text(text),
        Err(_) => WordsFault::Memory,
    }
}

/// What the words ask. Without a command, which `clap` lets nobody leave out, there is nothing to say.
fn words_of(alloc: Global, matches: &ArgMatches) -> Result<Words, WordsFault>
    ensures asks { IfOk result (λ asked. Asks (subcommand_rows_of matches.now) asked) }
    ensures declines { IfErr result (λ fault. Declines true (subcommand_rows_of matches.now) fault) }
{
    match matches.subcommand() {
        Some((command, own)) => command_words(alloc, command, own),
        None => Err(WordsFault::Text(String::new(alloc))),
    }
}

/// What a command asks, with the words of its own.
fn command_words(alloc: Global, command: &str, own: &ArgMatches) -> Result<Words, WordsFault>
    ensures asks { IfOk result (λ asked. Asks (Some (command.now, rows_of (found_of own.now))) asked) }
    ensures declines { IfErr result (λ fault. Declines true (Some (command.now, rows_of (found_of own.now))) fault) }
{
    match command {
        "check" => check_words(alloc, own),
        "run" => running_words(alloc, own),
        "explore" => explore_words(alloc, own),
        "debug" => debug_words(alloc, own),
        "asm" => asm_words(alloc, own),
        "dis" => dis_words(alloc, own),
        "dot" => dot_words(alloc, own),
        "compile" => compile_words(alloc, own),
        "show" => show_words(alloc, own),
        "lsp" => Ok(Words::Lsp),
        _ => Err(WordsFault::Text(String::new(alloc))),
    }
}

fn check_words(alloc: Global, own: &ArgMatches) -> Result<Words, WordsFault>
    ensures asks { IfOk result (λ asked. Asks (Some (codes "check", rows_of (found_of own.now))) asked) }
    ensures declines { IfErr result (λ fault. Declines true (Some (codes "check", rows_of (found_of own.now))) fault) }
{
    let explain = is_set(own, "explain");
    let lines = is_set(own, "lines");
    let prices = is_set(own, "prices");
    let all = is_set(own, "all");
    let warn = is_set(own, "warn");
    let kind = file_kind_of(alloc, own)?;
    fit_lines(alloc, own, explain, kind, lines)?;
    fit_warnings(alloc, own, kind, warn)?;
    Ok(Words::Check {
        text: text_of(alloc, own, explain | lines | prices, kind)?,
        image: word_of(alloc, own, "IMAGE")?,
        prices,
        kind,
        explain,
        lines,
        all,
        warn,
    })
}

/// What the words say that the file of a program is. It is not both a text and a source.
fn file_kind_of(alloc: Global, own: &ArgMatches) -> Result<FileKind, WordsFault>
    ensures asks { IfOk result (λ kind. AsksKind (rows_of (found_of own.now)) kind) }
    ensures declines { IfErr result (λ fault. DeclinesKind (rows_of (found_of own.now)) fault) }
{
    let source = is_set(own, "source");
    if !is_set(own, "asm") {
        return Ok(if source {
            FileKind::Source
        } else {
            FileKind::Image
        });
    }
    if source {
        return Err(WordsFault::Text(String::from_str(
            alloc,
            "error: --source has no use beside --asm\n",
        )?));
    }
    Ok(FileKind::Assembly)
}

/// Refuses lines beside an explanation, and where there is no text whose lines they could be.
fn fit_lines(
    alloc: Global,
    own: &ArgMatches,
    explain: bool,
    kind: FileKind,
    lines: bool,
) -> Result<(), WordsFault>
    requires explain { IsFlag (one_of (codes "explain") (rows_of (found_of own.now))) explain }
    requires kind { AsksKind (rows_of (found_of own.now)) kind }
    requires lines { IsFlag (one_of (codes "lines") (rows_of (found_of own.now))) lines }
    ensures asks { IfOk result (λ _. AsksLines (rows_of (found_of own.now)) explain kind lines) }
    ensures declines { IfErr result (λ fault. DeclinesLines (rows_of (found_of own.now)) fault) }
{
    if !lines {
        return Ok(());
    }
    if explain {
        return Err(WordsFault::Text(String::from_str(
            alloc,
            "error: --lines has no use beside --explain\n",
        )?));
    }
    fit_text(
        alloc,
        own,
        "lines",
        kind.is_assembly(),
        "error: --lines asks for --asm or --text\n",
    )
}

/// Refuses warnings of a source, whose author knows no registers.
fn fit_warnings(
    alloc: Global,
    own: &ArgMatches,
    kind: FileKind,
    warn: bool,
) -> Result<(), WordsFault>
    requires kind { AsksKind (rows_of (found_of own.now)) kind }
    requires warn { IsFlag (one_of (codes "warn") (rows_of (found_of own.now))) warn }
    ensures asks { IfOk result (λ _. AsksWarnings (rows_of (found_of own.now)) kind warn) }
    ensures declines { IfErr result (λ fault. DeclinesWarnings (rows_of (found_of own.now)) fault) }
{
    let _matches = own;
    if warn && kind.is_source() {
        return Err(WordsFault::Text(String::from_str(
            alloc,
            "error: --warn has no use beside --source\n",
        )?));
    }
    Ok(())
}

/// Refuses so what only a text can give where there is none.
fn fit_text(
    alloc: Global,
    own: &ArgMatches,
    id: &str,
    is_text: bool,
    refusal: &str,
) -> Result<(), WordsFault>
    requires asked { one_of id.now (rows_of (found_of own.now)) ≢ Some (codes "false") }
    requires image { is_text ≡ false → one_of (codes "asm") (rows_of (found_of own.now)) ≢ Some (codes "true") }
    ensures asks { IfOk result (λ _. (is_text ≡ true) ⊎ (first_of (codes "text") (rows_of (found_of own.now)) ≢ None)) }
    ensures declines { IfErr result (λ fault. DeclinesTextless id.now (rows_of (found_of own.now)) fault) }
{
    let text = own.get_str("text");
    match text {
        Some(_) => Ok(()),
        None if is_text => Ok(()),
        None => Err(WordsFault::Text(String::from_str(alloc, refusal)?)),
    }
}

/// Refuses names where there is no text that has them.
fn fit_names(alloc: Global, own: &ArgMatches, kind: FileKind, names: bool) -> Result<(), WordsFault>
    requires kind { AsksKind (rows_of (found_of own.now)) kind }
    requires names { IsFlag (one_of (codes "names") (rows_of (found_of own.now))) names }
    ensures asks { IfOk result (λ _. AsksNames (rows_of (found_of own.now)) kind names) }
    ensures declines { IfErr result (λ fault. DeclinesTextless (codes "names") (rows_of (found_of own.now)) fault) }
{
    if !names {
        return Ok(());
    }
    fit_text(
        alloc,
        own,
        "names",
        !kind.is_image(),
        "error: --names asks for --asm, --source or --text\n",
    )
}

fn running_words(alloc: Global, own: &ArgMatches) -> Result<Words, WordsFault>
    ensures asks { IfOk result (λ asked. Asks (Some (codes "run", rows_of (found_of own.now))) asked) }
    ensures declines { IfErr result (λ fault. Declines true (Some (codes "run", rows_of (found_of own.now))) fault) }
{
    let explain = is_set(own, "explain");
    let names = is_set(own, "names");
    let kind = file_kind_of(alloc, own)?;
    let warn = is_set(own, "warn");
    fit_names(alloc, own, kind, names)?;
    fit_warnings(alloc, own, kind, warn)?;
    Ok(Words::Run {
        text: text_of(alloc, own, explain | names | warn, kind)?,
        run: run_words(alloc, own, kind)?,
        explain,
        names,
        warn,
    })
}

/// The text that is named beside an image, which is refused where it is of no use, and where the file is no image.
fn text_of(
    alloc: Global,
    own: &ArgMatches,
    used: bool,
    kind: FileKind,
) -> Result<Option<String>, WordsFault>
    requires kind { AsksKind (rows_of (found_of own.now)) kind }
    ensures asks { IfOk result (λ text. AsksText (rows_of (found_of own.now)) used kind text) }
    ensures declines { IfErr result (λ fault. DeclinesText (rows_of (found_of own.now)) used fault) }
{
    match own.get_str("text") {
        Some(_) if !kind.is_image() => Err(WordsFault::Text(String::from_str(
            alloc,
            if kind.is_assembly() {
                "error: --text has no use beside --asm\n"
            } else {
                "error: --text has no use beside --source\n"
            },
        )?)),
        Some(name) if used => Ok(Some(String::from_str(alloc, name)?)),
        Some(_) => Err(WordsFault::Text(String::from_str(
            alloc,
            "error: --text asks for --explain, --lines, --prices or --names\n",
        )?)),
        None => Ok(None),
    }
}

fn explore_words(alloc: Global, own: &ArgMatches) -> Result<Words, WordsFault>
    ensures asks { IfOk result (λ asked. Asks (Some (codes "explore", rows_of (found_of own.now))) asked) }
    ensures declines { IfErr result (λ fault. Declines true (Some (codes "explore", rows_of (found_of own.now))) fault) }
{
    let kind = file_kind_of(alloc, own)?;
    let expected = expected_of(alloc, own)?;
    Ok(Words::Explore {
        text: text_of(alloc, own, true, kind)?,
        run: run_words(alloc, own, kind)?,
        tries: tries_words(own),
        base: is_set(own, "base"),
        expected,
    })
}

/// How the words expect that runs end.
fn expected_of(alloc: Global, own: &ArgMatches) -> Result<Vec<ExpectedEnding>, WordsFault>
    ensures said { IfOk result (λ expected. SaysEndings (all_of (codes "expect") (rows_of (found_of own.now))) expected.items) }
    ensures declines { IfErr result (λ fault. DeclinesEndings (all_of (codes "expect") (rows_of (found_of own.now))) fault) }
{
    let Some(words) = own.get_strs("expect") else {
        return Ok(Vec::new(alloc));
    };
    endings_of(alloc, words)
}

/// The endings that words say.
fn endings_of(alloc: Global, words: &[&str]) -> Result<Vec<ExpectedEnding>, WordsFault>
    ensures said { IfOk result (λ expected. SaysEndings (Some (texts_in words.now)) expected.items) }
    ensures declines { IfErr result (λ fault. DeclinesEndings (Some (texts_in words.now)) fault) }
{
    let mut expected = Vec::new(alloc);
    for word in words {
        match ExpectedEnding::of_words(word.as_bytes()) {
            Some(ending) => expected.push(ending)?,
            None => return Err(WordsFault::Text(no_ending(alloc, word)?)),
        }
    }
    Ok(expected)
}

/// What is told of a word that says no ending.
fn no_ending(alloc: Global, word: &str) -> Result<String, AllocError> {
    format!(in alloc;
        "error: invalid value '{word}' for '--expect <ENDING>': it takes stopped, waiting, left, limit, error, or what a last line says behind end, as 'stopped cells 0'\n"
    )
}

/// What `explore` is to try.
fn tries_words(own: &ArgMatches) -> TriesWords
    ensures { AsksTries (rows_of (found_of own.now)) result }
{
    TriesWords {
        first: number_of(own, "from", 1, u32::MAX),
        last: number_of(own, "to", u32::MAX, u32::MAX),
        kills: is_set(own, "kills"),
        deaths: is_set(own, "deaths"),
        pairs: is_set(own, "pairs"),
        most: number_of(own, "tries", 10_000, u32::MAX),
    }
}

fn debug_words(alloc: Global, own: &ArgMatches) -> Result<Words, WordsFault>
    ensures asks { IfOk result (λ asked. Asks (Some (codes "debug", rows_of (found_of own.now))) asked) }
    ensures declines { IfErr result (λ fault. Declines true (Some (codes "debug", rows_of (found_of own.now))) fault) }
{
    let prompt = is_set(own, "prompt");
    let kind = file_kind_of(alloc, own)?;
    Ok(Words::Debug {
        text: text_of(alloc, own, true, kind)?,
        run: run_words(alloc, own, kind)?,
        prompt,
    })
}

fn asm_words(alloc: Global, own: &ArgMatches) -> Result<Words, WordsFault>
    ensures asks { IfOk result (λ asked. Asks (Some (codes "asm", rows_of (found_of own.now))) asked) }
    ensures declines { IfErr result (λ fault. Declines true (Some (codes "asm", rows_of (found_of own.now))) fault) }
{
    let text = word_of(alloc, own, "TEXT")?;
    Ok(Words::Asm {
        text,
        explain: is_set(own, "explain"),
    })
}

fn dis_words(alloc: Global, own: &ArgMatches) -> Result<Words, WordsFault>
    ensures asks { IfOk result (λ asked. Asks (Some (codes "dis", rows_of (found_of own.now))) asked) }
    ensures declines { IfErr result (λ fault. Declines true (Some (codes "dis", rows_of (found_of own.now))) fault) }
{
    let image = word_of(alloc, own, "IMAGE")?;
    Ok(Words::Dis {
        image,
        source: is_set(own, "source"),
    })
}

fn compile_words(alloc: Global, own: &ArgMatches) -> Result<Words, WordsFault>
    ensures asks { IfOk result (λ asked. Asks (Some (codes "compile", rows_of (found_of own.now))) asked) }
    ensures declines { IfErr result (λ fault. Declines true (Some (codes "compile", rows_of (found_of own.now))) fault) }
{
    let source = word_of(alloc, own, "SOURCE")?;
    Ok(Words::Compile {
        source,
        map: is_set(own, "map"),
    })
}

fn show_words(alloc: Global, own: &ArgMatches) -> Result<Words, WordsFault>
    ensures asks { IfOk result (λ asked. Asks (Some (codes "show", rows_of (found_of own.now))) asked) }
    ensures declines { IfErr result (λ fault. Declines true (Some (codes "show", rows_of (found_of own.now))) fault) }
{
    let source = word_of(alloc, own, "SOURCE")?;
    Ok(Words::Show { source })
}

fn dot_words(alloc: Global, own: &ArgMatches) -> Result<Words, WordsFault>
    ensures asks { IfOk result (λ asked. Asks (Some (codes "dot", rows_of (found_of own.now))) asked) }
    ensures declines { IfErr result (λ fault. Declines true (Some (codes "dot", rows_of (found_of own.now))) fault) }
{
    let image = word_of(alloc, own, "IMAGE")?;
    let kind = file_kind_of(alloc, own)?;
    Ok(Words::Dot {
        text: text_of(alloc, own, true, kind)?,
        image,
        kind,
    })
}

/// What is to run: an image, or what a text or a source stands for.
fn run_words(alloc: Global, own: &ArgMatches, kind: FileKind) -> Result<RunWords, WordsFault>
    requires { AsksKind (rows_of (found_of own.now)) kind }
    ensures asks { IfOk result (λ run. AsksRun (rows_of (found_of own.now)) run) }
    ensures kind { IfOk result (λ run. run.kind ≡ kind) }
    ensures declines { IfErr result (λ fault. DeclinesRun (rows_of (found_of own.now)) fault) }
{
    Ok(RunWords {
        natives: natives_of(alloc, own)?,
        image: word_of(alloc, own, "IMAGE")?,
        kind,
        script: word_of(alloc, own, "SCRIPT")?,
        limit: limit_of(own),
    })
}

/// The natives that the words name.
fn natives_of(alloc: Global, own: &ArgMatches) -> Result<Vec<NativeKind>, WordsFault>
    ensures named { IfOk result (λ kinds. NamesKinds (all_of (codes "NATIVE") (rows_of (found_of own.now))) kinds.items) }
    ensures declines { IfErr result (λ fault. DeclinesNatives (all_of (codes "NATIVE") (rows_of (found_of own.now))) fault) }
{
    let Some(words) = own.get_strs("NATIVE") else {
        return Ok(Vec::new(alloc));
    };
    if words.len() > MAX_NATIVES {
        return Err(WordsFault::Native);
    }
    kinds_of(alloc, words)
}

/// The kinds that words name, of which there are not too many.
fn kinds_of(alloc: Global, words: &[&str]) -> Result<Vec<NativeKind>, WordsFault>
    requires { length words.now ≤ 16 }
    ensures named { IfOk result (λ kinds. NamesKinds (Some (texts_in words.now)) kinds.items) }
    ensures declines { IfErr result (λ fault. DeclinesNatives (Some (texts_in words.now)) fault) }
{
    let mut kinds = Vec::new(alloc);
    for word in words {
        match NativeKind::of_word(word) {
            Some(kind) => kinds.push(kind)?,
            None => return Err(WordsFault::Native),
        }
    }
    Ok(kinds)
}

/// Whether an option that stands alone is there.
fn is_set(own: &ArgMatches, id: &str) -> bool
    ensures { IsFlag (one_of id.now (rows_of (found_of own.now))) result }
{
    own.get_flag(id)
}

fn limit_of(own: &ArgMatches) -> u32
    ensures { IsNumberUpTo 1000000000 (one_of (codes "limit") (rows_of (found_of own.now))) result }
{
    number_of(own, "limit", 1_000_000, 1_000_000_000)
}

/// The number found for that name. `clap` has found one in its range, so bringing it there changes nothing.
fn number_of(own: &ArgMatches, id: &str, standard: u32, most: u32) -> u32
    requires { 1 ≤ most }
    ensures { IsNumberUpTo most (one_of id.now (rows_of (found_of own.now))) result }
{
    let number = own.get_one::<u32>(id).unwrap_or(standard);
    number.clamp(1, most)
}

/// The word found for that name. `clap` has found one where it is needed; no file has a name without letters.
fn word_of(alloc: Global, own: &ArgMatches, id: &str) -> Result<String, AllocError>
    ensures { IfOk result (λ word. string_bytes word ≡ word_of id.now (rows_of (found_of own.now))) }
{
    String::from_str(alloc, own.get_str(id).unwrap_or(""))
}
