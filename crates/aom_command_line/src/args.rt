//! The arguments of commands.
ghost use Rattle.std.specs.Prelude.{◌≡◌, false};
ghost use Rattle.clap.specs.Words.{rule_of};
ghost use Rattle.aom_command_line.specs.CommandLine.{all_rule, asm_rule, base_rule, deaths_rule, expect_rule, explain_rule, file_rule, flag_rule, from_rule, kills_rule, limit_rule, lines_rule, map_rule, names_rule, native_rule, number_rule, pairs_rule, prices_rule, prompt_rule, source_rule, text_rule, to_rule, tries_rule, warn_rule};

use clap::builder::ValueParser;
use clap::{Arg, ArgAction, value_parser};
use std::alloc::Global;

/// A file that has to be named.
pub fn file_arg<'a>(alloc: Global, id: &'a str, help: &'a str) -> Arg<'a>
    ensures rule { rule_of result ≡ file_rule id.entry.now }
    ensures own { result.global ≡ false }
{
    Arg::new(alloc, id).help(help).required(true)
}

pub fn native_arg<'a>(alloc: Global) -> Arg<'a>
    ensures rule { rule_of result ≡ native_rule }
    ensures own { result.global ≡ false }
{
    Arg::new(alloc, "NATIVE")
        .help("The natives in their order, each counter, line or delay")
        .action(ArgAction::Append)
        .num_args(0..)
}

pub fn limit_arg<'a>(alloc: Global) -> Arg<'a>
    ensures rule { rule_of result ≡ limit_rule }
    ensures own { result.global ≡ false }
{
    number_arg(
        alloc,
        "limit",
        "Ends a run after N dispatches, main's not counted",
        value_parser!(u32).range(1..=1_000_000_000),
        "1000000",
    )
}

pub fn from_arg<'a>(alloc: Global) -> Arg<'a>
    ensures rule { rule_of result ≡ from_rule }
    ensures own { result.global ≡ false }
{
    number_arg(
        alloc,
        "from",
        "The number of the first request for memory that is refused",
        value_parser!(u32).range(1..),
        "1",
    )
}

pub fn to_arg<'a>(alloc: Global) -> Arg<'a>
    ensures rule { rule_of result ≡ to_rule }
    ensures own { result.global ≡ false }
{
    number_arg(
        alloc,
        "to",
        "The number of the last request for memory that is refused",
        value_parser!(u32).range(1..),
        "4294967295",
    )
}

pub fn tries_arg<'a>(alloc: Global) -> Arg<'a>
    ensures rule { rule_of result ≡ tries_rule }
    ensures own { result.global ≡ false }
{
    number_arg(
        alloc,
        "tries",
        "The most pairs that --pairs tries",
        value_parser!(u32).range(1..),
        "10000",
    )
}

/// An option with a number, which is `standard` where the option is left out.
fn number_arg<'a>(
    alloc: Global,
    id: &'a str,
    help: &'a str,
    range: ValueParser<'a>,
    standard: &'a str,
) -> Arg<'a>
    ensures rule { rule_of result ≡ number_rule id.entry.now range.entry standard.entry.now }
    ensures own { result.global ≡ false }
{
    Arg::new(alloc, id)
        .long(id)
        .value_name("N")
        .help(help)
        .value_parser(range)
        .default_value(standard)
}

pub fn prices_arg<'a>(alloc: Global) -> Arg<'a>
    ensures rule { rule_of result ≡ prices_rule }
    ensures own { result.global ≡ false }
{
    flag_arg(
        alloc,
        "prices",
        "Also tells the most steps, frames and cleanup entries that each method comes to",
    )
}

pub fn explain_arg<'a>(alloc: Global) -> Arg<'a>
    ensures rule { rule_of result ≡ explain_rule }
    ensures own { result.global ≡ false }
{
    flag_arg(
        alloc,
        "explain",
        "Explains a fault: what it means, where it is, and what usually mends it",
    )
}

pub fn lines_arg<'a>(alloc: Global) -> Arg<'a>
    ensures rule { rule_of result ≡ lines_rule }
    ensures own { result.global ≡ false }
{
    flag_arg(
        alloc,
        "lines",
        "Tells a fault in one line with its file and line, as compilers do; needs --asm or --text",
    )
}

pub fn all_arg<'a>(alloc: Global) -> Arg<'a>
    ensures rule { rule_of result ≡ all_rule }
    ensures own { result.global ≡ false }
{
    flag_arg(
        alloc,
        "all",
        "Tells the first fault of each method that is refused, and not of the first alone",
    )
}

pub fn warn_arg<'a>(alloc: Global) -> Arg<'a>
    ensures rule { rule_of result ≡ warn_rule }
    ensures own { result.global ≡ false }
{
    flag_arg(alloc, "warn", "Also tells what nobody may have wanted")
}

pub fn names_arg<'a>(alloc: Global) -> Arg<'a>
    ensures rule { rule_of result ≡ names_rule }
    ensures own { result.global ≡ false }
{
    flag_arg(
        alloc,
        "names",
        "Writes the names of classes in place of their numbers; needs --asm, --source or --text",
    )
}

pub fn asm_arg<'a>(alloc: Global) -> Arg<'a>
    ensures rule { rule_of result ≡ asm_rule }
    ensures own { result.global ≡ false }
{
    flag_arg(
        alloc,
        "asm",
        "Takes an assembly text in place of the image, and assembles it first",
    )
}

pub fn source_arg<'a>(alloc: Global) -> Arg<'a>
    ensures rule { rule_of result ≡ source_rule }
    ensures own { result.global ≡ false }
{
    flag_arg(
        alloc,
        "source",
        "Takes a source in place of the image, and compiles it first",
    )
}

pub fn text_arg<'a>(alloc: Global) -> Arg<'a>
    ensures rule { rule_of result ≡ text_rule }
    ensures own { result.global ≡ false }
{
    Arg::new(alloc, "text").long("text").value_name("TEXT").help(
        "The text that the image was made of, to tell things by its names and lines",
    )
}

pub fn prompt_arg<'a>(alloc: Global) -> Arg<'a>
    ensures rule { rule_of result ≡ prompt_rule }
    ensures own { result.global ≡ false }
{
    flag_arg(
        alloc,
        "prompt",
        "Writes a prompt before each line is read; an empty line repeats the last step",
    )
}

pub fn kills_arg<'a>(alloc: Global) -> Arg<'a>
    ensures rule { rule_of result ≡ kills_rule }
    ensures own { result.global ≡ false }
{
    flag_arg(
        alloc,
        "kills",
        "Also kills each native in turn, at each time at which a dispatch begins",
    )
}

pub fn deaths_arg<'a>(alloc: Global) -> Arg<'a>
    ensures rule { rule_of result ≡ deaths_rule }
    ensures own { result.global ≡ false }
{
    flag_arg(
        alloc,
        "deaths",
        "Also lets each client of the script die in turn, at each of these times",
    )
}

pub fn pairs_arg<'a>(alloc: Global) -> Arg<'a>
    ensures rule { rule_of result ≡ pairs_rule }
    ensures own { result.global ≡ false }
{
    flag_arg(
        alloc,
        "pairs",
        "Also refuses two requests for memory in one run, each pair in turn",
    )
}

pub fn base_arg<'a>(alloc: Global) -> Arg<'a>
    ensures rule { rule_of result ≡ base_rule }
    ensures own { result.global ≡ false }
{
    flag_arg(
        alloc,
        "base",
        "Also tells how the run as it is ends, before all others",
    )
}

pub fn expect_arg<'a>(alloc: Global) -> Arg<'a>
    ensures rule { rule_of result ≡ expect_rule }
    ensures own { result.global ≡ false }
{
    Arg::new(alloc, "expect")
        .long("expect")
        .value_name("ENDING")
        .help(
            "An end that is expected: stopped, waiting, left, limit, error, or a last line's words; runs that end otherwise are marked and counted",
        )
        .action(ArgAction::Append)
}

pub fn map_arg<'a>(alloc: Global) -> Arg<'a>
    ensures rule { rule_of result ≡ map_rule }
    ensures own { result.global ≡ false }
{
    flag_arg(
        alloc,
        "map",
        "Writes where each line comes from, and the names of registers, in place of the text",
    )
}

/// An option that stands alone.
fn flag_arg<'a>(alloc: Global, id: &'a str, help: &'a str) -> Arg<'a>
    ensures rule { rule_of result ≡ flag_rule id.entry.now }
    ensures own { result.global ≡ false }
{
    Arg::new(alloc, id)
        .long(id)
        .help(help)
        .action(ArgAction::SetTrue)
}
