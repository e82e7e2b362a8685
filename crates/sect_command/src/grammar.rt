//! The commands of the command line, what each takes, and what the help says of them.

ghost use Rattle.std.specs.{Prelude.{◌≡◌, false, [], IfOk, find, map}, Str.{bytes_eq}};
ghost use Rattle.clap.specs.declared.builder.command.Command.TheViews.{out-Command as fields_of};
ghost use Rattle.clap.specs.{Simple.{app_of}, Walk.{rule_of}};
ghost use Rattle.sect_command.specs.Commands.{command_told, commands, name_of, sectc as command_line};
ghost use Rattle.sect_command.specs.steps.Rows.{row_told, rule_told, shape_told};

use crate::subcommand::Subcommand;
use clap::{Arg, ArgAction, Command};
use std::alloc::{AllocError, Global};
use std::fmt::Write;

/// The version of the program, and the series of kits by which it is proved.
const VERSION: &str = "1.0.0 (rattle-kit-13)";

/// How an argument is given. The help calls a word by the name that stands here.
#[derive(Clone, Copy)]
enum Given {
    /// By `--name` alone.
    Alone,
    /// By `--name` and a word.
    Before(&'static str),
    /// The same, as often as is wanted.
    Again(&'static str),
    /// By a word without a name before it.
    Once(&'static str),
    /// By words without a name before them, as many as there are.
    Unnamed(&'static str),
}

/// What a command takes.
struct Argument {
    name: &'static str,
    given: Given,
    help: &'static str,
}

/// A command and all that it takes.
struct Row {
    subcommand: Subcommand,
    name: &'static str,
    about: &'static str,
    /// An example, as the long help shows it.
    example: &'static str,
    takes: &'static [Argument],
}

const K: Argument = Argument {
    name: "k",
    given: Given::Before("N"),
    help: "the most fields of a path in a lock, 0 to 3 (default 2)",
};

const FORMAT: Argument = Argument {
    name: "format",
    given: Given::Before("FORMAT"),
    help: "how the answer is printed: text or json (default text)",
};

const LINT_FORMAT: Argument = Argument {
    name: "format",
    given: Given::Before("FORM"),
    help: "how a mistake is printed: text, json or sarif (default text)",
};

const DENY: Argument = Argument {
    name: "deny",
    given: Given::Again("CODE"),
    help: "refuses a text that has this warning, by its name; warnings stands for all",
};

const ALLOW: Argument = Argument {
    name: "allow",
    given: Given::Again("CODE"),
    help: "tells nothing of this warning, by its name; all stands for all; the last that names it counts",
};

const WORKERS: Argument = Argument {
    name: "workers",
    given: Given::Before("N"),
    help: "the workers that infer locks side by side, 1 to 16 (default 1)",
};

const CERT: Argument = Argument {
    name: "cert",
    given: Given::Alone,
    help: "prints the certificate of the program in place of its listing",
};

const SECTION: Argument = Argument {
    name: "section",
    given: Given::Before("I"),
    help: "the section that is drawn, by its number (default all)",
};

const FUEL: Argument = Argument {
    name: "fuel",
    given: Given::Before("N"),
    help: "the units of fuel of each thread, 1 to 1000000 (default 10000)",
};

const MOST: Argument = Argument {
    name: "most",
    given: Given::Before("N"),
    help: "the most states between sections that are looked at, 1 to 10000000 (default 100000)",
};

const CHART: Argument = Argument {
    name: "chart",
    given: Given::Alone,
    help: "prints a column for each thread and a row for each turn, with what waits for what",
};

const VERBOSE: Argument = Argument {
    name: "verbose",
    given: Given::Alone,
    help: "tells the thread and the place of each section, and the sites of each class",
};

const COLOR: Argument = Argument {
    name: "color",
    given: Given::Before("WHEN"),
    help: "whether the answer is in colours: auto, always or never (default auto)",
};

const TIME: Argument = Argument {
    name: "time",
    given: Given::Alone,
    help: "tells on standard error what the run took, and what its threads waited for",
};

const PLACES: Argument = Argument {
    name: "places",
    given: Given::Alone,
    help: "tells where each fault stands",
};

const TURN_PLACES: Argument = Argument {
    name: "places",
    given: Given::Alone,
    help: "tells where each fault stands; with --chart what each turn has run, and where that stands",
};

const ORDER: Argument = Argument {
    name: "threads",
    given: Given::Unnamed("T"),
    help: "the threads of the sections by number or name, in their order",
};

const TURNS: Argument = Argument {
    name: "threads",
    given: Given::Unnamed("T"),
    help: "the threads whose turn it is by number or name, one turn after another; T:N is N turns of T",
};

const FILE: Argument = Argument {
    name: "file",
    given: Given::Once("FILE"),
    help: "the file of the source text; - or none is standard input",
};

const FILES: Argument = Argument {
    name: "file",
    given: Given::Unnamed("FILE"),
    help: "the files of the source texts, each answered; - or none is standard input",
};

const NAMED_FILE: Argument = Argument {
    name: "file",
    given: Given::Before("FILE"),
    help: "the file of the source text; - or none is standard input",
};

const CHECKED_FILE: Argument = Argument {
    name: "file",
    given: Given::Once("FILE"),
    help: "the file of the certificate with the source text; - or none is standard input",
};

/// All commands, in the order of the help.
const COMMANDS: &[Row] = &[
    Row {
        subcommand: Subcommand::Locks,
        name: "locks",
        about: "prints the lock set of each section of the source text",
        example: "Example: sectc locks < two_threads.sect",
        takes: &[K, FORMAT, VERBOSE, FILES],
    },
    Row {
        subcommand: Subcommand::Compile,
        name: "compile",
        about: "prints the compiled program of the source text",
        example: "Example: sectc compile --k 1 < two_threads.sect",
        takes: &[K, FORMAT, WORKERS, CERT, FILE],
    },
    Row {
        subcommand: Subcommand::C,
        name: "c",
        about: "prints the compiled program of the source text in C",
        example: "Example: sectc c < two_threads.sect",
        takes: &[K, FILE],
    },
    Row {
        subcommand: Subcommand::Explain,
        name: "explain",
        about: "prints why each section of the source text takes each of its locks",
        example: "Example: sectc explain < two_threads.sect",
        takes: &[K, FORMAT, COLOR, FILE],
    },
    Row {
        subcommand: Subcommand::Conflicts,
        name: "conflicts",
        about: "prints which sections of the source text exclude each other, and where",
        example: "Example: sectc conflicts < two_threads.sect",
        takes: &[K, FORMAT, VERBOSE, COLOR, FILES],
    },
    Row {
        subcommand: Subcommand::Inspect,
        name: "inspect",
        about: "prints all that is known of the source text, as one JSON document",
        example: "Example: sectc inspect < two_threads.sect",
        takes: &[K, FILE],
    },
    Row {
        subcommand: Subcommand::Graph,
        name: "graph",
        about: "prints the control-flow graph of each section of the source text, for Graphviz",
        example: "Example: sectc graph --section 0 < two_threads.sect",
        takes: &[K, SECTION, FILE],
    },
    Row {
        subcommand: Subcommand::Serial,
        name: "serial",
        about: "runs the program of the source text by whole sections in an order, and prints the outcome",
        example: "Example: sectc serial 1 0 < two_threads.sect",
        takes: &[FUEL, FORMAT, PLACES, NAMED_FILE, ORDER],
    },
    Row {
        subcommand: Subcommand::Outcomes,
        name: "outcomes",
        about: "prints every outcome that a run of the program of the source text can have",
        example: "Example: sectc outcomes < two_threads.sect",
        takes: &[FUEL, MOST, FORMAT, PLACES, FILE],
    },
    Row {
        subcommand: Subcommand::Schedule,
        name: "schedule",
        about: "runs the compiled program of the source text turn by turn, and prints the events and the outcome so \
            far",
        example: "Example: sectc schedule --chart 0 0 0 0 0 1 1 1 1 < two_threads.sect",
        takes: &[
            K,
            FORMAT,
            FUEL,
            CHART,
            TURN_PLACES,
            COLOR,
            NAMED_FILE,
            TURNS,
        ],
    },
    Row {
        subcommand: Subcommand::Run,
        name: "run",
        about: "runs the compiled program of the source text by threads, and prints the outcome",
        example: "Example: sectc run < two_threads.sect",
        takes: &[K, FORMAT, FUEL, TIME, PLACES, FILE],
    },
    Row {
        subcommand: Subcommand::Lint,
        name: "lint",
        about: "tells what is wrong with the source text, and where",
        example: "Example: sectc lint < linked_list.sect",
        takes: &[K, LINT_FORMAT, DENY, ALLOW, COLOR, FILES],
    },
    Row {
        subcommand: Subcommand::Lsp,
        name: "lsp",
        about: "serves an editor by the Language Server Protocol, on standard input and output",
        example: "Example: sectc lsp",
        takes: &[],
    },
    Row {
        subcommand: Subcommand::Check,
        name: "check",
        about: "tests a certificate: the input is the certificate, and the source text behind its line `end`",
        example: "Example: sectc compile --cert < two_threads.sect | cat - two_threads.sect | sectc check",
        takes: &[K, CHECKED_FILE],
    },
];

/// The table.
fn rows() -> &'static [Row]
    ensures { map row_told result.now ≡ map command_told commands }
{
    COMMANDS
}

/// What `clap` is told of an argument.
fn told_argument<'a>(alloc: Global, argument: &Argument) -> Arg<'a>
    ensures local { result.global ≡ false }
    ensures rule { rule_of result ≡ rule_told argument.now }
{
    let told = Arg::new(alloc, argument.name).help(argument.help);
    match argument.given {
        Given::Alone => told.long(argument.name).action(ArgAction::SetTrue),
        Given::Before(word) => told
            .long(argument.name)
            .value_name(word)
            .action(ArgAction::Set),
        Given::Again(word) => told
            .long(argument.name)
            .value_name(word)
            .action(ArgAction::Append),
        Given::Once(word) => told.value_name(word).action(ArgAction::Set),
        Given::Unnamed(word) => told
            .value_name(word)
            .num_args(0..)
            .action(ArgAction::Append),
    }
}

/// What `clap` is told of a command.
fn told_command<'a>(alloc: Global, row: &Row) -> Result<Command<'a>, AllocError>
    ensures local { IfOk result (λ c. (fields_of c).has_globals ≡ false) }
    ensures shape { IfOk result (λ c. app_of c ≡ record { top = shape_told row.now; subs = [] }) }
{
    let mut told = Command::new(alloc, row.name)
        .about(row.about)
        .after_long_help(row.example);
    for argument in row.takes {
        told = told.arg(told_argument(alloc, argument))?;
    }
    Ok(told)
}

/// The examples of all commands, a line each.
pub fn examples(alloc: Global) -> Result<String, AllocError> {
    let mut text = String::from_str(alloc, "Examples:")?;
    for row in rows() {
        let line = row.example.strip_prefix("Example: ");
        write!(text, "\n  {}", line.unwrap_or(row.example))?;
    }
    Ok(text)
}

/// The commands and what each takes, with these examples behind the long help.
pub fn grammar<'a>(alloc: Global, examples: &'a str) -> Result<Command<'a>, AllocError>
    ensures local { IfOk result (λ c. (fields_of c).has_globals ≡ false) }
    ensures told { IfOk result (λ c. app_of c ≡ command_line) }
{
    let mut sectc = Command::new(alloc, "sectc")
        .about(
            "infers the locks of atomic sections; reads a source text from a file or on standard input",
        )
        .version(VERSION)
        .after_long_help(examples);
    for row in rows() {
        sectc = sectc.subcommand(told_command(alloc, row)?)?;
    }
    Ok(sectc.subcommand_required(true))
}

/// The subcommand of this name.
pub fn subcommand_named(name: &str) -> Option<Subcommand>
    ensures { result ≡ find (λ s. bytes_eq (name_of s) name.now) commands }
{
    for row in rows() {
        if row.name == name {
            return Some(row.subcommand);
        }
    }
    None
}
