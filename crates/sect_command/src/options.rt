//! What the words of a command line ask for: each subcommand's request, by its options.

ghost use Rattle.std.specs.Prelude.{◌≡◌, ℕ, List, IfOk, map};
ghost use Rattle.std.specs.String.{string_bytes};
ghost use Rattle.clap.specs.Matches.{found_of};
ghost use Rattle.sect_command.specs.{Asking.{IsMade, IsRequested, files_in}, Saying.{SaysK, SaysForm}};
ghost use Rattle.sect_command.specs.Asking.{IsPlacedByThreads, IsPlacedSchedule};
ghost use Rattle.sect_command.specs.Wanting.{IsMadeBy, IsWanted, Makes};
ghost use Rattle.sect_command.specs.declared.subcommand.Subcommand.TheVariants as subcommand;

use crate::colours::colour_of;
use crate::formats::{format_of, lint_format_of};
use crate::grammar::{examples, grammar, subcommand_named};
use crate::numbers::{DEFAULT_K, DEFAULT_WORKERS, FUEL, STATES, number_of, number_or};
use crate::request::{Asked, Form, Placed, PlacedRun, Request, Turns, Wanted};
use crate::ruling::rulings_of;
use crate::running::{threads_of, told_count};
use crate::subcommand::Subcommand;
use crate::turns::turns_of;
use crate::usage::UsageFault;
use clap::ArgMatches;
use sect_answers::{Format, Verbose};
use std::alloc::Global;

/// What the words ask for, the program's name first.
pub fn wanted_of(alloc: Global, words: &[String]) -> Result<Wanted, UsageFault>
    ensures { IfOk result (IsWanted (map string_bytes words.now)) }
{
    let count = told_count(words);
    wanted_by(alloc, &words[..count], &words[count..])
}

/// What the words ask for of which `clap` is told, and those behind them.
fn wanted_by(alloc: Global, told: &[String], untold: &[String]) -> Result<Wanted, UsageFault>
    ensures { IfOk result (IsMadeBy (map string_bytes told.now) (map string_bytes untold.now)) }
{
    let examples = examples(alloc)?;
    let matches = grammar(alloc, examples.as_str())?.try_get_matches_from(told)?;
    match matches.subcommand() {
        Some((name, options)) => match subcommand_named(name) {
            Some(subcommand) => wanted_from(alloc, subcommand, options, untold),
            None => Err(UsageFault::Subcommand(String::from_str(alloc, name)?)),
        },
        None => unreachable!(),
    }
}

/// What a subcommand asks for by its options, and by the words of which `clap` wasn't told.
fn wanted_from(
    alloc: Global,
    subcommand: Subcommand,
    options: &ArgMatches<'_>,
    untold: &[String],
) -> Result<Wanted, UsageFault>
    ensures { IfOk result (Makes subcommand (found_of options.now) (map string_bytes untold.now)) }
{
    match request_of(alloc, subcommand, options, untold)? {
        None => Ok(Wanted::Session),
        Some(request) => {
            let files = files_of(alloc, options)?;
            let colour = colour_of(alloc, options)?;
            Ok(Wanted::Answers(Asked {
                request,
                files,
                colour,
            }))
        }
    }
}

/// The names of files, in the order of the words. A number is none: it would be that of a thread, which isn't taken.
fn files_of(alloc: Global, options: &ArgMatches<'_>) -> Result<Vec<String>, UsageFault>
    ensures { IfOk result (λ files. map string_bytes files.items ≡ files_in (found_of options.now)) }
{
    let mut files = Vec::new(alloc);
    let Some(names) = options.get_strs("file") else {
        return Ok(files);
    };
    for name in names {
        if is_number(name) {
            return Err(UsageFault::NumberForFile(String::from_str(alloc, name)?));
        }
        files.push(String::from_str(alloc, name)?)?;
    }
    Ok(files)
}

/// Whether a word is decimal digits alone, as a thread's number is.
fn is_number(word: &str) -> bool {
    word.as_bytes().iter().all(u8::is_ascii_digit)
}

/// The request of a subcommand, if it makes one: all do but that which serves an editor.
fn request_of(
    alloc: Global,
    subcommand: Subcommand,
    options: &ArgMatches<'_>,
    untold: &[String],
) -> Result<Option<Request>, UsageFault>
    ensures { IfOk result (IsRequested subcommand (found_of options.now) (map string_bytes untold.now)) }
{
    let request = match subcommand {
        Subcommand::Lsp => return Ok(None),
        Subcommand::Locks => locks_request(alloc, options)?,
        Subcommand::Compile => compile_request(alloc, options)?,
        Subcommand::C => c_request(alloc, options)?,
        Subcommand::Explain => explain_request(alloc, options)?,
        Subcommand::Conflicts => conflicts_request(alloc, options)?,
        Subcommand::Inspect => inspect_request(alloc, options)?,
        Subcommand::Graph => graph_request(alloc, options)?,
        Subcommand::Serial => serial_request(alloc, options, untold)?,
        Subcommand::Outcomes => outcomes_request(alloc, options)?,
        Subcommand::Schedule => schedule_request(alloc, options, untold)?,
        Subcommand::Run => run_request(alloc, options)?,
        Subcommand::Lint => lint_request(alloc, options)?,
        Subcommand::Check => check_request(alloc, options)?,
    };
    Ok(Some(request))
}

/// The most fields of a path.
fn k_of(alloc: Global, options: &ArgMatches<'_>) -> Result<u16, UsageFault>
    ensures { IfOk result (SaysK (found_of options.now)) }
{
    number_or(alloc, options, "k", DEFAULT_K)
}

/// What `locks` asks for by its options.
fn locks_request(alloc: Global, options: &ArgMatches<'_>) -> Result<Request, UsageFault>
    ensures { IfOk result (λ r. (behind : List (List ℕ)) → IsMade subcommand.Locks (found_of options.now) behind r) }
{
    let k = k_of(alloc, options)?;
    match (options.get_flag("verbose"), format_of(alloc, options)?) {
        (false, format) => Ok(Request::Locks { k, format }),
        (true, Format::Text) => Ok(Request::Verbose {
            k,
            of: Verbose::Locks,
        }),
        (true, Format::Json) => Err(UsageFault::TextOnly("verbose")),
    }
}

/// What `c` asks for by its options.
fn c_request(alloc: Global, options: &ArgMatches<'_>) -> Result<Request, UsageFault>
    ensures { IfOk result (λ r. (behind : List (List ℕ)) → IsMade subcommand.C (found_of options.now) behind r) }
{
    let k = k_of(alloc, options)?;
    Ok(Request::C { k })
}

/// What `explain` asks for by its options.
fn explain_request(alloc: Global, options: &ArgMatches<'_>) -> Result<Request, UsageFault>
    ensures { IfOk result (λ r. (behind : List (List ℕ)) → IsMade subcommand.Explain (found_of options.now) behind r) }
{
    let k = k_of(alloc, options)?;
    let format = format_of(alloc, options)?;
    Ok(Request::Explain { k, format })
}

/// What `conflicts` asks for by its options.
fn conflicts_request(alloc: Global, options: &ArgMatches<'_>) -> Result<Request, UsageFault>
    ensures { IfOk result (λ r. (behind : List (List ℕ))
        → IsMade subcommand.Conflicts (found_of options.now) behind r) }
{
    let k = k_of(alloc, options)?;
    match (options.get_flag("verbose"), format_of(alloc, options)?) {
        (false, format) => Ok(Request::Conflicts { k, format }),
        (true, Format::Text) => Ok(Request::Verbose {
            k,
            of: Verbose::Conflicts,
        }),
        (true, Format::Json) => Err(UsageFault::TextOnly("verbose")),
    }
}

/// What `inspect` asks for by its options.
fn inspect_request(alloc: Global, options: &ArgMatches<'_>) -> Result<Request, UsageFault>
    ensures { IfOk result (λ r. (behind : List (List ℕ)) → IsMade subcommand.Inspect (found_of options.now) behind r) }
{
    let k = k_of(alloc, options)?;
    Ok(Request::Inspect { k })
}

/// What `graph` asks for by its options.
fn graph_request(alloc: Global, options: &ArgMatches<'_>) -> Result<Request, UsageFault>
    ensures { IfOk result (λ r. (behind : List (List ℕ)) → IsMade subcommand.Graph (found_of options.now) behind r) }
{
    let k = k_of(alloc, options)?;
    let section = number_of(alloc, options, "section")?;
    Ok(Request::Graph { k, section })
}

/// What `lint` asks for by its options.
fn lint_request(alloc: Global, options: &ArgMatches<'_>) -> Result<Request, UsageFault>
    ensures { IfOk result (λ r. (behind : List (List ℕ)) → IsMade subcommand.Lint (found_of options.now) behind r) }
{
    let k = k_of(alloc, options)?;
    let format = lint_format_of(alloc, options)?;
    let rulings = rulings_of(alloc, options)?;
    Ok(Request::Lint { k, format, rulings })
}

/// What `check` asks for by its options.
fn check_request(alloc: Global, options: &ArgMatches<'_>) -> Result<Request, UsageFault>
    ensures { IfOk result (λ r. (behind : List (List ℕ)) → IsMade subcommand.Check (found_of options.now) behind r) }
{
    let k = k_of(alloc, options)?;
    Ok(Request::Check { k })
}

/// What `serial` asks for by its options, and by the threads of which `clap` wasn't told.
fn serial_request(
    alloc: Global,
    options: &ArgMatches<'_>,
    untold: &[String],
) -> Result<Request, UsageFault>
    ensures { IfOk result (IsMade subcommand.Serial (found_of options.now) (map string_bytes untold.now)) }
{
    let fuel = FUEL.of(alloc, options)?;
    let order = threads_of(alloc, options, untold)?;
    match (options.get_flag("places"), format_of(alloc, options)?) {
        (false, format) => Ok(Request::Serial {
            fuel,
            order,
            format,
        }),
        (true, Format::Text) => Ok(Request::Placed(Placed {
            k: DEFAULT_K,
            fuel,
            of: PlacedRun::Serial(order),
        })),
        (true, Format::Json) => Err(UsageFault::TextOnly("places")),
    }
}

/// What `outcomes` asks for by its options.
fn outcomes_request(alloc: Global, options: &ArgMatches<'_>) -> Result<Request, UsageFault>
    ensures { IfOk result (λ r. (behind : List (List ℕ)) → IsMade subcommand.Outcomes (found_of options.now) behind r) }
{
    let fuel = FUEL.of(alloc, options)?;
    let most = STATES.of(alloc, options)?;
    match (options.get_flag("places"), format_of(alloc, options)?) {
        (false, format) => Ok(Request::Outcomes { fuel, most, format }),
        (true, Format::Text) => Ok(Request::Placed(Placed {
            k: DEFAULT_K,
            fuel,
            of: PlacedRun::Outcomes(most),
        })),
        (true, Format::Json) => Err(UsageFault::TextOnly("places")),
    }
}

/// What `schedule` asks for by its options, and by the threads of which `clap` wasn't told.
fn schedule_request(
    alloc: Global,
    options: &ArgMatches<'_>,
    untold: &[String],
) -> Result<Request, UsageFault>
    ensures { IfOk result (IsMade subcommand.Schedule (found_of options.now) (map string_bytes untold.now)) }
{
    let k = k_of(alloc, options)?;
    let fuel = FUEL.of(alloc, options)?;
    let schedule = turns_of(alloc, options, untold)?;
    if options.get_flag("places") {
        let of = placed_schedule(alloc, options, schedule)?;
        return Ok(Request::Placed(Placed { k, fuel, of }));
    }
    match (options.get_flag("chart"), format_of(alloc, options)?) {
        (false, format) => Ok(Request::Schedule {
            k,
            fuel,
            schedule,
            format,
        }),
        (true, Format::Text) => Ok(Request::Chart { k, fuel, schedule }),
        (true, Format::Json) => Err(UsageFault::TextOnly("chart")),
    }
}

/// How `schedule` asks for these turns, where places are told.
fn placed_schedule(
    alloc: Global,
    options: &ArgMatches<'_>,
    schedule: Turns,
) -> Result<PlacedRun, UsageFault>
    ensures { IfOk result (IsPlacedSchedule (found_of options.now) schedule) }
{
    match (options.get_flag("chart"), format_of(alloc, options)?) {
        (false, Format::Text) => Ok(PlacedRun::Schedule(schedule)),
        (true, Format::Text) => Ok(PlacedRun::Chart(schedule)),
        (_, Format::Json) => Err(UsageFault::TextOnly("places")),
    }
}

/// What `run` asks for by its options.
fn run_request(alloc: Global, options: &ArgMatches<'_>) -> Result<Request, UsageFault>
    ensures { IfOk result (λ r. (behind : List (List ℕ)) → IsMade subcommand.Run (found_of options.now) behind r) }
{
    let k = k_of(alloc, options)?;
    let fuel = FUEL.of(alloc, options)?;
    if options.get_flag("places") {
        let of = placed_run(alloc, options)?;
        return Ok(Request::Placed(Placed { k, fuel, of }));
    }
    let format = format_of(alloc, options)?;
    if options.get_flag("time") {
        Ok(Request::TimedRun { k, fuel, format })
    } else {
        Ok(Request::Run { k, fuel, format })
    }
}

/// How `run` asks for a run, where places are told.
fn placed_run(alloc: Global, options: &ArgMatches<'_>) -> Result<PlacedRun, UsageFault>
    ensures { IfOk result (IsPlacedByThreads (found_of options.now)) }
{
    match (options.get_flag("time"), format_of(alloc, options)?) {
        (false, Format::Text) => Ok(PlacedRun::Run),
        (true, Format::Text) => Ok(PlacedRun::TimedRun),
        (_, Format::Json) => Err(UsageFault::TextOnly("places")),
    }
}

/// What `compile` asks for by its options.
fn compile_request(alloc: Global, options: &ArgMatches<'_>) -> Result<Request, UsageFault>
    ensures { IfOk result (λ r. (behind : List (List ℕ)) → IsMade subcommand.Compile (found_of options.now) behind r) }
{
    let k = k_of(alloc, options)?;
    let workers = number_or(alloc, options, "workers", DEFAULT_WORKERS)?;
    let form = form_of(alloc, options)?;
    Ok(Request::Compile { k, workers, form })
}

/// How the words of `compile` want the program printed.
fn form_of(alloc: Global, options: &ArgMatches<'_>) -> Result<Form, UsageFault>
    ensures { IfOk result (SaysForm (found_of options.now)) }
{
    match (options.get_flag("cert"), format_of(alloc, options)?) {
        (false, Format::Text) => Ok(Form::Listing),
        (false, Format::Json) => Ok(Form::Document),
        (true, Format::Text) => Ok(Form::Certificate),
        (true, Format::Json) => Err(UsageFault::TextOnly("cert")),
    }
}
