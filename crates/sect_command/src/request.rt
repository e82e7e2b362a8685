//! What the words of a command line ask for.

ghost use Rattle.std.specs.Prelude.{◌≡◌, true};
ghost use Rattle.sect_lemmas.specs.Lists.{Has};
ghost use Rattle.sect_command.specs.Requests.{asks_document as asks_document_of};
ghost use Rattle.sect_command.specs.Requests.{input_name, most_kept_of, path_length_of, threads_of, threads_placed};
ghost use Rattle.sect_command.specs.Reporting.{has_headings as has_headings_of, names_of};
ghost use Rattle.sect_command.specs.Reporting.{is_document as is_document_of};

use crate::colours::Colour;
use crate::numbers::DEFAULT_K;
use crate::printing::INPUT;
use sect_answers::{Format, ThreadWord, Verbose};
use sect_lint::LintFormat;
use sect_warnings::Ruling;

/// One byte more than a text may have.
const MOST_KEPT: u64 = 1048577;

/// Turns of threads, one after another: of each so many as stand at its place.
#[derive(Drop)]
pub struct Turns {
    pub threads: Vec<ThreadWord>,
    pub counts: Vec<u32>,
}

/// What is answered to a whole text.
#[derive(Drop)]
pub enum Request {
    /// The lock set of each section, whose paths have at most k fields.
    Locks {
        k: u16,
        format: Format,
    },
    /// The compiled program, in this form, with paths of at most k fields, by so many workers.
    Compile {
        k: u16,
        workers: u16,
        form: Form,
    },
    /// The compiled program in C, with paths of at most k fields.
    C {
        k: u16,
    },
    /// Why each section takes its locks, whose paths have at most k fields.
    Explain {
        k: u16,
        format: Format,
    },
    /// Which sections exclude each other, where paths have at most k fields.
    Conflicts {
        k: u16,
        format: Format,
    },
    /// One of the two, with what stands behind its numbers, where paths have at most k fields.
    Verbose {
        k: u16,
        of: Verbose,
    },
    /// The control-flow graphs of all sections, or of the one of this number, where paths have at most k fields.
    Graph {
        k: u16,
        section: Option<u16>,
    },
    /// What is wrong with the text, in this form, where paths have at most k fields, and what becomes of warnings.
    Lint {
        k: u16,
        format: LintFormat,
        rulings: Vec<Ruling>,
    },
    /// What is known of the program, as a document, where paths have at most k fields.
    Inspect {
        k: u16,
    },
    /// The outcome of a run by whole sections of these threads, each thread with this much fuel.
    Serial {
        fuel: u32,
        order: Vec<ThreadWord>,
        format: Format,
    },
    /// All outcomes of whole sections, each thread with this much fuel, where they lead to at most so many states.
    Outcomes {
        fuel: u32,
        most: u32,
        format: Format,
    },
    /// A run by these turns, each thread with this much fuel, of the program that is compiled with paths of at most k
    /// fields.
    Schedule {
        k: u16,
        fuel: u32,
        schedule: Turns,
        format: Format,
    },
    /// The same run, as a chart.
    Chart {
        k: u16,
        fuel: u32,
        schedule: Turns,
    },
    /// A run by threads, each with this much fuel, of the program that is compiled with paths of at most k fields.
    Run {
        k: u16,
        fuel: u32,
        format: Format,
    },
    /// The same run, and on standard error what it took and what its threads waited for.
    TimedRun {
        k: u16,
        fuel: u32,
        format: Format,
    },
    /// One of these runs, with where its faults stand.
    Placed(Placed),
    /// Whether a certificate is valid for the source behind it, with paths of at most k fields.
    Check {
        k: u16,
    },
}

/// A run of the program that is compiled with paths of at most k fields, each thread with this much fuel.
#[derive(Drop)]
pub struct Placed {
    pub k: u16,
    pub fuel: u32,
    pub of: PlacedRun,
}

/// Of what the places of faults are told.
#[derive(Drop)]
pub enum PlacedRun {
    /// A run by whole sections of these threads.
    Serial(Vec<ThreadWord>),
    /// All outcomes, where they lead to at most so many states.
    Outcomes(u32),
    /// A run by these turns.
    Schedule(Turns),
    /// The same run, as a chart that says what each turn has run.
    Chart(Turns),
    /// A run by threads.
    Run,
    /// The same run, and on standard error what it took and what its threads waited for.
    TimedRun,
}

impl PlacedRun {
    /// The threads of an order or a schedule, as the words name them; of another run none.
    fn threads(&self) -> &[ThreadWord]
        ensures { result.now ≡ threads_placed self.now }
    {
        match self {
            PlacedRun::Serial(order) => order.as_slice(),
            PlacedRun::Schedule(schedule) | PlacedRun::Chart(schedule) => {
                schedule.threads.as_slice()
            }
            _ => &[],
        }
    }
}

impl Request {
    /// Whether the answer is a document, which says itself of what it is, where several texts may be answered.
    fn is_document(&self) -> bool
        ensures { result ≡ is_document_of self.now }
    {
        match self {
            Request::Locks {
                format: Format::Json,
                ..
            }
            | Request::Conflicts {
                format: Format::Json,
                ..
            } => true,
            Request::Lint { format, .. } => !matches!(format, LintFormat::Text),
            _ => false,
        }
    }

    /// Whether the answer is a document, and a refusal too. `lint` has forms of its own for what it says of a text.
    pub fn asks_document(&self) -> bool
        ensures { result ≡ asks_document_of self.now }
    {
        match self {
            Request::Locks { format, .. }
            | Request::Explain { format, .. }
            | Request::Conflicts { format, .. }
            | Request::Serial { format, .. }
            | Request::Outcomes { format, .. }
            | Request::Schedule { format, .. }
            | Request::Run { format, .. }
            | Request::TimedRun { format, .. } => matches!(format, Format::Json),
            Request::Compile { form, .. } => matches!(form, Form::Document),
            Request::Inspect { .. } => true,
            _ => false,
        }
    }

    /// Of at most how many fields paths are, where the text is judged. What a serial run goes by doesn't depend on it.
    pub fn path_length(&self) -> u16
        ensures { result ≡ path_length_of self.now }
    {
        match self {
            Request::Locks { k, .. }
            | Request::Compile { k, .. }
            | Request::C { k }
            | Request::Explain { k, .. }
            | Request::Conflicts { k, .. }
            | Request::Verbose { k, .. }
            | Request::Schedule { k, .. }
            | Request::Chart { k, .. }
            | Request::Run { k, .. }
            | Request::TimedRun { k, .. }
            | Request::Graph { k, .. }
            | Request::Lint { k, .. }
            | Request::Inspect { k }
            | Request::Check { k } => *k,
            Request::Placed(placed) => placed.k,
            Request::Serial { .. } | Request::Outcomes { .. } => DEFAULT_K,
        }
    }

    /// How many bytes of a text are looked at: one more than an accepted text may have, by which a longer one is seen
    /// to be too large. A certificate with the source behind it may have any number.
    pub fn most_kept(&self) -> u64
        ensures { result ≡ most_kept_of self.now }
    {
        match self {
            Request::Check { .. } => u64::MAX,
            _ => MOST_KEPT,
        }
    }

    /// The threads of an order or a schedule, as the words name them; of another request none.
    pub fn threads(&self) -> &[ThreadWord]
        ensures { result.now ≡ threads_of self.now }
    {
        match self {
            Request::Serial { order, .. } => order.as_slice(),
            Request::Schedule { schedule, .. } | Request::Chart { schedule, .. } => {
                schedule.threads.as_slice()
            }
            Request::Placed(placed) => placed.of.threads(),
            _ => &[],
        }
    }
}

/// A request, the names of the files whose texts it is asked of, in order, and when the answers are painted. Without
/// names, and where one is `-`, that is the text on standard input.
#[derive(Drop)]
pub struct Asked {
    pub request: Request,
    pub files: Vec<String>,
    pub colour: Colour,
}

impl Asked {
    /// Whether each answer stands below the name of its text: there are several, and they are no documents.
    pub fn has_headings(&self) -> bool
        ensures { result ≡ has_headings_of self.now }
    {
        self.files.len() > 1 && !self.request.is_document()
    }

    /// Whether the text on standard input is asked for.
    pub fn reads_input(&self) -> bool
        ensures { Has (names_of self.now) input_name → result ≡ true }
    {
        for name in &self.files {
            if name.as_str() == INPUT {
                return true;
            }
        }
        self.files.is_empty()
    }
}

/// What the words of a command line ask for.
#[derive(Drop)]
pub enum Wanted {
    /// A session with an editor.
    Session,
    /// An answer to each of some texts.
    Answers(Asked),
}

/// How a compiled program is printed.
#[derive(Clone, Copy)]
pub enum Form {
    Listing,
    Document,
    Certificate,
}
