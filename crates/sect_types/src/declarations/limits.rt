//! The limits of a program.

ghost use Rattle.std.specs.Prelude.{◌≡◌};
ghost use Rattle.sect_types.specs.Limits.{most_records, most_fields, most_globals, most_procedures, most_threads};
ghost use Rattle.sect_types.specs.Limits.{most_locals, most_all_locals, most_statements, most_sites, most_sections};
ghost use Rattle.sect_types.specs.Limits.{most_calls};

/// The most records.
pub const MOST_RECORDS: usize = 64;

/// The most fields of a record.
pub const MOST_FIELDS: usize = 16;

/// The most globals.
pub const MOST_GLOBALS: usize = 256;

/// The most procedures.
pub const MOST_PROCEDURES: usize = 64;

/// The most threads.
pub const MOST_THREADS: usize = 64;

/// The most locals that a thread declares, and the most parameters and locals together that a procedure declares.
pub const MOST_LOCALS: usize = 64;

/// The most locals of an expanded thread: those that it declares, and one for each statement that sets a fresh one.
pub const MOST_ALL_LOCALS: usize = MOST_LOCALS + MOST_STATEMENTS as usize;

/// The most statements of all expanded threads together; an `if`, a `while` and an `atomic` count too.
pub const MOST_STATEMENTS: u32 = 4096;

/// The most sites: globals and the `new` statements of the expanded threads.
pub const MOST_SITES: u16 = 1024;

/// The most sections of all threads together.
pub const MOST_SECTIONS: u16 = 256;

/// The most calls that are met in expanding all threads, those in the bodies of the called procedures counted.
pub const MOST_CALLS: u16 = 4096;

/// The most items that are counted. No memory holds a tree of more.
pub const MOST_ITEMS: u64 = u64::MAX;

/// The constants are the limits that the definitions state.
pub fn limits_of_programs()
    ensures records { MOST_RECORDS ≡ most_records }
    ensures fields { MOST_FIELDS ≡ most_fields }
    ensures globals { MOST_GLOBALS ≡ most_globals }
    ensures procedures { MOST_PROCEDURES ≡ most_procedures }
    ensures threads { MOST_THREADS ≡ most_threads }
    ensures locals { MOST_LOCALS ≡ most_locals }
    ensures all_locals { MOST_ALL_LOCALS ≡ most_all_locals }
    ensures statements { MOST_STATEMENTS ≡ most_statements }
    ensures sites { MOST_SITES ≡ most_sites }
    ensures sections { MOST_SECTIONS ≡ most_sections }
    ensures calls { MOST_CALLS ≡ most_calls }
{}
