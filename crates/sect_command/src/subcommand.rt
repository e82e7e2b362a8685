//! The subcommands.

/// A subcommand of the command line. What each prints is told by `grammar`, and by the help.
#[derive(Clone, Copy)]
pub enum Subcommand {
    Locks,
    Compile,
    C,
    Explain,
    Conflicts,
    Inspect,
    Graph,
    Serial,
    Outcomes,
    Schedule,
    Run,
    Lint,
    Lsp,
    Check,
}
