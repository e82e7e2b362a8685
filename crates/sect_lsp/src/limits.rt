//! The limits of a conversation.

ghost use Rattle.std.specs.Prelude.{◌≡◌};
ghost use Rattle.sect_lsp.specs.Limits.{most_header, most_message, most_k, default_k};

/// The most bytes of the header lines of a message, with the empty line behind them.
pub const MOST_HEADER: usize = 1024;

/// The most bytes of a message.
pub const MOST_MESSAGE: usize = 16_777_216;

/// The most fields that a path may be given.
pub const MOST_K: u16 = 3;

/// How many they are where the editor doesn't say.
pub const DEFAULT_K: u16 = 2;

/// The constants are the limits that the definitions state.
pub fn limits_of_conversations()
    ensures header { MOST_HEADER ≡ most_header }
    ensures message { MOST_MESSAGE ≡ most_message }
    ensures most { MOST_K ≡ most_k }
    ensures default { DEFAULT_K ≡ default_k }
{}
