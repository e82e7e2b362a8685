//! A language server: what an editor tells and asks of the texts that are open, and what is answered.
#![tactic(auto)]

mod change;
mod documents;
mod framing;
mod laws;
mod limits;
mod protocol;
mod reply;
mod server;
mod session;

pub use change::edited;
pub use framing::{Front, Inbox, Taken, frame_of, pieces_change_no_message};
pub use laws::{
    closed_documents_are_forgotten, each_request_gets_one_answer, kept_texts_are_found,
};
pub use limits::{DEFAULT_K, MOST_HEADER, MOST_K, MOST_MESSAGE, limits_of_conversations};
pub use server::{Phase, Server};
pub use session::serve;
