//! What a request is answered.

ghost use Rattle.std.specs.Prelude.{◌≡◌, IfOk, option_map};
ghost use Rattle.serde_json.specs.View.{view};
ghost use Rattle.sect_lsp.specs.Protocol.{reply_with as reply_with_by, response_json};
ghost use Rattle.sect_lsp.specs.steps.Replying.{reply_view};

use crate::protocol::{RequestError, error_message, result_message};
use serde_json::Value;
use std::alloc::{AllocError, Global};

/// What a request is answered.
#[derive(Drop)]
pub enum Reply {
    Result(Value),
    Error(RequestError),
}

/// What is answered with this value. Without one the parameters aren't those of the method.
pub fn reply_with(value: Option<Value>) -> Reply
    ensures { reply_view result ≡ reply_with_by (option_map view value) }
{
    match value {
        Some(value) => Reply::Result(value),
        None => Reply::Error(RequestError::InvalidParams),
    }
}

/// The answer to what was asked under this number or name.
pub fn response(alloc: Global, id: &Value, reply: Reply) -> Result<Value, AllocError>
    ensures { IfOk result (λ v. view v ≡ response_json (view id.now) (reply_view reply)) }
{
    match reply {
        Reply::Result(value) => result_message(alloc, id, value),
        Reply::Error(why) => error_message(alloc, id, why),
    }
}
