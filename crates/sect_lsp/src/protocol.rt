//! Messages of JSON-RPC 2.0, as the protocol uses them.

ghost use Rattle.std.specs.Prelude.{◌≡◌, IfOk, option_map};
ghost use Rattle.serde_json.specs.{Data.{null}, View.{view}};
ghost use Rattle.sect_lsp.specs.Protocol.{is_id as is_id_by, code_of, words_of, error_json, response_json, IsRead};
ghost use Rattle.sect_lsp.specs.Protocol.{notification_json, Result as ResultView, Error as ErrorView};

use serde_json::{Value, json};
use std::alloc::{AllocError, Global};

/// Why a request has no result.
#[derive(Clone, Copy)]
pub enum RequestError {
    /// The message is no JSON.
    ParseError,
    /// It is no request, or none that may come now.
    InvalidRequest,
    MethodNotFound,
    InvalidParams,
    /// Nothing may be asked before `initialize`.
    ServerNotInitialized,
}

impl RequestError {
    /// Its number in the protocol.
    pub fn code(self) -> i64
        ensures { result ≡ code_of self }
    {
        match self {
            RequestError::ParseError => -32700,
            RequestError::InvalidRequest => -32600,
            RequestError::MethodNotFound => -32601,
            RequestError::InvalidParams => -32602,
            RequestError::ServerNotInitialized => -32002,
        }
    }

    /// What is wrong.
    pub fn words(self) -> &'static str
        ensures { result.now ≡ words_of self }
    {
        match self {
            RequestError::ParseError => "the message is no JSON",
            RequestError::InvalidRequest => "this is no request that may come now",
            RequestError::MethodNotFound => "there is no such method",
            RequestError::InvalidParams => "the parameters aren't those of the method",
            RequestError::ServerNotInitialized => "the server waits for initialize",
        }
    }
}

/// The value that the bytes of a message are, or nothing where they are no JSON.
pub fn read(alloc: Global, message: &[u8]) -> Result<Option<Value>, AllocError>
    ensures { IfOk result (λ value. IsRead message.now (option_map view value)) }
{
    match Value::from_slice(alloc, message) {
        Ok(value) => Ok(Some(value)),
        Err(error) => {
            if error.is_memory() {
                Err(AllocError)
            } else {
                Ok(None)
            }
        }
    }
}

/// Whether a request may be told by this value.
pub fn is_id(id: &Value) -> bool
    ensures { result ≡ is_id_by (view id.now) }
{
    id.is_string() || id.is_i64() || id.is_u64()
}

/// What is wrong, as a value.
fn error_value(alloc: Global, why: RequestError) -> Result<Value, AllocError>
    ensures { IfOk result (λ v. view v ≡ error_json why) }
{
    let code = why.code();
    let message = why.words();
    json!(in alloc; {"code": code, "message": message})
}

/// The answer to what was asked under this number or name.
pub fn result_message(alloc: Global, id: &Value, value: Value) -> Result<Value, AllocError>
    ensures { IfOk result (λ v. view v ≡ response_json (view id.now) (ResultView (view value))) }
{
    json!(in alloc; {"id": id, "jsonrpc": "2.0", "result": value})
}

/// That what was asked under this number or name has no result.
pub fn error_message(alloc: Global, id: &Value, why: RequestError) -> Result<Value, AllocError>
    ensures { IfOk result (λ v. view v ≡ response_json (view id.now) (ErrorView why)) }
{
    json!(in alloc; {"error": error_value(alloc, why)?, "id": id, "jsonrpc": "2.0"})
}

/// That a message is no request.
pub fn refusal_message(alloc: Global, why: RequestError) -> Result<Value, AllocError>
    ensures { IfOk result (λ v. view v ≡ response_json null (ErrorView why)) }
{
    error_message(alloc, &Value::Null, why)
}

/// What is told under this name.
pub fn notification_message(alloc: Global, method: &str, params: Value) -> Result<Value, AllocError>
    ensures { IfOk result (λ v. view v ≡ notification_json method.now (view params)) }
{
    json!(in alloc; {"jsonrpc": "2.0", "method": method, "params": params})
}
