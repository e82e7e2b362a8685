//! Objects of JSON that are made member by member.
#![tactic(auto)]

ghost use Rattle.std.specs.Prelude.{◌≡◌, IfOk, IsOkAnd};
ghost use Rattle.serde_json.specs.{Data.{no_members, object, put}, View.{view, members_view}};

use serde_json::{Map, ToValue, Value};
use std::alloc::{AllocError, Global};

/// Members of an object, to which others are added one by one. The object is that which `json!` makes of them; but a
/// function that goes this way owns no members at the exits where a growth is refused.
#[derive(Drop)]
pub struct Members {
    alloc: Global,
    map: Map<String, Value>,
}

impl Members {
    /// No members.
    pub fn new(alloc: Global) -> Members
        ensures { members_view result.map.entries ≡ no_members }
    {
        Members {
            alloc,
            map: Map::new(alloc),
        }
    }

    /// These members, and this value under this name.
    pub fn with<V: ToValue>(mut self, name: &str, value: V) -> Result<Members, AllocError>
        ensures { IfOk result (λ more. (v : Value) × V.gives value v
            × (members_view more.map.entries ≡ put name.now (view v) (members_view self.map.entries))) }
    {
        let value = value.to_value(self.alloc)?;
        serde_json::put(&mut self.map, self.alloc, name, value)?;
        Ok(self)
    }

    /// These members, and this value under this name, where it could be made.
    pub fn with_made(
        mut self,
        name: &str,
        value: Result<Value, AllocError>,
    ) -> Result<Members, AllocError>
        ensures { IfOk result (λ more. IsOkAnd value (λ v.
            members_view more.map.entries ≡ put name.now (view v) (members_view self.map.entries))) }
    {
        serde_json::put(&mut self.map, self.alloc, name, value?)?;
        Ok(self)
    }

    /// The object of these members.
    pub fn object(self) -> Value
        ensures { view result ≡ object (members_view self.map.entries) }
    {
        Value::Object(self.map)
    }
}
