//! Where nodes are walked through.

ghost use Rattle.std.specs.Prelude.{◌≡◌, length};

use sect_front::Procedure;
use std::alloc::Global;

/// What a walk sees where it stands: the procedures and the item of each, how deep calls may still stand in one
/// another, and the call of the thread that is expanded here.
#[derive(Drop)]
pub struct Inside<'a> {
    pub alloc: Global,
    pub procedures: &'a [Procedure],
    pub starts: &'a [usize],
    pub most: usize,
    pub call: Option<usize>,
    ghost rows: { length starts.now ≡ length procedures.now },
}
