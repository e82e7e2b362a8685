//! What is locked.

ghost use Rattle.std.specs.Prelude.{◌≡◌, ◌↔◌, IsTrue};
ghost use Rattle.sect_modes.specs.Key.{is_same_key, is_key_below};

/// What a thread may hold. Keys are ordered: all, then classes by number, then the globals' objects in order, then made
/// objects by thread and by number.
#[derive(Clone, Copy, Debug, PartialEq, Eq, PartialOrd, Ord, Hash)]
pub enum Key {
    /// All objects; written `all`.
    All,
    /// All objects of the class with this number.
    Class(u16),
    /// The object of the global with this number.
    Global(u16),
    /// An object that a thread made: the `number`-th of this thread.
    Made { thread: u16, number: u32 },
}

/// Whether two keys are one.
pub fn is_same(left: Key, right: Key) -> bool
    ensures same { IsTrue result ↔ (left ≡ right) }
    ensures test { result ≡ is_same_key left right }
{
    left == right
}

/// Whether a key comes before another one in the order of keys.
pub fn is_below(left: Key, right: Key) -> bool
    ensures { result ≡ is_key_below left right }
{
    left < right
}
