//! Room for what comes.

ghost use Rattle.std.specs.Prelude.{◌≡◌, ◌<◌, OnOk, length, vec_capacity};

use std::alloc::AllocError;

/// A list of so many elements is long.
pub const LONG_LIST: usize = 64;

/// Makes room in a full list for as many elements more as there are, one at least, and in a long list for three times
/// as many, so that it is seldom moved.
#[inline(never)]
pub fn make_room<T>(list: &mut Vec<T>) -> Result<(), AllocError>
    ensures same { list.new.items ≡ list.old.items }
    ensures room { OnOk result (length list.new.items < vec_capacity list.new) }
{
    let count = list.len();
    let more = if count < LONG_LIST {
        count.max(1)
    } else {
        count.saturating_mul(3)
    };
    list.reserve_exact(more)
}
