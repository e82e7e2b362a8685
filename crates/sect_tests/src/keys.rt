//! The order of lock keys.

use sect_modes::{Key, is_below, is_same};

#[test]
fn keys_in_order(rt: HostRuntime) {
    let keys = [
        Key::All,
        Key::Class(0),
        Key::Class(9),
        Key::Global(0),
        Key::Global(1),
        Key::Made {
            thread: 0,
            number: 5,
        },
        Key::Made {
            thread: 1,
            number: 0,
        },
        Key::Made {
            thread: 1,
            number: 3,
        },
    ];
    for (i, left) in keys.iter().enumerate() {
        for (j, right) in keys.iter().enumerate() {
            assert_eq!(rt; is_below(*left, *right), i < j, "{left:?} and {right:?}");
            assert_eq!(rt; is_same(*left, *right), i == j, "{left:?} and {right:?}");
        }
    }
}
