//! The tables of lock modes, pair by pair.

use Mode::{Exclusive, IntentionExclusive, IntentionShared, Shared, SharedIntentionExclusive};
use sect_modes::{Mode, admits, at_least, compatible, intention, join, unit};
use std::process::Abort;

/// All modes, in the order of the tables.
const MODES: [Mode; 5] = [
    IntentionShared,
    IntentionExclusive,
    Shared,
    SharedIntentionExclusive,
    Exclusive,
];

/// The mode is compatible with those that the row tells.
fn is_compatible(rt: &impl Abort, left: Mode, row: &[bool]) {
    for (right, want) in MODES.iter().zip(row.iter()) {
        assert_eq!(rt; compatible(left, *right), *want, "{left:?} with {right:?}");
    }
}

#[test]
fn all_pairs_of_modes(rt: HostRuntime) {
    let sharing = [
        [true, true, true, true, false],
        [true, true, false, false, false],
        [true, false, true, false, false],
        [true, false, false, false, false],
        [false, false, false, false, false],
    ];
    for (left, row) in MODES.iter().zip(sharing.iter()) {
        is_compatible(&rt, *left, row);
    }
}

/// The word of a key that is held so, and for which somebody waits, admits the modes that the row tells.
fn admits_beside(rt: &impl Abort, held: Mode, row: &[bool]) {
    let word = unit(held) | 1 << 60;
    for (wanted, want) in MODES.iter().zip(row.iter()) {
        assert_eq!(rt; admits(word, *wanted), *want, "{wanted:?} beside {held:?}");
    }
}

#[test]
fn words_of_holders(rt: HostRuntime) {
    let admitted = [
        [true, true, true, true, false],
        [true, true, false, false, false],
        [true, false, true, false, false],
        [true, false, false, false, false],
        [false, false, false, false, false],
    ];
    for (held, row) in MODES.iter().zip(admitted.iter()) {
        admits_beside(&rt, *held, row);
    }
    // of 63 who hold it in IS, and one in IX, no SIX is admitted and one more IX is
    let word = 63 + 4096;
    assert!(rt; admits(word, IntentionExclusive));
    assert!(rt; !admits(word, SharedIntentionExclusive));
    assert!(rt; admits(0, Exclusive));
}

/// The mode is at least as strong as those that the row tells.
fn is_above(rt: &impl Abort, mode: Mode, row: &[bool]) {
    for (wanted, want) in MODES.iter().zip(row.iter()) {
        assert_eq!(rt; at_least(mode, *wanted), *want, "{mode:?} for {wanted:?}");
    }
}

#[test]
fn all_orders_of_modes(rt: HostRuntime) {
    let above = [
        [true, false, false, false, false],
        [true, true, false, false, false],
        [true, false, true, false, false],
        [true, true, true, true, false],
        [true, true, true, true, true],
    ];
    for (mode, row) in MODES.iter().zip(above.iter()) {
        is_above(&rt, *mode, row);
    }
}

#[test]
fn all_joins_of_modes(rt: HostRuntime) {
    let joins = [
        [
            IntentionShared,
            IntentionExclusive,
            Shared,
            SharedIntentionExclusive,
            Exclusive,
        ],
        [
            IntentionExclusive,
            IntentionExclusive,
            SharedIntentionExclusive,
            SharedIntentionExclusive,
            Exclusive,
        ],
        [
            Shared,
            SharedIntentionExclusive,
            Shared,
            SharedIntentionExclusive,
            Exclusive,
        ],
        [
            SharedIntentionExclusive,
            SharedIntentionExclusive,
            SharedIntentionExclusive,
            SharedIntentionExclusive,
            Exclusive,
        ],
        [Exclusive, Exclusive, Exclusive, Exclusive, Exclusive],
    ];
    for (left, row) in MODES.iter().zip(joins.iter()) {
        for (right, want) in MODES.iter().zip(row.iter()) {
            assert_eq!(rt; join(*left, *right), *want, "{left:?} and {right:?}");
        }
    }
}

#[test]
fn intentions(rt: HostRuntime) {
    let wants = [
        IntentionShared,
        IntentionExclusive,
        IntentionShared,
        IntentionExclusive,
        IntentionExclusive,
    ];
    for (mode, want) in MODES.iter().zip(wants.iter()) {
        assert_eq!(rt; intention(*mode), *want, "{mode:?}");
    }
}
