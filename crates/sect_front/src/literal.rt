//! Integer literals.

ghost use Rattle.std.specs.Prelude.{◌≡◌, ◌<◌, ◌^◌};

use std::marker::Model;

/// An integer as a program writes it: from 0 to 9223372036854775807, the greatest `i64`.
#[derive(Clone, Copy, PartialEq, Eq)]
pub struct Literal {
    value: u64,
}

impl Model for Literal {
    ghost use Rattle.std.specs.Prelude.{ℕ, ◌<◌, ◌^◌};

    ghost Value = { ℕ };

    ghost view = { λ l. l.value };

    ghost invariant = { λ l. l.value < 2 ^ 63 };

    ghost inverse = { λ n. record { value = n } };
}

impl Literal {
    /// The literal of this value.
    pub fn new(value: u64) -> Literal
        requires { value < 2 ^ 63 }
        ensures { result ≡ value }
    {
        Literal { value }
    }

    /// Its value, which is below 2^63.
    pub fn value(self) -> u64
        ensures value { result ≡ self }
        ensures bound { result < 2 ^ 63 }
    {
        self.value
    }
}
