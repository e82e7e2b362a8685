//! Which lock covers which.

ghost use Rattle.std.specs.Prelude.{◌↔◌, IsTrue};
ghost use Rattle.sect_names.specs.{Schemes.{SchemeView}, Locks.{Allows, Grants, Includes, Covers, IsCoverOrder}};

use crate::lock::{Effect, Lock, Right};
use crate::scheme::Scheme;

impl Effect {
    /// Whether it allows another effect: writing allows reading.
    pub fn allows(self, other: Effect) -> bool
        ensures { IsTrue result ↔ Allows self other }
    {
        self == Effect::Write || other == Effect::Read
    }
}

impl Right {
    /// Whether it allows an effect on each object of the class.
    pub fn grants(self, effect: Effect) -> bool
        ensures { IsTrue result ↔ Grants self effect }
    {
        match self {
            Right::Write => true,
            Right::Read => effect == Effect::Read,
            Right::Make => false,
        }
    }

    /// Whether it takes in another right over the same class.
    pub fn includes(self, other: Right) -> bool
        ensures { IsTrue result ↔ Includes self other }
    {
        self == Right::Write || self == other
    }
}

impl Scheme {
    /// Whether the lock `big` covers the lock `small`: who holds it may do all that the other allows. The lock on all
    /// covers every lock, a path lock those of its own path, a class lock those of its class and of the paths of that
    /// class.
    pub fn covers(&self, big: &Lock, small: &Lock) -> bool
        ensures { IsTrue result ↔ Covers self.now big.now small.now }
    {
        match big {
            Lock::All => true,
            Lock::Path(path, effect) => match small {
                Lock::Path(other, least) => *path == *other && effect.allows(*least),
                Lock::All | Lock::Class(_, _) => false,
            },
            Lock::Class(class, right) => match small {
                Lock::All => false,
                Lock::Path(path, effect) => {
                    self.class_of(path) == Some(*class) && right.grants(*effect)
                }
                Lock::Class(other, least) => *class == *other && right.includes(*least),
            },
        }
    }
}

/// Covering is a partial order, whatever the scheme.
#[tactic(auto, using(crate::proofs::shared::Covering::cover_order))]
pub fn covering_is_an_order()
    ensures { (s : SchemeView) → IsCoverOrder s }
{}
