//! Whether two locks of a certificate are equal, by what they are called.

ghost use Rattle.std.specs.Prelude.{◌≡◌, IsTrue};

use crate::names::is_same_name;
use sect_cert::{CertBase, CertLock, CertPath};
use sect_front::Name;

/// Whether these names are one by one the others.
fn are_same_names(names: &[Name], others: &[Name]) -> bool
    ensures { IsTrue result → names.now ≡ others.now }
{
    names == others
}

/// Whether two paths begin at one.
fn is_same_base(one: &CertBase, other: &CertBase) -> bool
    ensures { IsTrue result → one.now ≡ other.now }
{
    match one {
        CertBase::Name(name) => match other {
            CertBase::Name(second) => is_same_name(name, second),
            CertBase::InCall(_, _) => false,
        },
        CertBase::InCall(name, call) => match other {
            CertBase::Name(_) => false,
            CertBase::InCall(second, number) => *call == *number && is_same_name(name, second),
        },
    }
}

/// Whether two paths are equal.
fn is_same_path(one: &CertPath, other: &CertPath) -> bool
    ensures { IsTrue result → one.now ≡ other.now }
{
    is_same_base(&one.base, &other.base)
        && are_same_names(one.fields.as_slice(), other.fields.as_slice())
}

/// Whether two locks are equal.
pub fn is_same_lock(one: &CertLock, other: &CertLock) -> bool
    ensures { IsTrue result → one.now ≡ other.now }
{
    match one {
        CertLock::WriteAll => matches!(other, CertLock::WriteAll),
        CertLock::ReadPath(path) => match other {
            CertLock::ReadPath(second) => is_same_path(path.path(), second.path()),
            _ => false,
        },
        CertLock::WritePath(path) => match other {
            CertLock::WritePath(second) => is_same_path(path.path(), second.path()),
            _ => false,
        },
        CertLock::ReadClass(class) => match other {
            CertLock::ReadClass(second) => *class == *second,
            _ => false,
        },
        CertLock::WriteClass(class) => match other {
            CertLock::WriteClass(second) => *class == *second,
            _ => false,
        },
        CertLock::MakeClass(class) => match other {
            CertLock::MakeClass(second) => *class == *second,
            _ => false,
        },
    }
}
