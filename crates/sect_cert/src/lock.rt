//! Locks of a certificate, by the names that stand in a program's text.

ghost use Rattle.std.specs.Prelude.{◌≡◌, IfOk};

use crate::shared_path::SharedPath;
use sect_front::{Items, Name};
use std::alloc::AllocError;

/// What a path begins at.
#[derive(Clone, Copy)]
pub enum CertBase {
    /// `x`: a local of the section's thread, or a global.
    Name(Name),
    /// `x#c`: a local of a call, by the call's number.
    InCall(Name, u32),
}

/// The path of an object: a base, and fields that are followed from it in order.
#[derive(Drop)]
pub struct CertPath {
    /// Where it begins.
    pub base: CertBase,
    /// The fields, from the base on; none for the base's own object.
    pub fields: Items<Name>,
}

/// A lock of everything, of a path, or of a class by its number.
#[derive(Drop)]
pub enum CertLock {
    /// `W all`
    WriteAll,
    /// `R p`
    ReadPath(SharedPath),
    /// `W p`
    WritePath(SharedPath),
    /// `R class c`
    ReadClass(u32),
    /// `W class c`
    WriteClass(u32),
    /// `M class c`
    MakeClass(u32),
}

impl CertLock {
    /// A lock equal to this one, whose path is kept once for both.
    pub fn share(&self) -> Result<CertLock, AllocError>
        ensures { IfOk result (λ lock. lock ≡ self.now) }
    {
        match self {
            CertLock::WriteAll => Ok(CertLock::WriteAll),
            CertLock::ReadPath(path) => Ok(CertLock::ReadPath(path.share()?)),
            CertLock::WritePath(path) => Ok(CertLock::WritePath(path.share()?)),
            CertLock::ReadClass(class) => Ok(CertLock::ReadClass(*class)),
            CertLock::WriteClass(class) => Ok(CertLock::WriteClass(*class)),
            CertLock::MakeClass(class) => Ok(CertLock::MakeClass(*class)),
        }
    }
}
