//! Paths that many locks have.

ghost use Rattle.std.specs.Prelude.{◌≡◌, ◌∷◌, IfOk};
ghost use Rattle.sect_cert.specs.Paths.{path_text};

use crate::lock::CertPath;
use crate::spelled_path::SpelledPath;
use std::alloc::{AllocError, Global};
use std::marker::Model;
use std::rc::Rc;

/// A path that is kept once, with its text, for all locks that share it. Contracts see it as the path.
#[derive(Drop)]
pub struct SharedPath {
    path: Rc<SpelledPath>,
}

impl Model for SharedPath {
    ghost use Rattle.sect_cert.specs.declared.lock.CertPath.{CertPath};

    ghost Value = { CertPath };

    ghost view = { λ s. s.path.value };
}

impl SharedPath {
    /// A path that may be shared.
    pub fn new(alloc: Global, path: CertPath) -> Result<SharedPath, AllocError>
        ensures { IfOk result (λ shared. shared ≡ path) }
    {
        let path = Rc::new(alloc, SpelledPath::of(alloc, path)?)?;
        Ok(SharedPath { path })
    }

    /// The path.
    pub fn path(&self) -> &CertPath
        ensures { result.now ≡ self.now }
    {
        self.path.as_ref().path()
    }

    /// The path's text behind a blank.
    pub fn text(&self) -> &[u8]
        ensures { result.now ≡ 32 ∷ path_text self.now }
    {
        self.path.as_ref().text()
    }

    /// The same path once more.
    pub fn share(&self) -> Result<SharedPath, AllocError>
        ensures { IfOk result (λ shared. shared ≡ self.now) }
    {
        let path = self.path.clone()?;
        Ok(SharedPath { path })
    }
}
