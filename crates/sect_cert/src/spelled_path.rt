//! Paths with the text that is written of them.

ghost use Rattle.std.specs.Prelude.{◌≡◌, ◌∷◌, IfOk};
ghost use Rattle.sect_cert.specs.Paths.{path_text};

use crate::lock::CertPath;
use crate::writing::put_path;
use std::alloc::{AllocError, Global};
use std::marker::Model;

/// For how many bytes there is room at first: most paths have no more.
const ROOM: usize = 24;

/// A path, and its text behind a blank. Contracts see it as the path.
#[derive(Drop)]
pub struct SpelledPath {
    path: CertPath,
    text: Vec<u8>,
}

impl Model for SpelledPath {
    ghost use Rattle.std.specs.Prelude.{◌≡◌, ◌∷◌};
    ghost use Rattle.sect_cert.specs.{Paths.{path_text}, declared.lock.CertPath.{CertPath}};

    ghost Value = { CertPath };

    ghost view = { λ s. s.path };

    ghost invariant = { λ s. s.text.items ≡ 32 ∷ path_text s.path };
}

impl SpelledPath {
    /// A path with its text.
    pub fn of(alloc: Global, path: CertPath) -> Result<SpelledPath, AllocError>
        ensures { IfOk result (λ spelled. spelled ≡ path) }
    {
        let mut text = Vec::with_capacity(alloc, ROOM)?;
        put_path(&mut text, &path)?;
        Ok(SpelledPath { path, text })
    }

    /// The path.
    pub fn path(&self) -> &CertPath
        ensures { result.now ≡ self.now }
    {
        &self.path
    }

    /// The path's text behind a blank.
    pub fn text(&self) -> &[u8]
        ensures { result.now ≡ 32 ∷ path_text self.now }
    {
        self.text.as_slice()
    }
}
