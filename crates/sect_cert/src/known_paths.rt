//! Paths that were read.

ghost use Rattle.std.specs.Prelude.{None};
ghost use Rattle.sect_cert.specs.steps.{Readers.{ReadsAs}, Subjects.{path_of as path_in}};

use crate::fault::LineFault;
use crate::shared_path::SharedPath;
use crate::subject::path_of;
use indexmap::IndexMap;
use std::alloc::Global;
use std::marker::Model;

/// The paths that were read, by their words. A word that is read again has the path that is kept.
#[derive(Drop)]
pub struct KnownPaths {
    alloc: Global,
    paths: IndexMap<Vec<u8>, SharedPath>,
}

impl Model for KnownPaths {
    ghost use Rattle.std.specs.Prelude.{⊤};
    ghost use Rattle.sect_cert.specs.steps.Known.{AreRead};

    ghost Value = { ⊤ };

    ghost view = { λ k. tt };

    ghost invariant = { λ k. AreRead k.paths.entries };
}

impl KnownPaths {
    /// None.
    pub fn new(alloc: Global) -> KnownPaths {
        KnownPaths {
            alloc,
            paths: IndexMap::new(alloc),
        }
    }

    /// The allocator.
    pub fn alloc(&self) -> Global {
        self.alloc
    }

    /// The path that a word is, which isn't known yet.
    fn new_path(&mut self, word: &[u8]) -> Result<SharedPath, LineFault>
        ensures { ReadsAs result (path_in word.now) }
    {
        let path = SharedPath::new(self.alloc, path_of(self.alloc, word)?)?;
        let known = path.share()?;
        self.paths
            .insert(Vec::from_slice(self.alloc, word)?, known)?;
        Ok(path)
    }

    /// The path that a word is.
    pub fn path(&mut self, word: &[u8]) -> Result<SharedPath, LineFault>
        ensures { ReadsAs result (path_in word.now) }
    {
        if let Some(path) = self.paths.get(word) {
            return Ok(path.share()?);
        }
        self.new_path(word)
    }
}
