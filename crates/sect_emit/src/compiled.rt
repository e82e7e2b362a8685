//! Compiled programs.

ghost use Rattle.std.specs.Prelude.{◌≡◌, ◌<◌, IfOk, List, Some, length, map, slice_get};
ghost use Rattle.sect_lemmas.specs.Lists.{Has};
ghost use Rattle.sect_types.specs.{First.{IsTyped}, Programs.{IsOfTree}, Sections.{SectionView, sections_of}};
ghost use Rattle.sect_graph.specs.declared.flow.Node.{Node};
ghost use Rattle.sect_names.specs.{declared.link.Link.{Link}, declared.lock.Lock.{Lock}, Needed.{end_of}};
ghost use Rattle.sect_chains.specs.Chains.{AreChains};
ghost use Rattle.sect_check.specs.Valid.{IsValid};
ghost use Rattle.sect_infer.specs.Sets.{AreInferredAt};
ghost use Rattle.sect_emit.specs.{Compiled.{IsCompiled, AreSetsLeast}, Certificates.{IsCertificateOf}};
ghost use Rattle.sect_emit.specs.Words.{IsChainNamed};
ghost use Rattle.sect_cert.specs.declared.certificate.Cert.{Cert};

use crate::certificate::text_of;
use crate::chains::found;
use crate::laws::claims::spelled_locks_are_valid;
use crate::plan::Grip;
use sect_cert::{Cert, CertFault, read_cert};
use sect_chains::Chain;
use sect_infer::Locks;
use sect_names::{Lock, Scheme};
use std::alloc::{AllocError, Global};
use std::marker::Model;

/// A compiled program: what inference knows of it, the locks of each section, and the fixed part of each section's
/// plan.
pub struct Compiled {
    scheme: Scheme,
    locks: Vec<Locks>,
    parts: Vec<Vec<Grip>>,
}

impl Drop for Compiled {
    fn drop(self) {
        let Compiled {
            scheme: _,
            locks: _,
            parts: _,
        } = self;
    }
}

impl Model for Compiled {
    ghost use Rattle.std.specs.Prelude.{map};
    ghost use Rattle.std.specs.Coded.{codes};
    ghost use Rattle.sect_front.specs.Coding.{block_code};
    ghost use Rattle.sect_types.specs.Coding.{statements_code};
    ghost use Rattle.sect_points.specs.Paths.{path_code};
    ghost use Rattle.sect_emit.specs.Compiled.{CompiledView};
    ghost use Rattle.sect_emit.specs.steps.Inferred.{entries_of, IsWhole};

    ghost Value = { CompiledView };

    ghost coded = { Prim.hlevel (codes, block_code, statements_code, path_code) };

    ghost view = { λ c. record {
      scheme = c.scheme;
      sets = entries_of c.locks.items;
      parts = map (λ v. v.items) c.parts.items;
    } };

    ghost invariant = { λ c. IsWhole c.scheme c.locks.items (map (λ v. v.items) c.parts.items) };
}

impl Compiled {
    ghost use Rattle.std.specs.Prelude.{map};
    ghost use Rattle.sect_emit.specs.steps.Inferred.{entries_of, IsWhole};

    /// The program of this scheme, with these locks and fixed parts.
    pub(crate) fn of(scheme: Scheme, locks: Vec<Locks>, parts: Vec<Vec<Grip>>) -> Compiled
        requires { IsWhole scheme locks.items (map (λ v. v.items) parts.items) }
        ensures scheme { result.scheme ≡ scheme }
        ensures sets { result.sets ≡ entries_of locks.items }
        ensures parts { result.parts ≡ map (λ v. v.items) parts.items }
    {
        Compiled {
            scheme,
            locks,
            parts,
        }
    }

    /// What a compiled program keeps.
    pub fn facts(&self)
        ensures compiled { IsCompiled self.now }
        ensures least { AreSetsLeast self.now }
        // Its program is that of a typed tree.
        ensures typed { IsTyped self.now.scheme.program.source }
        ensures of_tree { IsOfTree self.now.scheme.program }
    {
        let _facts = &self.locks;
        self.scheme.facts();
        let _facts = self.scheme.program().tree();
    }

    /// What inference knows of the program.
    pub fn scheme(&self) -> &Scheme
        ensures { result.now ≡ self.now.scheme }
    {
        &self.scheme
    }

    /// The locks that a section takes at its entry: the least set that protects it, in canonical order.
    pub fn set(&self, section: u16) -> &[Lock]
        requires { section < length self.now.sets }
        ensures { slice_get self.now.sets section ≡ Some result.now }
    {
        self.locks[section as usize].entry()
    }

    /// The locks of a section at each of its nodes.
    pub fn locks(&self, section: u16) -> &Locks
        requires { section < length (sections_of self.now.scheme.program.texts) }
        ensures inferred { AreInferredAt self.now.scheme section result.now }
        ensures set { slice_get self.now.sets section ≡ Some result.now.entry }
    {
        &self.locks[section as usize]
    }

    /// The part of a section's plan that is the same in all states.
    pub fn part(&self, section: u16) -> &[Grip]
        requires { section < length self.now.parts }
        ensures { slice_get self.now.parts section ≡ Some result.now }
    {
        self.parts[section as usize].as_slice()
    }

    /// For each lock that a section takes at its entry, in order, its first chain: the steps from the entry to where
    /// the lock is generated. The certificate has the same.
    pub fn chains(&self, alloc: Global, section: u16) -> Result<Vec<Chain>, AllocError>
        requires { section < length (sections_of self.now.scheme.program.texts) }
        ensures chains { (of : SectionView) (g : List Node) (set : List Lock)
            → slice_get (sections_of self.now.scheme.program.texts) section ≡ Some of
            → slice_get self.now.scheme.graphs.sections section ≡ Some g → slice_get self.now.sets section ≡ Some set
            → IfOk result (λ chains.
            AreChains self.now.scheme of.thread (end_of self.now.scheme section) g set chains.items) }
        ensures named { IfOk result (λ chains. (links : List Link) → Has chains.items links
            → IsChainNamed self.now.scheme.program links) }
    {
        found(alloc, &self.scheme, &self.locks[section as usize], section)
    }

    /// The certificate of the program: by the names of the text which locks are needed at each node and taken at each
    /// entry, and along which steps. It is the same each time. It is made when it is asked for, since it may be far
    /// larger than all else.
    pub fn certificate(&self, alloc: Global) -> Result<Cert, AllocError>
        ensures certificate { IfOk result (IsCertificateOf self.now) }
        // There is no other.
        ensures only { IfOk result (λ cert. (other : Cert) → IsCertificateOf self.now other → other ≡ cert) }
        // The checker accepts it.
        ensures valid { IfOk result (IsValid self.now.scheme) }
    {
        spelled_locks_are_valid();
        self.scheme.facts();
        self.scheme.program().facts();
        let _facts = self.scheme.program().tree();
        let text = text_of(alloc, &self.scheme, self.locks.as_slice())?;
        match read_cert(alloc, text.as_slice()) {
            Ok(cert) => Ok(cert),
            Err(CertFault::Memory) => Err(AllocError),
            // the text is that of a certificate
            Err(_) => unreachable!(),
        }
    }
}
