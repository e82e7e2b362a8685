//! The lines of the nodes of a section.

ghost use Rattle.std.specs.Prelude.{◌≡◌, ◌<◌, ◌-◌, ◌++◌, [], List, length, map, IfOk, OnOk};
ghost use Rattle.std.specs.{List.{AllByRecursion}, Map.Iter.{deref}};
ghost use Rattle.sect_lemmas.specs.Lists.{Has};
ghost use Rattle.sect_names.specs.{declared.lock.Lock.{Lock}, Printing.{AreNamed}};
ghost use Rattle.sect_cert.specs.Texts.{IsLock, nodes_lines, lines_text};
ghost use Rattle.sect_emit.specs.{Words.{list_words}, steps.Spelled.{IsListAt}};

use crate::words::{Known, list_of};
use sect_cert::{CertLock, put_list, put_node};
use sect_front::Items;
use sect_infer::{Locks, Numbers};
use sect_names::Lock;
use sect_types::Program;
use std::alloc::{AllocError, Global};

/// The locks of a section of a program, which has so many nodes, the exit counted.
#[derive(Clone, Copy)]
pub struct SectionLocks<'a> {
    pub program: &'a Program,
    pub locks: &'a Locks,
    pub nodes: u16,
}

/// The list of a node: by its names, its locks, and its text behind a blank; and room for the numbers of a node's.
#[derive(Drop)]
pub struct NodeList<'a> {
    pub named: Items<CertLock>,
    pub locks: Vec<&'a Lock>,
    pub text: Vec<u8>,
    room: Numbers,
}

impl<'a> SectionLocks<'a> {
    /// Puts the list of a node in place of another, of which it may have many locks.
    fn put_in_place(
        self,
        alloc: Global,
        node: u16,
        list: &mut NodeList<'a>,
    ) -> Result<(), AllocError>
        requires there { node < length self.locks.now.at }
        requires names { (locks : List Lock) → Has self.locks.now.at locks → AreNamed self.program.now locks }
        requires known { list.old.named ≡ list_words self.program.now.source (map deref list.old.locks.items) }
        requires good { AllByRecursion IsLock list.old.named }
        ensures { OnOk result (IsListAt self.entry.program.now.source self.entry.locks.now.at node list.new.named
            (map deref list.new.locks.items) list.new.text.items) }
    {
        let needed = self.locks.lent_at(alloc, &mut list.room, node)?;
        let known = Known {
            locks: list.locks.as_slice(),
            named: list.named.as_slice(),
        };
        let named = list_of(alloc, self.program, known, needed.as_slice())?;
        list.text.clear();
        put_list(&mut list.text, named.as_slice())?;
        list.named = named;
        list.locks = needed;
        Ok(())
    }

    /// The list of the first node.
    pub fn first_list(self, alloc: Global) -> Result<NodeList<'a>, AllocError>
        requires there { 0 < length self.locks.now.at }
        requires names { (locks : List Lock) → Has self.locks.now.at locks → AreNamed self.program.now locks }
        ensures { IfOk result (λ list. IsListAt self.entry.program.now.source self.entry.locks.now.at 0 list.named
            (map deref list.locks.items) list.text.items) }
    {
        let mut list = NodeList {
            named: Items::from_vec(Vec::new(alloc)),
            locks: Vec::new(alloc),
            text: Vec::new(alloc),
            room: Numbers::new(alloc),
        };
        self.put_in_place(alloc, 0, &mut list)?;
        Ok(list)
    }

    /// Goes on to the list of a node from that of the node before, which it mostly repeats.
    fn next_list(self, alloc: Global, node: u16, list: &mut NodeList<'a>) -> Result<(), AllocError>
        requires there { node < length self.locks.now.at }
        requires names { (locks : List Lock) → Has self.locks.now.at locks → AreNamed self.program.now locks }
        requires before { IsListAt self.program.now.source self.locks.now.at (node - 1) list.old.named
            (map deref list.old.locks.items) list.old.text.items }
        ensures { OnOk result (IsListAt self.entry.program.now.source self.entry.locks.now.at node list.new.named
            (map deref list.new.locks.items) list.new.text.items) }
    {
        if node == 0 {
            return Ok(());
        }
        if self.locks.are_one(node, node - 1) {
            return Ok(());
        }
        self.put_in_place(alloc, node, list)
    }

    /// Writes the lines of the nodes, where the list of the first is given.
    pub fn put_nodes(
        self,
        alloc: Global,
        out: &mut Vec<u8>,
        list: &mut NodeList<'a>,
    ) -> Result<(), AllocError>
        requires count { length self.locks.now.at ≡ self.nodes }
        requires names { (locks : List Lock) → Has self.locks.now.at locks → AreNamed self.program.now locks }
        requires first { IsListAt self.program.now.source self.locks.now.at 0 list.old.named
            (map deref list.old.locks.items) list.old.text.items }
        ensures lines { OnOk result (out.new.items ≡ out.old.items
            ++ lines_text (nodes_lines 0 (map (list_words self.entry.program.now.source) self.entry.locks.now.at) [])) }
        ensures good { OnOk result (AllByRecursion (λ locks. AllByRecursion IsLock locks)
            (map (list_words self.entry.program.now.source) self.entry.locks.now.at)) }
    {
        for node in 0..self.nodes {
            self.next_list(alloc, node, list)?;
            put_node(out, node as usize, list.text.as_slice())?;
        }
        Ok(())
    }
}
