//! Lists over the numbers below a bound, each number in one list, linked through one arena.

ghost use Rattle.std.specs.Prelude.{◌≡◌, ◌<◌, ◌+◌, ◌++◌, ◌∷◌, [], ◌^◌, length, slice_set, OnOk, IfSome, ℕ, List};
ghost use Rattle.std.specs.Prelude.{None};
ghost use Rattle.sect_table.specs.steps.Links.{list_at, label_at, head_or, ArePlaced, Goes};

use crate::links::{Ends, Link, append, detach};
use std::alloc::{AllocError, Global};
use std::marker::Model;

/// Lists over the numbers below `size`. Each number stands in one list, once, and `labels` has the number of that list.
#[derive(Drop)]
pub(crate) struct Lists {
    links: Vec<Link>,
    ends: Vec<Ends>,
}

impl Model for Lists {
    ghost use Rattle.std.specs.Prelude.{◌-◌, None};
    ghost use Rattle.sect_table.specs.steps.Links.{Shape, AreLists, lists_of, labels_of};

    ghost Value = { Shape };

    ghost view = { λ s. record {
      size = s.links.len;
      room = s.links.cap - s.links.len;
      list_room = s.ends.cap - s.ends.len;
      labels = labels_of s.links.items;
      lists = lists_of s.links.items s.ends.items;
    } };

    ghost invariant = { λ s. AreLists s.links.items s.ends.items (lists_of s.links.items s.ends.items) None };
}

impl Lists {
    /// No list, and no number.
    pub fn new(alloc: Global) -> Self
        ensures lists { result.lists ≡ [] }
        ensures size { result.size ≡ 0 }
        ensures labels { result.labels ≡ [] }
        ensures placed { ArePlaced result }
    {
        Lists {
            links: Vec::new(alloc),
            ends: Vec::new(alloc),
        }
    }

    /// The first number of a list.
    pub fn first(&self, list: usize) -> Option<usize>
        requires { list < length self.now.lists }
        ensures first { result ≡ head_or (list_at self.now.lists list) None }
        ensures within { IfSome result (λ node. node < self.now.size) }
    {
        self.ends[list].first
    }

    /// The number after this one in its list.
    pub fn after(&self, node: usize) -> Option<usize>
        requires { node < self.now.size }
        ensures within { IfSome result (λ next. next < self.now.size) }
        ensures next { (l : ℕ) (before later : List ℕ) → l < length self.now.lists →
            list_at self.now.lists l ≡ before ++ node ∷ later → result ≡ head_or later None }
    {
        self.links[node].next
    }

    /// The list in which a number stands.
    pub fn list_of(&self, node: usize) -> usize
        requires { node < self.now.size }
        ensures { result ≡ label_at self.now node }
    {
        self.links[node].list
    }

    /// How many numbers stand in a list.
    pub fn len(&self, list: usize) -> usize
        requires { list < length self.now.lists }
        ensures { result ≡ length (list_at self.now.lists list) }
    {
        self.ends[list].len
    }

    /// Takes a number out of its list, and puts it at the end of another one.
    pub fn move_to(&mut self, node: usize, list: usize)
        requires node { node < self.old.size }
        requires list { list < length self.old.lists }
        ensures { Goes self.old self.new node list }
    {
        let from = self.links[node].list;
        detach(&mut self.links, &mut self.ends[from], node);
        append(&mut self.links, &mut self.ends[list], list, node);
    }

    /// Makes room for one more number.
    pub fn reserve(&mut self) -> Result<(), AllocError>
        ensures ok { OnOk result (0 < self.new.room) }
        ensures size { self.new.size ≡ self.old.size }
        ensures labels { self.new.labels ≡ self.old.labels }
        ensures lists { self.new.lists ≡ self.old.lists }
        ensures list_room { self.new.list_room ≡ self.old.list_room }
        ensures placed { ArePlaced self.new }
    {
        self.links.reserve(1)
    }

    /// One more number, at the end of a list.
    pub fn add_number(&mut self, list: usize)
        requires list { list < length self.old.lists }
        requires room { 0 < self.old.room }
        ensures size { self.new.size ≡ self.old.size + 1 }
        ensures labels { self.new.labels ≡ self.old.labels ++ list ∷ [] }
        ensures lists { self.new.lists ≡
            slice_set self.old.lists list (list_at self.old.lists list ++ self.old.size ∷ []) }
        ensures placed { ArePlaced self.new }
    {
        let node = self.links.len();
        self.links.push_reserved(Link {
            list,
            previous: None,
            next: None,
        });
        append(&mut self.links, &mut self.ends[list], list, node);
    }

    /// Makes room for two more lists.
    pub fn reserve_lists(&mut self) -> Result<(), AllocError>
        ensures ok { OnOk result (1 < self.new.list_room) }
        ensures size { self.new.size ≡ self.old.size }
        ensures room { self.new.room ≡ self.old.room }
        ensures labels { self.new.labels ≡ self.old.labels }
        ensures lists { self.new.lists ≡ self.old.lists }
        ensures placed { ArePlaced self.new }
    {
        self.ends.reserve(2)
    }

    /// One more list, which is empty.
    pub fn add_list(&mut self)
        requires { 0 < self.old.list_room }
        ensures size { self.new.size ≡ self.old.size }
        ensures room { self.new.room ≡ self.old.room }
        ensures list_room { self.new.list_room + 1 ≡ self.old.list_room }
        ensures labels { self.new.labels ≡ self.old.labels }
        ensures lists { self.new.lists ≡ self.old.lists ++ [] ∷ [] }
        ensures few { length self.new.lists < 2 ^ 60 }
        ensures placed { ArePlaced self.new }
    {
        self.ends.push_reserved(Ends {
            first: None,
            last: None,
            len: 0,
        });
    }
}
