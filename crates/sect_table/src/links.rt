//! The links alone: free functions over the fields, since between two steps a number stands in no list.

ghost use Rattle.std.specs.{Prelude.{◌≡◌, ◌<◌, vec_len, vec_capacity}, Option.{ForSome}};
ghost use Rattle.sect_table.specs.steps.Links.{IsDetached, IsAppended, link_at};

/// Where a number stands: in which list, and between which numbers.
#[derive(Clone, Copy)]
pub(crate) struct Link {
    pub list: usize,
    pub previous: Option<usize>,
    pub next: Option<usize>,
}

/// The ends of a list, and its length.
#[derive(Clone, Copy)]
pub(crate) struct Ends {
    pub first: Option<usize>,
    pub last: Option<usize>,
    pub len: usize,
}

/// Takes a number out of its list, whose ends are these.
pub(crate) fn detach(links: &mut Vec<Link>, ends: &mut Ends, node: usize)
    requires within { node < vec_len links.old }
    requires some { 0 < ends.old.len }
    requires previous { ForSome (link_at links.old.items node).previous (λ before. before < vec_len links.old) }
    requires next { ForSome (link_at links.old.items node).next (λ after. after < vec_len links.old) }
    ensures size { vec_len links.new ≡ vec_len links.old }
    ensures capacity { vec_capacity links.new ≡ vec_capacity links.old }
    ensures places { IsDetached links.old.items links.new.items ends.old ends.new node }
{
    let link = links[node];
    match link.previous {
        Some(before) => links[before].next = link.next,
        None => ends.first = link.next,
    }
    match link.next {
        Some(after) => links[after].previous = link.previous,
        None => ends.last = link.previous,
    }
    ends.len -= 1;
}

/// Puts a number that stands in no list at the end of this one.
pub(crate) fn append(links: &mut Vec<Link>, ends: &mut Ends, list: usize, node: usize)
    requires within { node < vec_len links.old }
    requires room { ends.old.len < vec_len links.old }
    requires last { ForSome ends.old.last (λ last. last < vec_len links.old) }
    ensures size { vec_len links.new ≡ vec_len links.old }
    ensures capacity { vec_capacity links.new ≡ vec_capacity links.old }
    ensures places { IsAppended links.old.items links.new.items ends.old ends.new list node }
{
    match ends.last {
        Some(last) => links[last].next = Some(node),
        None => ends.first = Some(node),
    }
    links[node] = Link {
        list,
        previous: ends.last,
        next: None,
    };
    ends.last = Some(node);
    ends.len += 1;
}
