//! Lists as rings of links in one table.
ghost use Rattle.std.specs.Prelude.{◌≡◌, ◌<◌, ◌≤◌, ◌+◌, ◌==◌, ◌∷◌, ◌++◌, [], ℕ, Some, None, IfOk, IfSome, length, map, replicate, slice_get, slice_index};
ghost use Rattle.aom_clients.specs.CircularLists.{AreOwn, node_at};
ghost use Rattle.aom_clients.specs.Lists.{IsIn, IsFree, IsSound, empty, list_at, with_list, without, first_of, rest_of, after_node};

use std::alloc::{AllocError, Global};
use std::marker::Model;

/// Lists of nodes, each of which is in one list at most.
#[derive(Drop)]
pub struct Lists {
    /// What comes after each node, and after the end of each list, which stands behind all nodes.
    after: Vec<u16>,
    /// What comes before each.
    before: Vec<u16>,
    /// In which list each node is.
    owner_lists: Vec<Option<u16>>,
    /// How many nodes each list has.
    counts: Vec<u16>,
}

impl Model for Lists {
    ghost use Rattle.std.specs.Prelude.{length};
    ghost use Rattle.aom_clients.specs.Lists.{Table};
    ghost use Rattle.aom_clients.specs.CircularLists.{AreCircularLists, lists_from};

    ghost Value = { Table };

    ghost view = { λ l. record { lists = lists_from l.after.items (length l.owner_lists.items) l.counts.items; nodes = length l.owner_lists.items } };

    ghost invariant = { λ l. AreCircularLists l.after.items l.before.items l.owner_lists.items l.counts.items (lists_from l.after.items (length l.owner_lists.items) l.counts.items) };
}

impl Lists {
    /// So many lists with no node, for nodes below `nodes`, which is all the memory that is ever taken.
    pub fn with_limit(alloc: Global, nodes: usize, lists: usize) -> Result<Lists, AllocError>
        requires { nodes + lists ≤ 65536 }
        ensures { IfOk result (λ l. l ≡ empty nodes lists) }
    {
        let after = own_numbers(alloc, nodes + lists)?;
        let before = own_numbers(alloc, nodes + lists)?;
        let owner_lists = no_owner_lists(alloc, nodes)?;
        let counts = no_nodes(alloc, lists)?;
        Ok(Lists {
            after,
            before,
            owner_lists,
            counts,
        })
    }

    /// For proofs alone: a look at a field tells what holds of all lists.
    pub fn in_order(&self)
        ensures { IsSound self.now }
    {
        let _ = &self.after;
    }

    /// How many lists there are.
    pub fn lists(&self) -> usize
        ensures { result ≡ length self.now.lists }
    {
        self.counts.len()
    }

    /// How many nodes the list has.
    pub fn count(&self, list: u16) -> u16
        requires { list < length self.now.lists }
        ensures { result ≡ length (list_at self.now list) }
    {
        let place = list as usize;
        self.counts[place]
    }

    /// The list that the node is in.
    pub fn owner_list(&self, node: u16) -> Option<u16>
        ensures within { IfSome result (λ list. IsIn node (list_at self.now list)) }
        ensures free { result ≡ None → IsFree self.now node }
    {
        self.owner_lists.get(node as usize).copied().flatten()
    }

    /// The first node of the list.
    pub fn first(&self, list: u16) -> Option<u16>
        requires { list < length self.now.lists }
        ensures { result ≡ first_of (list_at self.now list) }
    {
        let end = self.owner_lists.len() + list as usize;
        node_after(&self.after, self.owner_lists.len(), end)
    }

    /// The node that comes after this one in its list.
    pub fn next(&self, list: u16, node: u16) -> Option<u16>
        requires { IsIn node (list_at self.now list) }
        ensures { result ≡ after_node node (list_at self.now list) }
    {
        node_after(&self.after, self.owner_lists.len(), node as usize)
    }

    /// The node of the list behind so many others.
    pub fn at(&self, list: u16, ahead: usize) -> Option<u16>
        requires { list < length self.now.lists }
        ensures value { result ≡ slice_get (list_at self.now list) ahead }
        ensures within { IfSome result (λ node. IsIn node (list_at self.now list)) }
    {
        self.in_order();
        let mut node = self.first(list);
        for _ in 0..ahead {
            node = self.next(list, node?);
        }
        node
    }

    /// Puts a node that is in no list behind all others of the list.
    pub fn push_last(&mut self, list: u16, node: u16)
        requires list { list < length self.old.lists }
        requires node { node < self.old.nodes }
        requires free { IsFree self.old node }
        ensures { self.new ≡ with_list list (list_at self.old list ++ node ∷ []) self.old }
    {
        let end = self.owner_lists.len() + list as usize;
        let last = self.before[end];
        self.after[last as usize] = node;
        self.before[node as usize] = last;
        self.after[node as usize] = end as u16;
        self.before[end] = node;
        self.owner_lists[node as usize] = Some(list);
        self.counts[list as usize] += 1;
    }

    /// Takes the first node off the list.
    pub fn take_first(&mut self, list: u16) -> Option<u16>
        requires { list < length self.old.lists }
        ensures first { result ≡ first_of (list_at self.old list) }
        ensures rest { self.new ≡ with_list list (rest_of (list_at self.old list)) self.old }
        ensures below { IfSome result (λ node. node < self.old.nodes) }
        ensures free { IfSome result (λ node. IsFree self.new node) }
    {
        self.in_order();
        let node = self.first(list)?;
        self.unlink(list, node);
        Some(node)
    }

    /// Takes the node out of the list that it is in, if it is in one.
    pub fn remove(&mut self, node: u16)
        ensures removed { self.new ≡ record self.old { lists = map (without node) self.old.lists } }
        ensures free { IsFree self.new node }
    {
        self.in_order();
        if let Some(list) = self.owner_list(node) {
            self.unlink(list, node);
        }
    }

    /// Takes a node out of its list.
    #[inline(never)]
    fn unlink(&mut self, list: u16, node: u16)
        requires { IsIn node (list_at self.old list) }
        ensures { self.new ≡ with_list list (without node (list_at self.old list)) self.old }
    {
        let last = self.before[node as usize];
        let next = self.after[node as usize];
        self.after[last as usize] = next;
        self.before[next as usize] = last;
        self.owner_lists[node as usize] = None;
        self.counts[list as usize] -= 1;
    }
}

/// The node, if it is one, that is linked behind this place.
fn node_after(after: &[u16], nodes: usize, place: usize) -> Option<u16>
    requires { place < length after.now }
    ensures { result ≡ node_at nodes (slice_index after.now place) }
{
    let next = after[place];
    ((next as usize) < nodes).then_some(next)
}

/// So many places, each with its own number.
fn own_numbers(alloc: Global, places: usize) -> Result<Vec<u16>, AllocError>
    requires { places ≤ 65536 }
    ensures { IfOk result (λ v. AreOwn v.items places) }
{
    let mut numbers = vec![in alloc; 0; places]?;
    number(&mut numbers);
    Ok(numbers)
}

/// So many nodes that are in no list.
fn no_owner_lists(alloc: Global, nodes: usize) -> Result<Vec<Option<u16>>, AllocError>
    ensures { IfOk result (λ v. v.items ≡ replicate nodes None) }
{
    vec![in alloc; None; nodes]
}

/// So many lists that have no node.
fn no_nodes(alloc: Global, lists: usize) -> Result<Vec<u16>, AllocError>
    ensures { IfOk result (λ v. v.items ≡ replicate lists 0) }
{
    vec![in alloc; 0; lists]
}

/// Writes into each place its own number.
fn number(places: &mut [u16])
    requires { length places.old ≤ 65536 }
    ensures { (at : ℕ) → at < length places.new → slice_index places.new at ≡ at }
{
    for at in 0..places.len() {
        places[at] = at as u16;
    }
}
