//! How the cleanup entries of the states of a method are kept.
ghost use Rattle.std.specs.Prelude.{◌≡◌, ◌≤◌, ◌<◌, ◌+◌, ◌-◌, ◌↔◌, [], ◌∷◌, IfOk, IsTrue, slice_get};
ghost use Rattle.aom_abstract_state.specs.Entries.{made_ready_at, without_top};
ghost use Rattle.aom_abstract_state.specs.Changes.{changed, made_ready_perhaps};
ghost use Rattle.aom_abstract_state.specs.EntryStacks.{Extends, Stands, entries_of, node_at};
ghost use Rattle.aom_abstract_state.specs.Tests.{same_entries};

use crate::CleanupEntry;
use crate::flow::{Change, Last};
use aom_image::EntryDepth;
use std::alloc::{AllocError, Global};
use std::marker::Model;

/// An entry, and where the one below it stands.
#[derive(Clone, Copy)]
pub struct Node {
    entry: CleanupEntry,
    below: usize,
}

/// The cleanup entries of one state: where the last one stands, and how many there are.
#[derive(Clone, Copy)]
pub struct EntryStack {
    top: usize,
    height: usize,
}

/// The cleanup entries of the states of a method: what states have in common stands there once.
#[derive(Drop)]
pub struct EntryStacks {
    nodes: Vec<Node>,
}

impl Model for EntryStacks {
    ghost use Rattle.std.specs.Prelude.{List};
    ghost use Rattle.aom_abstract_state.specs.declared.entry_stacks.Node.{Node as NodeRecord};

    ghost Value = { List NodeRecord };

    ghost view = { λ p. p.nodes.items };
}

impl EntryStack {
    /// No entry.
    pub fn none() -> EntryStack
        ensures { result ≡ record { top = 0; height = 0 } }
    {
        EntryStack { top: 0, height: 0 }
    }

    pub fn height(self) -> usize
        ensures { result ≡ self.height }
    {
        self.height
    }
}

impl EntryStacks {
    pub fn new(alloc: Global) -> EntryStacks
        ensures { result ≡ [] }
    {
        EntryStacks {
            nodes: Vec::new(alloc),
        }
    }

    pub fn nodes(&self) -> &[Node]
        ensures { result.now ≡ self.now }
    {
        self.nodes.as_slice()
    }

    /// Whether two piles have the same entries.
    pub fn are_same(&self, one: EntryStack, other: EntryStack) -> bool
        ensures { IsTrue result ↔ (entries_of self.now one ≡ entries_of self.now other) }
    {
        are_same(&self.nodes, one, &self.nodes, other, true)
    }

    /// The pile with one more entry.
    fn push(
        &mut self,
        entry_stack: EntryStack,
        entry: CleanupEntry,
    ) -> Result<EntryStack, AllocError>
        requires stands { Stands self.old entry_stack }
        requires room { entry_stack.height < 1024 }
        ensures kept { Extends self.old self.new }
        ensures stands { IfOk result (λ p. Stands self.new p) }
        ensures height { IfOk result (λ p. p.height ≡ entry_stack.height + 1) }
        ensures value { IfOk result (λ p. entries_of self.new p ≡ entry ∷ entries_of self.old entry_stack) }
    {
        let top = self.nodes.len();
        let node = Node {
            entry,
            below: entry_stack.top,
        };
        self.nodes.push(node)?;
        Ok(EntryStack {
            top,
            height: entry_stack.height + 1,
        })
    }

    /// The pile without its last entry, if there is one.
    fn below(&self, entry_stack: EntryStack) -> EntryStack
        requires { Stands self.now entry_stack }
        ensures stands { Stands self.now result }
        ensures height { result.height ≡ entry_stack.height - 1 }
        ensures value { entries_of self.now result ≡ without_top (entries_of self.now entry_stack) }
    {
        if entry_stack.height == 0 {
            return entry_stack;
        }
        EntryStack {
            top: node_at(&self.nodes, entry_stack.top).below,
            height: entry_stack.height - 1,
        }
    }

    /// The pile with the object of the entry of that number ready, counted from the last.
    fn made_ready(
        &mut self,
        entry_stack: EntryStack,
        number: usize,
    ) -> Result<EntryStack, AllocError>
        requires stands { Stands self.old entry_stack }
        requires room { entry_stack.height ≤ 1024 }
        ensures kept { Extends self.old self.new }
        ensures stands { IfOk result (λ p. Stands self.new p) }
        ensures height { IfOk result (λ p. p.height ≡ entry_stack.height) }
        ensures value { IfOk result (λ p. entries_of self.new p ≡ made_ready_at (entries_of self.old entry_stack) number) }
    {
        if entry_stack.height == 0 {
            return Ok(entry_stack);
        }
        let entry = node_at(&self.nodes, entry_stack.top).entry;
        let below = self.below(entry_stack);
        if number == 0 {
            return self.push(below, entry.made_ready());
        }
        let rest = self.made_ready(below, number - 1)?;
        self.push(rest, entry)
    }

    fn made_ready_perhaps(
        &mut self,
        entry_stack: EntryStack,
        number: Option<EntryDepth>,
    ) -> Result<EntryStack, AllocError>
        requires stands { Stands self.old entry_stack }
        requires room { entry_stack.height ≤ 1024 }
        ensures kept { Extends self.old self.new }
        ensures stands { IfOk result (λ p. Stands self.new p) }
        ensures height { IfOk result (λ p. p.height ≡ entry_stack.height) }
        ensures value { IfOk result (λ p. entries_of self.new p ≡ made_ready_perhaps number (entries_of self.old entry_stack)) }
    {
        match number {
            None => Ok(entry_stack),
            Some(number) => self.made_ready(entry_stack, number.number() as usize),
        }
    }

    /// The pile after a change. What stood stands, also where memory is wanting.
    pub fn changed(
        &mut self,
        entry_stack: EntryStack,
        change: Change,
    ) -> Result<EntryStack, AllocError>
        requires stands { Stands self.old entry_stack }
        requires room { entry_stack.height < 1024 }
        ensures kept { Extends self.old self.new }
        ensures stands { IfOk result (λ p. Stands self.new p) }
        ensures height { IfOk result (λ p. p.height ≤ entry_stack.height + 1) }
        ensures value { IfOk result (λ p. entries_of self.new p ≡ changed change (entries_of self.old entry_stack)) }
    {
        let ready = self.made_ready_perhaps(entry_stack, change.made_ready)?;
        match change.last {
            Last::Same => Ok(ready),
            Last::More(entry) => self.push(ready, entry),
            Last::Fewer => Ok(self.below(ready)),
        }
    }
}

fn node_at(nodes: &[Node], index: usize) -> Node
    ensures { result ≡ node_at nodes.now index }
{
    match nodes.get(index) {
        Some(node) => *node,
        None => Node {
            entry: CleanupEntry::Operation,
            below: 0,
        },
    }
}

/// The entry of that number, counted from the last.
pub fn entry_at(nodes: &[Node], entry_stack: EntryStack, number: usize) -> Option<CleanupEntry>
    ensures { result ≡ slice_get (entries_of nodes.now entry_stack) number }
{
    if entry_stack.height == 0 {
        return None;
    }
    let node = node_at(nodes, entry_stack.top);
    if number == 0 {
        return Some(node.entry);
    }
    let below = EntryStack {
        top: node.below,
        height: entry_stack.height - 1,
    };
    entry_at(nodes, below, number - 1)
}

/// Whether two piles of one height have the same entries. Where they share their nodes, they have the same ones from a node
/// on that is in both.
fn are_same_down(
    a: &[Node],
    one: EntryStack,
    b: &[Node],
    other: EntryStack,
    is_shared: bool,
) -> bool
    requires height { one.height ≡ other.height }
    requires shared { IsTrue is_shared → a.now ≡ b.now }
    ensures { result ≡ same_entries (entries_of a.now one) (entries_of b.now other) }
{
    let mut first = one.top;
    let mut second = other.top;
    let mut left = one.height;
    while left > 0 {
        if is_shared && first == second {
            return true;
        }
        let upper = node_at(a, first);
        let lower = node_at(b, second);
        if !upper.entry.is_same(lower.entry) {
            return false;
        }
        first = upper.below;
        second = lower.below;
        left -= 1;
    }
    true
}

/// Whether two piles have the same entries. They may share their nodes.
pub fn are_same(a: &[Node], one: EntryStack, b: &[Node], other: EntryStack, is_shared: bool) -> bool
    requires { IsTrue is_shared → a.now ≡ b.now }
    ensures { IsTrue result ↔ (entries_of a.now one ≡ entries_of b.now other) }
{
    if one.height != other.height {
        return false;
    }
    are_same_down(a, one, b, other, is_shared)
}
