//! The first of many moments, updated as single ones change: a tournament tree.
ghost use Rattle.std.specs.Prelude.{◌≡◌, ◌≢◌, ◌+◌, ◌*◌, ◌/◌, ◌<◌, ◌≤◌, ℕ, [], length, drop, remove, slice_index_or, slice_set, None, false, IfOk, OnOk};
ghost use Rattle.recurring.specs.FirstMoments.{earlier, IsFirstOf, IsWon, IsTournament};

use crate::due_index::INDEX_LIMIT;
use growth::{Grows, Refused, append, fill};
use std::alloc::{Allocator, Global};
use std::marker::Model;

/// A moment, in milliseconds, or `None`, for each index; and the first of all. It is a tournament tree: each node has the
/// earlier of its two children's moments, so a change affects only the nodes from its leaf up to the root.
#[derive(Drop)]
pub(crate) struct FirstMoments<A: Allocator + Copy = Global> {
    // Twice as many as indices: the moment of index k is node `indexes + k`, and the first of all is node 1.
    nodes: Vec<Option<u64>, A>,
    indexes: usize,
}

impl<A: Allocator + Copy> Model for FirstMoments<A> {
    ghost use Rattle.std.specs.Prelude.{List, Option, ℕ, drop};
    ghost use Rattle.recurring.specs.FirstMoments.{IsTournament};

    ghost Value = { List (Option ℕ) };

    ghost view = { λ t. drop t.indexes t.nodes.items };

    ghost invariant = { λ t. IsTournament t.indexes t.nodes.items };
}

impl<A: Grows> FirstMoments<A> {
    /// No moments. It takes no memory.
    pub(crate) fn new(alloc: A) -> FirstMoments<A>
        ensures { result ≡ [] }
    {
        FirstMoments {
            nodes: Vec::new(alloc),
            indexes: 0,
        }
    }

    /// Grows to at least that many indices. The moments stay, and the new ones are `None`. The only error is a refused allocation.
    pub(crate) fn grow(&mut self, indexes: usize) -> Result<(), Refused<A>>
        requires limit { indexes ≤ INDEX_LIMIT }
        ensures moments { (k : ℕ) → slice_index_or self.new k None
            ≡ slice_index_or self.old k None }
        ensures kept { length self.old ≤ length self.new }
        ensures room { OnOk result (indexes ≤ length self.new) }
    {
        if indexes <= self.indexes {
            return Ok(());
        }
        // At least twice as many as before, so that one more index has a constant amortized cost.
        let indexes = indexes.max(self.nodes.len()).min(INDEX_LIMIT);
        let nodes = nodes_of(
            *self.nodes.allocator(),
            &self.nodes.as_slice()[self.indexes..],
            indexes,
        )?;
        self.nodes = nodes;
        self.indexes = indexes;
        Ok(())
    }

    /// Sets the moment at an index.
    pub(crate) fn set(&mut self, index: usize, moment: Option<u64>)
        requires { index < length self.old }
        ensures { self.new ≡ slice_set self.old index moment }
    {
        let node = self.indexes + index;
        self.nodes[node] = moment;
        climb(self.nodes.as_mut_slice(), self.indexes, node);
    }

    /// Removes the moment at an index. Later ones move down by one index.
    pub(crate) fn remove(&mut self, index: usize)
        requires { index < length self.old }
        ensures { self.new ≡ remove self.old index }
    {
        self.nodes.remove(self.indexes + index);
        // Without node 0 the leaves begin one node earlier, as they have to.
        self.nodes.remove(0);
        self.indexes -= 1;
        lay(self.nodes.as_mut_slice(), self.indexes);
    }

    /// The first of all moments; `None` exactly when all are `None`.
    pub(crate) fn first(&self) -> Option<u64>
        ensures { IsFirstOf self.now result }
    {
        if self.indexes == 0 {
            return None;
        }
        self.nodes[1]
    }
}

/// The nodes of that many indices, of which the first have these moments, and the others `None`. The only error is a refused
/// allocation.
fn nodes_of<A: Grows>(
    alloc: A,
    moments: &[Option<u64>],
    indexes: usize,
) -> Result<Vec<Option<u64>, A>, Refused<A>>
    requires moments { length moments.now ≤ indexes }
    requires limit { indexes ≤ INDEX_LIMIT }
    ensures won { IfOk result (λ v. IsTournament indexes v.items) }
    ensures moments { IfOk result (λ v. (k : ℕ) → slice_index_or (drop indexes v.items) k None
        ≡ slice_index_or moments.now k None) }
{
    let mut nodes = Vec::new(alloc);
    fill(&mut nodes, indexes, None)?;
    append(&mut nodes, moments)?;
    fill(&mut nodes, 2 * indexes, None)?;
    lay(nodes.as_mut_slice(), indexes);
    Ok(nodes)
}

/// Computes each inner node, from the last one to the root.
fn lay(nodes: &mut [Option<u64>], indexes: usize)
    requires { length nodes.old ≡ 2 * indexes }
    ensures won { IsTournament indexes nodes.new }
    ensures moments { drop indexes nodes.new ≡ drop indexes nodes.old }
{
    let mut node = indexes;
    while node > 1 {
        node -= 1;
        play(nodes, node);
    }
}

/// Computes each node above a changed one, if all others are correct.
fn climb(nodes: &mut [Option<u64>], indexes: usize, changed: usize)
    requires long { length nodes.old ≡ 2 * indexes }
    requires low { 1 ≤ changed }
    requires high { changed < 2 * indexes }
    requires won { (i : ℕ) → 1 ≤ i → i < indexes → i ≢ changed / 2 → IsWon nodes.old i }
    ensures won { IsTournament indexes nodes.new }
    ensures moments { drop indexes nodes.new ≡ drop indexes nodes.old }
{
    let mut node = changed;
    while node > 1 {
        node /= 2;
        // A node that has not changed does not affect those above it.
        if !play(nodes, node) {
            return;
        }
    }
}

/// Sets a node to the earlier of its children's moments, and returns whether it changed.
fn play(nodes: &mut [Option<u64>], node: usize) -> bool
    requires { 2 * node + 1 < length nodes.old }
    ensures played { nodes.new ≡ slice_set nodes.old node (earlier (slice_index_or nodes.old (2 * node) None)
        (slice_index_or nodes.old (2 * node + 1) None)) }
    ensures same { result ≡ false → nodes.new ≡ nodes.old }
{
    let first = earlier(nodes[2 * node], nodes[2 * node + 1]);
    if nodes[node] == first {
        return false;
    }
    nodes[node] = first;
    true
}

/// The earlier of two optional moments.
fn earlier(one: Option<u64>, other: Option<u64>) -> Option<u64>
    ensures { result ≡ earlier one other }
{
    match (one, other) {
        (None, other) => other,
        (one, None) => one,
        (Some(one), Some(other)) => Some(one.min(other)),
    }
}
