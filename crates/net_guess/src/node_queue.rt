//! A queue of nodes.

use crate::unchecked_lists::{at, index, put};
use std::alloc::{AllocError, Global};

/// A first-in, first-out queue of nodes. Each node is in it at most once, so the capacity suffices.
#[derive(Drop)]
pub struct NodeQueue {
    /// A ring buffer with space for each node.
    nodes: Vec<u32>,
    /// For each node, whether it is in the queue.
    is_waiting: Vec<bool>,
    /// The position of the first node, and the number of nodes.
    first: u32,
    count: u32,
}

impl NodeQueue {
    /// Creates an empty queue with space for this many nodes. Fails only if memory runs out.
    pub fn with_room(alloc: Global, node_count: usize) -> Result<NodeQueue, AllocError> {
        let nodes = vec![in alloc; 0u32; node_count]?;
        let is_waiting = vec![in alloc; false; node_count]?;
        Ok(NodeQueue {
            nodes,
            is_waiting,
            first: 0,
            count: 0,
        })
    }

    /// Appends a node, unless it is in the queue.
    #[inline]
    pub fn push(&mut self, node: u32) {
        if !at(&self.is_waiting, node, true) {
            put(&mut self.is_waiting, node, true);
            let end = self.place(self.count);
            put(&mut self.nodes, end, node);
            self.count = self.count.wrapping_add(1);
        }
    }

    /// Removes and returns the first node.
    #[inline]
    pub fn pop(&mut self) -> Option<u32> {
        if self.count == 0 {
            return None;
        }
        let node = at(&self.nodes, self.first, 0);
        put(&mut self.is_waiting, node, false);
        self.first = self.place(1);
        self.count = self.count.wrapping_sub(1);
        Some(node)
    }

    /// Returns the position at this offset from the first one.
    #[inline]
    fn place(&self, offset: u32) -> u32 {
        let size = index(self.nodes.len());
        let place = self.first.wrapping_add(offset);
        if place < size {
            place
        } else {
            place.wrapping_sub(size)
        }
    }
}
