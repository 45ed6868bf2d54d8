//! The spanning tree of a network simplex, with its nodes in a cyclic order in which each subtree
//! is contiguous.

use crate::guess::Halt;
use crate::unchecked_lists::{at, put, try_at};
use std::alloc::{AllocError, Global};

/// The number of no node.
pub const NO_NODE: u32 = u32::MAX;

/// The residual capacities of the arc between a node and its parent.
#[derive(Clone, Copy)]
pub struct Residuals {
    /// Towards the parent.
    pub up: i64,
    /// Away from the parent.
    pub down: i64,
}

impl Residuals {
    /// The capacities of no arc.
    pub const NONE: Residuals = Residuals { up: 0, down: 0 };

    /// Returns the capacities as seen from the other end.
    pub fn turned(self) -> Residuals {
        Residuals {
            up: self.down,
            down: self.up,
        }
    }
}

/// A node of the tree.
#[derive(Clone, Copy)]
pub struct TreeNode {
    pub parent: u32,
    /// The number of nodes in its subtree.
    pub size: u32,
    /// The last node of its subtree in the cyclic order.
    pub last: u32,
    /// The number of the arc to its parent; artificial arcs to and from the root have numbers after
    /// those of the problem's arcs.
    pub arc: u32,
}

impl TreeNode {
    /// The value of a missing node: it has no parent and no arc.
    pub const NONE: TreeNode = TreeNode {
        parent: NO_NODE,
        size: 0,
        last: NO_NODE,
        arc: u32::MAX,
    };
}

/// A node's neighbors in the cyclic order.
#[derive(Clone, Copy)]
pub struct Thread {
    pub next: u32,
    pub previous: u32,
}

impl Thread {
    /// The neighbors of no node.
    pub const NONE: Thread = Thread {
        next: NO_NODE,
        previous: NO_NODE,
    };
}

/// The nodes of a problem and a root above them, whose number is the number of the problem's nodes.
/// Paths to the root are read most often, so capacities are stored separately.
#[derive(Drop)]
pub struct Tree {
    pub nodes: Vec<TreeNode>,
    pub rooms: Vec<Residuals>,
    /// The last mark on each node, and on any node.
    marks: Vec<u32>,
    mark: u32,
    pub threads: Vec<Thread>,
}

impl Tree {
    /// Creates this many nodes, including the root, which still have to be placed. Fails only if
    /// memory runs out.
    pub fn of_size(alloc: Global, count: usize) -> Result<Tree, AllocError> {
        let nodes = vec![in alloc; TreeNode::NONE; count]?;
        let rooms = vec![in alloc; Residuals::NONE; count]?;
        let marks = vec![in alloc; 0u32; count]?;
        let threads = vec![in alloc; Thread::NONE; count]?;
        Ok(Tree {
            nodes,
            rooms,
            marks,
            mark: 0,
            threads,
        })
    }

    /// Places a node, with its neighbors in the cyclic order.
    pub fn put_whole(&mut self, place: u32, node: TreeNode, rooms: Residuals, thread: Thread) {
        put(&mut self.nodes, place, node);
        put(&mut self.rooms, place, rooms);
        put(&mut self.threads, place, thread);
    }

    /// Returns a node by its number, or `NONE` if it is out of range.
    #[inline]
    pub fn node(&self, node: u32) -> TreeNode {
        at(&self.nodes, node, TreeNode::NONE)
    }

    /// Returns the residual capacities of the arc above a node.
    #[inline]
    pub fn rooms(&self, node: u32) -> Residuals {
        at(&self.rooms, node, Residuals::NONE)
    }

    /// Sets the residual capacities of the arc above a node.
    #[inline]
    pub fn put_residuals(&mut self, node: u32, rooms: Residuals) {
        put(&mut self.rooms, node, rooms);
    }

    /// Returns a node's neighbors in the cyclic order.
    #[inline]
    pub fn thread(&self, node: u32) -> Thread {
        at(&self.threads, node, Thread::NONE)
    }

    /// Sets the node with this number.
    #[inline]
    pub fn put_node(&mut self, place: u32, node: TreeNode) {
        put(&mut self.nodes, place, node);
    }

    /// Makes one node follow another in the cyclic order.
    #[inline]
    pub fn follow(&mut self, node: u32, next: u32) {
        self.set_next(node, next);
        self.set_previous(next, node);
    }

    /// Sets the node after another in the cyclic order.
    #[inline]
    pub fn set_next(&mut self, node: u32, next: u32) {
        if let Some(thread) = self.threads.get_mut(node as usize) {
            thread.next = next;
        }
    }

    /// Sets the node before another in the cyclic order.
    #[inline]
    pub fn set_previous(&mut self, node: u32, previous: u32) {
        if let Some(thread) = self.threads.get_mut(node as usize) {
            thread.previous = previous;
        }
    }

    /// Sets the parent of a node.
    #[inline]
    pub fn set_parent(&mut self, node: u32, parent: u32) {
        if let Some(node) = self.nodes.get_mut(node as usize) {
            node.parent = parent;
        }
    }

    /// Sets the last node of a node's subtree in the cyclic order.
    #[inline]
    pub fn set_last(&mut self, node: u32, last: u32) {
        if let Some(node) = self.nodes.get_mut(node as usize) {
            node.last = last;
        }
    }

    /// Returns the lowest common ancestor of two nodes. Walks up from both at once and marks each
    /// node: the first node with the other side's mark is the result.
    pub fn join(&mut self, first: u32, second: u32) -> Result<u32, Halt> {
        let own = self.mark.wrapping_add(1);
        let others = self.mark.wrapping_add(2);
        self.mark = others;
        let (mut low, mut high) = (first, second);
        for _ in 0..self.nodes.len() {
            if let Some(mark) = self.marks.get_mut(low as usize) {
                if *mark == others {
                    return Ok(low);
                }
                *mark = own;
                low = try_at(&self.nodes, low)?.parent;
            }
            if let Some(mark) = self.marks.get_mut(high as usize) {
                if *mark == own {
                    return Ok(high);
                }
                *mark = others;
                high = try_at(&self.nodes, high)?.parent;
            }
        }
        Err(Halt::OutOfRange)
    }

    /// Sends an amount down from a node's ancestor to it, or up if the amount is negative.
    pub fn send_down(&mut self, ancestor: u32, from: u32, amount: i64) -> Result<(), Halt> {
        let mut place = from;
        for _ in 0..=self.nodes.len() {
            if place == ancestor {
                return Ok(());
            }
            match self.rooms.get_mut(place as usize) {
                Some(rooms) => {
                    rooms.down = rooms.down.wrapping_sub(amount);
                    rooms.up = rooms.up.wrapping_add(amount);
                }
                None => return Err(Halt::OutOfRange),
            }
            place = try_at(&self.nodes, place)?.parent;
        }
        Err(Halt::OutOfRange)
    }

    /// Attaches a leaf of the root below another node, directly after it. Leaves sizes and last
    /// nodes to `count_below_parent`.
    pub fn hang_leaf(&mut self, node: u32, parent: u32, arc: u32, rooms: Residuals) {
        let own = self.thread(node);
        self.follow(own.previous, own.next);
        let behind = self.thread(parent).next;
        self.follow(node, behind);
        self.follow(parent, node);
        self.set_parent(node, parent);
        put(&mut self.rooms, node, rooms);
        if let Some(node) = self.nodes.get_mut(node as usize) {
            node.arc = arc;
        }
    }

    /// Adds a node's subtree to its parent's, which ends with the subtree of its first attached
    /// child: that one must be counted last.
    pub fn count_below_parent(&mut self, node: u32) {
        let own = self.node(node);
        if let Some(parent) = self.nodes.get_mut(own.parent as usize) {
            parent.size = parent.size.wrapping_add(own.size);
            parent.last = own.last;
        }
    }

    /// Ends the root's subtree before the root.
    pub fn end_at_last(&mut self, root: u32) {
        let last = self.thread(root).previous;
        self.set_last(root, last);
    }
}
