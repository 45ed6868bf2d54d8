//! Re-rooting a subtree of a spanning tree and attaching it below another node. The cyclic node
//! order that makes this cheap is from Barr, Glover and Klingman (1979); see also Ahuja, Magnanti,
//! Orlin: Network Flows, section 11.3.

use crate::guess::Halt;
use crate::tree::{NO_NODE, Residuals, Tree};

/// How to re-attach a subtree.
#[derive(Clone, Copy)]
pub struct Attachment {
    /// The root of the subtree, which leaves its parent.
    pub leaving: u32,
    /// The node of the subtree that becomes its new root.
    pub stem: u32,
    /// The new parent of that node, outside the subtree.
    pub parent: u32,
    /// The arc between them, and its residual capacities.
    pub arc: u32,
    pub rooms: Residuals,
    /// The lowest common ancestor of both parents.
    pub join: u32,
}

/// A position on the path from a subtree's new root to its old one.
#[derive(Clone, Copy)]
struct Turn {
    node: u32,
    /// Its new parent.
    above: u32,
    /// The last node of what it takes along, and the node after that.
    last: u32,
    behind: u32,
}

/// The state of the subtree's root before the change.
#[derive(Clone, Copy)]
struct Before {
    previous: u32,
    size: u32,
    last: u32,
    parent: u32,
}

impl Tree {
    /// Re-attaches a subtree. `turned` is scratch space.
    pub fn attach(&mut self, attachment: &Attachment, turned: &mut Vec<u32>) -> Result<(), Halt> {
        let leaving = self.node(attachment.leaving);
        let before = Before {
            previous: self.thread(attachment.leaving).previous,
            size: leaving.size,
            last: leaving.last,
            parent: leaving.parent,
        };
        if attachment.stem == attachment.leaving {
            self.move_whole(attachment, before);
        } else {
            self.turn_order(attachment, before, turned)?;
            self.turn_arcs(attachment, before);
        }
        self.mend_lasts(attachment, before)?;
        self.grow(attachment.parent, attachment.join, before.size)?;
        self.grow(
            before.parent,
            attachment.join,
            0u32.wrapping_sub(before.size),
        )
    }

    /// Moves a subtree that keeps its root.
    fn move_whole(&mut self, attachment: &Attachment, before: Before) {
        let root = attachment.leaving;
        let mut node = self.node(root);
        node.parent = attachment.parent;
        node.arc = attachment.arc;
        self.put_node(root, node);
        self.put_residuals(root, attachment.rooms);
        if self.thread(attachment.parent).next == root {
            return;
        }
        let behind = self.thread(before.last).next;
        self.follow(before.previous, behind);
        let behind = self.thread(attachment.parent).next;
        self.follow(attachment.parent, root);
        self.follow(before.last, behind);
    }

    /// Updates the cyclic order of a subtree with a new root: each node on the path to the old root
    /// is followed by what is left of its own subtree.
    fn turn_order(
        &mut self,
        attachment: &Attachment,
        before: Before,
        turned: &mut Vec<u32>,
    ) -> Result<(), Halt> {
        let parent = attachment.parent;
        let after_all = if before.previous == parent {
            self.thread(before.last).next
        } else {
            self.thread(parent).next
        };
        let last = self.node(attachment.stem).last;
        let mut turn = Turn {
            node: attachment.stem,
            above: parent,
            last,
            behind: self.thread(last).next,
        };
        self.set_next(parent, turn.node);
        turned.clear();
        turned.push(parent)?;
        for _ in 0..self.nodes.len() {
            if turn.node == attachment.leaving {
                break;
            }
            turned.push(turn.last)?;
            turn = self.turn_node(turn);
        }
        self.set_parent(attachment.leaving, turn.above);
        self.follow(turn.last, after_all);
        self.set_last(attachment.leaving, turn.last);
        if before.previous != parent {
            self.follow(before.previous, turn.behind);
        }
        self.mend_previous(turned);
        Ok(())
    }

    /// Sets the predecessors of the nodes after these.
    fn mend_previous(&mut self, turned: &Vec<u32>) {
        for node in turned {
            let next = self.thread(*node).next;
            self.set_previous(next, *node);
        }
    }

    /// Places what is left of a node's subtree after it. Returns the next position, its old parent.
    #[inline]
    fn turn_node(&mut self, turn: Turn) -> Turn {
        let above = turn.node;
        let node = self.node(above).parent;
        self.set_next(turn.last, node);
        let ahead = self.thread(above).previous;
        self.follow(ahead, turn.behind);
        self.set_parent(above, turn.above);
        let mut last = self.node(node).last;
        if last == self.node(above).last {
            last = self.thread(above).previous;
        }
        Turn {
            node,
            above,
            last,
            behind: self.thread(last).next,
        }
    }

    /// Reverses the arcs on the path from a subtree's old root to its new one, and updates the
    /// sizes of its nodes.
    fn turn_arcs(&mut self, attachment: &Attachment, before: Before) {
        let last = self.node(attachment.leaving).last;
        let mut place = attachment.leaving;
        let mut size = 0u32;
        for _ in 0..self.nodes.len() {
            if place == attachment.stem {
                break;
            }
            let mut node = self.node(place);
            let mut below = self.node(node.parent);
            size = size.wrapping_add(node.size).wrapping_sub(below.size);
            node.size = size;
            node.arc = below.arc;
            self.put_node(place, node);
            let rooms = self.rooms(node.parent);
            self.put_residuals(place, rooms.turned());
            below.last = last;
            self.put_node(node.parent, below);
            place = node.parent;
        }
        let mut stem = self.node(attachment.stem);
        stem.arc = attachment.arc;
        stem.size = before.size;
        self.put_node(attachment.stem, stem);
        self.put_residuals(attachment.stem, attachment.rooms);
    }

    /// Updates the last nodes of the ancestors of both positions.
    fn mend_lasts(&mut self, attachment: &Attachment, before: Before) -> Result<(), Halt> {
        let parent = attachment.parent;
        let limit = if self.node(attachment.join).last == parent {
            attachment.join
        } else {
            NO_NODE
        };
        let last = self.node(attachment.leaving).last;
        self.change_lasts(parent, NO_NODE, parent, last)?;
        let ahead = before.previous;
        let new_last = if attachment.join != ahead && parent != ahead {
            ahead
        } else {
            last
        };
        if new_last == before.last {
            return Ok(());
        }
        self.change_lasts(before.parent, limit, before.last, new_last)
    }

    /// Replaces the last node of a node and of its ancestors, as long as it is the old one, up to a
    /// limit.
    fn change_lasts(&mut self, from: u32, limit: u32, old: u32, new: u32) -> Result<(), Halt> {
        let mut place = from;
        for _ in 0..=self.nodes.len() {
            if place == limit || place == NO_NODE {
                return Ok(());
            }
            let node = self.node(place);
            if node.last != old {
                return Ok(());
            }
            self.set_last(place, new);
            place = node.parent;
        }
        Err(Halt::OutOfRange)
    }

    /// Adds to the sizes of a node and of its ancestors below `ancestor`.
    fn grow(&mut self, from: u32, ancestor: u32, count: u32) -> Result<(), Halt> {
        let mut place = from;
        for _ in 0..=self.nodes.len() {
            if place == ancestor {
                return Ok(());
            }
            match self.nodes.get_mut(place as usize) {
                Some(node) => {
                    node.size = node.size.wrapping_add(count);
                    place = node.parent;
                }
                None => return Err(Halt::OutOfRange),
            }
        }
        Err(Halt::OutOfRange)
    }
}
