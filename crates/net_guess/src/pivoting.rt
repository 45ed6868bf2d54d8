//! Pivots of a network simplex: the entering and the leaving arc.

use crate::attaching::Attachment;
use crate::guess::Halt;
use crate::prices::Segment;
use crate::simplex::Simplex;
use crate::tree::Residuals;
use crate::unchecked_lists::{at, index, try_at};

/// The leaving arc of a cycle.
#[derive(Clone, Copy)]
enum Going {
    /// The entering arc itself, which moves from one bound to the other.
    Itself,
    /// The arc above this node, on the path from the join down to the start of the flow.
    Before(u32),
    /// The arc above this node, on the path from the end of the flow up to the join.
    After(u32),
}

/// The cycle that an entering arc closes.
#[derive(Clone, Copy)]
struct Cycle {
    /// The nodes at which the flow over the arc starts and ends.
    first: u32,
    second: u32,
    /// Their lowest common ancestor.
    join: u32,
    /// The amount of flow sent around the cycle.
    amount: i64,
    going: Going,
}

impl Simplex {
    /// Performs a pivot with this entering arc, which can send this much back.
    pub fn enter(&mut self, place: u32, back: i64) -> Result<(), Halt> {
        let arc = self.prices.arc(place);
        let room = at(&self.rooms, place, 0).wrapping_sub(back);
        let cycle = self.cycle(arc.src, arc.dst, room)?;
        if cycle.amount > 0 {
            self.tree.send_down(cycle.join, cycle.first, cycle.amount)?;
            self.tree
                .send_down(cycle.join, cycle.second, cycle.amount.wrapping_neg())?;
        }
        match cycle.going {
            Going::Itself => {
                self.prices.put_arc(place, arc.turned());
                Ok(())
            }
            Going::Before(node) => {
                let rooms = Residuals {
                    up: room.wrapping_sub(cycle.amount),
                    down: back.wrapping_add(cycle.amount),
                };
                let ends = (cycle.first, cycle.second);
                self.exchange(place, &cycle, node, ends, rooms)?;
                let saved = self.prices.price(place).wrapping_neg();
                self.lift(cycle.first, saved)
            }
            Going::After(node) => {
                let rooms = Residuals {
                    up: back.wrapping_add(cycle.amount),
                    down: room.wrapping_sub(cycle.amount),
                };
                let ends = (cycle.second, cycle.first);
                self.exchange(place, &cycle, node, ends, rooms)?;
                let saved = self.prices.price(place);
                self.lift(cycle.second, saved)
            }
        }
    }

    /// Returns the cycle that an arc between these nodes with this residual capacity closes.
    fn cycle(&mut self, first: u32, second: u32, room: i64) -> Result<Cycle, Halt> {
        let join = self.tree.join(first, second)?;
        let mut cycle = Cycle {
            first,
            second,
            join,
            amount: room,
            going: Going::Itself,
        };
        self.narrow_after(&mut cycle)?;
        if cycle.amount > 0 {
            self.narrow_before(&mut cycle)?;
        }
        Ok(cycle)
    }

    /// Limits a cycle to the minimum residual capacity on the path from the end of the flow up to
    /// the join. Among equals the last one is chosen, and before the entering arc.
    fn narrow_after(&self, cycle: &mut Cycle) -> Result<(), Halt> {
        let mut node = cycle.second;
        for _ in 0..self.tree.nodes.len() {
            if node == cycle.join {
                return Ok(());
            }
            let room = try_at(&self.tree.rooms, node)?.up;
            if room <= cycle.amount {
                cycle.amount = room;
                cycle.going = Going::After(node);
            }
            node = try_at(&self.tree.nodes, node)?.parent;
        }
        Err(Halt::OutOfRange)
    }

    /// Limits a cycle to a smaller residual capacity on the path from the join down to the start of
    /// the flow. Among equals the last one is chosen, which is found first.
    fn narrow_before(&self, cycle: &mut Cycle) -> Result<(), Halt> {
        let mut node = cycle.first;
        for _ in 0..self.tree.nodes.len() {
            if node == cycle.join || cycle.amount == 0 {
                return Ok(());
            }
            let room = try_at(&self.tree.rooms, node)?.down;
            if room < cycle.amount {
                cycle.amount = room;
                cycle.going = Going::Before(node);
            }
            node = try_at(&self.tree.nodes, node)?.parent;
        }
        Err(Halt::OutOfRange)
    }

    /// Replaces the arc above a node by the entering arc: the subtree below that node is attached
    /// at `ends.0`, its end of the entering arc, below the other end.
    fn exchange(
        &mut self,
        place: u32,
        cycle: &Cycle,
        leaving: u32,
        ends: (u32, u32),
        rooms: Residuals,
    ) -> Result<(), Halt> {
        self.leave(leaving);
        let (stem, parent) = ends;
        let attachment = Attachment {
            leaving,
            stem,
            parent,
            arc: place,
            rooms,
            join: cycle.join,
        };
        self.tree.attach(&attachment, &mut self.turned)
    }

    /// Makes the arc above a node nonbasic, with the direction in which it has residual capacity.
    fn leave(&mut self, node: u32) {
        let place = self.tree.node(node).arc;
        if (place as usize) < self.rooms.len() {
            let arc = self.prices.arc(place);
            let takes_up = self.tree.rooms(node).up != 0;
            if takes_up != (arc.src == node) {
                self.prices.put_arc(place, arc.turned());
            }
        } else if self.root_flow(node, place) != 0 {
            self.is_short = true;
        }
    }

    /// Adds to the potentials of a subtree, or subtracts from all others if those are fewer.
    fn lift(&mut self, top: u32, amount: i64) -> Result<(), Halt> {
        let node = self.tree.node(top);
        self.work = self.work.wrapping_add(u64::from(node.size));
        let all = index(self.tree.nodes.len());
        let others = all.saturating_sub(node.size);
        self.block.take_move(node.size.min(others), self.looked);
        if others < node.size && self.prices.may_move(all.wrapping_sub(1)) {
            let segment = Segment {
                first: self.tree.thread(node.last).next,
                last: self.tree.thread(top).previous,
                count: others,
            };
            let amount = amount.wrapping_neg();
            self.prices.raise(&self.tree.threads, segment, amount)
        } else {
            let segment = Segment {
                first: top,
                last: node.last,
                count: node.size,
            };
            self.prices.raise(&self.tree.threads, segment, amount)
        }
    }
}
