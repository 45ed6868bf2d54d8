//! The steps of a phase. The order of nodes and arcs is free: each step tests its own condition.

ghost use Rattle.std.specs.Prelude.{◌≡◌, ◌<◌, vec_len, pos, ◌<ℤ◌};
ghost use Rattle.net_solve.specs.Rows.{AreRows};
ghost use Rattle.net_solve.specs.Machines.{IsRunning, IsSendable};

use crate::amounts::{amount_of, change_of, residual_of, saves, tail_of};
use crate::rounding::reduced;
use crate::rows::{Entry, Rows};
use crate::scaling::Machine;
use net_guess::NodeQueue;
use net_normal::Problem;

/// The number at an index, or 0 if the list has no such index.
#[inline]
fn at(numbers: &[i64], index: u32) -> i64 {
    numbers.get(index as usize).copied().unwrap_or(0)
}

impl Machine {
    /// Returns whether a node has excess.
    #[inline]
    fn has_excess(&self, node: u32) -> bool {
        match self.carried.excess.get(node as usize) {
            Some(excess) => *excess > 0,
            None => false,
        }
    }

    /// Whether an entry's arc is residual and its reduced cost negative, if its tail has this potential.
    #[inline]
    fn is_saving(&self, entry: &Entry, potential: i64) -> bool {
        let head = at(&self.potentials, entry.head);
        entry.cost.saturating_add(potential) < head
            && at(&self.carried.flows, entry.index) != entry.bound
    }

    /// Pushes over the arcs of negative reduced cost out of a node, and lets their heads wait for a turn.
    fn push_out(&mut self, problem: &Problem, rows: &Rows, waiting: &mut NodeQueue, node: u32)
        requires node { node < vec_len problem.now.supplies }
        requires rows { AreRows problem.now rows.now.starts.items rows.now.entries.items }
        requires running { IsRunning problem.now self.old }
        ensures running { IsRunning problem.now self.new }
        ensures budget { self.new.budget ≡ self.old.budget }
    {
        let first = rows.starts[node as usize];
        let last = rows.starts[node as usize + 1];
        let potential = at(&self.potentials, node);
        for place in first..last {
            let entry = rows.entries[place as usize];
            if self.is_saving(&entry, potential) {
                self.push(problem, entry.index, entry.forwards, &i64::MAX);
                if self.has_excess(entry.head) {
                    waiting.push(entry.head);
                }
            }
        }
    }

    /// Pushes out of a node and lowers it, as far as the run's definition allows, until it has no excess. Returns whether it has none.
    fn discharge(
        &mut self,
        problem: &Problem,
        rows: &Rows,
        waiting: &mut NodeQueue,
        node: u32,
    ) -> bool
        requires node { node < vec_len problem.now.supplies }
        requires rows { AreRows problem.now rows.now.starts.items rows.now.entries.items }
        requires running { IsRunning problem.now self.old }
        ensures running { IsRunning problem.now self.new }
        ensures budget { self.new.budget ≡ self.old.budget }
    {
        for _ in 0..u64::MAX {
            self.push_out(problem, rows, waiting, node);
            if !self.has_excess(node) {
                return true;
            }
            let least = self.least_out(problem, rows, node);
            let amount = least.saturating_add(self.epsilon);
            if !self.lower(problem, node, &least, &amount) {
                return false;
            }
        }
        false
    }

    /// Takes steps until no node has excess, or until none can be taken. Nodes with excess take turns, first in, first out.
    pub fn refine(&mut self, problem: &Problem, rows: &Rows, waiting: &mut NodeQueue)
        requires rows { AreRows problem.now rows.now.starts.items rows.now.entries.items }
        requires running { IsRunning problem.now self.old }
        ensures running { IsRunning problem.now self.new }
        ensures budget { self.new.budget ≡ self.old.budget }
    {
        for (node, excess) in self.carried.excess.iter().enumerate() {
            if *excess > 0 {
                waiting.push(node as u32);
            }
        }
        for _ in 0..u64::MAX {
            let Some(node) = waiting.pop() else {
                return;
            };
            if node as usize >= problem.supplies.len() {
                return;
            }
            if !self.discharge(problem, rows, waiting, node) {
                return;
            }
        }
    }
}

impl Machine {
    /// Returns the amount that a push can send over an arc, at most `wanted`; 0 or less if no push
    /// is possible.
    fn sendable(&self, problem: &Problem, index: u32, forwards: bool, wanted: &i64) -> i64
        requires index { index < vec_len problem.now.arcs }
        requires running { IsRunning problem.now self.now }
        ensures { pos 0 <ℤ result → IsSendable problem.now self.now index forwards result }
    {
        let arc = problem.arcs[index as usize];
        let cost = reduced(&arc, &self.potentials);
        if !saves(&cost, forwards) {
            return 0;
        }
        let tail = tail_of(&arc, forwards);
        let excess = self.carried.excess[tail as usize];
        if excess <= 0 {
            return 0;
        }
        let room = residual_of(&arc, &self.carried.flows[index as usize], forwards);
        amount_of(wanted, &room, &excess)
    }

    /// Sends flow over an arc, at most `wanted`, the residual capacity and the excess of its tail,
    /// if that is a step of a run. Returns whether it was.
    pub fn push(&mut self, problem: &Problem, index: u32, forwards: bool, wanted: &i64) -> bool
        requires index { index < vec_len problem.now.arcs }
        requires running { IsRunning problem.now self.old }
        ensures running { IsRunning problem.now self.new }
        ensures budget { self.new.budget ≡ self.old.budget }
    {
        let amount = self.sendable(problem, index, forwards, wanted);
        if amount <= 0 {
            return false;
        }
        if self.steps >= self.budget {
            return false;
        }
        self.carried
            .shift(problem, index, &change_of(&amount, forwards));
        self.steps += 1;
        true
    }
}
