//! Pricing data of a network simplex, in numbers of 32 or of 64 bits.

ghost use Rattle.std.specs.Prelude.{◌<◌, All, IfSome, length, vec_len};
ghost use Rattle.net_guess.specs.Ends.{Joins};

use crate::guess::Halt;
use crate::prices::Segment;
use crate::simplex_arc::{ArcWithCost, PricedArc};
use crate::tree::Thread;
use crate::unchecked_lists::{at, index, try_at};
use std::alloc::{AllocError, Global};

/// A number of 32 or of 64 bits, whose sums wrap.
pub trait Number: Copy {
    /// Converts a number; returns 0 if it does not fit.
    fn of(number: i64) -> Self;

    /// Converts the number to 64 bits.
    fn widened(self) -> i64;

    fn plus(self, other: Self) -> Self;

    fn minus(self, other: Self) -> Self;

    fn is_less(self, other: Self) -> bool;
}

impl Number for i32 {
    #[inline]
    fn of(number: i64) -> i32 {
        i32::try_from(number).unwrap_or(0)
    }

    #[inline]
    fn widened(self) -> i64 {
        i64::from(self)
    }

    #[inline]
    fn plus(self, other: i32) -> i32 {
        self.wrapping_add(other)
    }

    #[inline]
    fn minus(self, other: i32) -> i32 {
        self.wrapping_sub(other)
    }

    #[inline]
    fn is_less(self, other: i32) -> bool {
        self < other
    }
}

impl Number for i64 {
    #[inline]
    fn of(number: i64) -> i64 {
        number
    }

    #[inline]
    fn widened(self) -> i64 {
        self
    }

    #[inline]
    fn plus(self, other: i64) -> i64 {
        self.wrapping_add(other)
    }

    #[inline]
    fn minus(self, other: i64) -> i64 {
        self.wrapping_sub(other)
    }

    #[inline]
    fn is_less(self, other: i64) -> bool {
        self < other
    }
}

/// Returns the reduced cost of an arc.
#[inline]
fn price<N: Number>(arc: &ArcWithCost<N>, potentials: &[N]) -> N
    requires { Joins (length potentials.now) arc.now }
{
    arc.cost
        .plus(potentials[arc.src as usize])
        .minus(potentials[arc.dst as usize])
}

/// The arcs and the potentials.
#[derive(Drop)]
pub struct PriceLists<N> {
    arcs: Vec<ArcWithCost<N>>,
    potentials: Vec<N>,
    // So pricing needs no test of indices.
    ghost in_range: { All (Joins (vec_len potentials)) arcs.items },
}

impl<N: Number> PriceLists<N> {
    /// Creates lists for this many nodes and arcs, whose arcs have to be added. Fails only if memory runs out.
    pub fn with_room(
        alloc: Global,
        node_count: usize,
        arc_count: usize,
    ) -> Result<PriceLists<N>, AllocError> {
        Ok(PriceLists {
            arcs: Vec::with_capacity(alloc, arc_count)?,
            potentials: vec![in alloc; N::of(0); node_count]?,
        })
    }

    /// Returns the arc at an index; a missing one is never eligible.
    #[inline]
    pub fn arc(&self, place: u32) -> PricedArc {
        match self.arcs.get(place as usize) {
            Some(arc) => ArcWithCost {
                src: arc.src,
                dst: arc.dst,
                cost: arc.cost.widened(),
            },
            None => PricedArc::NONE,
        }
    }

    /// Returns a node's potential.
    #[inline]
    pub fn potential(&self, node: u32) -> i64 {
        at(&self.potentials, node, N::of(0)).widened()
    }

    /// Returns an arc with the cost in this width, if both ends are nodes.
    #[inline]
    fn joined(&self, arc: PricedArc) -> Option<ArcWithCost<N>>
        ensures { IfSome result (Joins (vec_len self.now.potentials)) }
    {
        let count = self.potentials.len();
        if (arc.src as usize) < count && (arc.dst as usize) < count {
            Some(ArcWithCost {
                src: arc.src,
                dst: arc.dst,
                cost: N::of(arc.cost),
            })
        } else {
            None
        }
    }

    /// Adds the next arc.
    #[inline]
    pub fn push(&mut self, arc: PricedArc) -> Result<(), Halt> {
        let arc = self.joined(arc).ok_or(Halt::OutOfRange)?;
        self.arcs.push(arc)?;
        Ok(())
    }

    /// Stores an arc at an index, if that and its ends are in range.
    #[inline]
    pub fn put(&mut self, place: u32, arc: PricedArc) {
        if (place as usize) < self.arcs.len() {
            if let Some(arc) = self.joined(arc) {
                self.set_arc(place as usize, arc);
            }
        }
    }

    fn set_arc(&mut self, place: usize, arc: ArcWithCost<N>)
        requires within { place < vec_len self.old.arcs }
        requires ends { Joins (vec_len self.old.potentials) arc }
    {
        self.arcs[place] = arc;
    }

    /// Sets a node's potential.
    #[inline]
    pub fn put_potential(&mut self, node: u32, potential: i64) {
        if (node as usize) < self.potentials.len() {
            self.potentials[node as usize] = N::of(potential);
        }
    }

    /// Adds to a node's potential.
    #[inline]
    fn add(&mut self, node: u32, amount: N) -> Result<(), Halt> {
        if (node as usize) >= self.potentials.len() {
            return Err(Halt::OutOfRange);
        }
        let potential = self.potentials[node as usize];
        self.potentials[node as usize] = potential.plus(amount);
        Ok(())
    }

    /// Adds to the potentials of consecutive nodes, from both ends, since each step depends on the
    /// one before it.
    pub fn raise(
        &mut self,
        threads: &Vec<Thread>,
        segment: Segment,
        amount: i64,
    ) -> Result<(), Halt> {
        let amount = N::of(amount);
        let (mut first, mut last) = (segment.first, segment.last);
        for _ in 0..segment.count / 2 {
            self.add(first, amount)?;
            self.add(last, amount)?;
            first = try_at(threads, first)?.next;
            last = try_at(threads, last)?.previous;
        }
        if segment.count % 2 == 1 {
            self.add(first, amount)?;
        }
        Ok(())
    }

    /// Returns the index of the arc with the most negative reduced cost in this range.
    #[inline(never)]
    pub fn cheapest(&self, from: usize, to: usize) -> Result<Option<u32>, Halt> {
        if to > self.arcs.len() {
            return Err(Halt::OutOfRange);
        }
        let mut least = N::of(0);
        let mut found = to;
        for place in from..to {
            let price = price(&self.arcs[place], &self.potentials);
            if price.is_less(least) {
                least = price;
                found = place;
            }
        }
        Ok(if found < to { Some(index(found)) } else { None })
    }
}
