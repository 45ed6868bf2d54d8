//! Gaps between potentials that exceed all costs, and can be shortened.

ghost use Rattle.std.specs.Prelude.{◌≡◌, ℕ, ◌*◌, ◌<◌, ◌≤◌, ◌^◌, pos, IfOk, length, vec_len, slice_index_or};
ghost use Rattle.net_normal.specs.Limits.{cost_limit, flow_node_limit};
ghost use Rattle.net_solve.specs.Pseudoflows.{AreFromTo, AreCloser, IsRising, StandsIn, HasLevelOf, AreLevelsOf};
ghost use Rattle.net_solve.specs.Forests.{level_limit};

use net_check::wide::wide;
use std::alloc::{AllocError, Global};

/// Returns the numbers in ascending order. Fails only if memory runs out.
fn in_order(alloc: Global, numbers: &[i64]) -> Result<Vec<i64>, AllocError>
    ensures len { IfOk result (λ sorted. vec_len sorted ≡ length numbers.now) }
    ensures rising { IfOk result (λ sorted. IsRising sorted.items) }
    ensures same { IfOk result (λ sorted. (v : ℕ) → v < length numbers.now → StandsIn sorted.items (slice_index_or numbers.now v (pos 0))) }
{
    let mut sorted = Vec::with_capacity(alloc, numbers.len())?;
    sorted.extend_from_slice(numbers)?;
    sorted.sort()?;
    Ok(sorted)
}

/// Returns levels for ascending numbers: the first is 0, and each differs from the one before it as
/// the numbers do, but by at most `most`. Fails only if memory runs out.
fn levels_of(alloc: Global, sorted: &[i64], most: u64) -> Result<Vec<i64>, AllocError>
    requires few { length sorted.now ≤ flow_node_limit }
    requires most { most ≤ cost_limit }
    requires rising { IsRising sorted.now }
    ensures levels { IfOk result (λ levels. AreLevelsOf most sorted.now levels.items) }
{
    let mut levels = Vec::with_capacity(alloc, sorted.len())?;
    let mut last = wide(sorted.first().unwrap_or(&0));
    let mut level = 0_i64;
    for number in sorted {
        let number = wide(number);
        level += (number - last).min(i128::from(most)) as i64;
        last = number;
        levels.push(level)?;
    }
    Ok(levels)
}

/// Returns the level of a number.
fn level_of(sorted: &[i64], levels: &[i64], number: &i64) -> i64
    requires levels { length levels.now ≡ length sorted.now }
    requires rising { IsRising sorted.now }
    requires known { StandsIn sorted.now number.now }
    requires size { AreFromTo level_limit levels.now }
    ensures { HasLevelOf sorted.now levels.now number.now result }
{
    let place = match sorted.binary_search(number) {
        Ok(place) => place,
        Err(place) => place,
    };
    levels[place]
}

/// Returns potentials from 0 on in the same order, with each gap shortened to at most `most`. Fails
/// only if memory runs out.
pub fn closed(alloc: Global, potentials: &[i64], most: u64) -> Result<Vec<i64>, AllocError>
    requires few { length potentials.now ≤ flow_node_limit }
    requires most { most ≤ cost_limit }
    ensures len { IfOk result (λ closed. vec_len closed ≡ length potentials.now) }
    ensures closer { IfOk result (λ closed. AreCloser most potentials.now closed.items) }
    ensures size { IfOk result (λ closed. AreFromTo (length potentials.now * most) closed.items) }
{
    let sorted = in_order(alloc, potentials)?;
    let levels = levels_of(alloc, &sorted, most)?;
    let mut result = Vec::with_capacity(alloc, potentials.len())?;
    for potential in potentials {
        result.push(level_of(&sorted, &levels, potential))?;
    }
    Ok(result)
}
