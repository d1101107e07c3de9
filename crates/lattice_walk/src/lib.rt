// The walk of the lattice engine (000, 6.1), on weights and node bytes: upward over the edges that leave reached nodes,
// a recursion over the parts that has `lattice_stretch` and `lattice_crossing` cross them.
#![tactic(auto)]

ghost use Rattle.std.specs.Prelude.{◌≡◌, length, get_or};
ghost use Rattle.lattice_nodes.specs.Steps.{trail};
ghost use Rattle.lattice_stretch.specs.Crossed.{Crosses};
ghost use Rattle.lattice_walk.specs.Blocks.{Small, Rows};

use lattice_stretch::{Budget, OverBudget};

// Crosses the edges of a block whose first node is reached, so that all are: part by part.
fn cross_whole(
    weights: &[usize],
    nodes: &mut [u8],
    mut budget: Budget,
) -> Result<Budget, OverBudget>
    requires small { Small weights.now (length nodes.old) }
    requires reached { get_or nodes.old 0 0 ≡ 0 → ⊥ }
    ensures { Crosses (trail weights.now nodes.old (length nodes.old)) budget
        nodes.old nodes.new result }
{
    let mut span = nodes.len();
    for weight in weights {
        budget = lattice_stretch::cross_part(nodes, span, *weight, budget)?;
        span = *weight;
    }
    Ok(budget)
}

// Walks a block of rows, in which the node at f is the first that is reached. By number of the row: an edge leads on to
// the next row, so a chunk of one row is not all that a step writes.
fn walk_rows(
    weights: &[usize],
    nodes: &mut [u8],
    f: usize,
    mut budget: Budget,
) -> Result<Budget, OverBudget>
    requires small { Small weights.now (length nodes.old) }
    requires rows { Rows weights.now nodes.old f }
    ensures { Crosses (trail weights.now nodes.old (length nodes.old)) budget
        nodes.old nodes.new result }
{
    let weight = weights[0];
    for row in f / weight..nodes.len() / weight {
        budget = lattice_crossing::cross_row(nodes, row * weight, weight, budget)?;
    }
    Ok(budget)
}

// Walks a block over the parts with these weights: sub-block by sub-block of the parts after the first, each before the
// edges from it are crossed. A block that is reached whole, a row and a block of rows are walked by stretches. Weights
// and nodes stand apart: a sub-block takes a part of each, so a struct of both would be made anew at every call. Blocks
// go by number, as rows do above.
#[tactic(auto, using(lattice_nodes::specs::Laws::FirstReached::first_low))]
pub fn walk(weights: &[usize], nodes: &mut [u8], mut budget: Budget) -> Result<Budget, OverBudget>
    requires { Small weights.now (length nodes.old) }
    ensures { Crosses (trail weights.now nodes.old (length nodes.old)) budget
        nodes.old nodes.new result }
{
    let f = lattice_stretch::first_reached(nodes);
    if f == nodes.len() {
        return Ok(budget);
    }
    if f == 0 {
        return cross_whole(weights, nodes, budget);
    }
    let weight = weights[0];
    if weight == 1 {
        return lattice_stretch::cross_stretch(nodes, f + 1, nodes.len() - f - 1, budget);
    }
    if weights[1] == 1 {
        return walk_rows(weights, nodes, f, budget);
    }
    for block in f / weight..nodes.len() / weight {
        let a = block * weight;
        let end = a + weight;
        budget = walk(&weights[1..], &mut nodes[a..end], budget)?;
        budget = lattice_crossing::cross_onward(nodes, a, weight, budget)?;
    }
    Ok(budget)
}
