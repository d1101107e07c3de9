// Inside the walk of the lattice engine (000, 6.1): edges crossed on node bytes from one block or row to the
// next, as far as the budget is enough. Nodes, a width and a budget go together and stay apart, since the
// walk hands on a part of the nodes each time.
#![tactic(auto)]

ghost use Rattle.std.specs.Prelude.{◌≡◌, ℕ, ◌+◌, ◌<◌, ◌≤◌, not, cond, eqb, count_by, length, get_or};
ghost use Rattle.limits.specs.Limits.{max_nodes};
ghost use Rattle.lattice_nodes.specs.Steps.{stage_edges, onward_edges, row_edges, updated, entered_byte};
ghost use Rattle.lattice_stretch.specs.Crossed.{Crosses};
ghost use Rattle.lattice_crossing.specs.Block.{BlockAt};

use lattice_stretch::{Budget, OverBudget};

// ---- from one block to the next

// How many nodes are reached, and so how many edges lead from them to the nodes of the next block. A sum in 32 bits: a
// `count` of a filter, in 64, takes twice the instructions on 64 nodes.
fn count_reached(nodes: &[u8]) -> u32
    requires { length nodes.now ≤ max_nodes }
    ensures { result ≡ count_by (λ b. not (eqb b 0)) nodes.now }
{
    nodes.iter().map(|b| u32::from(*b != 0)).sum()
}

// A node's byte once the edge to it from a node with the byte `from` is crossed, if that is reached.
fn enter_from(from: u8, b: u8) -> u8
    ensures { result ≡ cond (eqb from 0) b (entered_byte b) }
{
    if from == 0 {
        b
    } else {
        lattice_stretch::enter(b)
    }
}

// Enters from each reached one of the first w nodes, of which the first f are not, the node w further on. By index: of
// the nodes that a `zip` with `iter_mut` has lent, a proof knows no byte afterwards.
fn enter_next(nodes: &mut [u8], f: usize, w: usize)
    requires f_le_w { (f ≤ w) × (w + w ≤ length nodes.old) }
    requires by_index { (i : ℕ) → i < f → get_or nodes.old i 0 ≡ 0 }
    ensures { nodes.new ≡ updated entered_byte (stage_edges w nodes.old w) nodes.old }
{
    for i in f..w {
        let to = w + i;
        nodes[to] = enter_from(nodes[i], nodes[to]);
    }
}

// Crosses the edges from the first w nodes to the w nodes after them, if the budget is enough.
#[tactic(auto, using(crate::proofs::Stage::sources))]
fn cross_stage(nodes: &mut [u8], w: usize, budget: Budget) -> Result<Budget, OverBudget>
    requires few { w ≤ max_nodes }
    requires next { w + w ≤ length nodes.old }
    ensures { Crosses (stage_edges w nodes.old w) budget nodes.old nodes.new result }
{
    let f = lattice_stretch::first_reached(&nodes[..w]);
    let count = count_reached(&nodes[f..w]);
    let rest = budget.spend(count as usize)?;
    enter_next(nodes, f, w);
    Ok(rest)
}

// Crosses the edges from the block of w nodes at a, which is walked, to the next one, if there is one.
pub fn cross_onward(
    nodes: &mut [u8],
    a: usize,
    w: usize,
    budget: Budget,
) -> Result<Budget, OverBudget>
    requires { BlockAt (length nodes.old) a w }
    ensures { Crosses (onward_edges w nodes.old a) budget nodes.old nodes.new result }
{
    if nodes.len() <= a + w {
        return Ok(budget);
    }
    let end = a + w + w;
    cross_stage(&mut nodes[a..end], w, budget)
}

// ---- a row

// Crosses the edges that leave the row of w nodes at a: from its first reached node on, along it and to the next row,
// if there is one.
#[tactic(auto, using(lattice_nodes::specs::Laws::FirstReached::first_low))]
pub fn cross_row(nodes: &mut [u8], a: usize, w: usize, budget: Budget) -> Result<Budget, OverBudget>
    requires { BlockAt (length nodes.old) a w }
    ensures { Crosses (row_edges w nodes.old a) budget nodes.old nodes.new result }
{
    let end = a + w;
    let f = lattice_stretch::first_reached(&nodes[a..end]);
    if f == w {
        return Ok(budget);
    }
    let from = a + f;
    let ahead = w - f;
    let along = lattice_stretch::cross_stretch(nodes, from + 1, ahead - 1, budget)?;
    if nodes.len() <= end {
        return Ok(along);
    }
    lattice_stretch::cross_stretch(nodes, from + w, ahead, along)
}
