// Inside the walk of the lattice engine (000, 6.1): edges crossed to nodes whose bytes stand side by side, as far as
// the budget is enough; and the first reached node found.
#![tactic(auto)]

ghost use Rattle.std.specs.Prelude.{◌≡◌, ◌+◌, ◌/◌, ◌≤◌, leb, map, length, IfOk, is_ok};
ghost use Rattle.lattice_nodes.specs.Steps.{first_reached, stretch, part_edges, entered_byte};
ghost use Rattle.lattice_stretch.specs.Crossed.{Crosses, Split};

// ---- the budget

// The crossings that may still be made.
#[derive(Clone, Copy)]
pub struct Budget {
    pub left: u32,
}

// More crossings than the budget is enough for.
#[derive(Clone, Copy, Debug, PartialEq, Eq)]
pub struct OverBudget;

impl Budget {
    // Takes so many crossings off, if the budget is enough for all of them.
    pub fn spend(self, edges: usize) -> Result<Budget, OverBudget>
        ensures enough { is_ok result ≡ leb edges self.left }
        ensures counted { IfOk result (λ rest. rest.left + edges ≡ self.left) }
    {
        if (self.left as usize) < edges {
            return Err(OverBudget);
        }
        Ok(Budget {
            left: self.left - (edges as u32),
        })
    }
}

// ---- nodes side by side

// Nodes, a width and a budget go together below, and stay apart: the walk hands on a part of the nodes each
// time, and a struct of them would be made anew at every call.

// A node's byte once an edge to it is crossed.
#[tactic(auto, unfolding(lattice_nodes::specs::Steps::entered_byte))]
pub fn enter(b: u8) -> u8
    ensures { result ≡ entered_byte b }
{
    b | 2
}

// Each node's byte once an edge to it is crossed.
fn enter_all(nodes: &mut [u8])
    ensures { nodes.new ≡ map entered_byte nodes.old }
{
    for b in nodes.iter_mut() {
        *b = enter(*b);
    }
}

// Crosses so many edges, one to each of the nodes that stand side by side from `from` on, if the budget is enough for
// all. One edge alone, of which some lattices have thousands, takes no loop.
#[tactic(auto, using(crate::proofs::Stretches::stretches))]
pub fn cross_stretch(
    nodes: &mut [u8],
    from: usize,
    edges: usize,
    budget: Budget,
) -> Result<Budget, OverBudget>
    requires { from + edges ≤ length nodes.old }
    ensures { Crosses (stretch from edges) budget nodes.old nodes.new result }
{
    let rest = budget.spend(edges)?;
    if edges == 1 {
        nodes[from] = enter(nodes[from]);
    } else {
        let to = from + edges;
        enter_all(&mut nodes[from..to]);
    }
    Ok(rest)
}

// The place of the first reached node; their number where there is none, as in `scan::first_place`.
pub fn first_reached(nodes: &[u8]) -> usize
    ensures { result ≡ first_reached nodes.now }
{
    scan::first_place(nodes, |b| b != 0)
}

// ---- blocks whose nodes are all reached

// Crosses the edges for one part: in each block of `span` nodes those to all nodes but the first w. By number of the
// block: `chunks_exact_mut` takes twice as long on blocks of two nodes, and a proof knows no element after it.
#[tactic(auto, using(crate::proofs::Stretches::nothing))]
pub fn cross_part(
    nodes: &mut [u8],
    span: usize,
    w: usize,
    mut budget: Budget,
) -> Result<Budget, OverBudget>
    requires { Split (length nodes.old) span w }
    ensures { Crosses (part_edges span w (length nodes.old / span)) budget nodes.old nodes.new result }
{
    let edges = span - w;
    if edges == 0 {
        return Ok(budget);
    }
    for block in 0..nodes.len() / span {
        budget = cross_stretch(nodes, block * span + w, edges, budget)?;
    }
    Ok(budget)
}
