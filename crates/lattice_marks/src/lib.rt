// The lattice engine on weights and node numbers: it marks the nodes that rows hold, walks over the nodes, and reads
// each row's mark from its node.
#![tactic(auto)]

ghost use Rattle.std.specs.Prelude.{◌≡◌, length, get_or};
ghost use Rattle.lattice_nodes.specs.Steps.{updated, held_byte, byte_mark, marked_by};
ghost use Rattle.lattice_walk.specs.Blocks.{Small};
ghost use Rattle.lattice_marks.specs.Settled.{Settles};

use lattice_stretch::{Budget, OverBudget};

// Marks the node of each row as held. A number past the nodes holds none.
#[tactic(auto, using(crate::proofs::Rows::one_held), unfolding(lattice_nodes::specs::Steps::updated))]
fn hold(ids: &[u16], nodes: &mut [u8])
    ensures { nodes.new ≡ updated held_byte ids.now nodes.old }
{
    for id in ids {
        word::put(nodes, usize::from(*id), 1);
    }
}

// The mark of a row by the byte of its node; 0 past the nodes.
#[tactic(auto, unfolding(lattice_nodes::specs::Steps::byte_mark))]
fn mark_of(nodes: &[u8], id: u16) -> u8
    ensures { result ≡ byte_mark (get_or nodes.now id 0) }
{
    u8::from(nodes.get(usize::from(id)).copied().unwrap_or(0) == 1)
}

// Writes each row's mark. By number: of the marks that a `zip` with `iter_mut` has lent, a proof knows no byte
// afterwards.
#[tactic(auto, using(crate::proofs::Rows::all_marked))]
fn write_marks(ids: &[u16], nodes: &[u8], marks: &mut [u8])
    requires { length marks.old ≡ length ids.now }
    ensures { marks.new ≡ marked_by nodes.now ids.now }
{
    for (r, id) in ids.iter().enumerate() {
        marks[r] = mark_of(nodes, *id);
    }
}

// The engine on weights and node numbers: a number and a mark for each row, a byte for each node. It answers the
// crossings made; marks are written only where the budget is enough for them.
#[tactic(auto, using(lattice_nodes::specs::Laws::Steps::opened_length))]
pub fn settle(
    weights: &[usize],
    ids: &[u16],
    marks: &mut [u8],
    nodes: &mut [u8],
    budget: u32,
) -> Result<u32, OverBudget>
    requires small { Small weights.now (length nodes.old) }
    requires marks_len { length marks.old ≡ length ids.now }
    ensures { Settles weights.now ids.now (length nodes.old) budget
        marks.old result marks.new nodes.new }
{
    nodes.fill(0);
    hold(ids, nodes);
    match lattice_walk::walk(weights, nodes, Budget { left: budget }) {
        Ok(rest) => {
            write_marks(ids, nodes, marks);
            Ok(budget - rest.left)
        }
        Err(over) => {
            nodes.fill(0);
            Err(over)
        }
    }
}
