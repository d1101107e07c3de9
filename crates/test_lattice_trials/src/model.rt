// Node bytes and crossings, found by comparing every node with every row.
ghost use Rattle.std.specs.Prelude.{◌<◌, ◌≤◌, IfOk, IfSome};

use std::alloc::{AllocError, Global};
use test_support::nested;

const MOST_NODES: u32 = 32768;

// The digits of the next node, the last digit first; false past the last node.
fn advance(digits: &mut [u32], tops: &[u32]) -> bool {
    for (digit, top) in digits.iter_mut().zip(tops).rev() {
        if *digit < *top {
            *digit += 1;
            return true;
        }
        *digit = 0;
    }
    false
}

// The number of nodes, where they are not too many.
pub fn count(alloc: Global, tops: &[u32]) -> Result<Option<u32>, AllocError>
    ensures { IfOk result (λ found. IfSome found (λ n. (0 < n) × (n ≤ 32768))) }
{
    let mut digits = vec![in alloc; 0; tops.len()]?;
    for n in 1..=MOST_NODES {
        if !advance(digits.as_mut_slice(), tops) {
            return Ok(Some(n));
        }
    }
    Ok(None)
}

// The byte of a node: 1 where a row holds it, and 2 where one is better.
fn byte_of(table: &[Vec<u32>], digits: &[u32]) -> u8 {
    let own = table.iter().any(|levels| levels.as_slice() == digits);
    u8::from(own) + 2 * u8::from(nested::is_beaten(table, digits))
}

// The edges that leave a node: the parts, sixteen at most, whose digit is below its greatest level.
fn leaving(digits: &[u32], tops: &[u32]) -> usize
    ensures { result ≤ 16 }
{
    digits
        .iter()
        .zip(tops)
        .take(16)
        .filter(|(digit, top)| digit < top)
        .count()
}

// The bytes of the nodes, and the edges that leave reached ones.
#[derive(Drop)]
pub struct Nodes {
    pub bytes: Vec<u8>,
    pub crossed: usize,
}

pub fn nodes_of(
    alloc: Global,
    table: &[Vec<u32>],
    tops: &[u32],
    count: u32,
) -> Result<Nodes, AllocError> {
    let mut digits = vec![in alloc; 0; tops.len()]?;
    let mut nodes = Nodes {
        bytes: Vec::new(alloc),
        crossed: 0,
    };
    for _ in 0..count {
        let byte = byte_of(table, digits.as_slice());
        nodes.bytes.push(byte)?;
        if byte != 0 {
            let edges = leaving(digits.as_slice(), tops);
            nodes.crossed = nodes.crossed.saturating_add(edges);
        }
        advance(digits.as_mut_slice(), tops);
    }
    Ok(nodes)
}
