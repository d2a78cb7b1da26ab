// Blocks from the changesets and the commits that were read, and the pairs of their ids.
ghost use Rattle.std.specs.Prelude.{◌≡◌, map, length, IfOk, IsTrue};
ghost use Rattle.git_model.specs.Tree.{has_distinct};
ghost use Rattle.state_text.specs.Sections.{paired, pair_in};

use crate::heads::Head;
use bridge_text::{Id, NoMemory};
use pair_known::Partners;
use pair_state::{Block, Blocks, NodeList};
use state_part::{IdPair, IdPairs};
use std::alloc::Global;

/// The changesets that are no links, each with the commit of its place.
pub fn blocks_of(alloc: Global, heads: &[Head], commits: &[Id]) -> Result<Blocks, NoMemory>
    requires { length heads.now ≡ length commits.now }
    ensures { IfOk result (λ blocks. blocks ≡ paired heads.now commits.now) }
{
    let mut blocks = Blocks::new(alloc);
    for (i, head) in heads.iter().enumerate() {
        let block = Block {
            node: head.node,
            commit: commits[i],
            links: head.links,
        };
        blocks.push(block)?;
    }
    Ok(blocks)
}

/// The pairs of the ids of blocks.
pub fn pairs_of(alloc: Global, blocks: &Blocks) -> Result<IdPairs, NoMemory>
    ensures { IfOk result (λ pairs. pairs ≡ map pair_in blocks.now) }
{
    let mut pairs = IdPairs::new(alloc);
    for block in blocks.as_slice() {
        pairs.push(IdPair {
            commit: block.commit,
            node: block.node,
        })?;
    }
    Ok(pairs)
}

/// The partners that blocks make.
pub fn partners_of(alloc: Global, blocks: &Blocks) -> Result<Partners, NoMemory>
    requires nodes { IsTrue (has_distinct (map (λ b. b.node) blocks.now)) }
    requires commits { IsTrue (has_distinct (map (λ b. b.commit) blocks.now)) }
    ensures { IfOk result (λ partners. partners ≡ map (λ b. (b.node, b.commit)) blocks.now) }
{
    let mut partners = Partners::new(alloc);
    for block in blocks.as_slice() {
        partners.add(block.node, block.commit)?;
    }
    Ok(partners)
}

/// The list of these nodes.
pub fn node_list(alloc: Global, nodes: &[Id]) -> Result<NodeList, NoMemory>
    ensures { IfOk result (λ list. list ≡ nodes.now) }
{
    let mut list = NodeList::new(alloc);
    for node in nodes {
        list.push(*node)?;
    }
    Ok(list)
}
