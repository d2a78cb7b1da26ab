// How many changesets pairs have.
ghost use Rattle.std.specs.Prelude.{◌≡◌, ◌<◌, ◌^◌};
ghost use Rattle.state_size.specs.Sizes.{count_of};

use pair_state::Block;

/// How many changesets these pairs have, with their links.
pub fn changeset_count(blocks: &[Block]) -> usize
    requires { count_of blocks.now < 2 ^ 64 }
    ensures { result ≡ count_of blocks.now }
{
    blocks.iter().map(|b| usize::from(b.links) + 1).sum()
}
