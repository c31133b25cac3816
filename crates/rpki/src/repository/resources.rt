//! Sets of IP addresses and of AS numbers, and the resources that certificates list (RFC 3779).
pub use rpki_blocks::{
    Addr, AsBlock, AsBlocks, AsBlocksBuilder, AsResources, Asn, Block, BlocksBuilder, Bound, Chain,
    DisplayV4Block, DisplayV4Blocks, DisplayV6Block, DisplayV6Blocks, Inherited, IpBlock, IpBlocks,
    IpBlocksBuilder, IpResources, IssueError, Prefix, Resources,
};
