//! Sets of IP addresses and of AS numbers, and the resources that certificates list (RFC 3779).
#![tactic(auto)]

mod addr;
mod as_resources;
mod asn;
mod block;
mod bound;
mod builder;
mod chain;
pub mod comparing;
mod elements;
mod encode;
mod encode_ip;
mod ip_resources;
pub mod laws;
mod overclaim;
mod prefix;
mod resources;
mod text;

pub use addr::Addr;
pub use asn::Asn;
pub use block::{AsBlock, Block, IpBlock};
pub use bound::Bound;
pub use builder::{AsBlocksBuilder, BlocksBuilder, IpBlocksBuilder};
pub use chain::{AsBlocks, Chain, IpBlocks};
pub use overclaim::Overclaim;
pub use prefix::Prefix;
pub use resources::{AsResources, Inherited, IpResources, IssueError, Resources};
pub use text::{DisplayV4Block, DisplayV4Blocks, DisplayV6Block, DisplayV6Blocks};
