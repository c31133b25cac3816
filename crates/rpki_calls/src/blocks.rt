//! Sets of addresses and AS numbers.

use crate::asking::{Told, called};
use rpki_blocks::{AsBlock, AsBlocks, AsResources, Asn};
use std::alloc::Global;

fn numbers(low: u32, high: u32) -> AsBlock {
    AsBlock::from((Asn::from(low), Asn::from(high)))
}

// AS1 to AS5, and AS7 to AS9.
fn one(alloc: Global) -> Option<AsBlocks> {
    AsBlocks::from_iter(alloc, [numbers(7, 9), numbers(1, 5)]).ok()
}

fn lists_seven(listed: &AsResources) -> bool {
    match listed.as_blocks() {
        Some(set) => set.contains(Asn::from(7)),
        None => false,
    }
}

fn resources_copied(alloc: Global) -> Option<Told> {
    let listed = AsResources::blocks(one(alloc)?);
    called!(alloc, listed.try_clone(alloc), copy => lists_seven(copy))
}

/// The calls of `rpki_blocks`.
pub fn told(alloc: Global, path: &str) -> Option<Told> {
    match path {
        "rpki_blocks::Resources::try_clone" => resources_copied(alloc),
        _ => None,
    }
}
