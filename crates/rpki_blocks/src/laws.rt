//! Laws about the definitions, each the contract of a function with no parameters and no body.

ghost use Rattle.std.specs.Prelude.{◌≡◌, ◌-◌, ◌^◌, ◌<◌, ℕ, List, Some, length};
ghost use Rattle.rpki_der.specs.Values.{IsUnambiguous};
ghost use Rattle.rpki_blocks.specs.Sets.{Block, IsChain, HaveSameNumbers};
ghost use Rattle.rpki_blocks.specs.Resources.{Resources, IsResources};
ghost use Rattle.rpki_blocks.specs.Addresses.{Ip, Families, IsIPAddrBlocks, addresses, ip};
ghost use Rattle.rpki_blocks.specs.Systems.{IsASIdentifiers, written_as};
ghost use Rattle.rpki_blocks.specs.Prefixes.{AreV4};

/// Says that sets with the same numbers have the same blocks.
pub fn one_chain()
    ensures { (bs cs : List Block) → IsChain bs → IsChain cs → HaveSameNumbers bs cs → bs ≡ cs }
{}

/// Says that a string begins with at most one encoding of IP resources and at most one of AS
/// resources, and that an encoding is of one value only.
pub fn unambiguous()
    ensures addresses { IsUnambiguous IsIPAddrBlocks }
    ensures numbers { IsUnambiguous IsASIdentifiers }
{}

/// Says that what is written of resources is an encoding of these resources, if it has fewer than
/// 2^32 bytes and if the IPv4 resources are whole IPv4 addresses.
pub fn written_is_read()
    ensures addresses { (i : Ip) (content : List ℕ) → ip i ≡ Some content →
        IsResources (2 ^ 128 - 1) i.v4 → AreV4 i.v4 → IsResources (2 ^ 128 - 1) i.v6 →
        length content < 2 ^ 32 →
        (f : Families) × IsIPAddrBlocks f content × (addresses (Some f) ≡ i) }
    ensures numbers { (r : Resources) (content : List ℕ) → written_as r ≡ Some content →
        IsResources (2 ^ 32 - 1) r → length content < 2 ^ 32 → IsASIdentifiers r content }
{}
