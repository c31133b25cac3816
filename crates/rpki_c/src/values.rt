//! The values of a certificate that a caller requests.
ghost use Rattle.std.specs.Int.{w128, from_be_bytes};
ghost use Rattle.std.specs.Prelude.{◌≡◌, ◌≢◌, ◌⊎◌, ◌<◌, ◌≤◌, [], length, map, Ok, Err, IfErr, IfOk, IsFalse, IsTrue, MatchOption};
ghost use Rattle.rpki_blocks.specs.Sets.{Block as Span, between};
ghost use Rattle.rpki_blocks.specs.Unions.{IsUnion};
ghost use Rattle.rpki_parts.specs.Keys.{IsPublicKey};
ghost use Rattle.rpki_issuing.specs.ValueTexts.{IsHttpsText, IsRsyncText};
ghost use Rattle.rpki_c.specs.WantedAnswers.{AnswersValue, GivesValues, IsNoKey, IsNoText, uri_wanted};
ghost use Rattle.rpki_c.specs.WantedQuestions.{AreBlocks, AreResourcesGiven, GivesWantedNumbers, GivesWantedUris, GivesWantedValues, IsKeyGiven, IsUriGiven, as_span, first_v4, last_v4, v4_span, v6_span};
ghost use Rattle.rpki_c.specs.declared.certificates.CertUri.TheVariants.{Notify};
ghost use Rattle.rpki_c.specs.declared.unissued.Unissued.TheVariants.{BadUri, Memory, NoKey};
ghost use Rattle.rpki_c.specs.declared.wanted.RpkiWanted.{RpkiWanted as Asked};

use crate::certificates::CertUri;
use crate::copying::{RpkiAsRange, RpkiIpRange};
use crate::unissued::Unissued;
use crate::wanted::{RpkiUris, RpkiWanted, WantedTerms};
use bytes::Bytes;
use rpki_blocks::{Addr, AsBlock, Asn, Block, BlocksBuilder, Bound, IpBlock, Resources};
use rpki_issuing::values::{Textual, serial_of};
use rpki_issuing::wanted::{Numbers, Places, Wanted};
use rpki_keys::is_usable;
use rpki_parts::{Https, PublicKey, Rsync};
use std::alloc::{AllocError, Global};

// How ranges of a kind of numbers stand in the caller's memory.
trait Ranges<R, B: Bound> {
    ghost span: { R → Span };

    // The block of a range's numbers, if it doesn't end before it begins.
    fn block(range: &R) -> Option<Block<B>>
        ensures { let b = span range.now in
            MatchOption result (b.max < b.min) (λ it. (it ≡ b) × (b.min ≤ b.max)) };
}

// The first of the addresses of 128 bits that begin with the first 32 bits of this one.
fn first_of_v4(octets: &[u8; 16]) -> Addr
    ensures { result ≡ first_v4 (from_be_bytes w128 octets.now) }
{
    Addr::from(u128::from_be_bytes(*octets) / (1 << 96) * (1 << 96))
}

// The last of them.
fn last_of_v4(octets: &[u8; 16]) -> Addr
    ensures { result ≡ last_v4 (from_be_bytes w128 octets.now) }
{
    Addr::from(u128::from_be_bytes(*octets) / (1 << 96) * (1 << 96) + ((1 << 96) - 1))
}

// The addresses from the first to the last.
fn addresses(first: Addr, last: Addr) -> Option<IpBlock>
    ensures { MatchOption result (last < first)
        (λ b. (b ≡ between first last) × (first ≤ last)) }
{
    if first > last {
        return None;
    }
    Some(IpBlock::from((first, last)))
}

// Ranges of IPv4 addresses.
struct V4Ranges;

impl Ranges<RpkiIpRange, Addr> for V4Ranges {
    ghost span = { v4_span };

    fn block(range: &RpkiIpRange) -> Option<IpBlock> {
        addresses(first_of_v4(&range.min), last_of_v4(&range.max))
    }
}

// Ranges of IPv6 addresses.
struct V6Ranges;

impl Ranges<RpkiIpRange, Addr> for V6Ranges {
    ghost span = { v6_span };

    fn block(range: &RpkiIpRange) -> Option<IpBlock> {
        let first = Addr::from(u128::from_be_bytes(range.min));
        let last = Addr::from(u128::from_be_bytes(range.max));
        addresses(first, last)
    }
}

// Ranges of AS numbers.
struct AsRanges;

impl Ranges<RpkiAsRange, Asn> for AsRanges {
    ghost span = { as_span };

    fn block(range: &RpkiAsRange) -> Option<AsBlock> {
        if range.min > range.max {
            return None;
        }
        Some(AsBlock::from((Asn::from(range.min), Asn::from(range.max))))
    }
}

// The blocks of ranges, if none ends before it begins.
fn blocks_of<R, B: Bound, T: Ranges<R, B>>(
    alloc: Global,
    ranges: &[R],
) -> Result<BlocksBuilder<B>, Unissued>
    ensures { (w : Asked) → AnswersValue w (AreBlocks (map T.span ranges.now)) result }
{
    let mut blocks = BlocksBuilder::new(alloc);
    for range in ranges {
        let Some(block) = T::block(range) else {
            return Err(Unissued::BadCall);
        };
        blocks.push(block)?;
    }
    Ok(blocks)
}

// The set of the numbers of blocks.
fn union_of<B: Bound>(blocks: BlocksBuilder<B>) -> Result<Resources<B>, AllocError>
    ensures { IfOk result (IsUnion blocks) }
{
    let set = blocks.finalize()?;
    Ok(Resources::blocks(set))
}

// What the ranges list of a kind of numbers. There has to be one.
#[tactic(auto, using(crate::proofs::WantedValues::no_blocks))]
fn listed_of<R, B: Bound, T: Ranges<R, B>>(
    alloc: Global,
    ranges: &[R],
) -> Result<Resources<B>, Unissued>
    ensures { (w : Asked) → AnswersValue w (AreResourcesGiven 2 (map T.span ranges.now)) result }
{
    if ranges.is_empty() {
        return Err(Unissued::BadCall);
    }
    let blocks = blocks_of::<R, B, T>(alloc, ranges)?;
    let set = union_of(blocks)?;
    Ok(set)
}

// What the ranges and the number of a state list of a kind of numbers.
fn resources_of<R, B: Bound, T: Ranges<R, B>>(
    alloc: Global,
    state: u32,
    ranges: &[R],
) -> Result<Resources<B>, Unissued>
    ensures { (w : Asked) → AnswersValue w (AreResourcesGiven state (map T.span ranges.now)) result }
{
    match state {
        0 if ranges.is_empty() => Ok(Resources::missing()),
        1 if ranges.is_empty() => Ok(Resources::inherit()),
        2 => listed_of::<R, B, T>(alloc, ranges),
        _ => Err(Unissued::BadCall),
    }
}

// What is listed of each kind of numbers.
#[tactic(auto, using(crate::proofs::WantedValues::no_v4, crate::proofs::WantedValues::no_v6, crate::proofs::WantedValues::no_systems))]
fn numbers(alloc: Global, w: &RpkiWanted<'_>) -> Result<Numbers, Unissued>
    ensures { AnswersValue w.now (GivesWantedNumbers w.now) result }
{
    let v4 = resources_of::<_, _, V4Ranges>(alloc, w.v4.state, w.v4.ranges)?;
    let v6 = resources_of::<_, _, V6Ranges>(alloc, w.v6.state, w.v6.ranges)?;
    let systems = resources_of::<_, _, AsRanges>(alloc, w.asn.state, w.asn.ranges)?;
    Ok(Numbers { v4, v6, systems })
}

// The octets of a URI.
fn octets_of<'c>(uris: &RpkiUris<'c>, which: CertUri) -> &'c [u8]
    ensures { result.now ≡ uri_wanted which uris.now }
{
    match which {
        CertUri::CaIssuer => uris.ca_issuer,
        CertUri::Crl => uris.crl,
        CertUri::Repository => uris.repository,
        CertUri::Manifest => uris.manifest,
        CertUri::SignedObject => uris.signed_object,
        CertUri::Notify => uris.notify,
    }
}

// The URI that the octets are. Without octets there is none.
fn uri_of<T: Textual>(alloc: Global, octets: &[u8], which: CertUri) -> Result<Option<T>, Unissued>
    ensures given { IfOk result (IsUriGiven T.is_text octets.now) }
    ensures bad { IfErr result (λ e. (e ≡ Memory)
        ⊎ ((e ≡ BadUri which) × (octets.now ≢ []) × IsNoText T.is_text octets.now)) }
{
    if octets.is_empty() {
        return Ok(None);
    }
    match T::from_text(alloc, octets)? {
        Some(uri) => Ok(Some(uri)),
        None => Err(Unissued::BadUri(which)),
    }
}

// A URI of the scheme rsync.
fn rsync_of(alloc: Global, w: &RpkiWanted<'_>, which: CertUri) -> Result<Option<Rsync>, Unissued>
    requires { which ≢ Notify }
    ensures { let octets = uri_wanted which w.now.uris in
        AnswersValue w.now (IsUriGiven IsRsyncText octets) result }
{
    uri_of::<Rsync>(alloc, octets_of(&w.uris, which), which)
}

// The URI of the notification file.
fn notify_of(alloc: Global, w: &RpkiWanted<'_>) -> Result<Option<Https>, Unissued>
    ensures { AnswersValue w.now (IsUriGiven IsHttpsText w.now.uris.notify.now) result }
{
    uri_of::<Https>(alloc, w.uris.notify, CertUri::Notify)
}

// The URIs.
#[tactic(auto, using(crate::proofs::WantedValues::no_repository, crate::proofs::WantedValues::no_manifest, crate::proofs::WantedValues::no_object, crate::proofs::WantedValues::no_notify, crate::proofs::WantedValues::no_issuer, crate::proofs::WantedValues::no_list))]
fn places(alloc: Global, w: &RpkiWanted<'_>) -> Result<Places, Unissued>
    ensures { AnswersValue w.now (GivesWantedUris w.now.uris) result }
{
    Ok(Places {
        repository: rsync_of(alloc, w, CertUri::Repository)?,
        manifest: rsync_of(alloc, w, CertUri::Manifest)?,
        object: rsync_of(alloc, w, CertUri::SignedObject)?,
        notify: notify_of(alloc, w)?,
        issuer: rsync_of(alloc, w, CertUri::CaIssuer)?,
        list: rsync_of(alloc, w, CertUri::Crl)?,
    })
}

// What is wanted of the certificate.
#[tactic(auto, using(crate::proofs::WantedValues::no_numbers, crate::proofs::WantedValues::no_places))]
fn wanted_of(alloc: Global, w: &RpkiWanted<'_>, terms: WantedTerms) -> Result<Wanted, Unissued>
    ensures { AnswersValue w.now (GivesWantedValues w.now terms) result }
{
    let Some(serial) = serial_of(&w.serial) else {
        return Err(Unissued::BadCall);
    };
    Ok(Wanted {
        serial,
        not_before: terms.not_before,
        not_after: terms.not_after,
        numbers: numbers(alloc, w)?,
        places: places(alloc, w)?,
    })
}

// The key that the octets are.
fn read_key(alloc: Global, octets: &[u8]) -> Result<PublicKey, Unissued>
    ensures read { IfOk result (λ key. IsPublicKey key octets.now) }
    ensures none { IfErr result (λ e. (e ≡ Memory) ⊎ ((e ≡ NoKey) × IsNoKey octets.now)) }
{
    match PublicKey::from_bytes(alloc, Bytes::copy_from_slice(alloc, octets)?) {
        Ok(key) => Ok(key),
        Err(error) => {
            let is_memory = error.is_memory();
            drop(error);
            if is_memory {
                Err(Unissued::Memory)
            } else {
                Err(Unissued::NoKey)
            }
        }
    }
}

// The subject's key.
fn key_of(alloc: Global, w: &RpkiWanted<'_>) -> Result<PublicKey, Unissued>
    ensures { AnswersValue w.now (IsKeyGiven w.now.key.now) result }
{
    let key = read_key(alloc, w.key)?;
    if is_usable(&key) {
        return Ok(key);
    }
    drop(key);
    Err(Unissued::UnusedKey)
}

/// Returns the values of the requested certificate, and the subject's key.
#[tactic(auto, using(crate::proofs::WantedValues::no_wanted, crate::proofs::WantedValues::no_key))]
pub(crate) fn values_of(
    alloc: Global,
    w: &RpkiWanted<'_>,
    terms: WantedTerms,
) -> Result<(Wanted, PublicKey), Unissued>
    ensures { AnswersValue w.now (GivesValues w.now terms) result }
{
    let wanted = wanted_of(alloc, w, terms)?;
    let key = key_of(alloc, w)?;
    Ok((wanted, key))
}
