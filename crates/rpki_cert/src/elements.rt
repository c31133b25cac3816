//! The sequence of extensions that is made of a certificate's, in another order and with others
//! among them.
ghost use Rattle.std.specs.Prelude.{◌≡◌, ◌+◌, ◌<◌, ◌++◌, ℕ, List, [], ◌∷◌, length, replicate, IfOk, OnOk, IsErrOf};
ghost use Rattle.std.specs.List.{AllByRecursion};
ghost use Rattle.rpki_der.specs.Primitives.{IsOid};
ghost use Rattle.rpki_der.specs.Writers.{SaysLong};
ghost use Rattle.rpki_der.specs.declared.error.EncodeError.TheVariants.{TooLong};
ghost use Rattle.rpki_cert.specs.Rearranging.{ArePlaced, written};
ghost use Rattle.rpki_cert.specs.Rearranging.Steps.{HaveAdded, HasLong, joined};

use crate::extra::Extra;
use rpki_der::{EncodeError, Piece, put_extension};
use std::alloc::{AllocError, Global};
use std::marker::Model;

/// The bytes of the extensions that are added at one place.
#[derive(Drop)]
pub(crate) struct Added {
    octets: Vec<u8>,
}

impl Model for Added {
    ghost use Rattle.std.specs.Prelude.{List, ℕ};

    ghost Value = { List ℕ };

    ghost view = { λ a. a.octets.items };
}

impl Added {
    // No extension.
    fn none(alloc: Global) -> Added
        ensures { result ≡ [] }
    {
        Added {
            octets: Vec::new(alloc),
        }
    }

    // The octets.
    fn as_bytes(&self) -> &[u8]
        ensures { result.now ≡ self.now }
    {
        &self.octets
    }

    // Appends the extension. Where it can't be written, the octets stay.
    fn push(&mut self, extra: &Extra) -> Result<(), EncodeError>
        ensures ok { OnOk result (self.new ≡ self.old ++ written extra.now) }
        ensures valid { IsOid extra.now.oid }
        ensures too_long { SaysLong result (written extra.now) }
    {
        let identifier = extra.oid.as_bytes();
        put_extension(&mut self.octets, identifier, false, &extra.value)
    }
}

// One place more.
fn push_place(places: &mut Vec<Added>, place: Added) -> Result<(), AllocError>
    ensures { OnOk result (places.new.items ≡ places.old.items ++ place ∷ []) }
{
    places.push(place)?;
    Ok(())
}

// So many places and one behind them, with no extension.
#[tactic(auto, using(crate::proofs::SequencesMade::replicate_more))]
fn empty_places(alloc: Global, count: usize) -> Result<Vec<Added>, AllocError>
    ensures { IfOk result (λ places. places.items ≡ replicate (count + 1) []) }
{
    let mut places = Vec::new(alloc);
    while places.len() <= count {
        push_place(&mut places, Added::none(alloc))?;
    }
    Ok(places)
}

/// Gathers the bytes of what is added at each of so many places, and behind the last. It looks at
/// each extension once.
pub(crate) fn gathered(
    alloc: Global,
    extras: &[Extra],
    count: usize,
) -> Result<Vec<Added>, EncodeError>
    requires { ArePlaced count extras.now }
    ensures len { IfOk result (λ places. length places.items ≡ count + 1) }
    ensures places { IfOk result (λ places. HaveAdded (count + 1) extras.now places.items) }
    ensures valid { IfOk result (λ places. AllByRecursion (λ x. IsOid x.oid) extras.now) }
    ensures too_long { IsErrOf result TooLong → HasLong extras.now }
{
    let mut places = empty_places(alloc, count)?;
    for extra in extras {
        let place = &mut places[extra.at];
        place.push(extra)?;
    }
    Ok(places)
}

/// Writes the bytes of the new extensions: at each place what is added there, and the old
/// extension that the order names.
pub(crate) fn sequence_octets(
    alloc: Global,
    order: &[usize],
    places: &[Added],
    old: &[Piece],
) -> Result<Vec<u8>, AllocError>
    requires order { AllByRecursion (λ place. place < length old.now) order.now }
    requires places { length places.now ≡ length order.now + 1 }
    ensures { IfOk result (λ elements. elements.items ≡ joined order.now places.now old.now) }
{
    let mut elements = Vec::new(alloc);
    for (i, named) in order.iter().enumerate() {
        elements.extend_from_slice(places[i].as_bytes())?;
        elements.extend_from_slice(old[*named].as_bytes())?;
    }
    elements.extend_from_slice(places[order.len()].as_bytes())?;
    Ok(elements)
}
