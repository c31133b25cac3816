//! The certificates of a path that is to be validated.
ghost use Rattle.std.specs.Prelude.{◌≡◌, ◌≢◌, ◌↔◌, ℕ, List, length, IsSome, IfSome};
ghost use Rattle.rpki_cert.specs.declared.inspect.Kind.TheVariants as cert;
ghost use Rattle.rpki_path.specs.GivenPaths.{string_count, path_strings, path_to, CanEndIn, IsSplitAs};

use crate::members::Member;
use rpki_cert::Kind;
use std::marker::Model;

/// The last certificate of a path, if it isn't a CA's.
#[derive(Clone, Copy, Drop)]
pub enum Last<'p, 'm> {
    /// An end entity, which signs an object that its certificate names.
    Ee(&'p Member<'m>),
    /// An end entity that signs any object.
    DetachedEe(&'p Member<'m>),
    /// A router (RFC 8209).
    Router(&'p Member<'m>),
}

// The last certificate as one of this kind, if that isn't a CA.
fn last_as<'p, 'm>(kind: Kind, end: &'p Member<'m>) -> Option<Last<'p, 'm>>
    ensures { kind ≢ cert.Anchor → kind ≢ cert.Authority → (anchor : List ℕ) (cas : List (List ℕ))
        → path_strings anchor cas result ≡ path_to anchor cas kind end.now }
{
    match kind {
        Kind::Anchor | Kind::Authority => None,
        Kind::EndEntity => Some(Last::Ee(end)),
        Kind::Detached => Some(Last::DetachedEe(end)),
        Kind::Router => Some(Last::Router(end)),
    }
}

/// The certificates of a path that is to be validated: the trust anchor, the CAs below it from the
/// top down, and the last certificate, if it isn't a CA's.
#[derive(Drop)]
pub struct GivenPath<'p, 'm> {
    pub anchor: &'p Member<'m>,
    pub cas: &'p [Member<'m>],
    pub last: Option<Last<'p, 'm>>,
}

impl<'p, 'm> Model for GivenPath<'p, 'm> {
    ghost use Rattle.rpki_path.specs.GivenPaths.{PathStrings, path_strings};

    ghost Value = { PathStrings };

    ghost view = { λ p. path_strings p.anchor.now p.cas.now p.last };
}

impl<'p, 'm> GivenPath<'p, 'm> {
    /// Splits the certificates, the trust anchor first, by the kind of the last one. Returns `None`
    /// if there is none, if the only one is to be an end entity or a router, or if the last one of
    /// several is to be the trust anchor.
    pub fn of(members: &'p [Member<'m>], last: Kind) -> Option<GivenPath<'p, 'm>>
        ensures some { IsSome result ↔ CanEndIn last (length members.now) }
        ensures split { IfSome result (IsSplitAs members.now last) }
        ensures count { IfSome result (λ p. string_count p ≡ length members.now) }
    {
        let (anchor, below) = members.split_first()?;
        match last {
            Kind::Anchor => {
                if !below.is_empty() {
                    return None;
                }
                let (cas, last) = (below, None);
                Some(GivenPath { anchor, cas, last })
            }
            Kind::Authority => {
                let (cas, last) = (below, None);
                Some(GivenPath { anchor, cas, last })
            }
            Kind::EndEntity | Kind::Detached | Kind::Router => {
                let (end, cas) = below.split_last()?;
                let last = last_as(last, end);
                Some(GivenPath { anchor, cas, last })
            }
        }
    }
}
