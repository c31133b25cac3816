//! The qualifiers in Certificate Policies.
ghost use Rattle.std.specs.Prelude.{◌≡◌, ◌↔◌, IsTrue, option_map};
ghost use Rattle.rpki_der.specs.Place.{remaining};
ghost use Rattle.rpki_text.specs.Notes.{AreOthers, IsEnd, behind_statement, qualifiers_at};

use crate::notes::contents::content;
use crate::notes::facts::is_cps;
use rpki_der::{Cursor, tag};

// The qualifiers of the policy.
#[tactic(auto, unfolding(crate::specs::Notes::qualifiers_at))]
fn qualifiers_in<'a>(policies: &Cursor<'a>) -> Option<Cursor<'a>>
    ensures { option_map remaining result ≡ qualifiers_at (remaining policies.now) }
{
    let mut whole = policies.fork();
    let mut inside = content(&mut whole, tag::SEQUENCE)?;
    let mut policy = content(&mut inside, tag::SEQUENCE)?;
    let _identifier = content(&mut policy, tag::OBJECT_IDENTIFIER)?;
    content(&mut policy, tag::SEQUENCE)
}

// The octets after the first qualifier, if that is a practice statement.
#[tactic(auto, unfolding(crate::specs::Notes::behind_statement))]
fn behind_statement<'a>(qualifiers: &Cursor<'a>) -> Option<Cursor<'a>>
    ensures { option_map remaining result ≡ behind_statement (remaining qualifiers.now) }
{
    let mut rest = qualifiers.fork();
    let mut qualifier = content(&mut rest, tag::SEQUENCE)?;
    let kind = content(&mut qualifier, tag::OBJECT_IDENTIFIER)?;
    if is_cps(&kind) { Some(rest) } else { None }
}

// Whether the qualifiers are exactly one practice statement.
fn are_one_statement(qualifiers: &Cursor<'_>) -> bool
    ensures { IsTrue result ↔ IsEnd (behind_statement (remaining qualifiers.now)) }
{
    match behind_statement(qualifiers) {
        Some(rest) => rest.is_empty(),
        None => false,
    }
}

/// Returns whether the policy in the content of Certificate Policies has qualifiers other than one
/// practice statement (RFC 7318 2).
pub(crate) fn has_other_qualifiers(policies: &Cursor<'_>) -> bool
    ensures { IsTrue result ↔ AreOthers (qualifiers_at (remaining policies.now)) }
{
    match qualifiers_in(policies) {
        Some(qualifiers) => !are_one_statement(&qualifiers),
        None => false,
    }
}
