//! A caller's question about a directory, as bytes, lengths and numbers.
ghost use Rattle.std.specs.Prelude.{◌≡◌, IsNone, IfSome};
ghost use Rattle.rpki_c.specs.FolderQuestions.{asked_or as asked_else, HasFolderTerms, HasNoFolderTerms};

use crate::moments::{RpkiTime, moment_of};
use crate::question::is_asked;
use crate::strings::RpkiStrings;
use rpki_der::Time;
use rpki_folder::{Bounds, USUAL_STEPS};

/// A question about a directory.
#[repr(C)]
#[derive(Clone, Copy)]
pub struct RpkiFolderQuestion<'c> {
    /// The size of this struct in bytes, as the caller knows it.
    pub size: usize,
    /// Certificates and CRLs, in any order.
    pub strings: RpkiStrings<'c>,
    /// The bytes of a TAL.
    pub locator: &'c [u8],
    pub moment: RpkiTime,
    /// The most certificates that a path may have below the trust anchor; 0 for the default.
    pub depth: usize,
    /// The steps of the walk; 0 for the default.
    pub steps: usize,
    pub strict: u32,
    /// Whether the RPKI has to use a certificate's key: 0 it has to, 1 it needn't.
    pub key: u32,
    /// Whether names are checked, those of certificates and of lists: 0 they are, 1 they aren't.
    pub names: u32,
}

/// The size of a question about a directory in bytes.
pub(crate) const FOLDER_QUESTION_SIZE: usize = size_of::<RpkiFolderQuestion<'_>>();

const USUAL_DEPTH: usize = 32;

/// The terms under which a directory is validated.
#[derive(Clone, Copy)]
pub(crate) struct FolderTerms {
    /// Whether names may only have the profile's string types.
    pub(crate) strict: bool,
    pub(crate) at: Time,
    /// The most certificates that a path may have below the trust anchor.
    pub(crate) depth: usize,
    /// The steps of the walk; 0 for the default.
    pub(crate) steps: usize,
    /// Whether a certificate has to have a key that the RPKI uses.
    pub(crate) asks_key: bool,
    /// Whether names have to chain, and lists to have their issuers' names.
    pub(crate) asks_names: bool,
}

// What is asked for, or what is usual, where 0 is.
fn asked_or(asked: usize, usual: usize) -> usize
    ensures { result ≡ asked_else asked usual }
{
    if asked == 0 { usual } else { asked }
}

impl FolderTerms {
    ghost use Rattle.std.specs.Prelude.{◌≡◌};
    ghost use Rattle.rpki_folder.specs.UsualBounds.{usual_steps};
    ghost use Rattle.rpki_c.specs.FolderQuestions.{asked_or};

    /// Returns the limits of the walk.
    pub(crate) fn bounds(&self) -> Bounds
        ensures depth { result.depth ≡ self.now.depth }
        ensures steps { result.steps ≡ asked_or self.now.steps usual_steps }
    {
        Bounds {
            depth: self.depth,
            steps: asked_or(self.steps, USUAL_STEPS),
        }
    }
}

/// Tells how the folder of a question is judged. Gives `None` where there is no such moment or
/// choice, and where the caller knows another struct.
#[tactic(auto, using(crate::proofs::FolderTermsGiven::no_folder_size, crate::proofs::FolderTermsGiven::no_folder_moment, crate::proofs::FolderTermsGiven::no_folder_key, crate::proofs::FolderTermsGiven::no_folder_names))]
pub(crate) fn folder_terms_of(question: &RpkiFolderQuestion<'_>) -> Option<FolderTerms>
    ensures terms { IfSome result (HasFolderTerms question.now) }
    ensures none { IsNone result → HasNoFolderTerms question.now }
{
    if question.size != FOLDER_QUESTION_SIZE {
        return None;
    }
    Some(FolderTerms {
        strict: question.strict != 0,
        at: moment_of(&question.moment)?,
        depth: asked_or(question.depth, USUAL_DEPTH),
        steps: question.steps,
        asks_key: is_asked(question.key)?,
        asks_names: is_asked(question.names)?,
    })
}
