//! Signatures by RSA keys, and whole paths with them.
use crate::answer::Answer;
use crate::words::Words;
use crate::{folders, paths, revocation};
use rpki_keys::{RsaVerifier, is_rpki_key, verify};

/// Answers whether bits are a key of the RPKI.
pub fn rsa_key(words: &Words<'_>, out: &mut Answer) {
    let bits = words.octets(out, 1);
    out.yes(is_rpki_key(&bits));
}

/// Answers whether a signature is one of a message, by the bits of a key.
pub fn rsa(words: &Words<'_>, out: &mut Answer) {
    let bits = words.octets(out, 1);
    let message = words.octets(out, 2);
    let signature = words.octets(out, 3);
    out.yes(verify(&bits, &message, &signature));
}

/// Tells what the last member of a path with RSA signatures holds, or which member is rejected, and
/// why.
pub fn real_path(words: &Words<'_>, out: &mut Answer) {
    paths::judged(words, out, words.at(2), words.at(1), &RsaVerifier);
}

/// What such a path answers where the lists of a store are asked.
pub fn real_revocation(words: &Words<'_>, out: &mut Answer) {
    revocation::judged(words, out, &RsaVerifier);
}

/// What a walk through a folder answers with RSA signatures.
pub fn real_folder(words: &Words<'_>, out: &mut Answer) {
    folders::judged(words, out, &RsaVerifier);
}
