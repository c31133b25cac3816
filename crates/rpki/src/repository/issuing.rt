//! Issuing with a key that is elsewhere: a certificate or CRL is prepared for signing, and
//! completed by its signature once that verifies. `next_list` makes an issuer's next CRL, and
//! `Checked` is a signer that verifies each signature before it returns it.
pub use rpki_issuing::{
    Checked, CheckedError, IssuingError, ListError, NextListError, Prepared, PreparedList, Role,
    complete, complete_list, next_list, prepare, prepare_list,
};
