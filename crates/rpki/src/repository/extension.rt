//! Single extensions, decoded and encoded, and the sequence of a certificate's extensions.
pub use rpki_ext::{
    Extensions, encode_authority_information_access, encode_authority_key_identifier,
    encode_basic_constraints, encode_certificate_policies, encode_crl_distribution_points,
    encode_extended_key_usage, encode_key_usage, encode_subject_information_access,
    encode_subject_key_identifier, is_known, take_authority_information_access,
    take_authority_key_identifier, take_basic_constraints, take_certificate_policies,
    take_crl_distribution_points, take_extended_key_usage, take_key_usage,
    take_subject_information_access, take_subject_key_identifier,
};
