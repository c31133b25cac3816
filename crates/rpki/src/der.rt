//! Values of DER (X.690): a cursor over shared bytes, pieces that keep their bytes, writers, and
//! errors.
pub use rpki_der::{
    Cursor, DecodeError, EncodeError, Field, MAX_LEN, Oid, Piece, enclose, end_extension,
    end_value, put_bits, put_bool, put_extension, put_oid, put_parts, put_unsigned, put_value, tag,
    take_extension,
};
