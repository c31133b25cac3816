//! Names, serial numbers, times, periods of validity, and signed data.
pub use rpki_der::{Serial, Time};
pub use rpki_parts::{InvalidName, Name, SignedData, Validity, ValidityError};
