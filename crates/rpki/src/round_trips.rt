//! Calls whose contracts follow from those of the public calls that they make: a value that was
//! made is written and decoded again as it was, and a CA is issued below a valid path.
pub use rpki_cert::round_trip as certificates;
pub use rpki_crl::round_trip as lists;
pub use rpki_path::issuing as paths;
