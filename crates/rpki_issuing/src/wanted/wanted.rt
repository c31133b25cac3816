//! The values that a person chooses for a certificate.

use rpki_blocks::{AsResources, IpResources};
use rpki_der::{Serial, Time};
use rpki_parts::{Https, Rsync};

/// The resources: IPv4 addresses, IPv6 addresses, and AS numbers.
#[derive(Drop)]
pub struct Numbers {
    pub v4: IpResources,
    pub v6: IpResources,
    pub systems: AsResources,
}

/// The URIs that a certificate names.
#[derive(Drop)]
pub struct Places {
    pub repository: Option<Rsync>,
    pub manifest: Option<Rsync>,
    pub object: Option<Rsync>,
    pub notify: Option<Https>,
    pub issuer: Option<Rsync>,
    pub list: Option<Rsync>,
}

/// The values that options give.
#[derive(Drop)]
pub struct Wanted {
    pub serial: Serial,
    pub not_before: Time,
    pub not_after: Time,
    pub numbers: Numbers,
    pub places: Places,
}
