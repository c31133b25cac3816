//! The CRLs that the certificates of a path are checked against, if revocation is checked.
ghost use Rattle.std.specs.Prelude.{◌≡◌};
ghost use Rattle.rpki_c.specs.Verdicts.{asked_by, asks_nobody};

use crate::question::Terms;
use rpki_cert::{Cert, ResourceCert};
use rpki_crl::Crl;
use rpki_der::Time;
use rpki_parts::Verifier;
use rpki_path::RevocationError;
use rpki_path::revocation::{GivenLists, RevocationSource};
use std::marker::Model;

/// CRLs, and whether they, and their issuers' names, are checked.
#[derive(Drop)]
pub(crate) struct Asked<'l> {
    lists: &'l [Crl],
    asks_lists: bool,
    asks_names: bool,
}

impl<'l> Model for Asked<'l> {
    ghost use Rattle.rpki_c.specs.Verdicts.{AskedCrls};

    ghost Value = { AskedCrls };

    ghost view = { λ it. record {
      lists = it.lists.now;
      asks_lists = it.asks_lists;
      asks_names = it.asks_names;
    } };
}

impl<'l> Asked<'l> {
    /// Makes a source of these CRLs, which are checked as the terms say.
    pub(crate) fn by(lists: &'l [Crl], terms: &Terms) -> Asked<'l>
        ensures { result ≡ asked_by terms.entry.now lists.now }
    {
        Asked {
            lists,
            asks_lists: terms.asks_lists,
            asks_names: terms.asks_names,
        }
    }

    /// Makes a source that checks nothing.
    pub(crate) fn nobody() -> Asked<'l>
        ensures { result ≡ asks_nobody }
    {
        Asked {
            lists: &[],
            asks_lists: false,
            asks_names: false,
        }
    }
}

impl<'l> RevocationSource for Asked<'l> {
    ghost use Rattle.rpki_c.specs.Verdicts.{checks_by};

    ghost asks = { checks_by };

    fn ask<V: Verifier>(
        &self,
        cert: &Cert,
        issuer: &ResourceCert,
        strict: bool,
        now: Time,
        verifier: &V,
    ) -> Result<(), RevocationError> {
        if self.asks_lists {
            let given = GivenLists::with_names(self.lists, self.asks_names);
            return given.ask(cert, issuer, strict, now, verifier);
        }
        Ok(())
    }
}
