//! The resources that a certificate lists, under the mode of its policy.
ghost use Rattle.std.specs.Prelude.{◌≡◌, ◌||◌, true, is_some, Err, IfErr, Some, unwrap_or};
ghost use Rattle.rpki_der.specs.Place.Reading.{Returns};
ghost use Rattle.rpki_blocks.specs.Addresses.{or_missing};
ghost use Rattle.rpki_blocks.specs.Resources.{missing};
ghost use Rattle.rpki_ext.specs.CertificateExtensions.{no_addresses, under, agreed, disagreement};
ghost use Rattle.rpki_ext.specs.CertificateExtensions.Views.{ip_of, ip_in};

use rpki_blocks::{AsResources, Bound, IpResources, Overclaim, Resources};
use rpki_der::{DecodeError, Field};
use std::marker::Model;

/// The resources that a certificate lists, and whether it may overclaim.
#[derive(Drop)]
pub(crate) struct Listed {
    pub(crate) overclaim: Overclaim,
    pub(crate) v4_resources: IpResources,
    pub(crate) v6_resources: IpResources,
    pub(crate) as_resources: AsResources,
}

impl Model for Listed {
    ghost use Rattle.rpki_ext.specs.CertificateExtensions.{ListedFields};

    ghost Value = { ListedFields };

    ghost view = { λ l. record {
      overclaim = l.overclaim;
      v4_resources = l.v4_resources;
      v6_resources = l.v6_resources;
      as_resources = l.as_resources;
    } };
}

// What stands under the policy's mode; `None` where another mode is shown.
fn under<T: Drop>(mode: Overclaim, resources: Option<(Overclaim, T)>) -> Option<Option<T>>
    ensures { result ≡ under mode resources }
{
    match resources {
        None => Some(None),
        Some((shown, listed)) => {
            if shown == mode {
                Some(Some(listed))
            } else {
                None
            }
        }
    }
}

fn or_missing<B: Bound>(resources: Option<Resources<B>>) -> Resources<B>
    ensures addresses { result ≡ or_missing resources }
    ensures numbers { result ≡ unwrap_or resources missing }
{
    match resources {
        Some(listed) => listed,
        None => Resources::missing(),
    }
}

// The families, each missing where it isn't there.
fn both_families(
    families: Option<(Option<IpResources>, Option<IpResources>)>,
) -> (IpResources, IpResources)
    ensures v4 { result.0 ≡ (unwrap_or (ip_in families) no_addresses).v4 }
    ensures v6 { result.1 ≡ (unwrap_or (ip_in families) no_addresses).v6 }
{
    match families {
        None => (IpResources::missing(), IpResources::missing()),
        Some((v4, v6)) => (or_missing(v4), or_missing(v6)),
    }
}

// The error, whatever was read, which is let go.
fn refused(
    error: DecodeError,
    ip: Option<(Overclaim, (Option<IpResources>, Option<IpResources>))>,
    numbers: Option<(Overclaim, AsResources)>,
) -> Result<Listed, DecodeError>
    ensures { result ≡ Err error }
{
    drop(ip);
    drop(numbers);
    Err(error)
}

// Their identifiers must be those of the policy; of several that are not, the addresses are named.
fn agreed_under(
    overclaim: Overclaim,
    ip: Option<(Overclaim, (Option<IpResources>, Option<IpResources>))>,
    numbers: Option<(Overclaim, AsResources)>,
) -> Result<Listed, DecodeError>
    requires { (is_some ip || is_some numbers) ≡ true }
    ensures reads { Returns result (agreed (Some overclaim) (ip_of ip) numbers) }
    ensures names { IfErr result (λ e. e ≡ disagreement (Some overclaim) (ip_of ip) numbers) }
{
    let Some(families) = under(overclaim, ip) else {
        drop(numbers);
        return Err(DecodeError::WrongResources(Field::IpResources));
    };
    let Some(numbers) = under(overclaim, numbers) else {
        drop(families);
        return Err(DecodeError::WrongResources(Field::AsResources));
    };
    let (v4_resources, v6_resources) = both_families(families);
    Ok(Listed {
        overclaim,
        v4_resources,
        v6_resources,
        as_resources: or_missing(numbers),
    })
}

// Some resources must be there, and their identifiers be those of the policy; of several that are
// not, the addresses are named.
pub(crate) fn agreed(
    overclaim: Option<Overclaim>,
    ip: Option<(Overclaim, (Option<IpResources>, Option<IpResources>))>,
    numbers: Option<(Overclaim, AsResources)>,
) -> Result<Listed, DecodeError>
    ensures reads { Returns result (agreed overclaim (ip_of ip) numbers) }
    ensures names { IfErr result (λ e. e ≡ disagreement overclaim (ip_of ip) numbers) }
{
    if ip.is_none() && numbers.is_none() {
        return refused(DecodeError::Missing(Field::Resources), ip, numbers);
    }
    let Some(overclaim) = overclaim else {
        let field = if ip.is_some() {
            Field::IpResources
        } else {
            Field::AsResources
        };
        return refused(DecodeError::WrongResources(field), ip, numbers);
    };
    agreed_under(overclaim, ip, numbers)
}
