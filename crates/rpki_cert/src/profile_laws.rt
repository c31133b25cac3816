//! Laws about the profiles of certificates. Each is the contract of a function with no parameters
//! and an empty body.
ghost use Rattle.std.specs.Prelude.{◌≡◌, Bool, Some, true};
ghost use Rattle.rpki_ext.specs.CertificateExtensions.{NamesNoOtherKey};
ghost use Rattle.rpki_cert.specs.Certificates.{CertFields};
ghost use Rattle.rpki_cert.specs.Profiles.{MeetsProfile, group};
ghost use Rattle.rpki_cert.specs.declared.inspect.Kind.{Kind};
ghost use Rattle.rpki_cert.specs.declared.inspect.Kind.TheVariants.{Anchor, Authority, EndEntity, Detached};

/// Says that a certificate meets the profile of at most one of trust anchor, CA, end entity and
/// router, whichever of them are inspected in strict mode. What meets the profile of an end entity
/// with the URI of a signed object meets that of a detached end entity.
pub fn one_kind()
    ensures one { (k l : Kind) (strict other : Bool) (c : CertFields)
        → MeetsProfile k strict c → MeetsProfile l other c → group k ≡ group l }
    ensures end_entity { (strict : Bool) (c : CertFields)
        → MeetsProfile EndEntity strict c → MeetsProfile Detached strict c }
{}

/// Says that what meets the profile of a trust anchor is a CA, and has no Authority Key Identifier
/// but its own. What meets the profile of a CA is a CA.
pub fn authorities()
    ensures anchor { (strict : Bool) (c : CertFields)
        → MeetsProfile Anchor strict c → c.fields.extensions.basic_ca ≡ Some true }
    ensures signs_itself { (strict : Bool) (c : CertFields)
        → MeetsProfile Anchor strict c → NamesNoOtherKey c.fields.extensions }
    ensures authority { (strict : Bool) (c : CertFields)
        → MeetsProfile Authority strict c → c.fields.extensions.basic_ca ≡ Some true }
{}
