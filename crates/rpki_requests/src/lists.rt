//! The CRL that options and files request, and the CRL that is completed.
ghost use Rattle.std.specs.List.{AllZip};
ghost use Rattle.std.specs.Prelude.{◌≡◌, ◌↔◌, ◌≤◌, ◌++◌, ◌∷◌, [], length, map, option_map, Some, IfErr, IfOk, IsTrue, MatchOption, OnOk};
ghost use Rattle.rpki_cert.specs.Certificates.{CertFields, IsCertificate};
ghost use Rattle.rpki_crl.specs.Lists.{CrlFields, IsCertificateList, IsTbsCertList};
ghost use Rattle.rpki_files.specs.Files.{contents};
ghost use Rattle.rpki_issuing.specs.OnlyValues.{FindsOnly};
ghost use Rattle.rpki_issuing.specs.ValueTexts.{IsSerialText};
ghost use Rattle.rpki_requests.specs.Fulfilment.{AsksList};
ghost use Rattle.rpki_requests.specs.OptionValues.{GivesEntries, GivesList, given_alone, revoked_at};
ghost use Rattle.rpki_requests.specs.RefusedErrands.{IsAskedListFault};
ghost use Rattle.rpki_requests.specs.Refusals.{AnswersOnly, AnswersOnlyBy};
ghost use Rattle.rpki_requests.specs.RequestFiles.{IsOwnListIn, IsPreviousOf, IsRevokedFile};
ghost use Rattle.rpki_requests.specs.RequestWords.{given_values};
ghost use Rattle.rpki_requests.specs.ToldRefusals.{IsOtherFile, IsOtherList, IsValueOf, IsWantedFault};
ghost use Rattle.rpki_requests.specs.declared.refusals.Refusal.TheVariants.{OtherList};
ghost use Rattle.rpki_requests.specs.RequestWords.Views.{asked_fields};
ghost use Rattle.rpki_crl.specs.RevokedEntries.Views.{entry_of};

use crate::fulfilling::{Inputs, unfit};
use crate::refusals::Refusal;
use crate::values::{at_most_once, both, moment};
use crate::words::{Order, Setting};
use bytes::Bytes;
use rpki_cert::{Cert, ResourceCert, TbsCert};
use rpki_crl::{Crl, CrlEntry, RevokedCertificates, TbsCertList};
use rpki_der::{Cursor, Serial, Time};
use rpki_files::Object;
use rpki_issuing::values::Textual;
use rpki_issuing::wanted::issuers::is_own;
use rpki_issuing::wanted::{WantedList, list_fields};
use std::alloc::{AllocError, Global};

// The certificate that the file is, if it is one, and nothing behind it.
fn whole_certificate<'f>(file: &'f Object<'_>) -> Option<&'f Cert>
    ensures { MatchOption result ((cert : CertFields) → IsCertificate cert file.now.octets → ⊥)
        (λ cert. IsCertificate cert.now file.now.octets) }
{
    // Called for what it ensures alone.
    rpki_cert::laws::unambiguous();
    let Some((cert, left)) = file.certificate() else {
        return None;
    };
    if left == 0 { Some(cert) } else { None }
}

// The one file, if there is one; errs where there are several.
fn file_alone<'f, 'n>(files: &'f [Object<'n>]) -> Result<Option<&'f Object<'n>>, Refusal>
    ensures alone { IfOk result (λ o.
        contents files.now ≡ given_alone (option_map (λ file. file.now.octets) o)) }
    ensures several { IfErr result (λ _. 2 ≤ length (contents files.now)) }
    ensures other { IfErr result (λ why. why ≡ OtherList) }
{
    match files {
        [] => Ok(None),
        [file] => Ok(Some(file)),
        _ => Err(Refusal::OtherList),
    }
}

// The list that the file is, if it is one of the issuer.
fn own_list<'f>(file: &'f Object<'_>, issuer: &ResourceCert, strict: bool) -> Option<&'f Crl>
    ensures { FindsOnly (IsOwnListIn issuer.now.cert.fields file.now.octets)
        (option_map (λ list. list.now.list) result) }
{
    // Called for what it ensures alone.
    rpki_crl::laws::unambiguous();
    let Some(list) = file.whole_list() else {
        return None;
    };
    if !is_own(list, issuer, strict) {
        return None;
    }
    Some(list)
}

// The list before that the files are: none where there is no file.
fn previous_of<'f>(
    files: &'f [Object<'_>],
    issuer: &ResourceCert,
    strict: bool,
) -> Result<Option<&'f Crl>, Refusal>
    ensures { let issuer = issuer.now.cert.fields in let files = contents files.now in
        AnswersOnlyBy (IsOtherList issuer files) (λ o. option_map (λ list. list.now.list) o)
        (IsPreviousOf issuer files) result }
{
    let Some(file) = file_alone(files)? else {
        return Ok(None);
    };
    match own_list(file, issuer, strict) {
        Some(list) => Ok(Some(list)),
        None => Err(Refusal::OtherList),
    }
}

// Whether the certificate names the issuer's key as the one that signs it.
fn names_key(cert: &TbsCert, issuer: &TbsCert) -> bool
    ensures { IsTrue result ↔ (cert.now.extensions.authority_key_identifier
        ≡ Some issuer.now.extensions.subject_key_identifier) }
{
    match cert.authority_key_identifier() {
        Some(named) => named == issuer.subject_key_identifier(),
        None => false,
    }
}

// The serial number of the certificate that the file is, if that names the issuer's key.
fn serial_of(file: &Object<'_>, issuer: &TbsCert) -> Option<Serial>
    ensures { FindsOnly (λ serial. IsRevokedFile issuer.now serial file.now.octets) result }
{
    // Called for what it ensures alone.
    rpki_cert::laws::unambiguous();
    let Some(cert) = whole_certificate(file) else {
        return None;
    };
    if !names_key(cert.as_tbs(), issuer) {
        return None;
    }
    Some(cert.as_tbs().serial_number())
}

// Pushes a serial number.
fn push(serials: &mut Vec<Serial>, serial: Serial) -> Result<(), AllocError>
    ensures { OnOk result (serials.new.items ≡ serials.old.items ++ serial ∷ []) }
{
    serials.push(serial)?;
    Ok(())
}

// The serial numbers of the certificates that the files are, which name the issuer's key.
fn serials_of(alloc: Global, files: &[Object<'_>], issuer: &TbsCert) -> Result<Vec<Serial>, Refusal>
    ensures { let files = contents files.now in
        AnswersOnlyBy (IsOtherFile issuer.now files) (λ v. v.items)
        (λ serials. AllZip (IsRevokedFile issuer.now) serials files) result }
{
    let mut serials = Vec::new(alloc);
    for (place, file) in files.iter().enumerate() {
        let Some(serial) = serial_of(file, issuer) else {
            return Err(Refusal::OtherCertificate(place));
        };
        push(&mut serials, serial)?;
    }
    Ok(serials)
}

// The serial numbers that the texts say.
fn serials_said(alloc: Global, texts: &[&[u8]]) -> Result<Vec<Serial>, Refusal>
    ensures { let texts = map (λ t. t.now) texts.now in
        AnswersOnlyBy (IsValueOf Setting.Serial) (λ v. v.items)
        (λ serials. AllZip IsSerialText serials texts) result }
{
    let mut serials = Vec::new(alloc);
    for text in texts {
        let Some(serial) = Serial::from_text(alloc, *text)? else {
            return Err(Refusal::Value(Setting::Serial));
        };
        push(&mut serials, serial)?;
    }
    Ok(serials)
}

// The serial numbers that options give.
fn serials_given(alloc: Global, order: &Order<'_>) -> Result<Vec<Serial>, Refusal>
    ensures { let texts = given_values Setting.Serial (asked_fields order.now).given in
        AnswersOnlyBy (IsValueOf Setting.Serial) (λ v. v.items)
        (λ serials. AllZip IsSerialText serials texts) result }
{
    let texts = order.values_of(alloc, Setting::Serial)?;
    let serials = serials_said(alloc, &texts);
    drop(texts);
    serials
}

// The entries that revoke these serial numbers at the moment.
fn entries_at(alloc: Global, serials: &[Serial], at: Time) -> Result<Vec<CrlEntry>, AllocError>
    ensures { IfOk result (λ all. all.items
        ≡ map (λ serial. record { user_certificate = serial; revocation_date = at }) serials.now) }
{
    serials
        .iter()
        .map(move |serial| CrlEntry {
            user_certificate: *serial,
            revocation_date: at,
        })
        .collect(alloc)
}

// The entries that revoke the one and the other.
fn entries_of_both(
    alloc: Global,
    by_files: &[Serial],
    by_numbers: &[Serial],
    at: Time,
) -> Result<Vec<CrlEntry>, AllocError>
    ensures { IfOk result (λ all. map entry_of all.items
        ≡ map (revoked_at at) (by_files.now ++ by_numbers.now)) }
{
    let mut serials = Vec::from_slice(alloc, by_files)?;
    serials.extend_from_slice(by_numbers)?;
    let all = entries_at(alloc, &serials, at);
    drop(serials);
    all
}

// The entries of what options and files revoke.
fn entries_revoked(
    alloc: Global,
    order: &Order<'_>,
    files: &[Object<'_>],
    issuer: &TbsCert,
    at: Time,
) -> Result<Vec<CrlEntry>, Refusal>
    ensures { let given = (asked_fields order.now).given in let files = contents files.now in
        AnswersOnlyBy (IsWantedFault given files issuer.now) (λ v. map entry_of v.items)
        (GivesEntries given files issuer.now at) result }
{
    let by_files = serials_of(alloc, files, issuer);
    let by_numbers = serials_given(alloc, order);
    match both(by_files, by_numbers) {
        Ok((by_files, by_numbers)) => {
            let all = entries_of_both(alloc, &by_files, &by_numbers, at);
            drop(by_numbers);
            drop(by_files);
            Ok(all?)
        }
        Err(why) => Err(why),
    }
}

// What options and files want of the issuer's list.
fn wanted_list(
    alloc: Global,
    order: &Order<'_>,
    files: &[Object<'_>],
    issuer: &TbsCert,
    at: Time,
) -> Result<WantedList, Refusal>
    ensures { let given = (asked_fields order.now).given in let files = contents files.now in
        AnswersOnly (IsWantedFault given files issuer.now)
        (GivesList given files issuer.now at) result }
{
    let number = match at_most_once::<Serial>(alloc, order, Setting::Number) {
        Ok(number) => number,
        Err(why) => return Err(why),
    };
    let next_update = match moment(alloc, order, Setting::NextUpdate) {
        Ok(moment) => moment,
        Err(why) => return Err(why),
    };
    let revoked = entries_revoked(alloc, order, files, issuer, at)?;
    Ok(WantedList {
        number,
        revoked,
        this_update: at,
        next_update,
    })
}

/// Returns the fields of the CRL that options and files request below the issuer (RFC 6487 5).
///
/// # Errors
///
/// Returns why the request is refused, and `Memory`.
pub(crate) fn list_asked(
    alloc: Global,
    order: &Order<'_>,
    inputs: &Inputs<'_, '_>,
    issuer: &ResourceCert,
    at: Time,
) -> Result<TbsCertList<RevokedCertificates>, Refusal>
    ensures { let asked = asked_fields order.now in let issuer = issuer.now.cert.fields in
        AnswersOnly (IsAskedListFault asked.given inputs.now at issuer)
        (AsksList asked inputs.now at issuer) result }
{
    let previous = match previous_of(inputs.previous, issuer, order.strict) {
        Ok(previous) => previous,
        Err(why) => return Err(why),
    };
    let wanted = wanted_list(alloc, order, inputs.revoked, issuer.as_cert().as_tbs(), at)?;
    let list = list_fields(alloc, issuer, previous, &wanted);
    drop(wanted);
    match list {
        Ok(list) => Ok(list),
        Err(error) => Err(unfit(error)),
    }
}

/// Returns the fields of the TBSCertList that the bytes are, or `None` if they aren't one.
///
/// # Errors
///
/// Returns an error only if memory runs out.
pub(crate) fn list_to_sign(
    alloc: Global,
    octets: &Bytes,
) -> Result<Option<TbsCertList<RevokedCertificates>>, AllocError>
    ensures { IfOk result (λ found. FindsOnly (λ f. IsTbsCertList f octets.now) found) }
{
    // Called for what it ensures alone.
    rpki_crl::laws::unambiguous();
    let mut cursor = Cursor::new(octets);
    match TbsCertList::take_from(alloc, &mut cursor) {
        Ok(list) => {
            if cursor.is_empty() {
                return Ok(Some(list));
            }
            drop(list);
            Ok(None)
        }
        Err(error) => {
            let is_memory = error.is_memory();
            drop(error);
            if is_memory { Err(AllocError) } else { Ok(None) }
        }
    }
}
