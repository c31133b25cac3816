//! The values of options: those of the requested certificate, and times.
ghost use Rattle.std.specs.Prelude.{◌≡◌, ◌≢◌, ◌≤◌, ◌⊎◌, length, option_map, Ok, Err, IfErr, IfOk};
ghost use Rattle.rpki_issuing.specs.BlockTexts.{AreListed};
ghost use Rattle.rpki_requests.specs.OptionValues.{GivesNumbers, GivesPlaces, GivesWanted, IsMomentSaid, SaysAtMostOnce, SaysOnce, given_alone};
ghost use Rattle.rpki_requests.specs.Refusals.{AnswersOnly};
ghost use Rattle.rpki_requests.specs.ToldRefusals.{IsOptionRefusal, IsValueOf};
ghost use Rattle.rpki_requests.specs.RequestWords.{given_values};
ghost use Rattle.rpki_requests.specs.RequestWords.Views.{asked_fields};
ghost use Rattle.rpki_requests.specs.declared.refusals.Refusal.TheVariants.{Memory};

use crate::refusals::Refusal;
use crate::words::{Order, Setting};
use rpki_blocks::{Bound, Resources};
use rpki_der::{Serial, Time};
use rpki_issuing::values::{AsTexts, BlockText, Textual, V4Texts, V6Texts, listed};
use rpki_issuing::wanted::{Numbers, Places, Wanted};
use rpki_parts::{Https, Rsync};
use rpki_text::moments;
use std::alloc::Global;

// The one value that an option is given, if it is given one.
fn value_of<'a>(
    alloc: Global,
    order: &Order<'a>,
    setting: Setting,
) -> Result<Option<&'a [u8]>, Refusal>
    ensures alone { let texts = given_values setting (asked_fields order.now).given in
        IfOk result (λ text. texts ≡ given_alone (option_map (λ t. t.now) text)) }
    ensures several { let texts = given_values setting (asked_fields order.now).given in
        IfErr result (λ why. why ≢ Memory → 2 ≤ length texts) }
    ensures told { IfErr result (IsValueOf setting) }
{
    let texts = order.values_of(alloc, setting)?;
    let found = match texts.as_slice() {
        [] => Ok(None),
        [text] => Ok(Some(*text)),
        _ => Err(Refusal::Value(setting)),
    };
    drop(texts);
    found
}

// What the one value of an option says, if it is given one.
pub(crate) fn at_most_once<T: Textual>(
    alloc: Global,
    order: &Order<'_>,
    setting: Setting,
) -> Result<Option<T>, Refusal>
    ensures { let texts = given_values setting (asked_fields order.now).given in
        AnswersOnly (IsValueOf setting) (SaysAtMostOnce T.is_text texts) result }
{
    let Some(text) = value_of(alloc, order, setting)? else {
        return Ok(None);
    };
    match T::from_text(alloc, text)? {
        Some(value) => Ok(Some(value)),
        None => Err(Refusal::Value(setting)),
    }
}

// What the one value of an option says.
fn once<T: Textual>(alloc: Global, order: &Order<'_>, setting: Setting) -> Result<T, Refusal>
    ensures { let texts = given_values setting (asked_fields order.now).given in
        AnswersOnly (IsValueOf setting) (SaysOnce T.is_text texts) result }
{
    match at_most_once::<T>(alloc, order, setting)? {
        Some(value) => Ok(value),
        None => Err(Refusal::Value(setting)),
    }
}

/// Returns the time that an option has as its value, if it is given.
///
/// # Errors
///
/// Returns an error if the value isn't a time or is given twice, and `Memory`.
pub fn named_moment(
    alloc: Global,
    order: &Order<'_>,
    setting: Setting,
) -> Result<Option<Time>, Refusal>
    ensures { let texts = given_values setting (asked_fields order.now).given in
        AnswersOnly (IsValueOf setting) (SaysAtMostOnce IsMomentSaid texts) result }
{
    let Some(text) = value_of(alloc, order, setting)? else {
        return Ok(None);
    };
    match moments::from_text(text) {
        Some(moment) => Ok(Some(moment)),
        None => Err(Refusal::Value(setting)),
    }
}

// The moment that an option names.
pub(crate) fn moment(alloc: Global, order: &Order<'_>, setting: Setting) -> Result<Time, Refusal>
    ensures { let texts = given_values setting (asked_fields order.now).given in
        AnswersOnly (IsValueOf setting) (SaysOnce IsMomentSaid texts) result }
{
    match named_moment(alloc, order, setting) {
        Ok(Some(moment)) => Ok(moment),
        Ok(None) => Err(Refusal::Value(setting)),
        Err(why) => Err(why),
    }
}

// What an option lists of a kind of numbers.
fn listed_of<B: Bound, T: BlockText<B>>(
    alloc: Global,
    order: &Order<'_>,
    setting: Setting,
) -> Result<Resources<B>, Refusal>
    ensures { let texts = given_values setting (asked_fields order.now).given in
        AnswersOnly (IsValueOf setting) (λ r. AreListed T.is_text r texts) result }
{
    let texts = order.values_of(alloc, setting)?;
    let found = listed::<B, T>(alloc, &texts);
    drop(texts);
    match found? {
        Some(resources) => Ok(resources),
        None => Err(Refusal::Value(setting)),
    }
}

// Two answers, or the refusal of one.
pub(crate) fn both<A: Drop, B: Drop>(
    first: Result<A, Refusal>,
    second: Result<B, Refusal>,
) -> Result<(A, B), Refusal>
    ensures both { IfOk result (λ r. (first ≡ Ok r.0) × (second ≡ Ok r.1)) }
    ensures refused { IfErr result (λ why. (first ≡ Err why) ⊎ (second ≡ Err why)) }
{
    match first {
        Ok(one) => match second {
            Ok(other) => Ok((one, other)),
            Err(why) => {
                drop(one);
                Err(why)
            }
        },
        Err(why) => {
            drop(second);
            Err(why)
        }
    }
}

// What is listed of each kind of numbers.
fn numbers(alloc: Global, order: &Order<'_>) -> Result<Numbers, Refusal>
    ensures { let given = (asked_fields order.now).given in
        AnswersOnly (IsOptionRefusal given) (GivesNumbers given) result }
{
    let v4 = listed_of::<_, V4Texts>(alloc, order, Setting::Ipv4);
    let v6 = listed_of::<_, V6Texts>(alloc, order, Setting::Ipv6);
    let systems = listed_of::<_, AsTexts>(alloc, order, Setting::AsNumbers);
    let addresses = both(v4, v6);
    let all = both(addresses, systems);
    match all {
        Ok((addresses, systems)) => {
            let (v4, v6) = addresses;
            Ok(Numbers { v4, v6, systems })
        }
        Err(why) => Err(why),
    }
}

// The URIs.
fn places(alloc: Global, order: &Order<'_>) -> Result<Places, Refusal>
    ensures { let given = (asked_fields order.now).given in
        AnswersOnly (IsOptionRefusal given) (GivesPlaces given) result }
{
    let repository = at_most_once::<Rsync>(alloc, order, Setting::Repository);
    let manifest = at_most_once::<Rsync>(alloc, order, Setting::Manifest);
    let object = at_most_once::<Rsync>(alloc, order, Setting::Object);
    let notify = at_most_once::<Https>(alloc, order, Setting::Notify);
    let issuer = at_most_once::<Rsync>(alloc, order, Setting::IssuerUri);
    let list = at_most_once::<Rsync>(alloc, order, Setting::CrlUri);
    let own = both(repository, manifest);
    let more = both(object, notify);
    let below = both(own, more);
    let above = both(issuer, list);
    let all = both(below, above);
    match all {
        Ok((below, above)) => {
            let (own, more) = below;
            let (repository, manifest) = own;
            let (object, notify) = more;
            let (issuer, list) = above;
            Ok(Places {
                repository,
                manifest,
                object,
                notify,
                issuer,
                list,
            })
        }
        Err(why) => Err(why),
    }
}

/// Returns the values of the options for a certificate.
///
/// # Errors
///
/// Returns the first option whose value isn't accepted, and `Memory`.
pub(crate) fn wanted(alloc: Global, order: &Order<'_>) -> Result<Wanted, Refusal>
    ensures { let given = (asked_fields order.now).given in
        AnswersOnly (IsOptionRefusal given) (GivesWanted given) result }
{
    let serial = match once::<Serial>(alloc, order, Setting::Serial) {
        Ok(serial) => serial,
        Err(why) => return Err(why),
    };
    let not_before = match moment(alloc, order, Setting::From) {
        Ok(from) => from,
        Err(why) => return Err(why),
    };
    let not_after = match moment(alloc, order, Setting::Until) {
        Ok(until) => until,
        Err(why) => return Err(why),
    };
    let numbers = numbers(alloc, order);
    let places = places(alloc, order);
    match both(numbers, places) {
        Ok((numbers, places)) => Ok(Wanted {
            serial,
            not_before,
            not_after,
            numbers,
            places,
        }),
        Err(why) => Err(why),
    }
}
