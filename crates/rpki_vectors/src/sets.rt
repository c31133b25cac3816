//! Sets of addresses and of AS numbers.
use crate::answer::Answer;
use crate::show::{readable, stays};
use crate::words::{Words, decimal, hexadecimal};
use crate::writing::put_behind;
use rpki_blocks::{
    Addr, AsResources, Asn, Block, BlocksBuilder, Bound, Chain, Inherited, IpBlock, IpBlocks,
    IpResources, IssueError, Overclaim, Prefix, Resources,
};
use rpki_der::{Cursor, DecodeError};
use std::alloc::{AllocError, Global};

/// A kind of numbers that sets are made of.
pub trait Kind: Bound {
    /// Returns the number of a word; the greatest where it is too great.
    fn of(word: &str) -> Self;

    /// Appends the number.
    fn print(self, out: &mut Answer);

    /// Appends what only sets of this kind have.
    fn print_more(out: &mut Answer, set: &Chain<Self>);

    /// Appends the extension of what is listed.
    fn print_extension(
        out: &mut Answer,
        set: &Chain<Self>,
        listed: &Resources<Self>,
        mode: Overclaim,
    );
}

// IPv4 where the set is of whole IPv4 addresses.
fn four_of(out: &mut Answer, set: &IpBlocks) -> IpResources {
    if set.is_v4() {
        let copy = set.try_clone(out.alloc());
        Resources::blocks(or_empty(out, copy))
    } else {
        Resources::missing()
    }
}

impl Kind for Addr {
    fn of(word: &str) -> Addr {
        Addr::from(hexadecimal(word))
    }

    fn print(self, out: &mut Answer) {
        out.address(self.to_bits());
    }

    fn print_more(out: &mut Answer, set: &IpBlocks) {
        out.field("is-v4").yes(set.is_v4());
    }

    fn print_extension(out: &mut Answer, set: &IpBlocks, listed: &IpResources, mode: Overclaim) {
        let four = four_of(out, set);
        put_behind!(out, octets =>
            IpResources::encode_extension(out.alloc(), &mut octets, mode, &four, listed));
    }
}

impl Kind for Asn {
    fn of(word: &str) -> Asn {
        Asn::from(u32::try_from(decimal(word)).unwrap_or(u32::MAX))
    }

    fn print(self, out: &mut Answer) {
        out.number(self.into_u32());
    }

    fn print_more(_out: &mut Answer, _set: &Chain<Asn>) {}

    fn print_extension(out: &mut Answer, _set: &Chain<Asn>, listed: &AsResources, mode: Overclaim) {
        put_behind!(out, octets => listed.encode_extension(out.alloc(), &mut octets, mode));
    }
}

/// Appends the blocks of a set; `-` for none.
pub fn set<B: Kind>(out: &mut Answer, blocks: &Chain<B>) {
    let mut is_first = true;
    for block in blocks.iter() {
        if !is_first {
            out.text(",");
        }
        is_first = false;
        block.min().print(out);
        out.text("-");
        block.max().print(out);
    }
    if blocks.is_empty() {
        out.text("-");
    }
}

/// Appends `missing`, `inherited`, or the blocks of the set.
pub fn listed<B: Kind>(out: &mut Answer, resources: &Resources<B>) {
    if !resources.is_present() {
        out.text("missing");
    }
    if resources.is_inherited() {
        out.text("inherited");
    }
    if let Some(blocks) = resources.as_blocks() {
        set(out, blocks);
    }
}

// The ends of a block.
fn ends<B: Kind>(word: &str) -> (B, B) {
    match word.split_once('-') {
        Some((low, high)) => (B::of(low), B::of(high)),
        None => (B::of(word), B::of(word)),
    }
}

/// Returns the blocks `LOW-HIGH,..` of a word; `-` for none.
pub fn blocks<B: Kind>(alloc: Global, word: &str) -> Result<Vec<Block<B>>, AllocError> {
    let mut all: Vec<Block<B>> = Vec::new(alloc);
    if word != "-" && word != "none" {
        for pair in word.split(',') {
            all.push(Block::from(ends::<B>(pair)))?;
        }
    }
    Ok(all)
}

fn chain<B: Kind>(alloc: Global, word: &str) -> Result<Chain<B>, AllocError> {
    Chain::from_iter(alloc, blocks::<B>(alloc, word)?)
}

fn or_empty<B: Bound>(out: &mut Answer, found: Result<Chain<B>, AllocError>) -> Chain<B> {
    match found {
        Ok(blocks) => blocks,
        Err(_) => {
            out.fail();
            Chain::empty(out.alloc())
        }
    }
}

fn known<B: Kind>(out: &mut Answer, word: &str) -> Chain<B> {
    let found = chain::<B>(out.alloc(), word);
    or_empty(out, found)
}

/// Returns what a word lists: `inherit`, or blocks.
pub fn resources_of<B: Kind>(out: &mut Answer, word: &str) -> Resources<B> {
    if word == "inherit" {
        Resources::inherit()
    } else {
        Resources::blocks(known::<B>(out, word))
    }
}

/// Pushes the blocks of a word.
pub fn push_all<B: Kind>(
    alloc: Global,
    word: &str,
    builder: &mut BlocksBuilder<B>,
) -> Result<(), AllocError> {
    for block in blocks::<B>(alloc, word)? {
        builder.push(block)?;
    }
    Ok(())
}

fn built<B: Kind>(alloc: Global, word: &str) -> Result<Chain<B>, AllocError> {
    let mut builder = BlocksBuilder::new(alloc);
    push_all(alloc, word, &mut builder)?;
    builder.finalize()
}

fn shown<B: Kind>(out: &mut Answer, found: Result<Chain<B>, AllocError>) {
    match &found {
        Ok(blocks) => set(out, blocks),
        Err(_) => out.fail(),
    }
    drop(found);
}

fn contains<B: Kind>(out: &mut Answer, blocks: &Chain<B>, points: &str) {
    let mut is_first = true;
    for point in points.split(',') {
        if !is_first {
            out.text(",");
        }
        is_first = false;
        out.yes(blocks.contains(B::of(point)));
    }
}

fn given<B: Kind>(out: &mut Answer, found: Result<Chain<B>, IssueError>) {
    match &found {
        Ok(blocks) => set(out, blocks),
        Err(error) => out.name(error.name()),
    }
    drop(found);
}

fn issued<B: Kind>(out: &mut Answer, one: &Chain<B>, resources: &Resources<B>, mode: Overclaim) {
    let found = one.verify_issued(out.alloc(), resources, mode);
    given(out, found);
}

fn alone<B: Kind>(words: &Words<'_>, out: &mut Answer, one: &Chain<B>) {
    out.text("ok");
    set(out.field("set"), one);
    out.field("built");
    let found = built::<B>(out.alloc(), words.at(2));
    shown(out, found);
    out.field("is-empty").yes(one.is_empty());
    B::print_more(out, one);
    contains(out.field("contains"), one, words.at(4));
}

fn under<B: Kind>(out: &mut Answer, one: &Chain<B>, resources: &Resources<B>) {
    listed(out.field("listed"), resources);
    out.field("issued-refuse");
    issued(out, one, resources, Overclaim::Refuse);
    out.field("issued-trim");
    issued(out, one, resources, Overclaim::Trim);
    out.field("written-refuse");
    B::print_extension(out, one, resources, Overclaim::Refuse);
    out.field("written-trim");
    B::print_extension(out, one, resources, Overclaim::Trim);
}

fn both<B: Kind>(out: &mut Answer, one: &Chain<B>, other: &Chain<B>) {
    out.field("within").yes(one.is_encompassed(other));
    out.field("contains-all").yes(other.is_encompassed(one));
    out.field("common");
    let found = one.intersection(out.alloc(), other);
    shown(out, found);
    out.field("common-too");
    let found = other.intersection(out.alloc(), one);
    shown(out, found);
}

// The answers of two sets. Where memory runs out in between, they are asked once more, and have to
// answer as they would have; so are a set and what is listed.
fn compared<B: Kind>(out: &mut Answer, one: &Chain<B>, other: &Chain<B>) {
    let mut line = out.beside();
    both(&mut line, one, other);
    if line.has_failed() {
        line = out.beside();
        both(&mut line, one, other);
    }
    out.add(&line);
}

fn listed_under<B: Kind>(
    words: &Words<'_>,
    out: &mut Answer,
    one: &Chain<B>,
    resources: &Resources<B>,
) {
    let mut line = out.beside();
    alone(words, &mut line, one);
    under(&mut line, one, resources);
    if line.has_failed() {
        line = out.beside();
        alone(words, &mut line, one);
        under(&mut line, one, resources);
    }
    out.add(&line);
}

fn beside<B: Kind>(out: &mut Answer, one: &Chain<B>, found: Result<Chain<B>, Inherited>) {
    out.field("other");
    match found {
        Ok(other) => {
            set(out, &other);
            compared(out, one, &other);
            drop(other);
        }
        Err(error) => out.name(error.name()),
    }
}

// Two sets, and what is asked of them.
fn pair<B: Kind>(words: &Words<'_>, out: &mut Answer) {
    let one = known::<B>(out, words.at(2));
    let resources = resources_of::<B>(out, words.at(3));
    listed_under(words, out, &one, &resources);
    let found = Chain::from_resources(out.alloc(), resources);
    beside(out, &one, found);
    drop(one);
}

/// Answers about two sets of a kind.
pub fn sets(words: &Words<'_>, out: &mut Answer) {
    if words.is(1, "addresses") {
        pair::<Addr>(words, out);
    } else {
        pair::<Asn>(words, out);
    }
}

fn prefix_shown(out: &mut Answer, found: Result<IpBlocks, AllocError>) {
    match found {
        Ok(blocks) => {
            out.text("ok");
            set(out.field("set"), &blocks);
            Addr::print_more(out, &blocks);
        }
        Err(_) => out.fail(),
    }
}

fn prefix(out: &mut Answer, address: u128, len: u8) {
    if len <= 128 {
        let block = IpBlock::from(Prefix::new(address, len));
        let found = IpBlocks::from_iter(out.alloc(), [block]);
        prefix_shown(out, found);
    } else {
        out.text("unfit");
    }
}

/// Returns the mode's name.
pub fn mode(it: Overclaim) -> &'static str {
    match it {
        Overclaim::Refuse => "Refuse",
        Overclaim::Trim => "Trim",
    }
}

fn mode_of(out: &mut Answer, name: &str, found: Option<Overclaim>) {
    out.field(name).text(match found {
        Some(it) => mode(it),
        None => "none",
    });
}

fn overclaim(words: &Words<'_>, out: &mut Answer) {
    let octets = words.octets(out, 1);
    out.text("ok");
    mode_of(out, "policy", Overclaim::from_policy(&octets));
    mode_of(out, "ip-resources", Overclaim::from_ip_res(&octets));
    mode_of(out, "as-resources", Overclaim::from_as_res(&octets));
}

/// Returns the mode of a word.
pub fn named_mode(word: &str) -> Overclaim {
    if word == "Trim" {
        Overclaim::Trim
    } else {
        Overclaim::Refuse
    }
}

fn identifiers(out: &mut Answer, it: Overclaim) {
    out.text("ok");
    out.field("mode").text(mode(it));
    out.field("policy").octets(it.policy_id());
    out.field("ip-resources").octets(it.ip_res_id());
    out.field("as-resources").octets(it.as_res_id());
}

fn family(out: &mut Answer, it: Option<&IpResources>) {
    match it {
        Some(it) => listed(out, it),
        None => out.text("absent"),
    }
}

fn families_written(out: &mut Answer, v4: &IpResources, v6: &IpResources) {
    let mode = Overclaim::Refuse;
    put_behind!(out, "written", octets =>
        IpResources::encode_extension(out.alloc(), &mut octets, mode, v4, v6));
}

fn families_or_missing(out: &mut Answer, v4: Option<IpResources>, v6: Option<IpResources>) {
    let v4 = v4.unwrap_or(IpResources::missing());
    let v6 = v6.unwrap_or(IpResources::missing());
    families_written(out, &v4, &v6);
}

fn families(
    out: &mut Answer,
    found: Result<(Option<IpResources>, Option<IpResources>), DecodeError>,
) {
    let Some((v4, v6)) = readable(out, found) else {
        return;
    };
    family(out.field("v4-resources"), v4.as_ref());
    family(out.field("v6-resources"), v6.as_ref());
    families_or_missing(out, v4, v6);
}

fn numbers(out: &mut Answer, found: Result<AsResources, DecodeError>) {
    let Some(it) = readable(out, found) else {
        return;
    };
    listed(out.field("as-resources"), &it);
    put_behind!(out, "written", octets =>
        it.encode_extension(out.alloc(), &mut octets, Overclaim::Trim));
    drop(it);
}

fn read_addresses(words: &Words<'_>, out: &mut Answer) {
    let octets = words.bytes(out, 1);
    let mut cursor = Cursor::new(&octets);
    let found = IpResources::take_families_from(out.alloc(), &mut cursor);
    stays(out, &found, &cursor, 0);
    families(out, found);
    out.left(&cursor);
}

fn read_asns(words: &Words<'_>, out: &mut Answer) {
    let octets = words.bytes(out, 1);
    let mut cursor = Cursor::new(&octets);
    let found = AsResources::take_from(out.alloc(), &mut cursor);
    stays(out, &found, &cursor, 0);
    numbers(out, found);
    out.left(&cursor);
}

/// Answers a question of sets, a prefix or a mode. Returns whether the question is of one.
pub fn resources(words: &Words<'_>, out: &mut Answer) -> bool {
    match words.at(0) {
        "addresses" => read_addresses(words, out),
        "asns" => read_asns(words, out),
        "prefix" => prefix(out, hexadecimal(words.at(1)), words.small(2)),
        "overclaim" => overclaim(words, out),
        "mode" => identifiers(out, named_mode(words.at(1))),
        _ => return false,
    }
    true
}
