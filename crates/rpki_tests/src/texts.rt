//! What addresses, blocks and sets of them print.
ghost use Rattle.std.specs.Prelude.{◌≤◌};

use crate::checks::{check, check_shown};
use rpki_blocks::{Addr, AsBlock, AsBlocks, Asn, IpBlock, IpBlocks, Prefix};

fn v4(number: u32) -> Addr {
    Addr::from(u128::from(number) << 96)
}

// That each value prints the text behind it.
macro_rules! assert_all_shown {
    ($rt:ident: $($value:expr => $text:literal;)*) => {
        let alloc = $rt.alloc();
        $(check_shown(&$rt, alloc, &$value, $text);)*
    };
}

// Whole IPv4 addresses, from the one to the other.
fn v4_range(low: u32, high: u32) -> IpBlock {
    let last = (u128::from(high) << 96) + ((1 << 96) - 1);
    IpBlock::from((v4(low), Addr::from(last)))
}

fn v4_prefix(number: u32, len: u8) -> IpBlock
    requires { len ≤ 32 }
{
    IpBlock::from(Prefix::new(u128::from(number) << 96, len))
}

fn as_block(low: u32, high: u32) -> AsBlock {
    AsBlock::from((Asn::from(low), Asn::from(high)))
}

// The recommended text of each address (RFC 5952 4.1 to 4.3, and 5 of a mapped IPv4 address).
#[test]
fn addresses_print_as_recommended(rt: HostRuntime) {
    assert_all_shown! { rt:
        Addr::from(0x2001_0db8_0000_0000_0000_0000_0000_0001).to_v6() => "2001:db8::1";
        Addr::from(0x2001_0db8_0000_0000_0000_0000_0002_0001).to_v6() => "2001:db8::2:1";
        Addr::from(0x2001_0db8_0000_0001_0001_0001_0001_0001).to_v6() => "2001:db8:0:1:1:1:1:1";
        Addr::from(0x2001_0000_0000_0001_0000_0000_0000_0001).to_v6() => "2001:0:0:1::1";
        Addr::from(0x2001_0db8_0000_0000_0001_0000_0000_0001).to_v6() => "2001:db8::1:0:0:1";
        Addr::from(0x2001_0db8_aaaa_bbbb_cccc_dddd_eeee_0001).to_v6()
            => "2001:db8:aaaa:bbbb:cccc:dddd:eeee:1";
        Addr::from(0xffff_c000_0201).to_v6() => "::ffff:192.0.2.1";
        Addr::from(0).to_v6() => "::";
        v4(0xc000_0201).to_v4() => "192.0.2.1";
    }
}

#[test]
fn blocks_of_addresses_print(rt: HostRuntime) {
    assert_all_shown! { rt:
        v4_prefix(0xc000_0200, 24).display_v4() => "192.0.2.0/24";
        v4_prefix(0xc000_0201, 32).display_v4() => "192.0.2.1/32";
        v4_prefix(0, 0).display_v4() => "0.0.0.0/0";
        v4_range(0xc000_0201, 0xc000_0209).display_v4() => "192.0.2.1-192.0.2.9";
        v4_range(0xc000_0200, 0xc000_02ff).display_v4() => "192.0.2.0/24";
        v4_range(0xc000_0204, 0xc000_020b).display_v4() => "192.0.2.4-192.0.2.11";
    }
}

#[test]
fn blocks_of_long_addresses_print(rt: HostRuntime) {
    let low = 0x2001_0db8 << 96;
    assert_all_shown! { rt:
        IpBlock::from(Prefix::new(low, 32)).display_v6() => "2001:db8::/32";
        IpBlock::from(Prefix::new(low + 1, 128)).display_v6() => "2001:db8::1/128";
        IpBlock::from(Prefix::new(0, 0)).display_v6() => "::/0";
        IpBlock::from((Addr::from(low + 1), Addr::from(low + 0xa))).display_v6()
            => "2001:db8::1-2001:db8::a";
    }
}

#[test]
fn blocks_are_prefixes_or_not(rt: HostRuntime) {
    check(&rt, v4_prefix(0xc000_0200, 24).is_prefix(), "a prefix");
    check(
        &rt,
        v4_range(0xc000_0200, 0xc000_02ff).is_prefix(),
        "a prefix",
    );
    check(
        &rt,
        IpBlock::from(Prefix::new(0, 0)).is_prefix(),
        "a prefix",
    );
    check(
        &rt,
        IpBlock::from(Prefix::new(1, 128)).is_prefix(),
        "a prefix",
    );
    check(
        &rt,
        !v4_range(0xc000_0201, 0xc000_0209).is_prefix(),
        "no prefix",
    );
    check(
        &rt,
        !v4_range(0xc000_0204, 0xc000_020b).is_prefix(),
        "no prefix",
    );
}

#[test]
fn sets_of_addresses_print(rt: HostRuntime) {
    let alloc = rt.alloc();
    let none = IpBlocks::empty(alloc);
    check_shown(&rt, alloc, &none.as_v4(), "");
    check_shown(&rt, alloc, &none.as_v6(), "");
    let net = v4_prefix(0xc000_0200, 24);
    let some = v4_range(0x0a00_0001, 0x0a00_0002);
    let set = IpBlocks::from_iter(alloc, [net, some]).expect(&rt, "memory");
    let text = "10.0.0.1-10.0.0.2, 192.0.2.0/24";
    check_shown(&rt, alloc, &set.as_v4(), text);
    let one = IpBlock::from(Prefix::new(1, 128));
    let net = IpBlock::from(Prefix::new(0x2001_0db8 << 96, 32));
    let set = IpBlocks::from_iter(alloc, [net, one]).expect(&rt, "memory");
    check_shown(&rt, alloc, &set.as_v6(), "::1/128, 2001:db8::/32");
}

#[test]
fn as_numbers_print(rt: HostRuntime) {
    let alloc = rt.alloc();
    let one = as_block(65536, 65536);
    let several = as_block(64496, 64511);
    let set = AsBlocks::from_iter(alloc, [one, several]).expect(&rt, "memory");
    assert_all_shown! { rt:
        as_block(64496, 64496) => "AS64496";
        several => "AS64496-AS64511";
        as_block(0, 0xffff_ffff) => "AS0-AS4294967295";
        AsBlocks::empty(alloc) => "";
        set => "AS64496-AS64511, AS65536";
    }
}
