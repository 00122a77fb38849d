//! Verdicts and changes of rows, worked by hand.

use filter_rules::{FilterEnd, NoSuchRule, Policy, RuleKey, RuleRow, Rules, features, flags};
use net_headers::{Headers, Net, Ports};
use std::alloc::Global;
use std::process::Abort;
use std::test::Fail;
use xio::Action;

/// From 02:00:00:00:00:02 to 02:00:00:00:00:01.
const SOURCE: u64 = 0x0200_0000_0002;

const TARGET: u64 = 0x0200_0000_0001;

const SOURCE4: u32 = 0xC000_0201;

const TARGET4: u32 = 0xC633_6402;

/// From 192.0.2.1 to 198.51.100.2.
const V4: Net = Net::V4 {
    source: SOURCE4,
    target: TARGET4,
};

const SOURCE6: u128 = 0x2001_0DB8_0000_0000_0000_0000_0000_0001;

const TARGET6: u128 = 0x2001_0DB8_0000_0000_0000_0000_0000_0002;

/// From 2001:db8::1 to 2001:db8::2.
const V6: Net = Net::V6 {
    source: SOURCE6,
    target: TARGET6,
};

const TCP: Ports = Ports::Tcp {
    source: 12345,
    target: 443,
};

const UDP: Ports = Ports::Udp {
    source: 5353,
    target: 53,
};

fn headers(net: Net, ports: Ports) -> Headers {
    Headers {
        source: SOURCE,
        target: TARGET,
        ether_type: 0x0800,
        net,
        ports,
    }
}

fn hit(rule: u32, action: Action) -> FilterEnd {
    FilterEnd::Hit { rule, action }
}

fn miss(action: Action) -> FilterEnd {
    FilterEnd::Miss { action }
}

/// Each row alone decides the frame where the feature is on, and doesn't where its flag or the feature is off.
fn decides(
    rt: &impl Abort,
    alloc: Global,
    feature: u8,
    rows: &[(RuleKey, u8, Net, Ports)],
) -> Result<(), Fail> {
    for &(key, flag, net, ports) in rows {
        let frame = headers(net, ports);
        let mut rules = Rules::new(alloc)?;
        let others = key.kind.all_flags() & !flag;
        assert_eq!(rt; rules.add(key, others, 7), Ok(7));
        let passed = miss(Action::Pass);
        let dropped = miss(Action::Drop);
        assert_eq!(rt; rules.verdict(&frame, Policy::Allow, features::ALL), passed);
        assert_eq!(rt; rules.verdict(&frame, Policy::Deny, features::ALL), dropped);
        assert_eq!(rt; rules.add(key, flag, 8), Ok(7));
        let rest = features::ALL & !feature;
        assert_eq!(rt; rules.verdict(&frame, Policy::Allow, rest), passed);
        assert_eq!(rt; rules.verdict(&frame, Policy::Deny, rest), dropped);
        let named = |action| hit(7, action);
        assert_eq!(rt;
            rules.verdict(&frame, Policy::Allow, feature),
            named(Action::Drop)
        );
        assert_eq!(rt;
            rules.verdict(&frame, Policy::Deny, feature),
            named(Action::Pass)
        );
    }
    Ok(())
}

#[test]
fn addresses(rt: HostRuntime) -> Result<(), Fail> {
    let rows = [
        (RuleKey::ether(TARGET), flags::TARGET, V4, TCP),
        (RuleKey::ether(SOURCE), flags::SOURCE, V6, UDP),
    ];
    decides(&rt, rt.alloc(), features::ETHERNET, &rows)?;
    let rows = [
        (RuleKey::ip4(TARGET4), flags::TARGET, V4, TCP),
        (RuleKey::ip4(SOURCE4), flags::SOURCE, V4, UDP),
    ];
    decides(&rt, rt.alloc(), features::IPV4, &rows)?;
    let rows = [
        (RuleKey::ip6(TARGET6), flags::TARGET, V6, TCP),
        (RuleKey::ip6(SOURCE6), flags::SOURCE, V6, UDP),
    ];
    decides(&rt, rt.alloc(), features::IPV6, &rows)
}

#[test]
fn ports(rt: HostRuntime) -> Result<(), Fail> {
    let rows = [
        (RuleKey::port(443), flags::TARGET_TCP, V4, TCP),
        (RuleKey::port(12345), flags::SOURCE_TCP, V6, TCP),
    ];
    decides(&rt, rt.alloc(), features::TCP, &rows)?;
    let rows = [
        (RuleKey::port(53), flags::TARGET_UDP, V6, UDP),
        (RuleKey::port(5353), flags::SOURCE_UDP, V4, UDP),
    ];
    decides(&rt, rt.alloc(), features::UDP, &rows)
}

/// The first question that a row answers decides, and a header that isn't whole where it would be asked for.
#[test]
fn order(rt: HostRuntime) -> Result<(), Fail> {
    let mut rules = Rules::new(rt.alloc())?;
    assert_eq!(rt;
        rules.add(RuleKey::port(12345), flags::SOURCE_TCP, 1),
        Ok(1)
    );
    assert_eq!(rt; rules.add(RuleKey::port(443), flags::TARGET_TCP, 2), Ok(2));
    assert_eq!(rt; rules.add(RuleKey::ip4(SOURCE4), flags::SOURCE, 3), Ok(3));
    assert_eq!(rt; rules.add(RuleKey::ip4(TARGET4), flags::TARGET, 4), Ok(4));
    assert_eq!(rt; rules.add(RuleKey::ether(SOURCE), flags::SOURCE, 5), Ok(5));
    assert_eq!(rt; rules.add(RuleKey::ether(TARGET), flags::TARGET, 6), Ok(6));
    let named = |rule| hit(rule, Action::Drop);
    let missed = miss(Action::Pass);
    let rows = [
        (V4, TCP, features::ALL, named(6)),
        (V4, TCP, features::IP, named(4)),
        (V4, TCP, features::PORTS, named(2)),
        (V4, UDP, features::PORTS, missed),
        (V6, Ports::Absent, features::IP, missed),
        (Net::Absent, Ports::Absent, features::IP, missed),
        (Net::Cut, Ports::Absent, features::ALL, named(6)),
        (Net::Cut, Ports::Absent, features::TCP, FilterEnd::Cut),
        (Net::Cut, Ports::Absent, features::UDP, FilterEnd::Cut),
        (Net::Cut, Ports::Absent, features::IPV4, FilterEnd::Cut),
        (Net::Cut, Ports::Absent, features::IPV6, FilterEnd::Cut),
        (V4, Ports::Cut, features::IP, named(4)),
        (V6, Ports::Cut, features::TCP, FilterEnd::Cut),
        (V6, Ports::Cut, features::UDP, FilterEnd::Cut),
        (V6, Ports::Cut, features::IPV6, missed),
    ];
    for (net, ports, features, want) in rows {
        assert_eq!(rt;
            rules.verdict(&headers(net, ports), Policy::Allow, features),
            want
        );
    }
    let cut = headers(Net::Cut, Ports::Absent);
    assert_eq!(rt; rules.remove(RuleKey::ether(TARGET), flags::TARGET), Ok(()));
    assert_eq!(rt;
        rules.verdict(&cut, Policy::Deny, features::ETHERNET),
        hit(5, Action::Pass)
    );
    rules.clear();
    assert_eq!(rt;
        rules.verdict(&cut, Policy::Deny, features::ETHERNET),
        miss(Action::Drop)
    );
    assert_eq!(rt;
        rules.verdict(&cut, Policy::Deny, features::ALL),
        FilterEnd::Cut
    );
    Ok(())
}

#[test]
fn adds_flags_to_the_row_of_a_key(rt: HostRuntime) -> Result<(), Fail> {
    let key = RuleKey::ether(443);
    let other = RuleKey::port(443);
    let mut rules = Rules::new(rt.alloc())?;
    assert_eq!(rt; rules.len(), 0);
    assert_eq!(rt; rules.add(key, flags::SOURCE, 7), Ok(7));
    assert_eq!(rt; rules.add(key, flags::TARGET, 8), Ok(7));
    assert!(rt; !rules.contains(other));
    assert_eq!(rt; rules.add(other, flags::PORT, 9), Ok(9));
    assert_eq!(rt; rules.len(), 2);
    let row = RuleRow {
        key,
        flags: 3,
        number: 7,
    };
    assert_eq!(rt; rules.row(0), row);
    let row = RuleRow {
        key: other,
        flags: 15,
        number: 9,
    };
    assert_eq!(rt; rules.row(1), row);
    assert!(rt; rules.contains(key));
    Ok(())
}

#[test]
fn removes_flags_and_rows_without_flags(rt: HostRuntime) -> Result<(), Fail> {
    let key = RuleKey::port(53);
    let other = RuleKey::ether(SOURCE);
    let mut rules = Rules::new(rt.alloc())?;
    assert_eq!(rt; rules.remove(key, flags::PORT), Err(NoSuchRule));
    assert_eq!(rt;
        rules.add(key, flags::SOURCE_UDP | flags::TARGET_UDP, 1),
        Ok(1)
    );
    assert_eq!(rt; rules.add(other, flags::SOURCE, 2), Ok(2));
    assert_eq!(rt; rules.remove(key, flags::SOURCE_TCP), Err(NoSuchRule));
    assert_eq!(rt;
        rules.remove(key, flags::SOURCE_TCP | flags::SOURCE_UDP),
        Ok(())
    );
    let row = RuleRow {
        key,
        flags: flags::TARGET_UDP,
        number: 1,
    };
    assert_eq!(rt; rules.row(0), row);
    assert!(rt; !rules.has_rule(key, flags::SOURCE_UDP));
    assert!(rt; rules.has_rule(key, flags::PORT));
    assert_eq!(rt; rules.remove(key, flags::PORT), Ok(()));
    assert_eq!(rt; rules.len(), 1);
    assert_eq!(rt; rules.row(0).number, 2);
    assert_eq!(rt; rules.add(key, flags::TARGET_TCP, 3), Ok(3));
    rules.clear();
    assert_eq!(rt; rules.len(), 0);
    Ok(())
}
