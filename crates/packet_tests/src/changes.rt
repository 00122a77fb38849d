use filter_rules::{Policy, RuleKey, RuleRow};
use std::test::Fail;
use xdp_state::{Change, Kind, Member, Mode, State};

#[test]
fn absorbs_a_filter_and_a_rule(rt: HostRuntime) -> Result<(), Fail> {
    let kind = Kind::Filter {
        policy: Policy::Allow,
        features: 16,
    };
    let mode = Mode::Native;
    let filter = Change::Attach {
        interface: 0,
        kind,
        priority: 10,
        rank: 0,
        mask: 4,
        mode,
    };
    let key = RuleKey::ether(0x0200_0000_0001);
    let mut state = State::new(rt.alloc())?;
    assert_eq!(rt; state.count(), 0);
    assert!(rt; state.takes(&filter));
    state.absorb(&filter);
    state.absorb(&Change::SetRule { key, flags: 2 });

    assert!(rt; !state.takes(&filter), "a second filter on the interface");
    state.absorb(&filter);
    assert_eq!(rt; state.count(), 2);
    let member = Member {
        priority: 10,
        rank: 0,
        number: 1,
        mask: 4,
        kind,
    };
    assert_eq!(rt; state.chain(0).members().copied().next(), Some(member));
    assert_eq!(rt; state.chain(0).len(), 1);
    assert_eq!(rt; (state.mode(0), state.mode(1)), (Some(mode), None));
    assert_eq!(rt; state.rules().len(), 1);
    assert_eq!(rt;
        state.rules().row(0),
        RuleRow {
            key,
            flags: 2,
            number: 2
        }
    );
    Ok(())
}
