use bpf_machine::Cause;
use std::test::Fail;
use xdp_state::{HitRow, KeptFrame, Kind, Tally, Visit};
use xio::Action;

fn visit(action: Action, rule: Option<u32>) -> Visit {
    Visit {
        number: 1,
        kind: Kind::Program(0),
        action,
        cause: Cause::Exit,
        target: 0,
        rule,
        entry: KeptFrame::none(),
        exit: KeptFrame::none(),
    }
}

#[test]
fn counts_by_verdict_and_by_rule(rt: HostRuntime) -> Result<(), Fail> {
    let dropped = [visit(Action::Pass, Some(9)), visit(Action::Drop, Some(4))];
    let passed = [visit(Action::Pass, None)];
    let mut tally = Tally::new(rt.alloc());
    tally.add(&dropped, Action::Drop, 14)?;
    tally.add(&passed, Action::Pass, 60)?;
    let mut other = Tally::new(rt.alloc());
    other.add(&[visit(Action::Drop, Some(6))], Action::Drop, 20)?;
    other.add(&dropped[..1], Action::Pass, 14)?;
    other.add(&passed, Action::Redirect, u64::MAX)?;
    tally.merge(&other)?;
    tally.add(&passed, Action::Redirect, 1)?;
    assert_eq!(rt; tally.packets, [0, 2, 2, 0, 2]);
    assert_eq!(rt; tally.bytes, [0, 34, 74, 0, u64::MAX]);
    let rows = [(4, 1), (6, 1), (9, 2)].map(|(rule, hits)| HitRow { rule, hits });
    assert_eq!(rt; tally.hits.as_slice(), rows.as_slice());
    for (rule, hits) in [(3, 0), (4, 1), (5, 0), (6, 1), (9, 2), (10, 0)] {
        assert_eq!(rt; tally.hits_of(rule), hits);
    }
    Ok(())
}
