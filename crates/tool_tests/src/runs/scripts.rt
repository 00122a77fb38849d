use super::{STEADY, replay, run};
use std::test::Fail;

/// A script, and the status, out and trace of its run.
#[derive(Clone, Copy)]
struct Script {
    text: &'static str,
    status: u8,
    out: &'static str,
    trace: &'static str,
}

/// A rule on the target address.
const ADDRESS: Script = Script {
    text: "interface eth0 1
xdp-filter load eth0
xdp-filter ether 02:00:00:00:00:01
packet eth0 0 02000000000102000000000288b5
packet eth0 0 02000000000302000000000288b5
",
    status: 0,
    out: "2 ok 1
3 ok 2
4 handed 1
5 handed 1
end 2
  cpu 0 eth0/0 packets 2 bytes 28 aborted 0 drop 1 pass 1 tx 0 redirect 0
",
    trace: "xdptrace 1
phase 0
0 0 2 drop 0 14 02000000000102000000000288b5
0 1 2 pass 0 14 02000000000302000000000288b5
end
",
};

/// TCP from port 53 to port 8080, and a row whose flags come and go.
const PORT: Script = Script {
    text: "interface eth0 1
xdp-filter load eth0
xdp-filter port 53 -m dst -p tcp
xdp-filter port 53 -m src -p tcp
xdp-filter port 53 -r -m dst -p tcp
packet eth0 0 02000000000102000000000208004500002800000000400600000a0000010a00000200351f9000000000000000000000000000000000
barrier
xdp-filter status
xdp-filter port 53 -r -m src,dst
xdp-filter port 53 -r
xdp-filter port 53
xdp-filter status
",
    status: 1,
    out: "2 ok 1
3 ok 2
4 ok 3
5 ok 4
6 handed 1
7 barrier 4
  cpu 0 eth0/0 packets 1 bytes 54 aborted 0 drop 1 pass 0 tx 0 redirect 0
8 ok
  eth0 allow tcp,udp,ipv4,ipv6,ethernet
  port 53 src-tcp #2 hits 1
  aborted 0 0
  drop 1 54
  pass 0 0
  tx 0 0
  redirect 0 0
9 ok 5
10 refused no such rule
11 ok 6
12 ok
  eth0 allow tcp,udp,ipv4,ipv6,ethernet
  port 53 dst-tcp,dst-udp #6 hits 0
  aborted 0 0
  drop 1 54
  pass 0 0
  tx 0 0
  redirect 0 0
end 6
  cpu 0 eth0/0 packets 1 bytes 54 aborted 0 drop 1 pass 0 tx 0 redirect 0
",
    trace: "xdptrace 1
phase 0
0 0 4 drop 0 54 02000000000102000000000208004500002800000000400600000a0000010a00000200351f9000000000000000000000000000000000
phase 1
end
",
};

/// A TCP header cut short, a later fragment, and a rule that no filter has the feature for.
const FRAMES: Script = Script {
    text: "interface eth0 1
interface eth1 1
interface eth2 1
xdp-filter load eth0 -p deny
packet eth0 0 02000000000102000000000208004500002800000000400600000a0000010a00000200351f
xdp-filter load eth1
xdp-filter port 53 -m src
packet eth1 0 02000000000102000000000208004500002800000001400600000a0000010a00000200351f9000000000000000000000000000000000
xdp-filter unload eth1
xdp-filter unload eth0
xdp-filter load eth2 -f ethernet
xdp-filter port 53
",
    status: 1,
    out: "4 ok 1
5 handed 1
6 ok 2
7 ok 3
8 handed 1
9 ok 4
10 ok 5
11 ok 6
12 refused feature missing
end 6
  cpu 0 eth0/0 packets 1 bytes 37 aborted 1 drop 0 pass 0 tx 0 redirect 0
  cpu 1 eth1/0 packets 1 bytes 54 aborted 0 drop 0 pass 1 tx 0 redirect 0
  cpu 2 eth2/0 packets 0 bytes 0 aborted 0 drop 0 pass 0 tx 0 redirect 0
",
    trace: "xdptrace 1
phase 0
0 0 1 aborted 0 37 02000000000102000000000208004500002800000000400600000a0000010a00000200351f
1 0 3 pass 0 54 02000000000102000000000208004500002800000001400600000a0000010a00000200351f9000000000000000000000000000000000
end
",
};

/// The rules after each kind of change, and each other refusal.
const CHANGES: Script = Script {
    text: "# two interfaces, of which the first has two queues
interface eth0 2
interface eth1 1

xdp-filter ether 02:00:00:00:00:01
xdp-filter load eth2
xdp-filter unload eth0
xdp-filter load eth0 -f ethernet -m skb
xdp-filter load eth0
xdp-filter load eth1 -p deny
xdp-filter ether 02:00:00:00:00:01
packet eth0 1 02000000000102000000000288b5
packet eth1 0 02000000000102000000000288b5
xdp-filter status
barrier
xdp-filter unload eth0
xdp-filter status
xdp-filter unload eth1 -k
xdp-filter load eth0 -f ipv6
xdp-filter status
",
    status: 1,
    out: "5 refused filter not there
6 refused no such interface
7 refused filter not there
8 ok 1
9 refused filter there
10 ok 2
11 ok 3
12 handed 1
13 handed 1
14 ok
  eth0 allow ethernet
  eth1 deny tcp,udp,ipv4,ipv6,ethernet
  ether 02:00:00:00:00:01 dst #3 hits 0
  aborted 0 0
  drop 0 0
  pass 0 0
  tx 0 0
  redirect 0 0
15 barrier 3
  cpu 0 eth0/0 packets 0 bytes 0 aborted 0 drop 0 pass 0 tx 0 redirect 0
  cpu 1 eth0/1 packets 1 bytes 14 aborted 0 drop 1 pass 0 tx 0 redirect 0
  cpu 2 eth1/0 packets 1 bytes 14 aborted 0 drop 0 pass 1 tx 0 redirect 0
16 ok 4
17 ok
  eth1 deny tcp,udp,ipv4,ipv6,ethernet
  ether 02:00:00:00:00:01 dst #3 hits 2
  aborted 0 0
  drop 1 14
  pass 1 14
  tx 0 0
  redirect 0 0
18 ok 5
19 ok 6
20 ok
  eth0 allow ipv6
  ether 02:00:00:00:00:01 dst #3 hits 2
  aborted 0 0
  drop 1 14
  pass 1 14
  tx 0 0
  redirect 0 0
end 6
  cpu 0 eth0/0 packets 0 bytes 0 aborted 0 drop 0 pass 0 tx 0 redirect 0
  cpu 1 eth0/1 packets 1 bytes 14 aborted 0 drop 1 pass 0 tx 0 redirect 0
  cpu 2 eth1/0 packets 1 bytes 14 aborted 0 drop 0 pass 1 tx 0 redirect 0
",
    trace: "xdptrace 1
phase 0
1 0 3 drop 0 14 02000000000102000000000288b5
2 0 3 pass 0 14 02000000000102000000000288b5
phase 1
end
",
};

const EMPTY: Script = Script {
    text: "",
    status: 0,
    out: "end 0\n",
    trace: "xdptrace 1\nphase 0\nend\n",
};

/// A dump that is turned on and off, and each of these where it isn't taken.
const DUMPS: Script = Script {
    text: "interface eth0 1
xdpdump stop eth0
xdpdump start eth0 -p xdp_filter --rx-capture entry,exit
xdpdump start eth0
xdp-filter load eth0
packet eth0 0 02000000000102000000000288b5
xdpdump stop eth0
",
    status: 1,
    out: "2 refused dump not there
3 ok 1
4 refused dump there
5 ok 2
6 handed 1
7 ok 3
end 3
  cpu 0 eth0/0 packets 1 bytes 14 aborted 0 drop 0 pass 1 tx 0 redirect 0
",
    trace: "xdptrace 1
phase 0
0 0 2 pass 0 14 02000000000102000000000288b5
end
",
};

#[test]
fn runs_scripts(rt: HostRuntime) -> Result<(), Fail> {
    for script in [ADDRESS, PORT, FRAMES, CHANGES, EMPTY, DUMPS] {
        let run = run(rt.alloc(), &["--trace", "t", "s"], script.text, STEADY)?;
        assert!(rt; run.ended_so(script.status, 0));
        assert!(rt; run.said(script.out, ""));
        assert!(rt; run.traced(Some(script.trace)));
    }
    Ok(())
}

#[test]
fn replays_its_own_trace(rt: HostRuntime) -> Result<(), Fail> {
    for script in [ADDRESS, PORT, FRAMES, CHANGES, EMPTY, DUMPS] {
        let run = replay(rt.alloc(), script.text, script.trace)?;
        assert!(rt; run.ended_so(script.status, 0) && run.said(script.out, ""));
    }
    Ok(())
}
