//! Decisions worked by hand, who is admitted, and the texts of faults.
use Decision::{Allowed, Denied};
use bsc_octets::{DeviceId, Identity, Vmac};
use bsc_policy::{Decision, Policy, PolicyFault};
use std::alloc::Global;
use std::process::Abort;
use std::test::*;
use uuid::Uuid;

/// The numbers of two controllers, an operator and two devices of a laboratory, and of one that is no member.
const A: u16 = 0x0A;

const B: u16 = 0x0B;

const C: u16 = 0x0C;

const D: u16 = 0x0D;

const E: u16 = 0x0E;

const NOBODY: u16 = 0x0F;

/// The members, each with its group.
const MEMBERS: [(u16, &str); 5] = [(A, "ctl"), (B, "ctl"), (C, "ops"), (D, "lab"), (E, "lab")];

/// The rules: whether they allow, from which group, and to which.
const RULES: [(bool, &str, &str); 5] = [
    (false, "ctl", "ops"),
    (true, "ops", "*"),
    (false, "*", "lab"),
    (true, "ctl", "ctl"),
    (true, "*", "ctl"),
];

/// A sender, a receiver, and what is decided.
const DECISIONS: [(u16, u16, Decision); 20] = [
    (A, B, Allowed { rule: 4 }),
    (B, A, Allowed { rule: 4 }),
    (A, A, Allowed { rule: 4 }),
    (A, C, Denied { rule: 1 }),
    (B, C, Denied { rule: 1 }),
    (C, A, Allowed { rule: 2 }),
    (C, C, Allowed { rule: 2 }),
    (C, D, Allowed { rule: 2 }),
    (A, D, Denied { rule: 3 }),
    (B, E, Denied { rule: 3 }),
    (D, E, Denied { rule: 3 }),
    (D, D, Denied { rule: 3 }),
    (D, A, Allowed { rule: 5 }),
    (E, B, Allowed { rule: 5 }),
    (D, C, Denied { rule: 0 }),
    (E, C, Denied { rule: 0 }),
    (A, NOBODY, Denied { rule: 0 }),
    (NOBODY, A, Denied { rule: 0 }),
    (NOBODY, NOBODY, Denied { rule: 0 }),
    (NOBODY, C, Denied { rule: 0 }),
];

/// The numbers of an address and of a device, and whether the device is admitted under it.
const ASKING: [(u16, u16, bool); 5] = [
    (A, A, true),
    (E, E, true),
    (B, A, false),
    (NOBODY, A, false),
    (A, NOBODY, false),
];

/// The device with a number, under the address with a number.
fn peer(at: u16, n: u16) -> Identity {
    let [at_high, at_low] = at.to_be_bytes();
    let [high, low] = n.to_be_bytes();
    Identity {
        vmac: Vmac([2, 0, 0, 0, at_high, at_low]),
        device: DeviceId(Uuid::from_bytes([
            0xDE, 0x71, 0xCE, 0, 0, 0, 0x40, 0, 0x80, 0, 0, 0, 0, 0, high, low,
        ])),
        max_bvlc: 1600,
        max_npdu: 1497,
    }
}

/// A policy of five members and five rules.
fn of_three_groups(alloc: Global) -> Result<Policy, PolicyFault> {
    let mut policy = Policy::make(alloc);
    for (n, group) in &MEMBERS {
        let it = peer(*n, *n);
        policy.member(it.device, it.vmac, *group)?;
    }
    for (allow, from, to) in &RULES {
        policy.rule(*allow, *from, *to)?;
    }
    Ok(policy)
}

/// What is decided is the same before a policy is settled and after.
#[test]
fn decides_by_the_first_rule_that_applies(rt: HostRuntime) -> Result<(), Fail> {
    let mut policy = of_three_groups(rt.alloc())?;
    for _ in 0..2 {
        for (from, to, decision) in &DECISIONS {
            let decided = policy.decides(peer(*from, 0).vmac, peer(*to, 0).vmac);
            assert_eq!(rt; decided, *decision, "from {from} to {to}");
        }
        let to_all = policy.decides(peer(A, 0).vmac, Vmac::BROADCAST);
        assert_eq!(rt; to_all, Denied { rule: 0 });
        policy.settle()?;
    }
    for (at, n, admitted) in &ASKING {
        assert!(rt; policy.admits(&peer(*at, *n)) == *admitted, "{n} at {at}");
    }
    Ok(())
}

/// A rule more and a member more count at once, and when the policy is settled again.
#[test]
fn a_rule_and_a_member_more_count(rt: HostRuntime) -> Result<(), Fail> {
    let mut policy = of_three_groups(rt.alloc())?;
    policy.settle()?;
    policy.rule(true, "lab", "ops")?;
    let another = peer(NOBODY, NOBODY);
    policy.member(another.device, another.vmac, "ctl")?;
    for _ in 0..2 {
        let to_operators = policy.decides(peer(D, 0).vmac, peer(C, 0).vmac);
        assert_eq!(rt; to_operators, Allowed { rule: 6 });
        let of_another = policy.decides(another.vmac, peer(A, 0).vmac);
        assert_eq!(rt; of_another, Allowed { rule: 4 });
        policy.settle()?;
    }
    Ok(())
}

/// The groups of as many members as are taken. Two that begin alike are two, however long they are.
const GROUPS: [&str; 8] = [
    "a",
    "b",
    "c",
    "d",
    "e",
    "f",
    "abcdefghijklmnop",
    "abcdefghijklmnopq",
];

/// As many members and rules as are taken, of which the last rule allows all, and one of each more. That there are so many is
/// said before that a member is there already.
#[test]
fn takes_1024_members_and_256_rules(rt: HostRuntime) -> Result<(), Fail> {
    let mut policy = Policy::make(rt.alloc());
    for n in 0..1024 {
        let it = peer(n, n);
        policy.member(it.device, it.vmac, GROUPS[usize::from(n % 8)])?;
    }
    let full: Result<(), PolicyFault> = Err(PolicyFault::Full { held: 1024 });
    let (more, again) = (peer(1024, 1024), peer(7, 7));
    assert!(rt; policy.member(more.device, more.vmac, "a") == full);
    assert!(rt; policy.member(again.device, again.vmac, "a") == full);
    policy.rule(false, "abcdefghijklmnop", "*")?;
    for _rule in 0..254 {
        policy.rule(false, "nobody", "*")?;
    }
    policy.rule(true, "*", "*")?;
    assert!(rt; policy.rule(false, "*", "*") == Err(PolicyFault::Full { held: 256 }));
    policy.settle()?;
    for n in 0..1024 {
        let (one, other, none) = (peer(n, n), peer(1023 - n, n), peer(1024 + n, n));
        let decision = if n % 8 == 6 {
            Denied { rule: 1 }
        } else {
            Allowed { rule: 256 }
        };
        assert_eq!(rt; policy.decides(one.vmac, other.vmac), decision);
        assert_eq!(rt; policy.decides(one.vmac, none.vmac), Denied { rule: 0 });
        assert_eq!(rt; policy.decides(none.vmac, one.vmac), Denied { rule: 0 });
        assert!(rt; policy.admits(&one) && !policy.admits(&none));
    }
    Ok(())
}

#[test]
fn texts(rt: HostRuntime) -> Result<(), Fail> {
    let text = format!(in rt.alloc();
        "{}; {}; {}",
        PolicyFault::Full { held: 256 },
        PolicyFault::Twice { member: 3 },
        PolicyFault::NoMemory
    )?;
    assert_eq!(rt;
        text.as_str(),
        "256 are held already; member 3 has this address or this device; out of memory"
    );
    Ok(())
}
