use caf_finish::FinishEvent::{Ack, Complete, Leave, Relay, Stand, Take};
use caf_finish::{Audit, FinishEvent, Four, audit};
use std::test::Fail;

fn send(message: u32, origin: u32, target: u32, by: Option<u32>) -> FinishEvent {
    FinishEvent::Send {
        message,
        origin,
        target,
        by,
    }
}

// With the numbers sent, delivered, received and completed.
fn contribute(rank: u32, numbers: [u32; 4]) -> FinishEvent {
    let [sent, delivered, received, completed] = numbers;
    FinishEvent::Contribute(
        rank,
        Four {
            sent,
            delivered,
            received,
            completed,
        },
    )
}

fn result(rank: u32, sum: i64) -> FinishEvent {
    FinishEvent::Result(rank, sum)
}

// Rank 0 sends a message to rank 1, which contributes before it takes that.
fn two_ranks() -> [FinishEvent; 10] {
    [
        send(1, 0, 1, None),
        Stand(0),
        Stand(1),
        contribute(1, [0, 0, 0, 0]),
        Take(1),
        Ack(1),
        contribute(0, [1, 1, 0, 0]),
        Relay(0, 1),
        result(0, 1),
        result(1, 1),
    ]
}

// Three messages, each sent by the one before, while rank 1 lags by a wave; and all waves up to the last Leave. At first
// message 1 runs alone, and the sum is 1. In wave 1 rank 0 contributes before it takes message 2, so that the sum is 1
// again: of messages 1 and 2, which were stamped before their senders contributed, message 2 is missing at its target.
// Message 3 is odd in wave 1. In wave 2 all three are even and completed.
fn three_ranks() -> [FinishEvent; 42] {
    [
        send(1, 0, 2, None),
        Stand(0),
        Stand(1),
        Stand(2),
        contribute(1, [0, 0, 0, 0]),
        contribute(2, [0, 0, 0, 0]),
        Take(1),
        Ack(1),
        contribute(0, [1, 1, 0, 0]),
        Relay(0, 1),
        Relay(0, 2),
        result(0, 1),
        result(2, 1),
        contribute(0, [1, 1, 0, 0]),
        send(2, 2, 0, Some(1)),
        Take(2),
        send(3, 0, 1, Some(2)),
        result(1, 1),
        Take(3),
        Complete(3),
        Ack(3),
        Complete(2),
        Ack(2),
        Complete(1),
        contribute(1, [0, 0, 0, 0]),
        contribute(2, [1, 1, 1, 1]),
        Relay(0, 1),
        Relay(0, 2),
        result(0, 1),
        result(1, 1),
        result(2, 1),
        contribute(1, [0, 0, 1, 1]),
        contribute(2, [1, 1, 1, 1]),
        Relay(0, 1),
        Relay(0, 2),
        contribute(0, [2, 2, 1, 1]),
        result(0, 0),
        result(1, 0),
        Leave(0),
        result(2, 0),
        Leave(2),
        Leave(1),
    ]
}

#[test]
fn messages_that_run_are_counted(rt: HostRuntime) -> Result<(), Fail> {
    let alloc = rt.alloc();
    assert_eq!(rt; audit(alloc, 2, &two_ranks())?, Audit::Kept { running: 1 });
    let whole = three_ranks();
    assert_eq!(rt; audit(alloc, 3, &whole)?, Audit::Kept { running: 0 });
    for (length, running) in [
        (0, 0),
        (1, 1),
        (7, 1),
        (15, 2),
        (19, 3),
        (20, 2),
        (22, 1),
        (24, 0),
    ] {
        assert!(rt; length <= whole.len());
        assert_eq!(rt; audit(alloc, 3, &whole[..length])?, Audit::Kept { running });
    }
    Ok(())
}

#[test]
fn a_relay_is_of_one_wave(rt: HostRuntime) -> Result<(), Fail> {
    let alloc = rt.alloc();
    let early = [
        send(1, 0, 1, None),
        Stand(0),
        Stand(1),
        contribute(1, [0, 0, 0, 0]),
        Take(1),
        Ack(1),
        contribute(0, [1, 1, 0, 0]),
        Relay(0, 1),
        result(1, 1),
        Complete(1),
        contribute(1, [0, 0, 1, 1]),
        Relay(0, 1),
        result(0, 1),
    ];
    assert_eq!(rt; audit(alloc, 2, &early)?, Audit::Broken(11));
    let mut in_time = early;
    in_time[11] = early[12];
    in_time[12] = early[11];
    assert_eq!(rt; audit(alloc, 2, &in_time)?, Audit::Kept { running: 0 });
    Ok(())
}

#[test]
fn an_event_that_breaks_its_rule_is_found_at_its_place(rt: HostRuntime) -> Result<(), Fail> {
    let alloc = rt.alloc();
    let mut wrong_sum = two_ranks();
    wrong_sum[8] = result(0, 0);
    assert_eq!(rt; audit(alloc, 2, &wrong_sum)?, Audit::Broken(8));
    let broken = [
        // a rank that the team doesn't have, and one that stands
        (2, Stand(3)),
        (2, Stand(0)),
        // a number in use, ranks that the team doesn't have, and senders that may not send
        (14, send(1, 2, 0, Some(1))),
        (14, send(2, 3, 0, None)),
        (14, send(2, 2, 3, Some(1))),
        (14, send(2, 2, 0, None)),
        (14, send(2, 2, 0, Some(7))),
        (14, send(2, 1, 0, Some(1))),
        (15, send(3, 0, 1, Some(2))),
        (24, send(4, 2, 0, Some(1))),
        // a message that wasn't sent, one that was taken, and one of a later wave
        (6, Take(2)),
        (7, Take(1)),
        (17, Take(3)),
        // messages that weren't taken, and those that have what is given
        (6, Complete(1)),
        (20, Complete(3)),
        (6, Ack(1)),
        (21, Ack(3)),
        // a rank that the team doesn't have, and ranks that don't stand, are late, or have a result of 0
        (4, contribute(3, [0, 0, 0, 0])),
        (3, contribute(2, [0, 0, 0, 0])),
        (6, contribute(1, [0, 0, 0, 0])),
        (38, contribute(0, [2, 2, 1, 1])),
        // numbers that aren't the rank's, and messages that aren't delivered or completed
        (8, contribute(0, [0, 0, 0, 0])),
        (8, contribute(0, [1, 1, 1, 1])),
        (7, contribute(0, [1, 0, 0, 0])),
        (23, contribute(2, [1, 1, 1, 0])),
        // ranks that aren't parent and child, one that isn't late, and one that was relayed
        (9, Relay(1, 2)),
        (9, Relay(0, 0)),
        (9, Relay(0, 3)),
        (5, Relay(0, 2)),
        (10, Relay(0, 1)),
        // a rank that the team doesn't have, and one that isn't late
        (11, result(3, 1)),
        (12, result(0, 1)),
        // a rank that hasn't contributed, one that wasn't relayed, and other sums
        (35, result(1, -1)),
        (27, result(0, 1)),
        (28, result(0, 0)),
        (28, result(0, 2)),
        // a rank that the team doesn't have, ranks without a result of 0, and one that has left
        (38, Leave(3)),
        (4, Leave(0)),
        (36, Leave(0)),
        (39, Leave(0)),
    ];
    for (place, event) in broken {
        let mut events = three_ranks();
        assert!(rt; place < events.len());
        events[place] = event;
        assert_eq!(rt;
            audit(alloc, 3, &events)?,
            Audit::Broken(place),
            "{event:?}"
        );
    }
    Ok(())
}
