use crate::{Class, Counters, Four, class};
use std::test::Fail;

#[test]
fn only_the_epoch_of_late_senders_in_the_present_wave_is_odd(rt: HostRuntime) -> Result<(), Fail> {
    for (epoch, wave, want) in [
        (0, 0, Class::Even),
        (1, 0, Class::Odd),
        (1, 1, Class::Even),
        (2, 1, Class::Even),
        (3, 1, Class::Odd),
        (3, 2, Class::Even),
    ] {
        assert!(rt; wave < 3);
        assert!(rt; epoch <= 2 * wave + 1);
        assert_eq!(rt; class(epoch, wave), want, "epoch {epoch} in wave {wave}");
    }
    Ok(())
}

#[test]
fn odd_counts_wait_for_the_next_wave(rt: HostRuntime) -> Result<(), Fail> {
    let mut counters = Counters::new();
    counters.sent(Class::Even);
    assert!(rt; !counters.quiet());
    counters.delivered(Class::Even);
    assert!(rt; counters.quiet());
    counters.received(Class::Odd);
    counters.completed(Class::Odd);
    assert!(rt; counters.quiet());
    let given = counters.contribute();
    assert_eq!(rt;
        (given.sent, given.delivered, given.received, given.completed),
        (1, 1, 0, 0)
    );
    counters.fold();
    let both = Four {
        sent: 1,
        delivered: 1,
        received: 1,
        completed: 1,
    };
    assert_eq!(rt; counters.contribute(), both);
    assert_eq!(rt; counters.odd, Counters::new().odd);
    Ok(())
}
