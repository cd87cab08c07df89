// What the sources answer at the ends of the bounds and of the turns.
use crate::longest::Longest;
use crate::source::Latencies;
use crate::stepped::Stepped;
use blocks::Bounds;
use std::test::Fail;

const LAST: u32 = 4294967295;

fn between(shortest: u8, longest: u8) -> Result<Bounds, Fail> {
    Bounds::new(shortest, longest).map_err(|_| Fail::new("there are such bounds"))
}

// One turn, and what is answered after it.
fn turn_and_ask<S: Latencies + Drop>(mut source: S, operation: u8, bounds: Bounds) -> u8 {
    source.turn();
    source.ask(operation, bounds)
}

#[test]
fn stepped(rt: HostRuntime) -> Result<(), Fail> {
    let one = between(3, 3)?;
    let three = between(2, 4)?;
    let all = between(1, 31)?;
    let mut source = Stepped::new();
    assert_eq!(rt; source.ask(0, one), 3);
    assert_eq!(rt; source.ask(255, one), 3);
    assert_eq!(rt; source.ask(0, three), 2);
    assert_eq!(rt; source.ask(2, three), 4);
    assert_eq!(rt; source.ask(3, three), 2);
    assert_eq!(rt; source.ask(30, all), 31);
    assert_eq!(rt; source.ask(31, all), 1);
    source.turn();
    assert_eq!(rt; source.turns, 1);
    assert_eq!(rt; source.ask(0, one), 3);
    assert_eq!(rt; source.ask(0, three), 3);
    assert_eq!(rt; source.ask(2, three), 2);
    assert_eq!(rt; source.ask(255, all), 9);
    assert_eq!(rt; turn_and_ask(&mut source, 0, three), 4);
    assert_eq!(rt; source.turns, 2);
    Ok(())
}

#[test]
fn stepped_at_the_last_turn(rt: HostRuntime) -> Result<(), Fail> {
    let one = between(31, 31)?;
    let three = between(2, 4)?;
    let all = between(1, 31)?;
    let mut source = Stepped { turns: LAST };
    assert_eq!(rt; source.ask(255, one), 31);
    assert_eq!(rt; source.ask(0, three), 2);
    assert_eq!(rt; source.ask(1, three), 3);
    assert_eq!(rt; source.ask(0, all), 4);
    assert_eq!(rt; source.ask(255, all), 11);
    source.turn();
    assert_eq!(rt; source.turns, 0);
    assert_eq!(rt; source.ask(1, three), 3);
    Ok(())
}

#[test]
fn longest(rt: HostRuntime) -> Result<(), Fail> {
    let one = between(1, 1)?;
    let three = between(2, 4)?;
    assert_eq!(rt; Longest.ask(0, one), 1);
    assert_eq!(rt; Longest.ask(255, three), 4);
    assert_eq!(rt; turn_and_ask(Longest, 0, three), 4);
    Ok(())
}
