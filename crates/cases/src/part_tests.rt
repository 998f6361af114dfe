// Arbiters and memories through the code.
use arbiter::{Arbiter, FixedSlots, RoundRobin, WorkConserving, grants_until};
use memory::{Flat, FlatLines, Memory, Packed, write_and_read};
use model::{Core, Cores, Line, Lines};
use own_parts::{ControlFirst, Scratch};
use refusal::Reason;
use std::process::Abort;
use std::test::Fail;

const NO: Option<u8> = None;

const C0: Option<u8> = Some(0);

const C1: Option<u8> = Some(1);

const C2: Option<u8> = Some(2);

// One grant for each set of ready cores among three, from the same arbiter; bits of further cores change nothing.
fn granted<A: Arbiter + Copy>(rt: &impl Abort, arbiter: A, want: [Option<u8>; 8]) {
    for (ready, answer) in (0..8).zip(want) {
        let mut one = arbiter;
        assert_eq!(rt; one.grant(ready), answer);
        let mut other = arbiter;
        assert_eq!(rt; other.grant(0xf8 | ready), answer);
    }
}

#[test]
fn work_conserving_slots(rt: HostRuntime) -> Result<(), Fail> {
    let mut arbiter = WorkConserving::new(Cores::try_from(3)?);
    granted(&rt, arbiter, [NO, C0, C1, C0, C2, C0, C1, C0]);
    assert_eq!(rt; arbiter.grant(0), None);
    granted(&rt, arbiter, [NO, C0, C1, C1, C2, C2, C1, C1]);
    assert_eq!(rt; arbiter.grant(0), None);
    granted(&rt, arbiter, [NO, C0, C1, C0, C2, C2, C2, C2]);
    assert_eq!(rt; arbiter.grant(1), Some(0));
    granted(&rt, arbiter, [NO, C0, C1, C0, C2, C0, C1, C0]);
    assert_eq!(rt; arbiter.cores(), 3);
    Ok(())
}

#[test]
fn fixed_slots(rt: HostRuntime) -> Result<(), Fail> {
    let mut arbiter = FixedSlots::new(Cores::try_from(3)?);
    granted(&rt, arbiter, [NO, C0, NO, C0, NO, C0, NO, C0]);
    assert_eq!(rt; arbiter.grant(0), None);
    granted(&rt, arbiter, [NO, NO, C1, C1, NO, NO, C1, C1]);
    assert_eq!(rt; arbiter.grant(5), None);
    granted(&rt, arbiter, [NO, NO, NO, NO, C2, C2, C2, C2]);
    assert_eq!(rt; arbiter.grant(7), Some(2));
    granted(&rt, arbiter, [NO, C0, NO, C0, NO, C0, NO, C0]);
    assert_eq!(rt; arbiter.cores(), 3);
    Ok(())
}

#[test]
fn round_robin(rt: HostRuntime) -> Result<(), Fail> {
    let mut arbiter = RoundRobin::new(Cores::try_from(3)?);
    granted(&rt, arbiter, [NO, C0, C1, C0, C2, C0, C1, C0]);
    assert_eq!(rt; arbiter.grant(7), Some(0));
    granted(&rt, arbiter, [NO, C0, C1, C1, C2, C2, C1, C1]);
    assert_eq!(rt; arbiter.grant(0), None);
    granted(&rt, arbiter, [NO, C0, C1, C1, C2, C2, C1, C1]);
    assert_eq!(rt; arbiter.grant(2), Some(1));
    granted(&rt, arbiter, [NO, C0, C1, C0, C2, C2, C2, C2]);
    assert_eq!(rt; arbiter.grant(4), Some(2));
    granted(&rt, arbiter, [NO, C0, C1, C0, C2, C0, C1, C0]);
    assert_eq!(rt; arbiter.cores(), 3);
    Ok(())
}

#[test]
fn slots_rise_past_any_number(rt: HostRuntime) -> Result<(), Fail> {
    let mut arbiter = WorkConserving::new(Cores::try_from(7)?);
    for _ in 0..1000u32 {
        arbiter.grant(0);
    }
    assert_eq!(rt; arbiter.grant(0x7f), Some(6));
    Ok(())
}

#[test]
fn waits_of_cores(rt: HostRuntime) -> Result<(), Fail> {
    let cores = Cores::try_from(8)?;
    assert_eq!(rt; grants_until(&mut RoundRobin::new(cores), 0xff, 7), Some(8));
    assert_eq!(rt; grants_until(&mut FixedSlots::new(cores), 0x80, 7), Some(8));
    assert_eq!(rt;
        grants_until(&mut WorkConserving::new(cores), 0x80, 7),
        Some(1)
    );
    assert_eq!(rt;
        grants_until(&mut ControlFirst::new(cores), 0xff, 7),
        Some(16)
    );
    assert_eq!(rt;
        grants_until(&mut ControlFirst::new(cores), 0xff, 0),
        Some(1)
    );
    assert_eq!(rt; grants_until(&mut RoundRobin::new(cores), 0x7f, 7), None);
    assert_eq!(rt; grants_until(&mut RoundRobin::new(cores), 0xff, 8), None);
    Ok(())
}

#[test]
fn an_arbiter_of_ones_own(rt: HostRuntime) -> Result<(), Fail> {
    let mut arbiter = ControlFirst::new(Cores::try_from(3)?);
    for core in 0..3u8 {
        assert_eq!(rt; arbiter.grant(7), Some(0));
        assert_eq!(rt; arbiter.grant(7), Some(core));
    }
    granted(&rt, arbiter, [NO, C0, NO, C0, NO, C0, NO, C0]);
    Ok(())
}

#[test]
fn numbers_of_cores_and_lines(rt: HostRuntime) -> Result<(), Fail> {
    assert_eq!(rt; Cores::try_from(8)?.count, 8);
    assert_eq!(rt; Lines::try_from(64)?.count, 64);
    for wrong in [0, 9, 256] {
        assert_eq!(rt; Cores::try_from(wrong), Err(Reason::CoreCount.at(0)));
    }
    for wrong in [0, 65, 320] {
        assert_eq!(rt; Lines::try_from(wrong), Err(Reason::LineCount.at(0)));
    }
    assert!(rt; FlatLines::<64>::check().is_ok());
    assert!(rt; FlatLines::<1>::check().is_ok());
    assert!(rt; FlatLines::<0>::check().is_err());
    assert!(rt; FlatLines::<65>::check().is_err());
    Ok(())
}

// What a developer sees of them has the names that callers use.
#[test]
fn checked_numbers_print_by_name(rt: HostRuntime) -> Result<(), Fail> {
    let heap = rt.alloc();
    let cores = Cores::try_from(8)?;
    let lines = Lines::try_from(64)?;
    let counts = format!(in heap; "{cores:?} {lines:?}")?;
    assert_eq!(rt; counts.as_str(), "Cores { count: 8 } Lines { count: 64 }");
    let core = Core::check(7, cores)?;
    let line = Line::check(63, lines)?;
    let one = format!(in heap; "{core:?} {line:?}")?;
    assert_eq!(rt; one.as_str(), "Core { number: 7 } Line { number: 63 }");
    Ok(())
}

// Every word is 0; then two lines are written, one of them twice, and a line that is not there.
fn kept<M: Memory>(rt: &impl Abort, memory: &mut M, lines: u8) {
    assert_eq!(rt; memory.lines(), lines);
    for line in 0..255u8 {
        assert_eq!(rt; memory.read(line), 0);
    }
    assert_eq!(rt; write_and_read(memory, 3, 7), 7);
    assert_eq!(rt; write_and_read(memory, 1, 9), 9);
    assert_eq!(rt; write_and_read(memory, 3, 5), 5);
    assert_eq!(rt; write_and_read(memory, lines, 8), 0);
    assert_eq!(rt; write_and_read(memory, 255, 8), 0);
    assert_eq!(rt; memory.read(1), 9);
    assert_eq!(rt; memory.read(3), 5);
    assert_eq!(rt; memory.read(2), 0);
    assert_eq!(rt; memory.lines(), lines);
}

#[test]
fn memories_keep_words(rt: HostRuntime) -> Result<(), Fail> {
    let mut words = [0u32; 4];
    let mut flat = Flat::new(&mut words, FlatLines::check()?);
    kept(&rt, &mut flat, 4);
    let lent: &[u32] = flat.into_words();
    assert_eq!(rt; lent, [0, 9, 0, 5].as_slice());
    assert_eq!(rt; words, [0, 9, 0, 5]);
    kept(&rt, &mut Packed::new(Lines::try_from(4)?), 4);
    kept(&rt, &mut Packed::new(Lines::try_from(64)?), 64);
    kept(&rt, &mut Scratch::filled(0), 16);
    Ok(())
}

#[test]
fn only_words_that_are_not_0_are_packed(rt: HostRuntime) -> Result<(), Fail> {
    let mut packed = Packed::new(Lines::try_from(64)?);
    packed.write(63, 1);
    packed.write(0, 2);
    packed.write(9, 3);
    assert_eq!(rt; packed.bits(), (1 << 63) + (1 << 9) + 1);
    assert_eq!(rt; packed.kept(), [2, 3, 1].as_slice());
    packed.write(9, 0);
    assert_eq!(rt; packed.bits(), (1 << 63) + 1);
    assert_eq!(rt; packed.kept(), [2, 1].as_slice());
    Ok(())
}
