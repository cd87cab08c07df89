// Loads and stores at the edges of memories, and sections against the rules.
use crate::fence::Fence;
use crate::flat::Flat;
use crate::memory::Memory;
use crate::section::Section;
use crate::sectioned::Sectioned;
use operations::Refusal;
use std::test::Fail;

// The word, or a thousand and the number of the refusal.
fn loaded<M: Memory>(memory: &M, address: u32) -> u32 {
    match memory.load(address) {
        Ok(word) => word,
        Err(refusal) => 1000 + refusal.number() as u32,
    }
}

// The number of the refusal; 0 where it is taken.
fn stored<M: Memory>(memory: &mut M, address: u32, value: u32) -> u8 {
    match memory.store(address, value) {
        Ok(()) => 0,
        Err(refusal) => refusal.number(),
    }
}

fn section(offset: u32, length: u64) -> Section {
    Section { offset, length }
}

#[test]
fn flat(rt: HostRuntime) {
    let mut words: [u32; 3] = [10, 11, 12];
    let mut memory = Flat { words: &mut words };
    assert_eq!(rt; stored(&mut memory, 8, 7), 0);
    assert_eq!(rt; stored(&mut memory, 6, 7), 14);
    assert_eq!(rt; stored(&mut memory, 12, 7), 14);
    assert_eq!(rt; loaded(&memory, 4), 11);
    assert_eq!(rt; loaded(&memory, 6), 1014);
    assert_eq!(rt; loaded(&memory, 8), 7);
    assert_eq!(rt; loaded(&memory, 12), 1014);
}

#[test]
fn fenced(rt: HostRuntime) -> Result<(), Fail> {
    let mut words: [u32; 4] = [10, 11, 12, 13];
    let mut flat = Flat { words: &mut words };
    let Ok(mut memory) = Fence::over(&mut flat, section(4, 8)) else {
        return Err(Fail::new("a right section is refused"));
    };
    assert_eq!(rt; stored(&mut memory, 0, 7), 0);
    assert_eq!(rt; stored(&mut memory, 4, 7), 15);
    assert_eq!(rt; stored(&mut memory, 6, 7), 14);
    assert_eq!(rt; stored(&mut memory, 8, 7), 15);
    assert_eq!(rt; stored(&mut memory, 12, 7), 0);
    assert_eq!(rt; loaded(&memory, 8), 12);
    assert!(rt; Fence::over(&mut flat, section(4, 0)).is_err());
    Ok(())
}

#[test]
fn sectioned(rt: HostRuntime) -> Result<(), Fail> {
    let mut words: [u32; 3] = [10, 11, 12];
    let sections = [section(8, 8), section(4294967292, 4)];
    let Ok(mut memory) = Sectioned::over(&sections, &mut words) else {
        return Err(Fail::new("right sections are refused"));
    };
    assert_eq!(rt; loaded(&memory, 4), 1014);
    assert_eq!(rt; loaded(&memory, 8), 10);
    assert_eq!(rt; loaded(&memory, 10), 1014);
    assert_eq!(rt; loaded(&memory, 12), 11);
    assert_eq!(rt; loaded(&memory, 16), 1014);
    assert_eq!(rt; stored(&mut memory, 16, 7), 14);
    assert_eq!(rt; stored(&mut memory, 4294967292, 7), 0);
    assert_eq!(rt; loaded(&memory, 4294967292), 7);
    assert_eq!(rt; words[2], 7);
    Ok(())
}

fn refused(sections: &[Section]) -> bool {
    let mut words: [u32; 3] = [0, 0, 0];
    Sectioned::over(sections, &mut words).is_err()
}

#[test]
fn wrong_sections(rt: HostRuntime) {
    assert!(rt; !refused(&[section(0, 4), section(4, 8)]));
    assert!(rt; !refused(&[]));
    assert!(rt; refused(&[section(2, 4)]));
    assert!(rt; refused(&[section(4, 6)]));
    assert!(rt; refused(&[section(4, 0)]));
    assert!(rt; refused(&[section(0, 8), section(4, 4)]));
    assert!(rt; refused(&[section(4, 4), section(0, 4)]));
    assert!(rt; refused(&[section(4294967292, 8)]));
    assert!(rt; refused(&[section(0, 16)]));
    assert!(rt; refused(&[section(0, 0); 17]));
}
