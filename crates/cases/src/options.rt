//! Options and numbers.
use layout::{Width, read, write};
use recording::{DictionaryHandling, IpcWriteOptions};

// The alignment that is set, or the number that a host is told.
fn aligned(alignment: usize) -> Result<usize, u32> {
    let options = IpcWriteOptions::try_new(alignment).map_err(|fault| fault.number())?;
    Ok(options.alignment())
}

#[test]
fn alignments(rt: HostRuntime) {
    for alignment in [8usize, 16, 32, 64] {
        assert_eq!(rt; aligned(alignment), Ok(alignment));
    }
    for alignment in [0usize, 1, 7, 9, 24, 63, 65, 128, 264, 320, usize::MAX] {
        assert_eq!(rt; aligned(alignment), Err(1));
    }
}

#[test]
fn defaults(rt: HostRuntime) {
    let options = IpcWriteOptions::default();
    assert_eq!(rt; options.alignment(), 64);
    assert_eq!(rt; options.dictionary_handling(), DictionaryHandling::Resend);
    assert_eq!(rt; options.error_on_replacement(), false);
    let delta = options
        .with_dictionary_handling(DictionaryHandling::Delta)
        .with_error_on_replacement(true);
    assert_eq!(rt; delta.dictionary_handling(), DictionaryHandling::Delta);
    assert_eq!(rt; delta.error_on_replacement(), true);
}

#[test]
fn numbers(rt: HostRuntime) {
    let mut bytes = [0x55u8; 10];
    write::<i64>(&mut bytes[1..], Width::Eight, -2);
    assert_eq!(rt; read::<i64>(&bytes[1..], Width::Eight), -2);
    assert_eq!(rt; read::<i64>(&bytes[1..], Width::One), -2);
    assert_eq!(rt; read::<u64>(&bytes[1..], Width::Two), 0xfffe);
    assert_eq!(rt; read::<u64>(&bytes, Width::Four), 0xffff_fe55);
    assert_eq!(rt; read::<i64>(&bytes[8..], Width::Two), 0x55ff);
}
