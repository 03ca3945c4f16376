// Recordings and the text that listening makes of them.
use listening::text::listen;
use std::alloc::Global;
use std::test::Fail;

// Four ALIGN(0) sent from minus, in records of 120 and 40 bits.
const FOUR_ALIGNS: [u8; 32] = [
    120, 0x3E, 0x95, 0x55, 0x54, 0x9C, 0x3E, 0x95, 0x55, 0x54, 0x9C, 0x3E, 0x95, 0x55, 0x54, 0x9C,
    40, 0x3E, 0x95, 0x55, 0x54, 0x9C, 0, 0, 0, 0, 0, 0, 0, 0, 0, 0,
];

// What is printed for a recording, a fault too.
fn printed(bytes: &[u8], heap: Global) -> Result<String, Fail> {
    match listen(bytes, heap) {
        Ok(text) => Ok(text),
        Err(fault) => Ok(fault.to_string(heap)?),
    }
}

#[test]
fn four_aligns_gain_sync(rt: HostRuntime) -> Result<(), Fail> {
    let text = printed(&FOUR_ALIGNS, rt.alloc())?;
    assert_eq!(rt; text.as_str(), "gained\ndword 0 1 BC 4A 4A 7B\nend 160\n");
    Ok(())
}

#[test]
fn turned_bit_shows_later(rt: HostRuntime) -> Result<(), Fail> {
    // the third ALIGN(0) ends in a character that is still valid, and the next K28.5 is refused for it
    let mut bytes = FOUR_ALIGNS;
    bytes[15] = 0x9D;
    let text = printed(&bytes, rt.alloc())?;
    assert_eq!(rt; text.as_str(), "gained\nbad 0 1\nend 160\n");
    Ok(())
}

#[test]
fn turned_bit_slips(rt: HostRuntime) -> Result<(), Fail> {
    // the second ALIGN(0) has a character that is in no column
    let mut bytes = FOUR_ALIGNS;
    bytes[7] = 0x15;
    let text = printed(&bytes, rt.alloc())?;
    assert_eq!(rt; text.as_str(), "slip\nend 160\n");
    Ok(())
}

#[test]
fn faults_are_printed_whole(rt: HostRuntime) -> Result<(), Fail> {
    let mut bytes = FOUR_ALIGNS;
    assert_eq!(rt; printed(&bytes[0..31], rt.alloc())?.as_str(), "refused 15");
    bytes[16] = 39;
    assert_eq!(rt; printed(&bytes, rt.alloc())?.as_str(), "gained\nend 159\n");
    bytes[16] = 37;
    assert_eq!(rt; printed(&bytes, rt.alloc())?.as_str(), "refused 17 1");
    bytes[16] = 121;
    assert_eq!(rt; printed(&bytes, rt.alloc())?.as_str(), "refused 16 1");
    Ok(())
}
