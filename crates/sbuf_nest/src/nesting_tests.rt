use crate::Trail;
use byte_kit::NoMemory;
use forensic_path::{Decoder, Step};
use std::alloc::Global;
use std::test::Fail;

const BASE64_0: Step = Step {
    by: Decoder::Base64,
    at: 0,
};

const VIEW_0: Step = Step {
    by: Decoder::Xor(255),
    at: 0,
};

const VIEW_7: Step = Step {
    by: Decoder::Xor(255),
    at: 7,
};

const HEX_12: Step = Step {
    by: Decoder::Hex,
    at: 12,
};

// A place in the buffer that the trail leads to has this path: a place in the image, and steps.
fn has_path(
    trail: &Trail,
    alloc: Global,
    place: u64,
    want: (u64, &[Step]),
) -> Result<bool, NoMemory> {
    let path = trail.path_at(alloc, place)?;
    Ok(path.top == want.0 && path.steps.items() == want.1)
}

// `12`, and `100-BASE64-0`.
#[test]
fn a_path_begins_in_the_image(rt: HostRuntime) -> Result<(), Fail> {
    let mut trail = Trail::make(rt.alloc(), 2)?;
    assert!(rt; trail.turns().is_empty());
    assert!(rt; has_path(&trail, rt.alloc(), 12, (12, &[]))?);
    trail.push(100, Decoder::Base64);
    assert!(rt; has_path(&trail, rt.alloc(), 0, (100, &[BASE64_0]))?);
    assert!(rt; !trail.has_xor());
    Ok(())
}

// `0-XOR255-0-HEX-12`, and `0-XOR255-7` when the last turn is taken away.
#[test]
fn a_trail_goes_back_turn_by_turn(rt: HostRuntime) -> Result<(), Fail> {
    let mut trail = Trail::make(rt.alloc(), 2)?;
    trail.push(0, Decoder::Xor(255));
    trail.push(0, Decoder::Hex);
    assert!(rt; has_path(&trail, rt.alloc(), 12, (0, &[VIEW_0, HEX_12]))?);
    assert!(rt; trail.has_xor());
    trail.pop();
    assert!(rt; has_path(&trail, rt.alloc(), 7, (0, &[VIEW_7]))?);
    assert!(rt; trail.has_xor());
    trail.pop();
    assert!(rt; trail.turns().is_empty() && !trail.has_xor());
    Ok(())
}

#[test]
fn a_trail_that_is_cleared_has_its_room_again(rt: HostRuntime) -> Result<(), Fail> {
    let mut trail = Trail::make(rt.alloc(), 2)?;
    trail.push(5, Decoder::Xor(1));
    trail.push(6, Decoder::Utf16);
    trail.clear();
    assert!(rt; has_path(&trail, rt.alloc(), 9, (9, &[]))?);
    trail.push(0, Decoder::Xor(255));
    trail.push(0, Decoder::Hex);
    assert!(rt; has_path(&trail, rt.alloc(), 12, (0, &[VIEW_0, HEX_12]))?);
    Ok(())
}
