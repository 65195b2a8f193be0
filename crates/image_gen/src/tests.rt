use crate::image_of_seed;
use byte_kit::NoMemory;
use std::test::Fail;

// A seed, the number of a block, and what the block holds ahead of its zeros.
static FRONTS: &[(u64, u64, &[u8])] = &[
    (7, 0, b"Seen at http://h487.example/i-374 and kept.\n"),
    (
        7,
        1,
        b"S2VwdCBsaW5rIGh0dHA6Ly9oODA0LmV4\r\nYW1wbGUvaS05NTUgaW4gdGhpcyBub3Rl\r\nLg==\r\n",
    ),
    (
        7,
        2,
        b"L\0i\0n\0k\0 \0h\0t\0t\0p\0:\0/\0/\0h\03\04\06\0.\0e\0x\0a\0m\0p\0l\0e\0/\0i\0-\06\00\09\0",
    ),
    (
        7,
        3,
        b"\x02\0\0\0\0\x01\x02\0\0\0\0\x02\x08\0E\0\0\x1c\0\0@\0@\x11M\xa9\xc0\0\x02\xcb\xc63d)",
    ),
    (7, 4, b""),
    (7, 5, b"\x7fELF\x02\x01\x01\0\0\0\0\0\0\0\0\0\x02\0>\0"),
    (7, 6, b"\x1f\x8b\x08\0"),
    (
        7,
        7,
        b"4c696e6b20687474703a2f2f683138322e6578616d706c652f692d333839",
    ),
    (7, 8, b"Seen at http://h985.example/i-077 and kept.\n"),
    (0, 0, b"Seen at http://h535.example/i-607 and kept.\n"),
    (
        0,
        3,
        b"\x02\0\0\0\0\x01\x02\0\0\0\0\x02\x08\0E\0\0\x1c\0\0@\0@\x11M0\xc0\0\x02\xec\xc63d\x81",
    ),
    (
        u64::MAX,
        0,
        b"Seen at http://h936.example/i-443 and kept.\n",
    ),
    (
        u64::MAX,
        3,
        b"\x02\0\0\0\0\x01\x02\0\0\0\0\x02\x08\0E\0\0\x1c\0\0@\0@\x11MI\xc0\0\x02\xd2\xc63d\x82",
    ),
    (
        7,
        16383,
        b"4c696e6b20687474703a2f2f683539312e6578616d706c652f692d393334",
    ),
];

// The block is what it holds, and zeros.
fn is_filled(block: &[u8], front: &[u8]) -> bool {
    for at in 0..block.len() {
        let byte = if at < front.len() { front[at] } else { 0 };
        if block[at] != byte {
            return false;
        }
    }
    block.len() >= front.len()
}

#[test]
fn each_block_holds_what_its_word_says(rt: HostRuntime) -> Result<(), NoMemory> {
    for (seed, number, front) in FRONTS {
        let image = image_of_seed(rt.alloc(), *seed, 4096 * (*number + 1))?;
        let ahead = 4096 * *number as usize;
        assert_eq!(rt; image.len(), ahead + 4096);
        assert!(rt; is_filled(image.as_slice().split_at(ahead).1, front));
    }
    Ok(())
}

#[test]
fn a_smaller_image_is_the_front_of_a_larger_one(rt: HostRuntime) -> Result<(), NoMemory> {
    let whole = image_of_seed(rt.alloc(), 7, 32768)?;
    for size in &[0, 1, 4095, 4096, 4097, 32768] {
        let image = image_of_seed(rt.alloc(), 7, *size)?;
        assert_eq!(rt; image.len() as u64, *size);
        assert!(rt; whole.as_slice().starts_with(image.as_slice()));
    }
    Ok(())
}
