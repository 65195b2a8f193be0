use crate::{
    Class, Classed, Decoder, Feature, Kind, Path, PathFault, Step, Steps, path_into, path_read,
    path_text,
};
use byte_kit::{Bytes, NoMemory};
use std::alloc::Global;
use std::test::Fail;

const BASE64: Step = Step {
    by: Decoder::Base64,
    at: 0,
};

const HEX: Step = Step {
    by: Decoder::Hex,
    at: 0,
};

const LAST: Step = Step {
    by: Decoder::Utf16,
    at: u64::MAX,
};

const XOR1: Step = Step {
    by: Decoder::Xor(1),
    at: 0,
};

const XOR255: Step = Step {
    by: Decoder::Xor(255),
    at: 10,
};

fn path(alloc: Global, top: u64, steps: &[Step]) -> Result<Path, NoMemory> {
    let mut list = Steps::make(alloc);
    for step in steps {
        list.add(*step)?;
    }
    Ok(Path { top, steps: list })
}

// A path's place, its steps, and its text.
type Row = (u64, &'static [Step], &'static [u8]);

const PATHS: &[Row] = &[
    (0, &[], b"0"),
    (100, &[BASE64], b"100-BASE64-0"),
    (u64::MAX, &[], b"18446744073709551615"),
    (12, &[LAST], b"12-UTF16-18446744073709551615"),
    (5, &[XOR1, XOR255], b"5-XOR1-0-XOR255-10"),
    (
        0,
        &[HEX, BASE64, HEX, HEX, HEX, HEX, HEX],
        b"0-HEX-0-BASE64-0-HEX-0-HEX-0-HEX-0-HEX-0-HEX-0",
    ),
];

// The path has this text.
fn has_text(alloc: Global, row: &Row) -> Result<bool, NoMemory> {
    let path = path(alloc, row.0, row.1)?;
    let text = path_text(alloc, &path)?;
    Ok(text.as_slice() == row.2)
}

// The text of the path behind another text.
fn appended(alloc: Global, row: &Row, front: &[u8]) -> Result<Vec<u8>, NoMemory> {
    let path = path(alloc, row.0, row.1)?;
    let mut line = Vec::from_slice(alloc, front)?;
    path_into(&path, &mut line)?;
    Ok(line)
}

// The text is appended to what stands there.
fn is_appended(alloc: Global, row: &Row) -> Result<bool, NoMemory> {
    let line = appended(alloc, row, b">")?;
    Ok(line.as_slice().strip_prefix(b">".as_slice()) == Some(row.2))
}

// The text is read back as the path.
fn is_read(alloc: Global, row: &Row) -> bool {
    match path_read(alloc, row.2) {
        Ok(read) => read.top == row.0 && read.steps.items() == row.1,
        Err(_) => false,
    }
}

#[test]
fn a_path_is_written_and_read_back(rt: HostRuntime) -> Result<(), Fail> {
    for row in PATHS {
        assert!(rt; has_text(rt.alloc(), row)?, "to {:?}", row.2);
        assert!(rt;
            is_appended(rt.alloc(), row)?,
            "behind a text, to {:?}",
            row.2
        );
        assert!(rt; is_read(rt.alloc(), row), "from {:?}", row.2);
    }
    Ok(())
}

// Why the text is no path.
fn fault_of(alloc: Global, text: &[u8]) -> Option<PathFault> {
    path_read(alloc, text).err()
}

const OTHERS: &[&[u8]] = &[
    b"",
    b"007",
    b"18446744073709551616",
    b"-",
    b"100-",
    b"-BASE64-0",
    b"100-BASE64",
    b"100-BASE64-",
    b"100-BASE64-00",
    b"100-BASE64-0-",
    b"100--0",
    b"100-BASE64-18446744073709551616",
    b"100 -BASE64-0",
    b"1000-GZIP-250",
    b"1-hex-0",
    b"1-BASE640-0",
    b"5-XOR-0",
    b"5-XOR0-0",
    b"5-XOR01-0",
    b"5-XOR256-0",
    b"0-HEX-0-HEX-0-HEX-0-HEX-0-HEX-0-HEX-0-HEX-0-HEX",
];

#[test]
fn other_texts_are_no_paths(rt: HostRuntime) {
    for text in OTHERS {
        assert!(rt;
            fault_of(rt.alloc(), text) == Some(PathFault::Form),
            "at {text:?}"
        );
    }
}

const EIGHT: &[u8] = b"0-HEX-0-HEX-0-HEX-0-HEX-0-HEX-0-HEX-0-HEX-0-HEX-0";

const NINE: &[u8] = b"7-HEX-0-HEX-0-HEX-0-HEX-0-HEX-0-HEX-0-HEX-0-HEX-0-XOR9-1";

#[test]
fn too_many_steps_are_counted(rt: HostRuntime) {
    for (text, steps) in [(EIGHT, 8), (NINE, 9)] {
        assert!(rt;
            fault_of(rt.alloc(), text) == Some(PathFault::Deep { steps }),
            "not {steps}"
        );
    }
}

fn domain(alloc: Global) -> Result<Classed, NoMemory> {
    let item = Feature {
        kind: Kind::Domain,
        path: path(alloc, 11, &[BASE64])?,
        feature: Bytes::copy(alloc, b"example.com")?,
        context: Bytes::copy(alloc, b"//example.com/")?,
    };
    Ok(Classed {
        class: Class::Alert,
        item,
    })
}

fn is_that_domain(classed: &Classed) -> bool {
    classed.class == Class::Alert
        && classed.item.kind == Kind::Domain
        && classed.item.kind.number() == 2
        && classed.item.path.steps.items() == [BASE64].as_slice()
        && classed.item.feature.as_slice() == b"example.com".as_slice()
}

#[test]
fn a_feature_keeps_what_it_was_made_of(rt: HostRuntime) -> Result<(), Fail> {
    let classed = domain(rt.alloc())?;
    assert!(rt; is_that_domain(&classed));
    Ok(())
}
