use crate::Lists;
use byte_kit::{NoMemory, dec_into};
use forensic_path::Class;
use std::alloc::Global;
use std::test::Fail;

// A list as it stands, a feature, its context, and whether an entry of the list meets them.
const ROWS: &[(&[u8], &[u8], &[u8], bool)] = &[
    (b"", b"", b"", false),
    // LF, CR LF, CR CR LF, and a last line without an end
    (b"a\nb", b"b", b"", true),
    (b"a\nb", b"a\nb", b"", false),
    (b"a\r\nb\r\n", b"a", b"", true),
    (b"a\r\nb\r\n", b"a\r", b"", false),
    (b"a\r\r\nb", b"a\r", b"", true),
    (b"a\r\r\nb", b"a", b"", false),
    (b"a\nb\r", b"b", b"", true),
    // lines that name nothing
    (b"\n\r\n\na\n", b"", b"", false),
    (b"\n\r\n\na\n", b"a", b"", true),
    (b"#a\n", b"#a", b"", false),
    (b"#a\n", b"a", b"", false),
    (b" #a\n", b" #a", b"", true),
    (b"\\x23a\n", b"#a", b"", true),
    // a feature, and a feature in a context
    (b"a\n", b"a", b"any", true),
    (b"a\n", b"aa", b"any", false),
    (b"a\n", b"", b"a", false),
    (b"a\tb\n", b"a", b"b", true),
    (b"a\tb\n", b"a", b"bb", false),
    (b"a\tb\n", b"a", b"", false),
    (b"a\tb\n", b"ab", b"", false),
    (b"a\tb\n", b"b", b"a", false),
    (b"a\tb\na\n", b"a", b"c", true),
    // a TAB with nothing on one side of it, or on either
    (b"\t\n", b"", b"", true),
    (b"\t\n", b"", b"a", false),
    (b"a\t\n", b"a", b"", true),
    (b"a\t\n", b"a", b"b", false),
    (b"\ta\n", b"", b"a", true),
    // three fields, and more
    (b"4\ta\tb\n", b"a", b"b", true),
    (b"4\ta\tb\n", b"4", b"a", false),
    (b"4\ta\tb\n", b"b", b"b", false),
    (b"4\ta\tb\tc\n", b"a", b"b", true),
    (b"4\ta\tb\tc\n", b"a", b"b\tc", false),
    (b"\t\t\n", b"", b"", true),
    // escapes are read once the fields are cut, and what is none stands for itself
    (b"\\x41\n", b"A", b"", true),
    (b"\\x4\n", b"\\x4", b"", true),
    (b"a\\x09b\\x0a\t\\x5Cx41\n", b"a\tb\n", b"\\x41", true),
    (b"\\xff\n", b"\xff", b"", true),
    (b"a\x00b\n", b"a\x00b", b"", true),
    // a line of a report
    (
        b"# triage feature file, format 1\n# file: url.txt\n4\thttp://a.b/\tsee http://a.b/\\x0A\n",
        b"http://a.b/",
        b"see http://a.b/\n",
        true,
    ),
    (
        b"# triage feature file, format 1\n# file: url.txt\n4\thttp://a.b/\tsee http://a.b/\\x0A\n",
        b"http://a.b/",
        b"http://a.b/",
        false,
    ),
];

// The class of a feature in a context under a stop list and an alert list.
fn class_under(
    alloc: Global,
    stop: &[u8],
    alert: &[u8],
    feature: &[u8],
    context: &[u8],
) -> Result<Class, NoMemory> {
    let lists = Lists::read(alloc, stop, alert)?;
    Ok(lists.class_of(feature, context))
}

#[test]
fn a_line_names_a_feature_and_maybe_its_context(rt: HostRuntime) -> Result<(), Fail> {
    for &(list, feature, context, is_met) in ROWS {
        let class = class_under(rt.alloc(), list, b"", feature, context)?;
        assert!(rt;
            (class == Class::Stopped) == is_met,
            "at {list:?} {feature:?}"
        );
        assert!(rt;
            (class == Class::Plain) != is_met,
            "at {list:?} {feature:?}"
        );
    }
    Ok(())
}

#[test]
fn an_alert_list_is_read_alike(rt: HostRuntime) -> Result<(), Fail> {
    for &(list, feature, context, is_met) in ROWS {
        let class = class_under(rt.alloc(), b"", list, feature, context)?;
        assert!(rt;
            (class == Class::Alert) == is_met,
            "at {list:?} {feature:?}"
        );
        assert!(rt;
            (class == Class::Plain) != is_met,
            "at {list:?} {feature:?}"
        );
    }
    Ok(())
}

// A stop list, an alert list, and the class of the domain of `see http://example.com/a b` under them.
const BOTH: &[(&[u8], &[u8], Class)] = &[
    (b"example.com", b"example.com", Class::Alert),
    (
        b"example.com\tsee http://example.com/a b",
        b"example.com",
        Class::Alert,
    ),
    (
        b"example.com\tsee http://example.com/a b",
        b"",
        Class::Stopped,
    ),
    (b"example.com", b"example.com\tother", Class::Stopped),
    (b"example.com\tother", b"example.org", Class::Plain),
];

#[test]
fn an_alert_beats_a_stop(rt: HostRuntime) -> Result<(), Fail> {
    for &(stop, alert, class) in BOTH {
        let context = b"see http://example.com/a b";
        let found = class_under(rt.alloc(), stop, alert, b"example.com", context)?;
        assert!(rt; found == class, "at {stop:?} {alert:?}");
    }
    Ok(())
}

// A list of so many numbers, each in a context that is the number.
fn numbers(alloc: Global, count: u64) -> Result<Vec<u8>, NoMemory> {
    let mut list = Vec::new(alloc);
    for number in 0..count {
        dec_into(number, &mut list)?;
        list.extend_from_slice(b"\t")?;
        dec_into(number, &mut list)?;
        list.extend_from_slice(b"\n")?;
    }
    Ok(list)
}

// The list has the number in the context of itself, and in no other.
fn is_stopped(alloc: Global, lists: &Lists, number: u64) -> Result<bool, NoMemory> {
    let mut text = Vec::new(alloc);
    dec_into(number, &mut text)?;
    let text = text.as_slice();
    Ok(lists.class_of(text, text) == Class::Stopped && lists.class_of(text, b"") == Class::Plain)
}

#[test]
fn each_entry_of_a_long_list_is_found(rt: HostRuntime) -> Result<(), Fail> {
    let list = numbers(rt.alloc(), 3_000)?;
    let lists = Lists::read(rt.alloc(), list.as_slice(), b"")?;
    for number in 0..6_000u64 {
        let is_stopped = is_stopped(rt.alloc(), &lists, number)?;
        assert!(rt; is_stopped == (number < 3_000), "at {number}");
    }
    Ok(())
}
