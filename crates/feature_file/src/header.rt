// The lines at the head of a report file.
ghost use Rattle.std.specs.Prelude.{◌≡◌, ◌++◌, take, vec_len, IfOk, IsSome, OnOk, OnErr};
ghost use Rattle.feature_file.specs.Files.{file_name_of};
ghost use Rattle.feature_file.specs.FeatureFile.{feature_header, header_of, histogram_header};

use crate::file_name;
use crate::files::is_histogram;
use byte_kit::{Bytes, NoMemory};
use std::alloc::Global;

/// The lines at the head of a report file that has a name, each with its LF: what the file is, and its
/// name, and in a feature file the columns. The one refusal is want of memory.
pub fn header_of(alloc: Global, file: u32) -> Result<Bytes, NoMemory>
    requires { IsSome (file_name_of file) }
    ensures { IfOk result (λ text. text ≡ header_of file) }
{
    let mut text = Vec::new(alloc);
    header_into(file, &mut text)?;
    Ok(Bytes::from(text))
}

/// Appends the lines at the head of a report file that has a name, as [`header_of`] gives them. The one
/// refusal is want of memory, which leaves the items as they were.
pub fn header_into(file: u32, into: &mut Vec<u8>) -> Result<(), NoMemory>
    requires { IsSome (file_name_of file) }
    ensures appended { OnOk result (into.new.items ≡ into.old.items ++ header_of file) }
    ensures same { OnErr result (into.new.items ≡ into.old.items) }
{
    let held = into.len();
    if let Err(refusal) = push_header(file, into) {
        into.truncate(held);
        return Err(refusal);
    }
    Ok(())
}

// Appends the header, or for want of memory some front of it.
#[tactic(auto, unfolding(crate::specs::FeatureFile::header_of))]
fn push_header(file: u32, into: &mut Vec<u8>) -> Result<(), NoMemory>
    requires { IsSome (file_name_of file) }
    ensures appended { OnOk result (into.new.items ≡ into.old.items ++ header_of file) }
    ensures front { take (vec_len into.old) into.new.items ≡ into.old.items }
{
    let Some(name) = file_name(file) else {
        unreachable!();
    };
    if is_histogram(file) {
        push_histogram_header(name, into)
    } else {
        push_feature_header(name, into)
    }
}

fn push_feature_header(name: &str, into: &mut Vec<u8>) -> Result<(), NoMemory>
    ensures appended { OnOk result (into.new.items ≡ into.old.items ++ feature_header name.now) }
    ensures front { take (vec_len into.old) into.new.items ≡ into.old.items }
{
    into.extend_from_slice(b"# triage feature file, format 1\n# file: ")?;
    into.extend_from_slice(name.as_bytes())?;
    into.extend_from_slice(b"\n# columns: path, feature, context\n")?;
    Ok(())
}

fn push_histogram_header(name: &str, into: &mut Vec<u8>) -> Result<(), NoMemory>
    ensures appended { OnOk result (into.new.items ≡ into.old.items ++ histogram_header name.now) }
    ensures front { take (vec_len into.old) into.new.items ≡ into.old.items }
{
    into.extend_from_slice(b"# triage histogram, format 1\n# file: ")?;
    into.extend_from_slice(name.as_bytes())?;
    into.extend_from_slice(b"\n")?;
    Ok(())
}
