// The text of a call: the line of a refusal, or what a scan that is done has found.
ghost use Rattle.std.specs.Prelude.{◌≡◌, ◌++◌, IfOk, IfErr, IfSome, OnOk, Some};
ghost use Rattle.std.specs.String.{string_bytes};
ghost use Rattle.byte_kit.specs.Counts.{Rose};
ghost use Rattle.host_source.specs.Sink.{Takes};
ghost use Rattle.triage_run.specs.Kept.{KeepsSink};
ghost use Rattle.triage_run.specs.Status.{IfDone, IsRefusal, EndsAs, scanned_as};
ghost use Rattle.triage_run.specs.Text.{counts_text, counts_told, file_line, line_of, text_of, IsPut, IsPutInPart};
ghost use Rattle.triage_run.specs.declared.status.Status.{Status};

use crate::status::{List, ReadPlace, Status, Unbuilt};
use crate::summary::{FileLines, Summary};
use byte_kit::NoMemory;
use feature_file::file_name;
use host_source::{Sink, SinkFault};
use scan_settings::Why;
use std::alloc::{AllocError, Global};
use std::fmt;
use std::fmt::Write;

// A bad word, counted from 0.
#[derive(Clone, Copy)]
struct BadWord {
    word: u32,
    why: Why,
}

impl fmt::Display for BadWord {
    ghost use Rattle.std.specs.Prelude.{Some};
    ghost use Rattle.triage_run.specs.Text.{word_text};

    ghost output = { λ bad. Some (word_text bad.word bad.why) };

    fn fmt<W: fmt::Write>(&self, f: &mut fmt::Formatter<W>) -> fmt::Result {
        write!(f, "word {}: {}", self.word, self.why.text())
    }
}

impl fmt::Display for List {
    ghost use Rattle.std.specs.Prelude.{Some};
    ghost use Rattle.triage_run.specs.Text.{list_text};

    ghost output = { λ list. Some (list_text list) };

    fn fmt<W: fmt::Write>(&self, f: &mut fmt::Formatter<W>) -> fmt::Result {
        f.write_str(match self {
            List::Stop => "stop",
            List::Alert => "alert",
        })
    }
}

impl fmt::Display for ReadPlace {
    ghost use Rattle.std.specs.Prelude.{Some};
    ghost use Rattle.triage_run.specs.Text.{place_text};

    ghost output = { λ place. Some (place_text place) };

    fn fmt<W: fmt::Write>(&self, f: &mut fmt::Formatter<W>) -> fmt::Result {
        match self {
            ReadPlace::StopList => f.write_str("stop list"),
            ReadPlace::AlertList => f.write_str("alert list"),
            ReadPlace::Image => f.write_str("image"),
            ReadPlace::Page(page) => write!(f, "page {page}"),
        }
    }
}

impl fmt::Display for Unbuilt {
    ghost use Rattle.std.specs.Prelude.{Some};
    ghost use Rattle.triage_run.specs.Text.{unbuilt_text};

    ghost output = { λ what. Some (unbuilt_text what) };

    fn fmt<W: fmt::Write>(&self, f: &mut fmt::Formatter<W>) -> fmt::Result {
        f.write_str(match self {
            Unbuilt::Log => "log",
        })
    }
}

// The line of a refusal, with its LF. Its one refusal is want of memory.
fn line_of(alloc: Global, refusal: Status) -> Result<String, AllocError>
    ensures { IfOk result (λ line. string_bytes line ≡ line_of refusal) }
{
    match refusal {
        Status::Done | Status::OutFault => Ok(String::new(alloc)),
        Status::Usage { word, why } => {
            let bad = BadWord { word, why };
            format!(in alloc; "usage: {bad}\n")
        }
        Status::ListTooLong { list, size } => {
            format!(in alloc; "list too long: {list} {size}\n")
        }
        Status::ReadFault { place } => format!(in alloc; "read fault: {place}\n"),
        Status::PatternRefused { index } => format!(in alloc; "pattern refused: {index}\n"),
        Status::TooManyPages { pages } => format!(in alloc; "too many pages: {pages}\n"),
        Status::DiskFault => String::from_str(alloc, "disk fault\n"),
        Status::NoMemory => String::from_str(alloc, "no memory\n"),
        Status::NotYet { what } => format!(in alloc; "not yet: {what}\n"),
    }
}

// The text of what was found. Its one refusal is want of memory.
#[tactic(auto, unfolding(crate::specs::Text::counts_text))]
fn found_text(alloc: Global, found: &Summary) -> Result<String, AllocError>
    ensures { IfOk result (λ text. string_bytes text ≡ counts_text found.now) }
{
    let (pages, features) = (found.pages(), found.features());
    let mut text = format!(in alloc; "done pages={pages} features={features}\n")?;
    for file in found.files() {
        push_file(*file, &mut text)?;
    }
    Ok(text)
}

// Appends the line of a file that has any features.
fn push_file(found: FileLines, text: &mut String) -> Result<(), AllocError>
    ensures { OnOk result (string_bytes text.new ≡ string_bytes text.old ++ file_line found) }
{
    if found.lines == 0 {
        return Ok(());
    }
    let name = file_name(found.file).unwrap_or("");
    let lines = found.lines;
    writeln!(text, "{name} {lines}")
}

/// Puts the text of a scan that ended so, at once, and gives the status of the call. A refusal stays the
/// status, whatever becomes of its line.
pub fn print_end<O: Sink>(alloc: Global, scanned: Result<Summary, Status>, sink: &mut O) -> Status
    requires refused { IfErr scanned IsRefusal }
    ensures sink { KeepsSink O.taken O.faults sink.old sink.new }
    ensures end { EndsAs (Rose (O.faults sink.old) (O.faults sink.new)) (scanned_as scanned) result }
    ensures sure { IfDone result (O.faults sink.new ≡ O.faults sink.old) }
    ensures printed { IfSome (text_of (counts_told scanned) result) (IsPut (λ bytes. Takes (O.taken sink.old) (O.taken sink.new) bytes) (Rose (O.faults sink.old) (O.faults sink.new)) result) }
{
    match scanned {
        Ok(found) => print_found(alloc, &found, sink),
        Err(refusal) => {
            print_line(alloc, refusal, sink);
            refusal
        }
    }
}

// Puts the text of a scan that is done.
fn print_found<O: Sink>(alloc: Global, found: &Summary, sink: &mut O) -> Status
    ensures sink { KeepsSink O.taken O.faults sink.old sink.new }
    ensures end { EndsAs (Rose (O.faults sink.old) (O.faults sink.new)) Status.Done result }
    ensures sure { IfDone result (O.faults sink.new ≡ O.faults sink.old) }
    ensures printed { IfSome (text_of (Some (counts_text found.now)) result) (IsPut (λ bytes. Takes (O.taken sink.old) (O.taken sink.new) bytes) (Rose (O.faults sink.old) (O.faults sink.new)) result) }
{
    let Ok(text) = found_text(alloc, found) else {
        return Status::NoMemory;
    };
    match sink.put(text.as_bytes()) {
        Ok(()) => Status::Done,
        Err(SinkFault::Failed) => Status::OutFault,
        Err(SinkFault::NoMemory) => Status::NoMemory,
    }
}

// Puts the line of a refusal, as far as there is room for it and the sink takes it.
fn print_line<O: Sink>(alloc: Global, refusal: Status, sink: &mut O)
    ensures sink { KeepsSink O.taken O.faults sink.old sink.new }
    ensures printed { IsPutInPart (λ bytes. Takes (O.taken sink.old) (O.taken sink.new) bytes) (Rose (O.faults sink.old) (O.faults sink.new)) (line_of refusal) }
{
    if let Ok(line) = line_of(alloc, refusal) {
        let _ = sink.put(line.as_bytes());
    }
}
