// The call that the program makes.
ghost use Rattle.std.specs.Prelude.{◌≡◌, [], ◌∷◌, ◌<◌, ◌≤◌, ◌^◌, true, false, List, None, IsTrue, length, vec_len, IfSome, OnOk, IfErr};
ghost use Rattle.std.specs.List.{All, AllByRecursion};
ghost use Rattle.scan_settings.specs.Settings.{texts};
ghost use Rattle.scan_settings.specs.Words.{command_of};
ghost use Rattle.triage_run.specs.Call.{call_of, call_over, and_lists, and_readings, and_kit, and_sink, Answers, Scanned};
ghost use Rattle.triage_run.specs.Kept.{KeepsSource, KeepsDisk, KeepsKit, KeepsSink, KeepsOthers, files_of};
ghost use Rattle.triage_run.specs.Lists.{lists_of, AreReady, OnlyLists};
ghost use Rattle.triage_run.specs.Patterns.{MayBuild};
ghost use Rattle.triage_run.specs.Sources.{TellAlike, IsReady, Pairwise, OnlyParts};
ghost use Rattle.triage_run.specs.Status.{scanned_as, IfDone, IfReadFault, IsAheadOf, IsBehind, IsRefusal};
ghost use Rattle.triage_run.specs.Steps.{stop_list, build, attach, mount};
ghost use Rattle.triage_run.specs.Words.{scan_asked, patterns_asked};

use crate::generate::generate;
use crate::lists::read_lists;
use crate::patterns::build_matchers;
use crate::scan::{ScanEnd, scan_image};
use crate::status::Status;
use crate::text::print_end;
use crate::words::{Task, task_given};
use host_disk::Disk;
use host_source::{Sink, Source};
use pattern_kit::{Kit, Matcher};
use std::alloc::Global;

/// What a call hands back: the objects that it was handed, and how it ended.
#[derive(Drop)]
pub struct Outcome<S, L, D, K, O> {
    pub sources: Vec<S>,
    pub lists: L,
    pub disk: D,
    pub kit: K,
    pub out: O,
    pub status: Status,
}

/// Does what the words say: `scan PART.. OUT` scans the image of these parts, one behind the other, which the sources hold
/// under their names, and writes the report into the place OUT of the disk. The source `lists` holds the stop list and the alert list that the words
/// name, and the kit builds the patterns that they give. `generate SEED SIZE` makes an image in memory, and scans it
/// there. Then the text of the status is put to the sink: what was found, or the line of a refusal.
pub fn triage<S, L, D, K, O>(
    alloc: Global,
    words: &[String],
    sources: Vec<S>,
    lists: L,
    disk: D,
    kit: K,
    out: O,
) -> Outcome<S, L, D, K, O>
where
    S: Source + Send + Drop,
    L: Source,
    D: Disk + Send,
    K: Kit,
    O: Sink,
    requires words { length words.now < 2 ^ 32 }
    requires sources { (1 ≤ vec_len sources) × (vec_len sources ≤ 8) }
    requires alike { TellAlike S.nature sources.items }
    requires ready { All (IsReady S.nature S.slots (scan_asked words.now)) sources.items }
    requires lists { AreReady (L.nature lists) (L.slots lists) (lists_of (scan_asked words.now)) }
    requires unmounted { D.mounted disk ≡ false }
    requires out { IfSome (scan_asked words.now) (λ scan. IsTrue ((D.nature disk).may_mount scan.out)) }
    requires patterns { MayBuild (K.may_build kit) (patterns_asked words.now) }

    // Every object comes back, tells what it told, and has a count of faults or refusals that is no lower.
    ensures sources { Pairwise (KeepsSource S.nature S.faults) sources.items result.sources.items }
    ensures lists { KeepsSource L.nature L.faults lists result.lists }
    ensures disk { KeepsDisk D.nature D.faults disk result.disk }
    ensures kit { KeepsKit K.may_build K.refusals kit result.kit }
    ensures sink { KeepsSink O.taken O.faults out result.out }

    // Where no image that is there is scanned, sources, lists and disk are as they were. So are the lists at a refusal
    // ahead of the stop list, the kit at one ahead of the build, the sources at one ahead of the attach, and the disk
    // at one ahead of the mount.
    ensures made { scan_asked words.now ≡ None → (result.sources.items ≡ sources.items) × (result.lists ≡ lists) × (result.disk ≡ disk) }
    ensures unlisted { IsAheadOf stop_list result.status → result.lists ≡ lists }
    ensures unasked { IsAheadOf build result.status → result.kit ≡ kit }
    ensures unread { IsAheadOf attach result.status → result.sources.items ≡ sources.items }
    ensures untouched { IsAheadOf mount result.status → result.disk ≡ disk }

    // No slot but those of the parts and of the lists is attached. Behind the mount the disk is mounted. No file but
    // those of the report differs, and none where the image or a list could not be read.
    ensures slots { AllByRecursion (λ s. OnlyParts (scan_asked words.now) (S.slots s)) result.sources.items }
    ensures list_slots { OnlyLists (lists_of (scan_asked words.now)) (L.slots result.lists) }
    ensures mounted { IsBehind mount result.status → IfSome (scan_asked words.now) (λ scan. D.mounted result.disk ≡ true) }
    ensures others { KeepsOthers (files_of (scan_asked words.now)) (D.nature disk) (D.files disk) (D.files result.disk) }
    ensures unwritten { IfReadFault result.status (D.files result.disk ≡ D.files disk) }

    // Done leaves the report of the whole image under both lists, by readings that the patterns have, and puts its
    // text; each refusal has its cause and puts its line, and each cause that is seen first is refused; where the sink
    // alone failed, the report stands; a lawful scan over objects that don't fail is done, or wants memory.
    ensures answers { (readings : List K.M.Reading) × Answers (and_sink O.taken O.faults out result.out
        (and_kit (K.refusals kit) (K.refusals result.kit) (and_readings K.M.reads K.M.matches readings
        (and_lists L.nature L.slots L.faults lists result.lists (call_of S.nature S.slots S.faults D.nature D.files D.faults
        (command_of (texts words.now)) sources.items result.sources.items disk result.disk))))) result.status }

    // And done comes only where no call failed: no count differs.
    ensures sure { IfDone result.status (Pairwise (λ s t. S.faults t ≡ S.faults s) sources.items result.sources.items
        × (L.faults result.lists ≡ L.faults lists) × (D.faults result.disk ≡ D.faults disk)
        × (K.refusals result.kit ≡ K.refusals kit) × (O.faults result.out ≡ O.faults out)) }
{
    let mut sources = sources;
    let mut lists = lists;
    let mut disk = disk;
    let mut kit = kit;
    let mut out = out;
    let first = sources.remove(0);
    let ScanEnd { source, found } = scan_words(
        alloc, words, first, &mut lists, &mut disk, &mut kit,
    );
    // It goes back to the room that it came from.
    sources.insert(0, source).unwrap();
    let status = print_end(alloc, found, &mut out);
    Outcome {
        sources,
        lists,
        disk,
        kit,
        out,
        status,
    }
}

// Does what the words say with one source.
fn scan_words<S: Source, L: Source, D: Disk, K: Kit>(
    alloc: Global,
    words: &[String],
    source: S,
    lists: &mut L,
    disk: &mut D,
    kit: &mut K,
) -> ScanEnd<S>
    requires words { length words.now < 2 ^ 32 }
    requires ready { IsReady S.nature S.slots (scan_asked words.now) source }
    requires lists { AreReady (L.nature lists.old) (L.slots lists.old) (lists_of (scan_asked words.now)) }
    requires unmounted { D.mounted disk.old ≡ false }
    requires out { IfSome (scan_asked words.now) (λ scan. IsTrue ((D.nature disk.old).may_mount scan.out)) }
    requires patterns { MayBuild (K.may_build kit.old) (patterns_asked words.now) }
    ensures source { KeepsSource S.nature S.faults source result.source }
    ensures lists { KeepsSource L.nature L.faults lists.old lists.new }
    ensures disk { KeepsDisk D.nature D.faults disk.old disk.new }
    ensures kit { KeepsKit K.may_build K.refusals kit.old kit.new }
    ensures made { scan_asked words.now ≡ None → (result.source ≡ source) × (lists.new ≡ lists.old) × (disk.new ≡ disk.old) }
    ensures unlisted { IsAheadOf stop_list (scanned_as result.found) → lists.new ≡ lists.old }
    ensures unasked { IsAheadOf build (scanned_as result.found) → kit.new ≡ kit.old }
    ensures unread { IsAheadOf attach (scanned_as result.found) → result.source ≡ source }
    ensures untouched { IsAheadOf mount (scanned_as result.found) → disk.new ≡ disk.old }
    ensures slots { OnlyParts (scan_asked words.now) (S.slots result.source) }
    ensures list_slots { OnlyLists (lists_of (scan_asked words.now)) (L.slots lists.new) }
    ensures mounted { IsBehind mount (scanned_as result.found) → IfSome (scan_asked words.now) (λ scan. D.mounted disk.new ≡ true) }
    ensures others { KeepsOthers (files_of (scan_asked words.now)) (D.nature disk.old) (D.files disk.old) (D.files disk.new) }
    ensures unwritten { IfReadFault (scanned_as result.found) (D.files disk.new ≡ D.files disk.old) }
    ensures refused { IfErr result.found IsRefusal }
    ensures sure { OnOk result.found ((S.faults result.source ≡ S.faults source) × (L.faults lists.new ≡ L.faults lists.old) × (D.faults disk.new ≡ D.faults disk.old) × (K.refusals kit.new ≡ K.refusals kit.old)) }
    ensures scanned { (readings : List K.M.Reading) × Scanned (and_kit (K.refusals kit.old) (K.refusals kit.new) (and_readings K.M.reads K.M.matches readings
        (and_lists L.nature L.slots L.faults lists.old lists.new
        (call_over S.nature S.slots S.faults D.nature D.files D.faults (command_of (texts words.now)) source result.source disk.old disk.new)))) result.found }
{
    let scan = match task_given(alloc, words) {
        Ok(Task::Scan(scan)) => scan,
        Ok(Task::Generate(made)) => {
            let found = generate(alloc, made, kit);
            return ScanEnd { source, found };
        }
        Err(refusal) => return ScanEnd::refused(source, refusal),
    };
    let entries = match read_lists(alloc, &scan.lists, lists) {
        Ok(entries) => entries,
        Err(refusal) => return ScanEnd::refused(source, refusal),
    };
    let matchers = match build_matchers(alloc, kit, scan.search.plan.patterns.items()) {
        Ok(matchers) => matchers,
        Err(refusal) => return ScanEnd::refused(source, refusal),
    };
    scan_image(alloc, &scan, &entries, matchers, source, disk)
}
