// The task that the words of the command line set.
ghost use Rattle.std.specs.Prelude.{◌≡◌, ◌<◌, ◌^◌, None, Some, length, IfOk, IfErr, OnOk};
ghost use Rattle.scan_settings.specs.Lawful.{IsLawful as IsLawfulCommand};
ghost use Rattle.scan_settings.specs.Settings.{texts};
ghost use Rattle.scan_settings.specs.Words.{command_of};
ghost use Rattle.triage_run.specs.Words.{plan_of, task_in, task_of, unbuilt_in, unbuilt_of, IsTask, IsWordsEnd};

use crate::status::{Status, Unbuilt};
use byte_kit::{Name, Names};
use scan_set::ScanPlan;
use scan_settings::{Command, Plan, Settings, WordsFault, read_words};
use std::alloc::Global;

/// The names of the stop list and of the alert list, where they are given.
#[derive(Drop)]
pub struct ListNames {
    pub stop: Option<Name>,
    pub alert: Option<Name>,
}

/// What is looked for in an image, and in which pages.
#[derive(Drop)]
pub struct Search {
    /// How many bytes a page has.
    pub page: u64,
    /// How many bytes behind a page belong to its window.
    pub margin: u64,
    /// What is looked for, and how deep.
    pub plan: ScanPlan,
}

/// An image that is scanned.
#[derive(Drop)]
pub struct Scan {
    /// What is looked for.
    pub search: Search,
    /// The lists that class what is found.
    pub lists: ListNames,
    /// The parts of the image, in order.
    pub parts: Names,
    /// The folder of the report.
    pub out: Name,
}

/// An image that is made and scanned.
#[derive(Drop)]
pub struct Generate {
    /// What is looked for.
    pub search: Search,
    /// What the image is made from.
    pub seed: u64,
    /// How many bytes it has.
    pub size: u64,
}

/// What the words ask for.
#[derive(Drop)]
pub enum Task {
    /// To scan an image that is there.
    Scan(Scan),
    /// To make an image, and to scan that.
    Generate(Generate),
}

/// The task that the words set. Refused, it names the first bad word, or the first form of the command that isn't
/// built, or wants memory.
pub fn task_given(alloc: Global, words: &[String]) -> Result<Task, Status>
    requires { length words.now < 2 ^ 32 }
    ensures task { IfOk result (λ task. task_of (command_of (texts words.now)) ≡ Some task) }
    ensures lawful { IfOk result IsTask }
    ensures built { OnOk result (unbuilt_of (command_of (texts words.now)) ≡ None) }
    ensures bad { IfErr result (IsWordsEnd (command_of (texts words.now))) }
{
    let command = match read_words(alloc, words) {
        Ok(command) => command,
        Err(WordsFault::Usage { word, why }) => return Err(Status::Usage { word, why }),
        Err(WordsFault::NoMemory) => return Err(Status::NoMemory),
    };
    match unbuilt_in(&command) {
        None => Ok(task_in(command)),
        Some(what) => Err(Status::NotYet { what }),
    }
}

// The first form of a command that isn't built.
fn unbuilt_in(command: &Command) -> Option<Unbuilt>
    ensures { result ≡ unbuilt_in command.now }
{
    match command {
        Command::Scan { settings, .. } | Command::Generate { settings, .. } => {
            settings.with_log.then_some(Unbuilt::Log)
        }
    }
}

// What a command asks for.
fn task_in(command: Command) -> Task
    requires { IsLawfulCommand command }
    ensures task { result ≡ task_in command }
    ensures lawful { IsTask result }
{
    match command {
        Command::Scan {
            settings,
            parts,
            place,
        } => {
            let Settings {
                page,
                margin,
                plan,
                stop,
                alert,
                ..
            } = settings;
            Task::Scan(Scan {
                search: search_of(page, margin, plan),
                lists: ListNames { stop, alert },
                parts,
                out: place,
            })
        }
        Command::Generate {
            settings,
            seed,
            size,
        } => {
            let Settings {
                page,
                margin,
                plan,
                ..
            } = settings;
            let search = search_of(page, margin, plan);
            Task::Generate(Generate { search, seed, size })
        }
    }
}

// What is looked for by what options set.
fn search_of(page: u64, margin: u64, plan: Plan) -> Search
    ensures page { result.page ≡ page }
    ensures margin { result.margin ≡ margin }
    ensures plan { result.plan ≡ plan_of plan }
{
    let plan = plan_of(plan);
    Search { page, margin, plan }
}

// The plan of a scan by what options set of it.
fn plan_of(plan: Plan) -> ScanPlan
    ensures { result ≡ plan_of plan }
{
    ScanPlan {
        scanners: plan.scanners,
        depth: plan.depth,
        mask: plan.mask,
        word_min: plan.word_min,
        word_max: plan.word_max,
        context: plan.context,
        keywords: plan.keywords,
        patterns: plan.patterns,
    }
}
