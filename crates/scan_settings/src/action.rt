// The commands.
ghost use Rattle.std.specs.Prelude.{◌≡◌};
ghost use Rattle.scan_settings.specs.Words.{action_of};

/// What a command does.
#[derive(Clone, Copy, Debug, PartialEq, Eq)]
pub enum Action {
    /// `scan`: searches the parts of an image, and writes a report into a folder.
    Scan,
    /// `generate`: makes an image, and searches it.
    Generate,
}

/// The command that a word names.
pub fn action_of(word: &str) -> Option<Action>
    ensures { result ≡ action_of word.now }
{
    if word == "scan" {
        Some(Action::Scan)
    } else if word == "generate" {
        Some(Action::Generate)
    } else {
        None
    }
}
