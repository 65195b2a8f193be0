// The URL of a word, and the texts around it.
ghost use Rattle.std.specs.Prelude.{◌≡◌, ◌<◌};
ghost use Rattle.image_gen.specs.Blocks.{link_of, note_of, three_digits, url_of};

// The URL of a word.
#[tactic(auto, unfolding(crate::specs::Blocks::url_of))]
pub(crate) fn url_of(word: u64) -> [u8; 25]
    ensures { result ≡ url_of word }
{
    let mut url = *b"http://h000.example/i-000";
    url[8..11].copy_from_slice(&three_digits(word % 1000));
    url[22..].copy_from_slice(&three_digits(word / 1000 % 1000));
    url
}

// The URL behind a word of text.
#[tactic(auto, unfolding(crate::specs::Blocks::link_of, crate::specs::Blocks::url_of))]
pub(crate) fn link_of(word: u64) -> [u8; 30]
    ensures { result ≡ link_of word }
{
    let mut link = *b"Link http://h000.example/i-000";
    link[5..].copy_from_slice(&url_of(word));
    link
}

// The URL in a longer text.
#[tactic(auto, unfolding(crate::specs::Blocks::note_of, crate::specs::Blocks::url_of))]
pub(crate) fn note_of(word: u64) -> [u8; 49]
    ensures { result ≡ note_of word }
{
    let mut note = *b"Kept link http://h000.example/i-000 in this note.";
    note[10..35].copy_from_slice(&url_of(word));
    note
}

// A number below 1,000 as three decimal digits.
fn three_digits(number: u64) -> [u8; 3]
    requires { number < 1000 }
    ensures { result ≡ three_digits number }
{
    [
        b'0' + (number / 100) as u8,
        b'0' + (number / 10 % 10) as u8,
        b'0' + (number % 10) as u8,
    ]
}
