//! The words that ask about the program for texts of any size itself.
ghost use Rattle.std.specs.Prelude.{◌≡◌, map, string_bytes};
ghost use Rattle.command_words.specs.About.{about_named, about_of};

/// What is asked about the program.
#[derive(Clone, Copy, Debug, PartialEq, Eq)]
pub enum About {
    /// Its commands, with their words.
    Help,
    /// Its version.
    Version,
}

/// Reads the words, of which the first is the program's name, where they ask about the program:
/// one word more, and this is `help`, `--help`, `-h`, `--version` or `-V`.
pub fn read_about(words: &[String]) -> Option<About>
    ensures { result ≡ about_of (map string_bytes words.now) }
{
    match words {
        [_, word] => about_named(word.as_str()),
        _ => None,
    }
}

fn about_named(word: &str) -> Option<About>
    ensures { result ≡ about_named word.now }
{
    match word {
        "help" => Some(About::Help),
        "--help" => Some(About::Help),
        "-h" => Some(About::Help),
        "--version" => Some(About::Version),
        "-V" => Some(About::Version),
        _ => None,
    }
}
