//! Options of a command: words of the form `--name=NUMBER`.
ghost use Rattle.std.specs.Prelude.{◌≡◌, List, [], ◌∷◌, ◌++◌, ℕ, false, true, drop, length, map, MatchOption};
ghost use Rattle.std.specs.List.{list_any};
ghost use Rattle.std.specs.String.{string_bytes};
ghost use Rattle.planner_server.specs.Options.{are_options, given_in, is_of, least_of, most_of, number_given};
ghost use Rattle.planner_server.specs.Options.{spelling_of};
ghost use Rattle.text_forms.specs.Numbers.{number_in};

use cut_model::{MOST_LINKS, MOST_ROUTERS};
use job_queue::MOST_WORKERS;
use made_networks::MOST_SEED;
use text_forms::parse_number;
use tree_versions::MOST_DESKS;

/// The name of an option.
#[derive(Clone, Copy)]
pub enum OptionName {
    /// How many workers at most build a tree: 1 to 16.
    Workers,
    /// The seed of a made network: 0 to 65535.
    Seed,
    /// How many routers a made network has: 2 to 1024.
    Routers,
    /// How many links a made network has: 0 to 8192.
    Links,
    /// On which port clients come: 1 to 65535.
    Port,
    /// How many desks serve clients at most: 1 to 8.
    Desks,
    /// How many clients of each door are served at most: 1 to 1000000.
    Sessions,
}

/// The greatest number of a port.
pub const MOST_PORT: u32 = 65_535;

/// The most clients that are served of one door.
pub const MOST_SESSIONS: u32 = 1_000_000;

/// What the words of a command line give to an option.
#[derive(Clone, Copy)]
pub enum Given {
    /// The option doesn't stand there.
    Missing,
    /// It stands there once, with a number that it takes.
    Number(u32),
    /// It stands there with another text, or several times.
    Wrong,
}

impl OptionName {
    /// What a word of this option begins with.
    fn spelling(self) -> &'static [u8]
        ensures { result.now ≡ spelling_of self }
    {
        match self {
            OptionName::Workers => b"--workers=",
            OptionName::Seed => b"--seed=",
            OptionName::Routers => b"--routers=",
            OptionName::Links => b"--links=",
            OptionName::Port => b"--port=",
            OptionName::Desks => b"--desks=",
            OptionName::Sessions => b"--sessions=",
        }
    }

    /// The least number that the option takes.
    fn least(self) -> u32
        ensures { result ≡ least_of self }
    {
        match self {
            OptionName::Workers => 1,
            OptionName::Seed => 0,
            OptionName::Routers => 2,
            OptionName::Links => 0,
            OptionName::Port | OptionName::Desks | OptionName::Sessions => 1,
        }
    }

    /// The greatest number that the option takes.
    fn most(self) -> u32
        ensures { result ≡ most_of self }
    {
        match self {
            OptionName::Workers => MOST_WORKERS,
            OptionName::Seed => MOST_SEED,
            OptionName::Routers => MOST_ROUTERS,
            OptionName::Links => MOST_LINKS as u32,
            OptionName::Port => MOST_PORT,
            OptionName::Desks => MOST_DESKS,
            OptionName::Sessions => MOST_SESSIONS,
        }
    }

    /// Whether a word is this option.
    fn is_of(self, word: &[u8]) -> bool
        ensures { result ≡ is_of self word.now }
    {
        word.starts_with(self.spelling())
    }

    /// What stands behind the name in a word of this option.
    fn text_in<'a>(self, word: &'a [u8]) -> Option<&'a [u8]>
        ensures { MatchOption result (is_of self word.now ≡ false)
            (λ text. (is_of self word.now ≡ true) × (text.now ≡ drop (length (spelling_of self)) word.now)) }
    {
        let spelling = self.spelling();
        if word.starts_with(spelling) {
            Some(&word[spelling.len()..])
        } else {
            None
        }
    }

    /// What a text gives to the option.
    fn number(self, text: &[u8]) -> Given
        ensures { result ≡ number_given self (number_in text.now) }
    {
        let Some(value) = parse_number(text) else {
            return Given::Wrong;
        };
        if u64::from(self.least()) <= value && value <= u64::from(self.most()) {
            Given::Number(value as u32)
        } else {
            Given::Wrong
        }
    }

    /// What one more word gives to the option.
    fn one_more(self, given: Given, word: &[u8]) -> Given
        ensures { (earlier : List (List ℕ)) → given ≡ given_in self earlier
            → result ≡ given_in self (earlier ++ word.now ∷ []) }
    {
        match self.text_in(word) {
            None => given,
            Some(text) => match given {
                Given::Missing => self.number(text),
                _ => Given::Wrong,
            },
        }
    }

    /// What the words give to the option. Goes over each word once.
    pub fn given_in(self, words: &[String]) -> Given
        ensures { result ≡ given_in self (map string_bytes words.now) }
    {
        let mut given = Given::Missing;
        for word in words {
            given = self.one_more(given, word.as_bytes());
        }
        given
    }
}

/// Whether a word is one of these options.
fn is_option(word: &[u8], names: &[OptionName]) -> bool
    ensures { result ≡ list_any (λ name. is_of name word.now) names.now }
{
    names.iter().any(|name| name.is_of(word))
}

/// Whether each word is one of these options.
pub fn are_options(words: &[String], names: &[OptionName]) -> bool
    ensures { result ≡ are_options names.now (map string_bytes words.now) }
{
    words.iter().all(|word| is_option(word.as_bytes(), names))
}
