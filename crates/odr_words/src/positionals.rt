ghost use Rattle.std.specs.Prelude.{◌≡◌, option_map};
ghost use Rattle.odr_words.specs.Read.{seen_positionals, positionals_with};

/// The positional words, of which no command takes more than three.
#[derive(Clone, Copy, Debug)]
pub enum Positionals<'a> {
    Zero,
    One(&'a str),
    Two(&'a str, &'a str),
    Three(&'a str, &'a str, &'a str),
}

impl<'a> Positionals<'a> {
    /// These words and one more, if that is no fourth.
    pub fn with(self, word: &'a str) -> Option<Positionals<'a>>
        ensures { option_map seen_positionals result ≡ positionals_with word.entry.now (seen_positionals self.entry) }
    {
        match self {
            Positionals::Zero => Some(Positionals::One(word)),
            Positionals::One(first) => Some(Positionals::Two(first, word)),
            Positionals::Two(first, second) => Some(Positionals::Three(first, second, word)),
            Positionals::Three(..) => None,
        }
    }
}
