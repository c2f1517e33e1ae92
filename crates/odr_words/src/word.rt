ghost use Rattle.std.specs.Prelude.{◌≡◌};
ghost use Rattle.odr_words.specs.Arguments.{is_plain, option_of, word_of};
ghost use Rattle.odr_words.specs.Read.{seen_word};

/// What a word after the command can be.
#[derive(Clone, Copy, Debug)]
pub enum Word<'a> {
    /// A positional word or a value.
    Plain(&'a str),
    /// `--name`
    Name(&'a str),
    /// `--name=value`
    NameValue(&'a str, &'a str),
    /// No word of a job.
    Neither,
}

/// Whether a word isn't empty and doesn't begin with a hyphen.
fn is_plain(word: &str) -> bool
    ensures { result ≡ is_plain word.now }
{
    match word.as_bytes() {
        [] => false,
        [first, ..] => *first != b'-',
    }
}

/// What an option is, by the text after its hyphens.
fn option_of(text: &str) -> Word<'_>
    ensures { seen_word result ≡ option_of text.now }
{
    match text.split_once('=') {
        None => Word::Name(text),
        Some((name, value)) if is_plain(value) => Word::NameValue(name, value),
        Some(_) => Word::Neither,
    }
}

/// What a word is.
pub fn word_of(word: &str) -> Word<'_>
    ensures { seen_word result ≡ word_of word.now }
{
    if is_plain(word) {
        return Word::Plain(word);
    }
    match word.strip_prefix("--") {
        Some(option) => option_of(option),
        None => Word::Neither,
    }
}
