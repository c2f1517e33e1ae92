ghost use Rattle.std.specs.Prelude.{◌≡◌, option_map};
ghost use Rattle.odr_words.specs.Read.{seen_values, values_added, values_with, once};

use crate::command::Command;

/// The values of the options that were given.
#[derive(Clone, Copy, Debug)]
pub struct OptionValues<'a> {
    pub seed: Option<&'a str>,
    pub limit: Option<&'a str>,
    pub steps: Option<&'a str>,
    pub input: Option<&'a str>,
}

impl<'a> OptionValues<'a> {
    /// These values and one more, if there is an option of that name that was not given before.
    fn added(self, name: &str, value: &'a str) -> Option<OptionValues<'a>>
        ensures { option_map seen_values result ≡ values_added name.now value.entry.now (seen_values self.entry) }
    {
        if name == "seed" {
            match self.seed {
                None => Some(OptionValues {
                    seed: Some(value),
                    ..self
                }),
                Some(_) => None,
            }
        } else if name == "limit" {
            match self.limit {
                None => Some(OptionValues {
                    limit: Some(value),
                    ..self
                }),
                Some(_) => None,
            }
        } else if name == "steps" {
            match self.steps {
                None => Some(OptionValues {
                    steps: Some(value),
                    ..self
                }),
                Some(_) => None,
            }
        } else if name == "input" {
            match self.input {
                None => Some(OptionValues {
                    input: Some(value),
                    ..self
                }),
                Some(_) => None,
            }
        } else {
            None
        }
    }

    /// These values and one more, if the command takes that option and it was not given before.
    pub fn with(self, command: Command, name: &str, value: &'a str) -> Option<OptionValues<'a>>
        ensures { option_map seen_values result ≡ values_with command name.now value.entry.now (seen_values self.entry) }
    {
        if command.takes(name) {
            self.added(name, value)
        } else {
            None
        }
    }
}
