//! The words that clap reads and explains.

use clap::{Arg, ArgAction, Command};
use std::alloc::{AllocError, Global};

/// A subcommand, and the settings that its words give.
#[derive(Clone, Copy)]
pub(crate) struct Subcommand {
    pub name: &'static str,
    pub about: &'static str,
    /// What stands below the settings in its help.
    pub after_help: Option<&'static str>,
    pub settings: &'static [Setting],
}

/// A value that a subcommand takes, as in `--workers N`.
#[derive(Clone, Copy)]
pub(crate) struct Setting {
    pub name: &'static str,
    pub value_name: &'static str,
    pub help: &'static str,
    /// Under which it stands in the help, where that has groups.
    pub heading: Option<&'static str>,
    /// The words have to give it.
    pub required: bool,
    /// The words may give it more than once.
    pub repeats: bool,
}

impl Subcommand {
    /// The subcommand as clap knows it.
    pub(crate) fn command<'a>(&self, alloc: Global) -> Result<Command<'a>, AllocError> {
        let mut command = self.explained(alloc);
        for setting in self.settings {
            command = command.arg(setting.arg(alloc))?;
        }
        Ok(command)
    }

    fn explained<'a>(&self, alloc: Global) -> Command<'a> {
        let command = Command::new(alloc, self.name).about(self.about);
        match self.after_help {
            Some(text) => command.after_help(text),
            None => command,
        }
    }
}

impl Setting {
    fn arg<'a>(&self, alloc: Global) -> Arg<'a> {
        let arg = Arg::new(alloc, self.name)
            .long(self.name)
            .value_name(self.value_name)
            .help(self.help)
            .required(self.required)
            .action(self.action());
        match self.heading {
            Some(heading) => arg.help_heading(heading),
            None => arg,
        }
    }

    fn action(&self) -> ArgAction {
        if self.repeats {
            ArgAction::Append
        } else {
            ArgAction::Set
        }
    }
}
