//! Commands of the parser, step by step.

use clap::{Arg, Command};
use std::alloc::{AllocError, Global};

/// A command that is being built. Once an allocation has failed, further steps do nothing.
pub struct Building<'a> {
    command: Result<Command<'a>, AllocError>,
}

impl<'a> Drop for Building<'a> {
    fn drop(self) {
        let Building { command: _ } = self;
    }
}

impl<'a> Building<'a> {
    /// Begins with this command.
    pub fn of(command: Command<'a>) -> Building<'a> {
        Building {
            command: Ok(command),
        }
    }

    /// Begins with a command of this name, which does what `about` says.
    pub fn new(alloc: Global, name: &'a str, about: &'a str) -> Building<'a> {
        Building::of(Command::new(alloc, name).about(about))
    }

    /// Adds an argument.
    pub fn arg(self, arg: Arg<'a>) -> Building<'a> {
        let Building { command } = self;
        let command = match command {
            Ok(command) => command.arg(arg),
            Err(error) => Err(error),
        };
        Building { command }
    }

    /// Adds an argument whose own building may have failed.
    pub fn try_arg(self, arg: Result<Arg<'a>, AllocError>) -> Building<'a> {
        match arg {
            Ok(arg) => self.arg(arg),
            Err(error) => Building {
                command: Err(error),
            },
        }
    }

    /// Adds a subcommand.
    pub fn subcommand(self, subcommand: Building<'a>) -> Building<'a> {
        let Building { command } = self;
        let command = match command {
            Ok(command) => with_subcommand(command, subcommand),
            Err(error) => Err(error),
        };
        Building { command }
    }

    /// Returns the command.
    ///
    /// # Errors
    ///
    /// An error if an allocation failed.
    pub fn end(self) -> Result<Command<'a>, AllocError> {
        let Building { command } = self;
        command
    }
}

fn with_subcommand<'a>(
    command: Command<'a>,
    subcommand: Building<'a>,
) -> Result<Command<'a>, AllocError> {
    match subcommand.end() {
        Ok(subcommand) => command.subcommand(subcommand),
        Err(error) => Err(error),
    }
}
