// The command that `clap` reads the words by: long options alone, files as plain words.
ghost use Rattle.std.specs.Prelude.{◌≡◌, IfOk, fold, map, true, false};
ghost use Rattle.clap.specs.Words.{app_of, rule_of};
ghost use Rattle.staat_words.specs.Command.{argument_rule, command, plain, with_command};

use Kind::{Flag, Optional, Required, Word, Words};
use clap::{Arg, ArgAction, Command};
use std::alloc::{AllocError, Global};

/// How an argument is given.
#[derive(Clone, Copy, Drop)]
pub enum Kind {
    /// `--id=value`, or not at all.
    Optional,
    /// `--id=value`, always.
    Required,
    /// `--id`, without a value, or not at all.
    Flag,
    /// One word.
    Word,
    /// Any number of words.
    Words,
}

/// A command: its name, and its arguments with their ids.
#[derive(Clone, Copy, Drop)]
pub struct CommandRow<'a> {
    pub name: &'a str,
    pub arguments: &'a [(&'a str, Kind)],
}

// All commands: a row for each.
static COMMANDS: [CommandRow<'static>; 13] = [
    CommandRow {
        name: "pair",
        arguments: &[
            ("digits", Optional),
            ("along", Required),
            ("wall", Required),
            ("first", Word),
            ("second", Word),
        ],
    },
    CommandRow {
        name: "look",
        arguments: &[
            ("digits", Optional),
            ("manifest", Optional),
            ("files", Words),
        ],
    },
    CommandRow {
        name: "graph",
        arguments: &[
            ("digits", Optional),
            ("manifest", Optional),
            ("along", Required),
            ("files", Words),
        ],
    },
    CommandRow {
        name: "plan",
        arguments: &[
            ("digits", Optional),
            ("manifest", Optional),
            ("planes", Optional),
            ("robust", Flag),
            ("cert", Flag),
            ("format", Optional),
            ("files", Words),
        ],
    },
    CommandRow {
        name: "check",
        arguments: &[
            ("digits", Optional),
            ("manifest", Optional),
            ("certificate", Word),
            ("files", Words),
        ],
    },
    CommandRow {
        name: "cells",
        arguments: &[
            ("digits", Optional),
            ("manifest", Optional),
            ("planes", Optional),
            ("files", Words),
        ],
    },
    CommandRow {
        name: "drill",
        arguments: &[("kind", Word), ("number", Word)],
    },
    CommandRow {
        name: "explode",
        arguments: &[
            ("digits", Optional),
            ("manifest", Optional),
            ("planes", Optional),
            ("off", Flag),
            ("files", Words),
        ],
    },
    CommandRow {
        name: "linear",
        arguments: &[
            ("digits", Optional),
            ("manifest", Optional),
            ("planes", Optional),
            ("files", Words),
        ],
    },
    CommandRow {
        name: "local",
        arguments: &[
            ("digits", Optional),
            ("manifest", Optional),
            ("planes", Optional),
            ("files", Words),
        ],
    },
    CommandRow {
        name: "decide",
        arguments: &[
            ("digits", Optional),
            ("manifest", Optional),
            ("rest", Flag),
            ("cert", Flag),
            ("files", Words),
        ],
    },
    CommandRow {
        name: "confirm",
        arguments: &[
            ("digits", Optional),
            ("manifest", Optional),
            ("certificate", Word),
            ("files", Words),
        ],
    },
    CommandRow {
        name: "blocks",
        arguments: &[
            ("digits", Optional),
            ("manifest", Optional),
            ("along", Required),
            ("files", Words),
        ],
    },
];

// An argument as `clap` takes it.
fn argument<'a>(alloc: Global, id: &'a str, kind: Kind) -> Arg<'a>
    ensures rule { rule_of result ≡ argument_rule id.entry.now kind }
    ensures global { result.global ≡ false }
{
    let argument = Arg::new(alloc, id);
    match kind {
        Optional => argument.long(id),
        Required => argument.long(id).required(true),
        Flag => argument.long(id).action(ArgAction::SetTrue),
        Word => argument.required(true),
        Words => argument.num_args(1..),
    }
}

// The whole command with one subcommand more.
fn with_command<'a>(
    alloc: Global,
    whole: Command<'a>,
    row: &CommandRow<'a>,
) -> Result<Command<'a>, AllocError>
    ensures { IfOk result (λ c. app_of c ≡ with_command (app_of whole.entry) (plain row.now)) }
{
    let mut command = Command::new(alloc, row.name);
    for (id, kind) in row.arguments {
        command = command.arg(argument(alloc, id, *kind))?;
    }
    whole.subcommand(command)
}

// The whole command with a subcommand more for each row.
fn with_commands<'a>(
    alloc: Global,
    mut whole: Command<'a>,
    rows: &[CommandRow<'a>],
) -> Result<Command<'a>, AllocError>
    ensures { IfOk result (λ c. app_of c ≡ fold with_command (app_of whole.entry) (map plain rows.now)) }
{
    for row in rows {
        whole = with_command(alloc, whole, row)?;
    }
    Ok(whole)
}

/// The whole command: a subcommand for each kind of request.
#[tactic(auto, unfolding(crate::specs::Command::command))]
pub fn staat_command<'a>(alloc: Global) -> Result<Command<'a>, AllocError>
    ensures { IfOk result (λ c. app_of c ≡ command) }
{
    let command = Command::new(alloc, "staat")
        .no_binary_name(true)
        .subcommand_required(true);
    with_commands(alloc, command, &COMMANDS)
}
