//! The program as `clap` parses its words. Serves `read_command`; decided by `program`.
ghost use Rattle.std.specs.Prelude.{◌≡◌, map, false, IfOk};
ghost use Rattle.clap.specs.Words.{app_of, rule_of, shape_of, with_subcommand};
ghost use Rattle.clap.specs.declared.builder.command.Command.TheViews.{out-Command};
ghost use Rattle.command_line.specs.Options.{all_options};
ghost use Rattle.command_line.specs.inside.Building.{bare_program, form_shape, rule_of_word, with_rules};
ghost use Rattle.command_line.specs.Syntax.{option_rule, program};
ghost use Rattle.command_line.specs.Values.{name_of};

use crate::value::ValueName;
use crate::works::{checking, matching, streaming, table, towns, trace_files};
use clap::{Arg, Command};
use std::alloc::{AllocError, Global};

/// The syntax of a command.
#[derive(Clone, Copy)]
pub struct Form {
    pub name: &'static str,
    /// The options that it takes besides those of every command.
    pub options: &'static [&'static str],
    /// The arguments, in order.
    pub arguments: &'static [&'static str],
}

/// All commands.
const FORMS: [Form; 7] = [
    matching::FORM,
    trace_files::FOLLOW,
    streaming::FORM,
    trace_files::PROVE,
    checking::FORM,
    table::FORM,
    towns::FORM,
];

/// What a word after the command is.
#[derive(Clone, Copy)]
pub enum WordRole {
    /// The value of an option, given after `--` and the option's name.
    Option,
    /// An argument, which is required.
    Argument,
}

/// The program, with a subcommand for each form.
pub fn program<'a>(alloc: Global) -> Result<Command<'a>, AllocError>
    ensures { IfOk result (λ c. app_of c ≡ program) }
{
    let mut program = bare_program(alloc);
    for form in &FORMS {
        let command = command(alloc, form)?;
        program = program.subcommand(command)?;
    }
    Ok(program)
}

// The program with no subcommand yet.
fn bare_program<'a>(alloc: Global) -> Command<'a>
    ensures { app_of result ≡ bare_program }
{
    Command::new(alloc, "fmm")
        .no_binary_name(true)
        .subcommand_required(true)
}

// A command that takes the options of every command, then its own, and then its arguments.
fn command<'a>(alloc: Global, form: &Form) -> Result<Command<'a>, AllocError>
    ensures shape { IfOk result (λ c. shape_of c ≡ form_shape form.now) }
    ensures local { IfOk result (λ c. (out-Command c).has_globals ≡ false) }
{
    let command = with_options(alloc, Command::new(alloc, form.name))?;
    let command = with_words(alloc, command, form.options, WordRole::Option)?;
    with_words(alloc, command, form.arguments, WordRole::Argument)
}

fn with_options<'a>(alloc: Global, command: Command<'a>) -> Result<Command<'a>, AllocError>
    requires { (out-Command command).has_globals ≡ false }
    ensures app { IfOk result (λ c. app_of c
        ≡ with_rules (app_of command.entry) (map (λ o. option_rule (name_of o)) all_options)) }
    ensures local { IfOk result (λ c. (out-Command c).has_globals ≡ false) }
{
    let mut command = command;
    for option in &ValueName::OPTIONS {
        command = command.arg(arg(alloc, option.name(), WordRole::Option))?;
    }
    Ok(command)
}

fn with_words<'a>(
    alloc: Global,
    command: Command<'a>,
    names: &[&'static str],
    role: WordRole,
) -> Result<Command<'a>, AllocError>
    requires { (out-Command command).has_globals ≡ false }
    ensures app { IfOk result (λ c. app_of c
        ≡ with_rules (app_of command.entry) (map (λ s. rule_of_word role s.now) names.now)) }
    ensures local { IfOk result (λ c. (out-Command c).has_globals ≡ false) }
{
    let mut command = command;
    for name in names {
        command = command.arg(arg(alloc, name, role))?;
    }
    Ok(command)
}

fn arg<'a>(alloc: Global, name: &'static str, role: WordRole) -> Arg<'a>
    ensures rule { rule_of result ≡ rule_of_word role name.now }
    ensures local { result.global ≡ false }
{
    let name: &'a str = name;
    match role {
        WordRole::Option => Arg::new(alloc, name).long(name),
        WordRole::Argument => Arg::new(alloc, name).required(true),
    }
}
