//! The verbs with their arguments.

use crate::block_number::{BlockCount, MAX_BLOCKS};
use crate::verbs::{Argument, Flag, Form, OptionValue, Positional, Verb, verbs};
use clap::builder::ValueParser;
use clap::{Arg, ArgAction, ArgGroup, Command, value_parser};
use std::alloc::{AllocError, Global};

/// The version that `--version` prints.
const PROGRAM_VERSION: &str = "0.1.0";

const AFTER_HELP: &str = "\
Exit status:
  0  All is well
  1  A fault, or run --check: the script has mistakes
  2  Wrong arguments
  3  run and trace: a request failed; copy: blocks were lost; decode: a packet is invalid

The lines of a script, for uda too: uda50 help script";

/// The values that options and arguments take.
#[derive(Clone, Copy)]
pub(crate) struct Values<'w> {
    /// The names of the drive types.
    pub(crate) drives: &'w [&'w str],
    /// The numbers.
    pub(crate) numbers: Numbers,
}

impl<'w> Values<'w> {
    /// Makes the values with these names of drive types, and these numbers.
    pub(crate) fn new(drives: &'w [&'w str], numbers: Numbers) -> Values<'w> {
        Values { drives, numbers }
    }
}

/// The texts that clap takes for a number of blocks.
#[derive(Clone, Copy)]
pub(crate) enum Numbers {
    /// Any text, which the reader of the arguments then reads.
    Any,
    /// A number in decimal, within its range.
    Decimal,
}

/// Builds the whole command line.
pub(crate) fn grammar<'w>(alloc: Global, values: Values<'w>) -> Result<Command<'w>, AllocError> {
    let mut grammars = Vec::new(alloc);
    for verb in verbs() {
        push_verb(alloc, &mut grammars, verb, values)?;
    }
    without_verbs(alloc).subcommands(grammars)
}

// Builds the program without its verbs.
fn without_verbs<'w>(alloc: Global) -> Command<'w> {
    Command::new(alloc, "uda50")
        .version(PROGRAM_VERSION)
        .about("Works on disk images through a simulated DEC UDA50 disk controller")
        .after_help(AFTER_HELP)
        .subcommand_required(true)
        .arg_required_else_help(true)
}

// Adds a verb.
fn push_verb<'w>(
    alloc: Global,
    grammars: &mut Vec<Command<'w>>,
    verb: &Verb,
    values: Values<'w>,
) -> Result<(), AllocError> {
    let grammar = verb_grammar(alloc, verb, values)?;
    grammars.push(grammar).map_err(AllocError::from)
}

/// Builds a verb.
pub(crate) fn verb_grammar<'w>(
    alloc: Global,
    verb: &Verb,
    values: Values<'w>,
) -> Result<Command<'w>, AllocError> {
    let command = with_arguments(alloc, verb, arguments(alloc, verb, values)?)?;
    command.groups(groups(alloc, verb)?)
}

// Builds a verb with its arguments.
fn with_arguments<'w>(
    alloc: Global,
    verb: &Verb,
    arguments: Vec<Arg<'w>>,
) -> Result<Command<'w>, AllocError> {
    Command::new(alloc, verb.name)
        .about(verb.about)
        .args(arguments)
}

// Builds the groups of a verb: if it needs a size, the options that give it, one of which is required.
fn groups<'w>(alloc: Global, verb: &Verb) -> Result<Vec<ArgGroup<'w>>, AllocError> {
    let mut groups = Vec::new(alloc);
    if verb.needs_size {
        groups.push(size(alloc)?)?;
    }
    Ok(groups)
}

// Builds the group of the options that give the size.
fn size<'w>(alloc: Global) -> Result<ArgGroup<'w>, AllocError> {
    let size = ArgGroup::new(alloc, "size").arg("drive")?.arg("blocks")?;
    Ok(size.required(true))
}

// Builds the arguments of a verb, in the order of the help.
fn arguments<'w>(
    alloc: Global,
    verb: &Verb,
    values: Values<'w>,
) -> Result<Vec<Arg<'w>>, AllocError> {
    let mut arguments = Vec::new(alloc);
    for argument in verb.arguments {
        push_argument(alloc, &mut arguments, argument, values)?;
    }
    Ok(arguments)
}

// Adds an argument.
fn push_argument<'w>(
    alloc: Global,
    arguments: &mut Vec<Arg<'w>>,
    argument: &Argument,
    values: Values<'w>,
) -> Result<(), AllocError> {
    let argument = argument_grammar(alloc, argument, values)?;
    arguments.push(argument).map_err(AllocError::from)
}

// Builds an argument.
fn argument_grammar<'w>(
    alloc: Global,
    argument: &Argument,
    values: Values<'w>,
) -> Result<Arg<'w>, AllocError> {
    match &argument.form {
        Form::Positional(form) => positional(alloc, argument, form, values.numbers),
        Form::Flag(form) => flag_of_form(alloc, argument, form),
        Form::Option(name, value) => Ok(option(alloc, argument, name, value, values)),
    }
}

// Builds an argument that is known by its place.
fn positional<'w>(
    alloc: Global,
    argument: &Argument,
    form: &Positional,
    numbers: Numbers,
) -> Result<Arg<'w>, AllocError> {
    match form {
        Positional::Value => Ok(described(alloc, argument).required(true)),
        Positional::Values { most } => Ok(several(alloc, argument, *most).required(true)),
        Positional::ValuesUnless { most, option } => {
            several(alloc, argument, *most).required_unless_present(option)
        }
        Positional::ValueOr(default) => Ok(described(alloc, argument).default_value(default)),
        Positional::Number { least } => {
            Ok(with_number(described(alloc, argument), *least, numbers))
        }
    }
}

// Builds an argument without its form.
fn described<'w>(alloc: Global, argument: &Argument) -> Arg<'w> {
    Arg::new(alloc, argument.name).help(argument.help)
}

// Builds an argument with values, up to a number of them.
fn several<'w>(alloc: Global, argument: &Argument, most: usize) -> Arg<'w> {
    described(alloc, argument)
        .num_args(1..=most)
        .action(ArgAction::Append)
}

// Builds an option without a value.
fn flag_of_form<'w>(
    alloc: Global,
    argument: &Argument,
    form: &Flag,
) -> Result<Arg<'w>, AllocError> {
    match form {
        Flag::Long => Ok(long_flag(alloc, argument)),
        Flag::Short(short) => Ok(short_flag(alloc, argument, *short)),
        Flag::ShortAgainst(short, other) => {
            short_flag(alloc, argument, *short).conflicts_with(other)
        }
    }
}

// Builds an option without a value and with a short form.
fn short_flag<'w>(alloc: Global, argument: &Argument, short: char) -> Arg<'w> {
    long_flag(alloc, argument).short(short)
}

// Builds an option without a value and without a short form.
fn long_flag<'w>(alloc: Global, argument: &Argument) -> Arg<'w> {
    long_option(alloc, argument).action(ArgAction::SetTrue)
}

// Builds an option without its form.
fn long_option<'w>(alloc: Global, argument: &Argument) -> Arg<'w> {
    described(alloc, argument).long(argument.name)
}

// Builds an option with a value, which the help calls by this name.
fn option<'w>(
    alloc: Global,
    argument: &Argument,
    name: &'w str,
    value: &OptionValue,
    values: Values<'w>,
) -> Arg<'w> {
    match value {
        OptionValue::Text => with_value_name(alloc, argument, name),
        OptionValue::Drive => one_of(with_value_name(alloc, argument, name), values.drives),
        OptionValue::Blocks => with_number(
            with_value_name(alloc, argument, name),
            BlockCount::LEAST,
            values.numbers,
        ),
    }
}

// Builds an option with any value, which the help calls by this name.
fn with_value_name<'w>(alloc: Global, argument: &Argument, name: &'w str) -> Arg<'w> {
    long_option(alloc, argument).value_name(name)
}

// Makes the value of an argument one of some names, in upper or lower case.
fn one_of<'w>(arg: Arg<'w>, names: &'w [&'w str]) -> Arg<'w> {
    arg.value_parser(ValueParser::Names(names))
        .ignore_case(true)
}

// Makes the value of an argument a number of blocks.
fn with_number<'w>(arg: Arg<'w>, least: u32, numbers: Numbers) -> Arg<'w> {
    match numbers {
        Numbers::Decimal => arg.value_parser(number_parser(least)),
        Numbers::Any => arg,
    }
}

// Builds the parser of a number of blocks.
fn number_parser<'w>(least: u32) -> ValueParser<'w> {
    value_parser!(u32).range(i64::from(least)..=i64::from(MAX_BLOCKS))
}
