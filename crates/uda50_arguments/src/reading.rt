//! Reading of the arguments.

use crate::block_number::{BlockCount, BlockNumber, Number};
use crate::block_range::BlockRange;
use crate::grammar::{Numbers, Values, grammar, verb_grammar};
use crate::image_name::ImageName;
use crate::task::{Copy, Create, Dump, DumpFormat, Run, Task};
use crate::verbs::{COPY, CREATE, DUMP, Verb};
use clap::error::ErrorKind;
use clap::{ArgMatches, Command, Error};
use std::alloc::{AllocError, Global};
use std::fmt::Display;
use std::str::FromStr;
use uda50_show::DriveTypeEntry;

/// The result of reading the arguments.
#[derive(Debug, Drop)]
pub enum ParsedArguments<'w> {
    /// A task.
    Task(Task<'w>),
    /// A text to print.
    Text {
        /// The help, the version, or the error of the arguments.
        text: Error,
        /// The usage of the verb, if the text needs it and doesn't have it.
        usage: Option<String>,
    },
}

/// Reads the arguments, of which the first is the program's name. `drives` are the names of the drive types.
pub fn read_arguments<'w>(
    alloc: Global,
    arguments: &'w [&'w str],
    drives: &'w [&'static str],
) -> ParsedArguments<'w> {
    if let [_, "help", "script"] = arguments {
        return ParsedArguments::Task(Task::ScriptHelp);
    }
    let Some(verb) = numbered_verb(arguments) else {
        return parsed(read_task(alloc, arguments, Values::new(drives, Numbers::Any)));
    };
    read_numbered(alloc, verb, arguments, drives)
}

// Returns a task, or the text of an error.
fn parsed(read: Result<Task<'_>, Error>) -> ParsedArguments<'_> {
    match read {
        Ok(task) => ParsedArguments::Task(task),
        Err(text) => ParsedArguments::Text { text, usage: None },
    }
}

// Returns the verb in the arguments, if it has numbers.
fn numbered_verb(arguments: &[&str]) -> Option<&'static Verb> {
    match *arguments.get(1)? {
        "dump" => Some(&DUMP),
        "create" => Some(&CREATE),
        _ => None,
    }
}

// Reads the arguments of a verb with numbers. If they are wrong and no number begins with 0x or 0o, clap reads them
// again as decimal ones: so it names the first fault of the line, whatever that is.
fn read_numbered<'w>(
    alloc: Global,
    verb: &'static Verb,
    arguments: &'w [&'w str],
    drives: &'w [&'static str],
) -> ParsedArguments<'w> {
    match read_any_numbers(alloc, arguments, drives) {
        Some(read) => parsed(read),
        None => read_decimal(alloc, verb, arguments, drives),
    }
}

// Reads arguments with numbers of any form. Returns `None` if they are wrong and no number begins with 0x or 0o.
fn read_any_numbers<'w>(
    alloc: Global,
    arguments: &'w [&'w str],
    drives: &'w [&'static str],
) -> Option<Result<Task<'w>, Error>> {
    match match_arguments(alloc, arguments, Values::new(drives, Numbers::Any)) {
        Ok(matches) => read_prefixed(alloc, &matches),
        Err(_error) => None,
    }
}

// Reads what clap has parsed. Returns `None` if it is wrong and no number begins with 0x or 0o.
fn read_prefixed<'w>(alloc: Global, matches: &ArgMatches<'w>) -> Option<Result<Task<'w>, Error>> {
    match read_matches(alloc, matches) {
        Err(_error) if !has_prefixed_number(matches) => None,
        read => Some(read),
    }
}

// Returns whether a number begins with 0x or 0o.
fn has_prefixed_number(matches: &ArgMatches<'_>) -> bool {
    match matches.subcommand() {
        Some((_, found)) => ["LBN", "COUNT", "blocks"]
            .iter()
            .any(|name| Number::has_prefix(text(found, name))),
        None => false,
    }
}

// Reads arguments whose numbers have to be decimal. The error of a value has the usage of the verb.
fn read_decimal<'w>(
    alloc: Global,
    verb: &'static Verb,
    arguments: &'w [&'w str],
    drives: &'w [&'static str],
) -> ParsedArguments<'w> {
    let values = Values::new(drives, Numbers::Decimal);
    match read_task(alloc, arguments, values) {
        Ok(task) => ParsedArguments::Task(task),
        Err(text) => {
            let usage = match text.kind() {
                ErrorKind::InvalidValue | ErrorKind::ValueValidation => {
                    usage(alloc, verb, values).ok()
                }
                _ => None,
            };
            ParsedArguments::Text { text, usage }
        }
    }
}

// Returns the usage of a verb.
fn usage<'w>(alloc: Global, verb: &'static Verb, values: Values<'w>) -> Result<String, AllocError> {
    named(alloc, verb, values)?.render_usage()
}

// Builds a verb with the name that its usage has.
fn named<'w>(
    alloc: Global,
    verb: &'static Verb,
    values: Values<'w>,
) -> Result<Command<'w>, AllocError> {
    verb_grammar(alloc, verb, values)?.bin_name(verb.bin_name)
}

fn read_task<'w>(
    alloc: Global,
    arguments: &'w [&'w str],
    values: Values<'w>,
) -> Result<Task<'w>, Error> {
    let matches = match_arguments(alloc, arguments, values)?;
    read_matches(alloc, &matches)
}

fn match_arguments<'w>(
    alloc: Global,
    arguments: &'w [&'w str],
    values: Values<'w>,
) -> Result<ArgMatches<'w>, Error> {
    let program = grammar(alloc, values)?;
    program.try_get_matches_from(arguments)
}

fn read_matches<'w>(alloc: Global, matches: &ArgMatches<'w>) -> Result<Task<'w>, Error> {
    match matches.subcommand() {
        Some((verb, found)) => read_verb(alloc, verb, found),
        None => Err(no_verb(alloc)?),
    }
}

// Returns the error of arguments without a verb.
fn no_verb(alloc: Global) -> Result<Error, AllocError> {
    let program = grammar(alloc, Values::new(&[], Numbers::Any))?;
    error_of(program, ErrorKind::MissingSubcommand, "a verb is missing")
}

// Returns an error of the program or of a verb.
fn error_of<'w>(
    mut command: Command<'w>,
    kind: ErrorKind,
    message: &str,
) -> Result<Error, AllocError> {
    command.error(kind, message)
}

fn read_verb<'w>(alloc: Global, verb: &str, found: &ArgMatches<'w>) -> Result<Task<'w>, Error> {
    match verb {
        "run" => read_run(alloc, found),
        "copy" => read_copy(alloc, found),
        "info" => read_info(alloc, found),
        "dump" => read_dump(alloc, found),
        "create" => read_create(alloc, found),
        "trace" => read_trace(alloc, found),
        _ => Ok(read_decode(found)),
    }
}

fn read_run<'w>(alloc: Global, found: &ArgMatches<'w>) -> Result<Task<'w>, Error> {
    let units = units(alloc, found)?;
    Ok(Task::Run(Run {
        script: text(found, "SCRIPT"),
        units,
        names: found.get_flag("names"),
        quiet: found.get_flag("quiet"),
        check: found.get_flag("check"),
    }))
}

fn read_info<'w>(alloc: Global, found: &ArgMatches<'w>) -> Result<Task<'w>, Error> {
    let images = images(alloc, found)?;
    let json = found.get_flag("json");
    Ok(Task::Info { images, json })
}

fn read_trace<'w>(alloc: Global, found: &ArgMatches<'w>) -> Result<Task<'w>, Error> {
    let units = units(alloc, found)?;
    let script = text(found, "SCRIPT");
    Ok(Task::Trace { script, units })
}

fn read_decode<'w>(found: &ArgMatches<'w>) -> Task<'w> {
    Task::Decode {
        file: text(found, "FILE"),
    }
}

fn read_copy<'w>(alloc: Global, found: &ArgMatches<'w>) -> Result<Task<'w>, Error> {
    let blocks = value(alloc, &COPY, found, "blocks")?;
    Ok(Task::Copy(Copy {
        from: image(found, "FROM"),
        to: image(found, "TO"),
        blocks,
        verify: found.get_flag("verify"),
        skips_lost: found.get_flag("continue"),
        map: found.get_str("map"),
        resumes: found.get_flag("resume"),
        sparse: !found.get_flag("no-sparse"),
        without_record: found.get_flag("without-record"),
        device: found.get_str("device"),
        force: found.get_flag("force"),
    }))
}

fn read_dump<'w>(alloc: Global, found: &ArgMatches<'w>) -> Result<Task<'w>, Error> {
    let blocks = read_block_range(alloc, found)?;
    Ok(Task::Dump(Dump {
        image: image(found, "IMAGE"),
        blocks,
        format: read_format(found),
        all: found.get_flag("all"),
    }))
}

// Reads the blocks of `dump`. Returns `None` for all of them.
fn read_block_range<'w>(
    alloc: Global,
    found: &ArgMatches<'w>,
) -> Result<Option<BlockRange>, Error> {
    let start = value(alloc, &DUMP, found, "LBN")?;
    let count = value(alloc, &DUMP, found, "COUNT")?;
    let BlockCount(count) = count.unwrap_or(BlockCount(1));
    match start {
        Some(BlockNumber(start)) => Ok(BlockRange::of_count(start, count)),
        None => Ok(None),
    }
}

// Reads the format of `dump`.
fn read_format<'w>(found: &ArgMatches<'w>) -> DumpFormat {
    if found.get_flag("raw") {
        DumpFormat::Raw {
            force: found.get_flag("force"),
        }
    } else if found.get_flag("octal") {
        DumpFormat::Octal
    } else {
        DumpFormat::Hexadecimal
    }
}

fn read_create<'w>(alloc: Global, found: &ArgMatches<'w>) -> Result<Task<'w>, Error> {
    let drive = DriveTypeEntry::named(text(found, "drive"));
    let blocks = match drive {
        Some(drive) => drive.blocks,
        None => read_size(alloc, found)?,
    };
    Ok(Task::Create(Create {
        image: image(found, "IMAGE"),
        blocks,
        drive,
        force: found.get_flag("force"),
    }))
}

// Reads the number of blocks of a new image that has no drive type.
fn read_size<'w>(alloc: Global, found: &ArgMatches<'w>) -> Result<u32, Error> {
    match value(alloc, &CREATE, found, "blocks")? {
        Some(BlockCount(blocks)) => Ok(blocks),
        None => Ok(0),
    }
}

// Reads the value of an argument of a verb, if it has one.
fn value<'w, T: FromStr>(
    alloc: Global,
    verb: &'static Verb,
    found: &ArgMatches<'w>,
    name: &str,
) -> Result<Option<T>, Error>
where
    T::Err: Display + Drop,
{
    match found.try_get_one(name) {
        Ok(value) => Ok(value),
        Err(error) => Err(wrong_value(alloc, verb, name, text(found, name), error)?),
    }
}

// Returns the error of an argument's value.
fn wrong_value<E: Display + Drop>(
    alloc: Global,
    verb: &'static Verb,
    name: &str,
    value: &str,
    error: E,
) -> Result<Error, AllocError> {
    let command = named(alloc, verb, Values::new(&[], Numbers::Any))?;
    let argument = command
        .get_arguments()
        .iter()
        .find(|argument| argument.get_id() == name);
    let message = match argument {
        Some(argument) => format!(in alloc; "invalid value '{value}' for '{argument}': {error}")?,
        None => format!(in alloc; "invalid value '{value}': {error}")?,
    };
    error_of(command, ErrorKind::ValueValidation, message.as_str())
}

// Returns the text of an argument, or the empty text if it has none.
fn text<'w>(found: &ArgMatches<'w>, name: &str) -> &'w str {
    match found.get_str(name) {
        Some(text) => text,
        None => "",
    }
}

// Returns the image of an argument.
fn image<'w>(found: &ArgMatches<'w>, name: &str) -> ImageName<'w> {
    ImageName::parse(text(found, name))
}

// Returns the images of the arguments IMAGE.
fn images<'w>(alloc: Global, found: &ArgMatches<'w>) -> Result<Vec<ImageName<'w>>, AllocError> {
    let mut images = Vec::new(alloc);
    for name in found.get_strs("IMAGE").unwrap_or(&[]) {
        images.push(ImageName::parse(name))?;
    }
    Ok(images)
}

// Returns the images of units 0 to 3.
fn units<'w>(
    alloc: Global,
    found: &ArgMatches<'w>,
) -> Result<Vec<Option<ImageName<'w>>>, AllocError> {
    let mut units = Vec::new(alloc);
    for name in found.get_strs("IMAGE").unwrap_or(&[]) {
        units.push(unit_image(name))?;
    }
    Ok(units)
}

// Returns the image of a unit, or `None` for `-`.
fn unit_image<'w>(name: &'w str) -> Option<ImageName<'w>> {
    match name {
        "-" => None,
        _ => Some(ImageName::parse(name)),
    }
}
