//! The table of the verbs and of their arguments.

use crate::block_number::{BlockCount, BlockNumber};

/// A verb.
pub(crate) struct Verb {
    /// The name.
    pub(crate) name: &'static str,
    /// The program's name and this one, as the usage has them.
    pub(crate) bin_name: &'static str,
    /// The help.
    pub(crate) about: &'static str,
    /// The arguments, in the order of the help.
    pub(crate) arguments: &'static [Argument],
    /// Whether one of the options `drive` and `blocks` is required.
    pub(crate) needs_size: bool,
}

/// An argument of a verb.
pub(crate) struct Argument {
    /// The name.
    pub(crate) name: &'static str,
    /// The form.
    pub(crate) form: Form,
    /// The help.
    pub(crate) help: &'static str,
}

/// The form of an argument.
pub(crate) enum Form {
    /// It is known by its place.
    Positional(Positional),
    /// An option without a value.
    Flag(Flag),
    /// An option with a value, which the help calls by this name.
    Option(&'static str, OptionValue),
}

/// The form of an argument that is known by its place.
pub(crate) enum Positional {
    /// A required value.
    Value,
    /// One or more values, up to a number of them.
    Values {
        /// The number.
        most: usize,
    },
    /// Values up to a number of them, of which one is required without an option.
    ValuesUnless {
        /// The number.
        most: usize,
        /// The name of the option.
        option: &'static str,
    },
    /// A value with this default.
    ValueOr(&'static str),
    /// A number of blocks, which may be absent.
    Number {
        /// The least number.
        least: u32,
    },
}

/// The form of an option without a value.
pub(crate) enum Flag {
    /// It has no short form.
    Long,
    /// It has this short form.
    Short(char),
    /// It has this short form, and excludes the option with this name.
    ShortAgainst(char, &'static str),
}

/// The value of an option.
pub(crate) enum OptionValue {
    /// Any text.
    Text,
    /// The name of a drive type.
    Drive,
    /// A number of blocks, from 1.
    Blocks,
}

/// The argument for the script of `run` and `trace`.
const SCRIPT: Argument = Argument {
    name: "SCRIPT",
    form: Form::Positional(Positional::Value),
    help: "The file with the script, or - for standard input",
};

/// The help of the images of `run` and `trace`.
const UNIT_IMAGES: &str =
    "The images of units 0 to 3: FILE, lock:FILE to protect it, or - for no drive";

/// Returns the verbs, in the order of the help.
pub(crate) fn verbs() -> [&'static Verb; 7] {
    [&RUN, &COPY, &INFO, &DUMP, &CREATE, &DECODE, &TRACE]
}

/// The verb `run`.
static RUN: Verb = Verb {
    name: "run",
    bin_name: "uda50 run",
    about: "Executes a script of requests on one to four images",
    arguments: &[
        SCRIPT,
        Argument {
            name: "IMAGE",
            form: Form::Positional(Positional::ValuesUnless {
                most: 4,
                option: "check",
            }),
            help: UNIT_IMAGES,
        },
        Argument {
            name: "names",
            form: Form::Flag(Flag::Long),
            help: "Adds the name of the status to each line",
        },
        Argument {
            name: "quiet",
            form: Form::Flag(Flag::Short('q')),
            help: "Reports only the requests that failed",
        },
        Argument {
            name: "check",
            form: Form::Flag(Flag::Long),
            help: "Only names each mistake of the script; opens no image",
        },
    ],
    needs_size: false,
};

/// The verb `copy`.
pub(crate) static COPY: Verb = Verb {
    name: "copy",
    bin_name: "uda50 copy",
    about: "Copies an image; if a transfer fails, block by block",
    arguments: &[
        Argument {
            name: "FROM",
            form: Form::Positional(Positional::Value),
            help: "The image to read, or - for standard input",
        },
        Argument {
            name: "TO",
            form: Form::Positional(Positional::Value),
            help: "The image to write, or - for standard output",
        },
        Argument {
            name: "blocks",
            form: Form::Option("A..B", OptionValue::Text),
            help: "Copies only blocks A to B-1",
        },
        Argument {
            name: "verify",
            form: Form::Flag(Flag::Long),
            help: "Reads the copy back and compares it",
        },
        Argument {
            name: "continue",
            form: Form::Flag(Flag::Long),
            help: "Continues after blocks that can't be read, and lists them",
        },
        Argument {
            name: "map",
            form: Form::Option("FILE", OptionValue::Text),
            help: "The ddrescue map of the lost blocks; without it, TO.map",
        },
        Argument {
            name: "resume",
            form: Form::Flag(Flag::Long),
            help: "Goes on with a copy that ended early, or tries lost blocks again",
        },
        Argument {
            name: "no-sparse",
            form: Form::Flag(Flag::Long),
            help: "Writes blocks of zeros too",
        },
        Argument {
            name: "without-record",
            form: Form::Flag(Flag::Long),
            help: "Leaves out the record that another program put after the blocks",
        },
        Argument {
            name: "force",
            form: Form::Flag(Flag::Long),
            help: "Writes to TO even if it exists",
        },
        Argument {
            name: "device",
            form: Form::Option("TO", OptionValue::Text),
            help: "Writes to the device TO: name it again",
        },
    ],
    needs_size: false,
};

/// The verb `info`.
static INFO: Verb = Verb {
    name: "info",
    bin_name: "uda50 info",
    about: "Prints the size of images, drive types of that size, and what they hold",
    arguments: &[
        Argument {
            name: "IMAGE",
            form: Form::Positional(Positional::Values { most: usize::MAX }),
            help: "The images",
        },
        Argument {
            name: "json",
            form: Form::Flag(Flag::Long),
            help: "Prints a JSON object for each image",
        },
    ],
    needs_size: false,
};

/// The verb `dump`.
pub(crate) static DUMP: Verb = Verb {
    name: "dump",
    bin_name: "uda50 dump",
    about: "Prints blocks in hexadecimal and as text",
    arguments: &[
        Argument {
            name: "IMAGE",
            form: Form::Positional(Positional::Value),
            help: "The image, or - for standard input",
        },
        Argument {
            name: "LBN",
            form: Form::Positional(Positional::Number {
                least: BlockNumber::LEAST,
            }),
            help: "The first block; without it, all blocks",
        },
        Argument {
            name: "COUNT",
            form: Form::Positional(Positional::Number {
                least: BlockCount::LEAST,
            }),
            help: "The number of blocks; without it, 1",
        },
        Argument {
            name: "all",
            form: Form::Flag(Flag::Short('v')),
            help: "Prints all rows, also those that repeat",
        },
        Argument {
            name: "octal",
            form: Form::Flag(Flag::Short('o')),
            help: "Prints words in octal",
        },
        Argument {
            name: "raw",
            form: Form::Flag(Flag::ShortAgainst('r', "octal")),
            help: "Writes the blocks as they are",
        },
        Argument {
            name: "force",
            form: Form::Flag(Flag::Long),
            help: "Writes raw blocks even to a terminal",
        },
    ],
    needs_size: false,
};

/// The verb `create`.
pub(crate) static CREATE: Verb = Verb {
    name: "create",
    bin_name: "uda50 create",
    about: "Makes an image of zeros",
    arguments: &[
        Argument {
            name: "IMAGE",
            form: Form::Positional(Positional::Value),
            help: "The file to make",
        },
        Argument {
            name: "drive",
            form: Form::Option("DRIVE", OptionValue::Drive),
            help: "Makes it as large as this drive",
        },
        Argument {
            name: "blocks",
            form: Form::Option("N", OptionValue::Blocks),
            help: "Makes it N blocks large",
        },
        Argument {
            name: "force",
            form: Form::Flag(Flag::Long),
            help: "Overwrites an existing file",
        },
    ],
    needs_size: true,
};

/// The verb `decode`.
static DECODE: Verb = Verb {
    name: "decode",
    bin_name: "uda50 decode",
    about: "Prints the fields of MSCP packets, given as hexadecimal bytes or octal words",
    arguments: &[Argument {
        name: "FILE",
        form: Form::Positional(Positional::ValueOr("-")),
        help: "The file, or - for standard input",
    }],
    needs_size: false,
};

/// The verb `trace`.
static TRACE: Verb = Verb {
    name: "trace",
    bin_name: "uda50 trace",
    about: "Executes a script, and prints each turn of the controller's port",
    arguments: &[
        SCRIPT,
        Argument {
            name: "IMAGE",
            form: Form::Positional(Positional::Values { most: 4 }),
            help: UNIT_IMAGES,
        },
    ],
    needs_size: false,
};
