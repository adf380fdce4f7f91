//! The command lines of the three commands.
use crate::options::Task;
use clap::builder::ValueParser;
use clap::{Arg, Command, arg, value_parser};
use std::alloc::{AllocError, Global};

/// The names of the families of sketches.
static FAMILIES: [&str; 2] = ["req", "kll"];

/// The names of the formats of a table.
static FORMATS: [&str; 5] = ["table", "tsv", "csv", "json", "chart"];

/// Returns an option that takes any word but an empty one.
fn word<'a>(arg: Arg<'a>) -> Arg<'a> {
    arg.value_parser(ValueParser::NonEmptyString)
        .allow_hyphen_values(true)
}

/// Adds the options of all three commands.
fn with_common<'a>(alloc: Global, command: Command<'a>) -> Result<Command<'a>, AllocError> {
    let decimals = arg!(in alloc; -d --decimals <DECIMALS> "how many decimals to keep, 0 to 9 (3)");
    let seed = arg!(in alloc; -s --seed <SEED> "the seed of the coins, up to 15 digits");
    let files = arg!(in alloc; [FILE] ... "what to read; without it, or for -, standard input");
    command
        .version("0.1.0")
        .no_binary_name(true)
        .args_override_self(true)
        .arg(decimals.value_parser(value_parser!(u8).range(0..10)))?
        .arg(seed.value_parser(value_parser!(u64).range(0..1_000_000_000_000_000)))?
        .arg(files)
}

/// Adds the options on the fields of lines.
fn with_fields<'a>(alloc: Global, command: Command<'a>) -> Result<Command<'a>, AllocError> {
    let groups =
        arg!(in alloc; -g --group <FIELDS> "the fields that name the group, as 1,2; -1 is the last one; FILE, first, the file's name");
    let value = arg!(in alloc; -v --value <FIELD> "the field that holds the number (1)");
    let weight =
        arg!(in alloc; -w --weight <FIELD> "the field that says how often the number counts, for kll");
    let separator =
        arg!(in alloc; -t --separator <CHARACTER> "what separates fields, one character or \\t; without it any spaces and tabs; with , or ; quotes are as in CSV");
    let header = arg!(in alloc; -H --header "the first line of each file names the fields");
    let json =
        arg!(in alloc; -j --json "each line is an object of JSON, whose members are its fields");
    let ignore = arg!(in alloc; -i --ignore "lines without a number don't change the status");
    let of_text: [&'a str; 2] = ["separator", "header"];
    command
        .arg(word(groups))?
        .arg(word(value))?
        .arg(word(weight))?
        .arg(word(separator))?
        .arg(header)?
        .arg(json.conflicts_with_all(of_text.as_slice())?)?
        .arg(ignore)
}

/// Adds the options on sketches.
fn with_sketches<'a>(alloc: Global, command: Command<'a>) -> Result<Command<'a>, AllocError> {
    let family =
        arg!(in alloc; -f --family <FAMILY> "the sketch: REQ is exact for the 3K greatest numbers, KLL serves all alike");
    let accuracy =
        arg!(in alloc; -k --accuracy <K> "its accuracy: req even, 4 to 1024 (50), kll 8 to 65535 (200)");
    let most = arg!(in alloc; -n --most <COUNT> "more groups than these end the run");
    command
        .arg(
            family
                .value_parser(FAMILIES.as_slice())
                .default_value("req"),
        )?
        .arg(accuracy.value_parser(value_parser!(u16)))?
        .arg(
            most.value_parser(value_parser!(usize))
                .default_value("1000000"),
        )
}

/// Adds the options on tables.
fn with_table<'a>(alloc: Global, command: Command<'a>) -> Result<Command<'a>, AllocError> {
    let points =
        arg!(in alloc; -p --percentiles <LIST> "which percentiles; min and sum are columns too");
    let limits =
        arg!(in alloc; -l --limits <LIST> "how many numbers, and what share of them, are at most each limit");
    let format = arg!(in alloc; -o --output <FORMAT> "how the table is written");
    let every = arg!(in alloc; -e --every <COUNT> "a table after each COUNT lines, too");
    let images = arg!(in alloc; -I --images "the lines are those of summarize or combine");
    let of_lines: [&'a str; 11] = [
        "group",
        "value",
        "weight",
        "separator",
        "header",
        "json",
        "ignore",
        "family",
        "accuracy",
        "most",
        "every",
    ];
    command
        .arg(word(points).default_value("50,90,99,99.9"))?
        .arg(word(limits))?
        .arg(
            format
                .value_parser(FORMATS.as_slice())
                .default_value("table"),
        )?
        .arg(every.value_parser(value_parser!(u64).range(1..)))?
        .arg(images.conflicts_with_all(of_lines.as_slice())?)
}

/// Adds the option on images.
fn with_images<'a>(alloc: Global, command: Command<'a>) -> Result<Command<'a>, AllocError> {
    command.arg(arg!(in alloc; --again "the same line may come again, and counts again"))
}

/// Returns the command of a task.
pub fn command_of<'a>(alloc: Global, task: Task) -> Result<Command<'a>, AllocError> {
    let (name, about): (&'a str, &'a str) = (task.name(), task.about());
    let command = with_common(alloc, Command::new(alloc, name).about(about))?;
    match task {
        Task::Combine => with_images(alloc, command),
        Task::Summarize => with_sketches(alloc, with_fields(alloc, command)?),
        Task::Percentiles => {
            let command = with_sketches(alloc, with_fields(alloc, command)?)?;
            with_images(alloc, with_table(alloc, command)?)
        }
    }
}
