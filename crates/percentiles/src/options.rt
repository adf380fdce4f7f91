//! The options of the three commands.
use crate::commands::command_of;
use crate::failure::Failure;
use clap::ArgMatches;
use log_groups::answers::Column;
use log_groups::fields::{Place, Separator};
use log_groups::number::{MOST_DECIMALS, Reading as Number, fraction_of, read_number};
use log_groups::sketch::Kind;
use std::alloc::{AllocError, Global};

/// What the program is asked to do.
#[derive(Clone, Copy, PartialEq, Eq)]
pub enum Task {
    /// Print percentiles of each group.
    Percentiles,
    /// Print an image of each group's sketch.
    Summarize,
    /// Merge the images of each key, and print them.
    Combine,
}

impl Task {
    /// Returns the name of the command.
    pub fn name(self) -> &'static str {
        match self {
            Task::Percentiles => "percentiles",
            Task::Summarize => "summarize",
            Task::Combine => "combine",
        }
    }

    /// Returns what the command does.
    pub fn about(self) -> &'static str {
        match self {
            Task::Percentiles =>
                "Prints percentiles of the numbers in lines of text, by group, in one pass.",
            Task::Summarize =>
                "Puts the numbers in lines of text into a sketch for each group, and prints a line for each: KEY<tab>IMAGE<tab>DECIMALS<tab>CHECKSUM.",
            Task::Combine =>
                "Merges the sketches of each key: it reads lines of summarize or combine, and prints one for each key.",
        }
    }
}

/// How a table is written.
#[derive(Clone, Copy, PartialEq, Eq)]
pub enum Format {
    /// In columns.
    Table,
    /// In columns, with a bar for each group.
    Chart,
    /// With tabs between the fields.
    Tsv,
    /// With commas between the fields, as in RFC 4180.
    Csv,
    /// As a list of objects.
    Json,
}

/// How the fields of a line are found.
#[derive(Clone, Copy, PartialEq, Eq)]
pub enum Form {
    /// By what separates them.
    Separated(Separator),
    /// By their names in an object of JSON.
    Json,
}

/// How lines of numbers are read.
#[derive(Drop)]
pub struct Reading<'a> {
    pub form: Form,
    /// The first line of each file names its fields.
    pub has_header: bool,
    /// The name of the file is the first part of the group.
    pub by_file: bool,
    /// The fields that name the group, by number or name.
    pub groups: Vec<&'a str>,
    /// The field that holds the number.
    pub value: &'a str,
    /// The field that holds the number's weight.
    pub weight: Option<&'a str>,
    /// How many decimals are kept.
    pub decimals: u8,
    /// Lines without a number don't change the status.
    pub ignores: bool,
}

/// How sketches are made.
#[derive(Clone, Copy)]
pub struct Making {
    pub kind: Kind,
    pub most_groups: usize,
    pub seed: Option<u64>,
}

/// What is shown of sketches.
#[derive(Drop)]
pub struct Showing<'a> {
    pub columns: Vec<Column<'a>>,
    pub format: Format,
    /// After how many lines there is a table each.
    pub every: Option<u64>,
}

/// How images are read.
#[derive(Clone, Copy)]
pub struct Taking {
    /// The lines are images.
    pub reads_images: bool,
    /// The decimals of images that don't say theirs.
    pub decimals: Option<u8>,
    /// The same line may come again.
    pub again: bool,
}

/// The options of a command.
#[derive(Drop)]
pub struct Options<'a> {
    pub task: Task,
    pub reading: Reading<'a>,
    pub making: Making,
    pub showing: Showing<'a>,
    pub taking: Taking,
    pub files: Vec<&'a str>,
}

/// Returns the options that words spell.
pub fn options_of<'a>(
    alloc: Global,
    task: Task,
    words: &'a [String],
) -> Result<Options<'a>, Failure> {
    let command = command_of(alloc, task)?;
    let matches = match command.try_get_matches_from(words) {
        Ok(matches) => matches,
        Err(error) => return Err(Failure::Words(error)),
    };
    let taking = Taking {
        reads_images: task == Task::Combine || matches.get_flag("images"),
        decimals: matches.get_one::<u8>("decimals"),
        again: matches.get_flag("again"),
    };
    let making = making_of(&matches)?;
    let options = Options {
        task,
        reading: reading_of(alloc, &matches, making.kind)?,
        making,
        showing: showing_of(alloc, &matches, taking)?,
        taking,
        files: files_of(alloc, &matches)?,
    };
    Ok(options)
}

/// Returns the files that are to be read: standard input if none is named.
fn files_of<'a>(alloc: Global, matches: &ArgMatches<'a>) -> Result<Vec<&'a str>, AllocError> {
    let mut files: Vec<&'a str> = Vec::new(alloc);
    if let Some(named) = matches.get_strs("FILE") {
        files.extend_from_slice(named)?;
    }
    if files.is_empty() {
        files.push("-")?;
    }
    Ok(files)
}

/// Returns how sketches are made.
fn making_of(matches: &ArgMatches<'_>) -> Result<Making, Failure> {
    let is_kll = matches.get_str("family") == Some("kll");
    let size = matches
        .get_one::<u16>("accuracy")
        .unwrap_or(if is_kll { 200 } else { 50 });
    let kind = match size {
        8.. if is_kll => Kind::Kll(size),
        4..=1024 if !is_kll && size % 2 == 0 => Kind::Req(size),
        _ if is_kll => return Err(Failure::KllSize),
        _ => return Err(Failure::ReqSize),
    };
    Ok(Making {
        kind,
        most_groups: matches.get_one::<usize>("most").unwrap_or(usize::MAX),
        seed: matches.get_one::<u64>("seed"),
    })
}

/// The decimals that are kept if none are asked for.
const USUAL_DECIMALS: u8 = 3;

/// Returns how lines are read.
fn reading_of<'a>(
    alloc: Global,
    matches: &ArgMatches<'a>,
    kind: Kind,
) -> Result<Reading<'a>, Failure> {
    let has_header = matches.get_flag("header");
    let form = match matches.get_str("separator") {
        _ if matches.get_flag("json") => Form::Json,
        None => Form::Separated(Separator::Blanks),
        Some(text) => Form::Separated(separator_of(text)?),
    };
    let mut groups = Vec::new(alloc);
    let mut by_file = false;
    if let Some(list) = matches.get_str("group") {
        for (i, name) in list.split(',').enumerate() {
            if i == 0 && name == "FILE" {
                by_file = true;
            } else {
                groups.push(name)?;
            }
        }
    }
    let reading = Reading {
        form,
        has_header,
        by_file,
        groups,
        value: matches.get_str("value").unwrap_or("1"),
        weight: matches.get_str("weight"),
        decimals: matches.get_one::<u8>("decimals").unwrap_or(USUAL_DECIMALS),
        ignores: matches.get_flag("ignore"),
    };
    reading.check(kind)?;
    Ok(reading)
}

impl Reading<'_> {
    /// Checks that fields are numbers, unless they have names, and that weights can be taken.
    fn check(&self, kind: Kind) -> Result<(), Failure> {
        if self.weight.is_some() && matches!(kind, Kind::Req(_)) {
            return Err(Failure::Weight);
        }
        if self.has_header || self.form == Form::Json {
            return Ok(());
        }
        if !self.groups.iter().all(|name| Place::parse(name).is_some()) {
            return Err(Failure::Groups);
        }
        if Place::parse(self.value).is_none()
            || self.weight.is_some_and(|name| Place::parse(name).is_none())
        {
            return Err(Failure::Value);
        }
        Ok(())
    }
}

/// Returns the separator that a word names.
fn separator_of(word: &str) -> Result<Separator, Failure> {
    match word.as_bytes() {
        b"\\t" => Ok(Separator::Byte(b'\t')),
        [byte] => Ok(Separator::Byte(*byte)),
        _ => Err(Failure::Separator),
    }
}

/// Returns what is shown of sketches.
fn showing_of<'a>(
    alloc: Global,
    matches: &ArgMatches<'a>,
    taking: Taking,
) -> Result<Showing<'a>, Failure> {
    let mut columns = Vec::new(alloc);
    columns.push(Column::Count)?;
    if let Some(list) = matches.get_str("percentiles") {
        for name in list.split(',') {
            let column = column_of(name, taking)?;
            if columns.contains(&column) {
                return Err(Failure::Twice);
            }
            columns.push(column)?;
        }
    }
    columns.push(Column::Max)?;
    if let Some(list) = matches.get_str("limits") {
        for limit in list.split(',') {
            let Number::Exact(_) = read_number(limit.as_bytes(), MOST_DECIMALS) else {
                return Err(Failure::Limit);
            };
            columns.push(Column::AtMost(limit))?;
            columns.push(Column::Share(limit))?;
        }
    }
    Ok(Showing {
        columns,
        format: format_of(matches.get_str("output").unwrap_or("table")),
        every: matches.get_one::<u64>("every"),
    })
}

/// Returns the format of this name.
fn format_of(word: &str) -> Format {
    match word {
        "tsv" => Format::Tsv,
        "csv" => Format::Csv,
        "json" => Format::Json,
        "chart" => Format::Chart,
        _ => Format::Table,
    }
}

/// Returns the column that a word of -p asks for.
fn column_of(name: &str, taking: Taking) -> Result<Column<'_>, Failure> {
    match name {
        "min" => Ok(Column::Min),
        "sum" if taking.reads_images => Err(Failure::Sum),
        "sum" => Ok(Column::Sum),
        _ => match fraction_of(name) {
            Some(fraction) => Ok(Column::Point(name, fraction)),
            None => Err(Failure::Percentile),
        },
    }
}
