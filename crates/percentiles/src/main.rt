//! The program `percentiles`: percentiles of the numbers in lines of text, by group. Called as
//! `summarize` or `combine`, or with this as its first word, it writes or merges images of sketches.
//! Arguments, files, streams and the exit status are here.
#![tactic(auto)]

use clap::error::ErrorKind as Kind;
use failure::Failure;
use images::{Images, write_images};
use lines::{Lines, TakeFile};
use log_groups::answers::Surety;
use log_groups::fault::Fault;
use options::{Options, Task, options_of};
use reports::shown_name;
use std::alloc::Global;
use std::env::{self, Env};
use std::fs;
use std::io::{self, BufWriter, ErrorKind, Read, Write};
use std::process::ExitCode;
use std::rt::Files;
use table::Table;

mod chart;
mod commands;
mod failure;
mod images;
mod lines;
mod options;
mod reader;
mod reports;
mod table;

/// The status of a run that took all lines.
const WHOLE: u8 = 0;

/// The status of a run that left lines out or replaced bytes, or that has too many groups.
const LEFT_OUT: u8 = 1;

/// The status of a program whose words are wrong.
const MISUSED: u8 = 2;

/// The status of a program that failed.
const FAILED: u8 = 3;

/// The status of a program whose reader went away.
const OF_SIGPIPE: u8 = 141;

/// What a given seed is multiplied by; that of a table is 1 if none is given.
const SEED_STEP: u64 = 10_000;

/// The most bytes of the output that wait.
const MOST_WAITING: usize = 65_536;

/// Returns what the program is asked to do, by its name or its first word, and the words behind.
fn task_of(words: &[String]) -> (Task, &[String]) {
    let (name, rest) = match words {
        [name, rest @ ..] => (name.as_str(), rest),
        [] => ("", words),
    };
    match (named_task(name.rsplit('/').next().unwrap_or(name)), rest) {
        (Some(task), _) => (task, rest),
        (None, [first, behind @ ..]) => match named_task(first.as_str()) {
            Some(task) => (task, behind),
            None => (Task::Percentiles, rest),
        },
        (None, []) => (Task::Percentiles, rest),
    }
}

/// Returns the task of this name.
fn named_task(name: &str) -> Option<Task> {
    match name {
        "summarize" => Some(Task::Summarize),
        "combine" => Some(Task::Combine),
        _ => None,
    }
}

/// Returns the seed of the coins: that of a table is the same each time, that of an image drawn from
/// the system.
fn seed_of<R: Files>(rt: &R, options: &Options<'_>) -> io::Result<u64> {
    match options.making.seed {
        Some(seed) => Ok(seed.wrapping_mul(SEED_STEP)),
        None if options.task == Task::Percentiles => Ok(SEED_STEP),
        None => {
            let mut bytes = [0; 8];
            fs::open(rt, "/dev/urandom")?.read_exact(&mut bytes)?;
            Ok(u64::from_le_bytes(bytes))
        }
    }
}

/// Takes the lines of each file. One that can't be read is told of.
fn take_files<R: Files + Input, T: TakeFile, E: Write>(
    rt: &R,
    alloc: Global,
    options: &Options<'_>,
    taker: &mut T,
    errors: &mut E,
) -> Result<(), Failure> {
    for file in &options.files {
        let taken = if *file == "-" {
            taker.take_file(alloc, file, rt.reader())
        } else {
            match fs::open(rt, *file) {
                Ok(input) => taker.take_file(alloc, file, input),
                Err(error) => Err(Failure::from(Fault::Input(error))),
            }
        };
        if let Err(failure) = taken {
            let name = options.task.name();
            let file = shown_name(file);
            let _told = write!(errors, "{name}: {file}: {failure}\n");
            return Err(Failure::Told(match failure {
                Failure::Fault(Fault::TooManyGroups) => LEFT_OUT,
                _ => FAILED,
            }));
        }
    }
    Ok(())
}

/// Reads lines of numbers, and prints a table or images. Returns the status.
fn summarize<R: Files + Input, W: Write + Drop, E: Write>(
    rt: &R,
    alloc: Global,
    options: &Options<'_>,
    output: W,
    errors: &mut E,
) -> Result<u8, Failure> {
    let seed = seed_of(rt, options).map_err(Fault::Input)?;
    let how = (&options.reading, options.making, &options.showing);
    let mut lines = Lines::new(alloc, how, seed, output)?;
    take_files(rt, alloc, options, &mut lines, errors)?;
    let reports = &lines.summary.reader.reports;
    reports.tell(options.task.name(), errors);
    let has_groups = !lines.summary.groups.by_key().is_empty();
    let is_whole = reports.are_none(options.reading.ignores && has_groups);
    let mut spoilt = 0;
    if options.task == Task::Summarize {
        lines.write_images(alloc)?;
    } else {
        spoilt = lines.write_table(alloc)?;
    }
    lines.output.flush().map_err(Fault::Output)?;
    Ok(status_of(is_whole, spoilt, errors))
}

/// Reads images, and prints a table or images. Returns the status.
fn merge<R: Files + Input, W: Write, E: Write>(
    rt: &R,
    alloc: Global,
    options: &Options<'_>,
    output: &mut W,
    errors: &mut E,
) -> Result<u8, Failure> {
    let seed = seed_of(rt, options).map_err(Fault::Input)?;
    let mut images = Images::new(alloc, options, seed);
    take_files(rt, alloc, options, &mut images, errors)?;
    images.tell_all(errors);
    let mut spoilt = 0;
    if options.task == Task::Percentiles {
        images.groups.sort().map_err(Fault::from)?;
        let has_keys = images.groups.by_key().keys().any(|key| !key.is_empty());
        let (groups, surety) = (&images.groups, Surety::Merges);
        let table = Table::new(alloc, groups, &options.showing, has_keys, surety)?;
        spoilt = table.write(output)?;
    } else {
        write_images(alloc, output, &images.groups, false)?;
    }
    output.flush().map_err(Fault::Output)?;
    Ok(status_of(images.is_whole, spoilt, errors))
}

/// Tells how many groups had bytes replaced, and returns the status.
fn status_of<E: Write>(is_whole: bool, spoilt: u64, errors: &mut E) -> u8 {
    if spoilt > 0 {
        let (s, is) = if spoilt == 1 {
            ("", "is")
        } else {
            ("s", "are")
        };
        let _told = write!(
            errors,
            "percentiles: {spoilt} group{s} {is}n't UTF-8: in json, U+FFFD stands for each byte that isn't\n"
        );
    }
    if is_whole && spoilt == 0 {
        WHOLE
    } else {
        LEFT_OUT
    }
}

/// Does what the words ask for, and returns the status.
fn run<R: Files + Input, W: Write + Drop, E: Write>(
    rt: &R,
    alloc: Global,
    (task, words): (Task, &[String]),
    output: W,
    errors: &mut E,
) -> Result<u8, Failure> {
    let options = options_of(alloc, task, words)?;
    let mut output = BufWriter::with_capacity(alloc, MOST_WAITING, output).map_err(Fault::Output)?;
    if options.taking.reads_images {
        return merge(rt, alloc, &options, &mut output, errors);
    }
    summarize(rt, alloc, &options, output, errors)
}

/// Tells why nothing is printed, and returns the status.
fn status_of_failure<R: Print + Eprint + AllocGlobal>(rt: &R, name: &str, failure: Failure) -> u8 {
    match failure {
        Failure::Told(status) => status,
        Failure::Fault(Fault::Output(error)) if error.kind() == ErrorKind::BrokenPipe => OF_SIGPIPE,
        Failure::Words(error) => match error.print(rt) {
            Ok(()) if error.kind() == Kind::OutOfMemory => FAILED,
            Ok(()) if error.use_stderr() => MISUSED,
            Ok(()) => WHOLE,
            Err(_) => FAILED,
        },
        failure if failure.is_misuse() => {
            let _told = eprintln!(rt; "{name}: {failure}; see {name} -h");
            MISUSED
        }
        failure => {
            let _told = eprintln!(rt; "{name}: {failure}");
            FAILED
        }
    }
}

/// Returns the words that the program was called with.
fn words_of<R: Env + AllocGlobal>(rt: &R) -> Result<Vec<String>, Failure> {
    match env::args(rt) {
        Ok(words) => Ok(words.collect(rt.alloc())?),
        Err(error) if error.kind() == ErrorKind::InvalidData => Err(Failure::NoText),
        Err(error) => Err(Failure::from(Fault::Input(error))),
    }
}

fn main(rt: HostRuntime) -> ExitCode {
    let words = match words_of(&rt) {
        Ok(words) => words,
        Err(failure) => return ExitCode::from(status_of_failure(&rt, "percentiles", failure)),
    };
    let (task, rest) = task_of(&words);
    let ended = run(
        &rt,
        rt.alloc(),
        (task, rest),
        io::writer(&rt),
        &mut rt.stderr(),
    );
    ExitCode::from(match ended {
        Ok(status) => status,
        Err(failure) => status_of_failure(&rt, task.name(), failure),
    })
}
