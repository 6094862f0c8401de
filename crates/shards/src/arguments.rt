// The words of the command line, as `clap` reads them.
use clap::error::ErrorKind;
use clap::{Arg, ArgAction, ArgMatches, Command, Error, value_parser};
use shard_files::{MATRIX, TRANSFORM};
use std::alloc::{AllocError, Global};

/// The version, and that of the files of shards.
const VERSION: &str = "0.1.0, format 3";

/// The names of the codes.
static CODES: [&str; 2] = ["matrix", "transform"];

const ABOUT: &str =
    "Splits a file into shards of data and parity, and joins it from any as many as there are shards of data";

const MORE: &str =
    "Shards belong together by the SHA-256 of their file, its identity, wherever they lie and whatever they
are called. A file is split in stripes, of which each shard has a piece with a digest of its own: a
shard that is damaged in one stripe serves in all others. The digests have no key: they tell of
damage, and of no forger.

Files are written under names that end in .part, while FILE.lock is locked: of two runs that write
files of one name at once, one fails. Only regular files are read.

The exit status is 0, 1 after an error, and 2 where the words are wrong or cannot be read. That of
verify has meanings of its own, which stand in its help.";

const SPLIT_USAGE: &str = "shards split [OPTIONS] <FILE> <DATA> <PARITY>
       shards split [OPTIONS] <FILE> --data <DATA> --parity <PARITY>";

const SPLIT_MORE: &str = "Example: shards split archive.tar 10 4
writes archive.tar.0 to archive.tar.13, any ten of which restore archive.tar

Each shard is synced by itself. On a disk that takes some milliseconds, and minutes for tens of
thousands of shards.";

const JOIN_MORE: &str =
    "FILE is written only where its SHA-256 is the one that its shards name. What is written to standard
output is known to have it only once the exit status is 0.";

const VERIFY_MORE: &str =
    "The exit status is 0 where all shards are whole, 1 where some are missing or damaged and enough are
left, 2 where too few are left, or where they are not those of the file, or after an error, and 3
where there are no shards, or enough of several files. Bytes behind the end of a shard are damage,
though what stands before them is taken.";

const REPAIR_MORE: &str =
    "In the place of a shard only that shard, damaged, or what is no shard is overwritten, unless --force
is given; what cannot be read is not known to be damaged, and what comes there or is changed while
the shards are written stays.";

const FILE: &str = "The file that was split, which need not be there";

const QUIET: &str = "Tells nothing of progress, which is told on a terminal alone";

/// What is to be done.
#[derive(Clone, Copy)]
pub(crate) enum Task {
    Split,
    Join,
    Verify,
    Repair,
    Info,
}

/// What the words say.
#[derive(Drop)]
pub(crate) struct Words<'a> {
    pub(crate) task: Task,
    pub(crate) file: &'a str,
    /// The shards that are named.
    pub(crate) shards: Vec<&'a str>,
    pub(crate) data_shards: u32,
    pub(crate) parity_shards: u32,
    /// The number of the code that is named.
    pub(crate) code: Option<u32>,
    pub(crate) folder: Option<&'a str>,
    pub(crate) identity: Option<&'a str>,
    pub(crate) is_forced: bool,
    pub(crate) is_quiet: bool,
}

impl<'a> Words<'a> {
    /// What the words say, of which the first is the program's name. An error is what there is to print where they are wrong, or ask for
    /// help or for the version.
    pub(crate) fn of(alloc: Global, words: &'a [String]) -> Result<Words<'a>, Error> {
        let matches = command(alloc)?.try_get_matches_from(words)?;
        match task_of(&matches) {
            Some((task, said)) => Ok(Words::said(task, said, shards_of(alloc, said)?)),
            None => Err(no_command(alloc)?),
        }
    }

    // What the words of a command say.
    fn said(task: Task, said: &ArgMatches<'a>, shards: Vec<&'a str>) -> Words<'a> {
        Words {
            task,
            file: said.get_str("FILE").unwrap_or(""),
            shards,
            data_shards: count_of(said, "DATA", "data"),
            parity_shards: count_of(said, "PARITY", "parity"),
            code: said.get_str("code").and_then(code_named),
            folder: said.get_str("out"),
            identity: said.get_str("identity"),
            is_forced: said.get_flag("force"),
            is_quiet: said.get_flag("quiet"),
        }
    }
}

// The error where no command is named.
fn no_command(alloc: Global) -> Result<Error, AllocError> {
    command(alloc)?.error(ErrorKind::MissingSubcommand, "no command is named")
}

// The shards that are named.
fn shards_of<'a>(alloc: Global, said: &ArgMatches<'a>) -> Result<Vec<&'a str>, AllocError> {
    let mut shards = Vec::new(alloc);
    for shard in said.get_strs("SHARD").unwrap_or(&[]) {
        shards.push(*shard)?;
    }
    Ok(shards)
}

/// A word as `clap` is given it: a name that begins with one dash is written as a path, since it is no option.
pub(crate) fn plain_word(alloc: Global, word: String) -> Result<String, AllocError> {
    let is_option = match word.as_str() {
        "-" | "-h" | "-V" => true,
        text => !text.starts_with('-') || text.starts_with("--"),
    };
    if is_option {
        Ok(word)
    } else {
        format!(in alloc; "./{word}")
    }
}

// The count that is given by its place or by an option, or 0.
fn count_of(said: &ArgMatches<'_>, place: &str, option: &str) -> u32 {
    match said.get_one::<u32>(place) {
        Some(count) => count,
        None => said.get_one::<u32>(option).unwrap_or(0),
    }
}

// What is to be done, and what its words say.
fn task_of<'b, 'a>(matches: &'b ArgMatches<'a>) -> Option<(Task, &'b ArgMatches<'a>)> {
    let (name, said) = matches.subcommand()?;
    let task = match name {
        "split" => Task::Split,
        "join" => Task::Join,
        "verify" => Task::Verify,
        "repair" => Task::Repair,
        "info" => Task::Info,
        _ => return None,
    };
    Some((task, said))
}

fn code_named(name: &str) -> Option<u32> {
    match name {
        "matrix" => Some(MATRIX),
        "transform" => Some(TRANSFORM),
        _ => None,
    }
}

// What the words may be. A value that is let go at each `?` makes the proof of a function long, so that what may lack memory is joined
// by `with` and `under`.
fn command<'a>(alloc: Global) -> Result<Command<'a>, AllocError> {
    let command = under(program(alloc), split(alloc));
    let command = under(command, join(alloc));
    let command = under(command, verify(alloc));
    let command = under(command, repair(alloc));
    under(command, info(alloc))
}

// The program, without its commands.
fn program<'a>(alloc: Global) -> Result<Command<'a>, AllocError> {
    Command::new(alloc, "shards")
        .version(VERSION)
        .propagate_version(true)
        .about(ABOUT)
        .after_help(MORE)
        .subcommand_required(true)
        .arg_required_else_help(true)
        .bin_name("shards")
}

fn split<'a>(alloc: Global) -> Result<Command<'a>, AllocError> {
    let command = Command::new(alloc, "split")
        .about("Writes the shards of a file: FILE.0, FILE.1, ..")
        .override_usage(SPLIT_USAGE)
        .after_help(SPLIT_MORE);
    let data = placed_count(
        alloc,
        "DATA",
        "How many shards of data: any so many shards restore the file",
    );
    let parity = placed_count(
        alloc,
        "PARITY",
        "How many shards of parity: so many may be lost",
    );
    let folder = option(
        alloc,
        "out",
        "FOLDER",
        "Writes the shards into this folder, and not beside the file",
    );
    let by_data = named_count(valued(alloc, "data", "DATA"), "parity");
    let by_parity = named_count(valued(alloc, "parity", "PARITY"), "data");
    let command = with(Ok(command), Ok(place(alloc, "FILE", "The file to split")));
    let command = with(with(command, data), parity);
    let command = with(with(command, by_data), by_parity);
    let command = with(with(command, code(alloc)), folder);
    let command = with(
        command,
        flag(alloc, "force", "Overwrites files that are there already"),
    );
    with(command, flag(alloc, "quiet", QUIET))
}

fn join<'a>(alloc: Global) -> Result<Command<'a>, AllocError> {
    let command = Command::new(alloc, "join")
        .about("Writes a file from its shards")
        .after_help(JOIN_MORE);
    let file = place(alloc, "FILE", "The file to write, or - for standard output");
    let command = reading(
        alloc,
        command,
        file,
        shards(alloc).required_if_eq("FILE", "-"),
    );
    with(
        command,
        flag(alloc, "force", "Overwrites a file that is there already"),
    )
}

fn verify<'a>(alloc: Global) -> Result<Command<'a>, AllocError> {
    let command = Command::new(alloc, "verify")
        .about("Says which shards are missing or damaged, and in which stripes")
        .after_help(VERIFY_MORE);
    reading(
        alloc,
        command,
        place(alloc, "FILE", FILE),
        Ok(shards(alloc)),
    )
}

fn repair<'a>(alloc: Global) -> Result<Command<'a>, AllocError> {
    let command = Command::new(alloc, "repair")
        .about("Writes the shards that are missing or damaged again, to FILE.0, FILE.1, ..")
        .after_help(REPAIR_MORE);
    let command = reading(
        alloc,
        command,
        place(alloc, "FILE", FILE),
        Ok(shards(alloc)),
    );
    with(command, flag(alloc, "force", "Overwrites also other files"))
}

fn info<'a>(alloc: Global) -> Result<Command<'a>, AllocError> {
    let command = Command::new(alloc, "info").about("Says what shards say of themselves");
    let file = place(
        alloc,
        "FILE",
        "The file that was split, which need not be there, or a shard",
    );
    reading(alloc, command, file, Ok(shards(alloc)))
}

// A command that reads shards.
fn reading<'a>(
    alloc: Global,
    command: Command<'a>,
    file: Arg<'a>,
    shards: Result<Arg<'a>, AllocError>,
) -> Result<Command<'a>, AllocError> {
    let identity = option(
        alloc,
        "identity",
        "DIGITS",
        "The first digits of the SHA-256 of the file, where there are enough shards of several",
    );
    let command = with(with(Ok(command), Ok(file)), shards);
    with(with(command, identity), flag(alloc, "quiet", QUIET))
}

// A command with one argument more.
fn with<'a>(
    command: Result<Command<'a>, AllocError>,
    arg: Result<Arg<'a>, AllocError>,
) -> Result<Command<'a>, AllocError> {
    command?.arg(arg?)
}

// A command with one more below it.
fn under<'a>(
    command: Result<Command<'a>, AllocError>,
    below: Result<Command<'a>, AllocError>,
) -> Result<Command<'a>, AllocError> {
    command?.subcommand(below?)
}

fn code<'a>(alloc: Global) -> Result<Arg<'a>, AllocError> {
    let code = option(
        alloc,
        "code",
        "CODE",
        "Where none is named, matrix for up to 256 shards, and transform for more",
    )?;
    Ok(code.value_parser(CODES.as_slice()))
}

fn place<'a>(alloc: Global, name: &'a str, help: &'a str) -> Arg<'a> {
    Arg::new(alloc, name).required(true).help(help)
}

fn shards<'a>(alloc: Global) -> Arg<'a> {
    Arg::new(alloc, "SHARD").num_args(1..).help(
        "Its shards, whatever they are called; where none is named, FILE.0, FILE.1, ..",
    )
}

// A count that is given by its place.
fn placed_count<'a>(alloc: Global, name: &'a str, help: &'a str) -> Result<Arg<'a>, AllocError> {
    Arg::new(alloc, name)
        .value_parser(value_parser!(u32).range(1..))
        .help(help)
        .required_unless_present_any(["data", "parity"].as_slice())?
        .conflicts_with_all(["data", "parity"].as_slice())
}

// A count that is given by an option, together with the other one.
fn named_count<'a>(count: Arg<'a>, other: &'a str) -> Result<Arg<'a>, AllocError> {
    count
        .value_parser(value_parser!(u32).range(1..))
        .help("The same by name")
        .requires_arg(other)
}

// An option with a value.
fn valued<'a>(alloc: Global, name: &'a str, value: &'a str) -> Arg<'a> {
    Arg::new(alloc, name).long(name).value_name(value)
}

// An option with a value. Where it stands more than once, the last one counts.
fn option<'a>(
    alloc: Global,
    name: &'a str,
    value: &'a str,
    help: &'a str,
) -> Result<Arg<'a>, AllocError> {
    valued(alloc, name, value)
        .allow_hyphen_values(true)
        .help(help)
        .overrides_with(name)
}

// An option without a value, which may stand more than once.
fn flag<'a>(alloc: Global, name: &'a str, help: &'a str) -> Result<Arg<'a>, AllocError> {
    Arg::new(alloc, name)
        .long(name)
        .action(ArgAction::SetTrue)
        .help(help)
        .overrides_with(name)
}
