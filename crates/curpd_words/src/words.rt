ghost use Rattle.std.specs.Prelude.{◌≡◌, None, IfOk};
ghost use Rattle.curp_script.specs.Headers.{bad_field};
ghost use Rattle.curpd_words.specs.Tasks.{HasHeader};

use crate::name::node_named;
use crate::task::{CurpdTask, CurpdWordsError, Seat};
use clap::{Arg, ArgAction, ArgMatches, Command, value_parser};
use curp_base::Failed;
use curp_cmd::NodeKind;
use curp_script::{LineError, LineReader};
use std::alloc::{AllocError, Global};

/// What the words behind the program's name ask for.
pub fn read<'a>(
    alloc: Global,
    words: &'a [&'a str],
) -> Result<CurpdTask<'a>, Failed<CurpdWordsError>>
    ensures valid { IfOk result HasHeader }
{
    let matches = parser(alloc)?
        .try_get_matches_from(words)
        .map_err(no_matches)?;
    match matches.subcommand() {
        Some(("format", found)) => Ok(CurpdTask::Format(seat(alloc, found)?)),
        Some(("node", found)) => node(alloc, found),
        Some((_, found)) => gather(alloc, found),
        None => Err(Failed::Because(CurpdWordsError::Name)),
    }
}

/// The parser of all words.
fn parser<'a>(alloc: Global) -> Result<Command<'a>, AllocError> {
    let format = seat_command(
        alloc,
        "format",
        "Make the journal of a node that has done nothing",
    )?;
    let node = node_command(alloc)?;
    Command::new(alloc, "curpd")
        .no_binary_name(true)
        .about("One node of a store that keeps completed updates through crashes (CURP, with RIFL)")
        .subcommand_required(true)
        .subcommand(format)?
        .subcommand(node)?
        .subcommand(gather_command(alloc)?)
}

/// A word with the three options that say which node it is for.
fn seat_command<'a>(
    alloc: Global,
    word: &'a str,
    about: &'a str,
) -> Result<Command<'a>, AllocError> {
    Command::new(alloc, word)
        .about(about)
        .arg(option(alloc, "name", "NAME").help("The node: G, C1, M1, B1, W1 and so on"))?
        .arg(option(alloc, "journal", "FILE").help("The file of its journal"))?
        .arg(option(alloc, "header", "JSON").help("The cluster, as in the first line of a script"))
}

fn node_command<'a>(alloc: Global) -> Result<Command<'a>, AllocError> {
    let resp = Arg::new(alloc, "resp")
        .long("resp")
        .action(ArgAction::SetTrue)
        .help("Serve connections of Redis' protocol, in front of a client");
    seat_command(
        alloc,
        "node",
        "Run a node: parcels come on standard input and go to standard output",
    )?
    .arg(resp)
}

fn option<'a>(alloc: Global, name: &'a str, value: &'a str) -> Arg<'a> {
    Arg::new(alloc, name)
        .long(name)
        .value_name(value)
        .required(true)
        .action(ArgAction::Set)
}

fn gather_command<'a>(alloc: Global) -> Result<Command<'a>, AllocError> {
    let files = Arg::new(alloc, "files")
        .value_name("FILE")
        .required(true)
        .num_args(1..)
        .action(ArgAction::Append)
        .help(
            "The journals of a cluster's nodes; one that is missing is of a node that did nothing",
        );
    let until = Arg::new(alloc, "until")
        .long("until")
        .value_name("STAMP")
        .value_parser(value_parser!(u64))
        .action(ArgAction::Set)
        .help("Only what has a stamp up to this");
    Command::new(alloc, "gather")
        .about("Print what the nodes of journals did, as one script, and what play prints for it")
        .arg(files)?
        .arg(until)
}

fn seat<'a>(alloc: Global, matches: &ArgMatches<'a>) -> Result<Seat<'a>, Failed<CurpdWordsError>>
    ensures { IfOk result (λ seat. bad_field seat.header ≡ None) }
{
    let name = text(matches, "name").map_err(Failed::Because)?;
    let journal = text(matches, "journal").map_err(Failed::Because)?;
    let header = text(matches, "header").map_err(Failed::Because)?;
    let node = node_named(name).ok_or(Failed::Because(CurpdWordsError::Name))?;
    match LineReader::new(alloc).parse_header(header.as_bytes()) {
        Ok(header) => Ok(Seat {
            node,
            header,
            journal,
        }),
        Err(why) => Err(no_header(why)),
    }
}

fn node<'a>(
    alloc: Global,
    matches: &ArgMatches<'a>,
) -> Result<CurpdTask<'a>, Failed<CurpdWordsError>>
    ensures { IfOk result HasHeader }
{
    let seat = seat(alloc, matches)?;
    match (matches.get_flag("resp"), seat.node.kind) {
        (false, _) => Ok(CurpdTask::Node(seat)),
        (true, NodeKind::Client) => Ok(CurpdTask::Front(seat)),
        (true, _) => Err(Failed::Because(CurpdWordsError::NoClient)),
    }
}

/// The value of an option that the parser requires.
fn text<'a>(matches: &ArgMatches<'a>, name: &str) -> Result<&'a str, CurpdWordsError> {
    matches.get_str(name).ok_or(CurpdWordsError::Name)
}

fn gather<'a>(
    alloc: Global,
    matches: &ArgMatches<'a>,
) -> Result<CurpdTask<'a>, Failed<CurpdWordsError>>
    ensures { IfOk result HasHeader }
{
    Ok(CurpdTask::Gather {
        files: files(alloc, matches)?,
        until: matches.get_one("until"),
    })
}

fn files<'a>(alloc: Global, matches: &ArgMatches<'a>) -> Result<Vec<&'a str>, AllocError> {
    let mut files = Vec::new(alloc);
    for file in matches.get_strs("files").unwrap_or(&[]) {
        files.push(*file)?;
    }
    Ok(files)
}

/// Why there is no task where the parser has no matches.
fn no_matches(error: clap::Error) -> Failed<CurpdWordsError> {
    match error.kind() {
        clap::error::ErrorKind::OutOfMemory => Failed::NoMemory,
        _ => Failed::Because(CurpdWordsError::Words(error)),
    }
}

/// Why there is none where a text is no header.
fn no_header(why: Failed<LineError>) -> Failed<CurpdWordsError> {
    match why {
        Failed::NoMemory => Failed::NoMemory,
        Failed::Because(reason) => Failed::Because(CurpdWordsError::Header(reason)),
    }
}
