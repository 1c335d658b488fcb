//! What the words of the command line ask for.
ghost use Rattle.std.specs.Prelude.{◌≡◌, MatchResult, Ok, IfOk, IsOkAnd, Some, [], codes, map, string_bytes, false};
ghost use Rattle.clap.specs.Takes.{is_given};
ghost use Rattle.clap.specs.Words.{AddsSubcommand, app_of, first_of, found_of, new_app, one_of, rows_of, rule_of, fault_of, subcommand_rows_of, with_rule};
ghost use Rattle.fs_command.specs.Words.{command_line, with_users, with_makers, alone, mkfs, format, pack, unpack, run, check, info, upgrade, fuse, access};
ghost use Rattle.fs_command.specs.Words.{image, directory, required_rule, must_be_given, number_option, text_option, flag, with_size, words_status};
ghost use Rattle.fs_command.specs.Sizes.{usual_inodes};
ghost use Rattle.fs_command.specs.Words.{HasValues, IsGiven, IsNumberGiven, IsNumberIfGiven, IsNumberOr, IsFlag, IsSizeFor, IsWhole, AsksFor, SaysJob, Refuses};
ghost use Rattle.fs_command.specs.declared.words.WordsFault.TheVariants.{OutOfMemory};
ghost use Rattle.fs_command.specs.Words.{SaysMkfs, SaysFormat, SaysPack, SaysUnpack, SaysRun, SaysCheck, SaysInfo, SaysUpgrade, SaysFuse, SaysAccess, HasBadSize, HasBadAccess, HasBadValue};

use crate::size::{sectors_of_size, usual_inodes};
use crate::status::Status;
use crate::user::{perms_given, user_given};
use clap::builder::ValueParser;
use clap::error::ErrorKind;
use clap::{Arg, ArgAction, ArgMatches, Command, Error};
use fs_cred::Cred;
use posix_acl::Perms;
use std::alloc::{AllocError, Global};
use std::marker::Model;
use thiserror::Error as ThisError;

// The version of the program, and the newest layout that it makes.
const VERSION: &str = "0.1.0, layout 3";

const USAGE: &str = "inofs
       inofs mkfs IMAGE --sectors N --inodes N
       inofs format IMAGE --size SIZE [--inodes N]
       inofs pack IMAGE DIR --size SIZE [--inodes N] [--uid N] [--gid N]
       inofs unpack IMAGE DIR
       inofs run IMAGE [SCRIPT]
       inofs check [--explain] IMAGE
       inofs info [--json] IMAGE
       inofs upgrade IMAGE
       inofs fuse IMAGE [--denials FILE] [--own-rules] [--commit SECONDS]
       inofs access IMAGE PATH PERM --user UID:GID[,GID..] [--caps NAME[,NAME..]] [--json]";

const STATUSES: &str =
    "With no command, runs the script on the standard input on a new disk in memory.

Status: 0 done, 1 a line's fault, a finding or a denial, 2 bad words, 3 every other fault.";

/// A text of the command line.
#[derive(Drop)]
pub struct Text {
    text: String,
}

impl Model for Text {
    ghost use Rattle.std.specs.Prelude.{List, ℕ, string_bytes};

    ghost Value = { List ℕ };

    ghost view = { λ t. string_bytes t.text };
}

impl Text {
    // A copy of the text.
    fn new(alloc: Global, text: &str) -> Result<Text, AllocError>
        ensures { IfOk result (λ copy. copy ≡ text.now) }
    {
        Ok(Text {
            text: String::from_str(alloc, text)?,
        })
    }

    /// The text, as a path for one.
    pub fn as_str(&self) -> &str
        ensures { result.now ≡ self.now }
    {
        self.text.as_str()
    }
}

/// What the program is asked to do.
#[derive(Drop)]
pub enum Job {
    /// To run the script on the standard input, on a new disk in memory.
    Memory,
    /// To make an image of the second layout.
    Mkfs {
        /// The image's path.
        image: Text,
        /// How many sectors of 512 bytes it has.
        sectors: u32,
        /// How many inodes, 0 too.
        inodes: u32,
    },
    /// To make an image of the third layout.
    Format {
        /// The image's path.
        image: Text,
        /// How many sectors of 512 bytes it has.
        sectors: u32,
        /// How many inodes, 0 too.
        inodes: u32,
    },
    /// To make an image of the third layout with the tree of a directory.
    Pack {
        /// The image's path.
        image: Text,
        /// The directory's path.
        from: Text,
        /// How many sectors of 512 bytes it has.
        sectors: u32,
        /// How many inodes, 0 too.
        inodes: u32,
        /// Whose all of it is; without one each object has the user that it has.
        user: Option<u32>,
        /// The group of all of it; without one each object has the group that it has.
        group: Option<u32>,
    },
    /// To copy the tree of an image to a new directory.
    Unpack {
        /// The image's path.
        image: Text,
        /// The directory's path.
        to: Text,
    },
    /// To run a script on an image.
    Run {
        /// The image's path.
        image: Text,
        /// The script's path. Without one the script is on the standard input.
        script: Option<Text>,
    },
    /// To check an image.
    Check {
        /// The image's path.
        image: Text,
        /// A sentence says what the rule of a finding asks.
        explain: bool,
    },
    /// To say what an image says of itself.
    Info {
        /// The image's path.
        image: Text,
        /// In one line of JSON, for programs.
        json: bool,
    },
    /// To upgrade an image.
    Upgrade {
        /// The image's path.
        image: Text,
    },
    /// To serve the kernel's FUSE requests from an image.
    Fuse {
        /// The image's path.
        image: Text,
        /// The path of the file to which denials are written, if there is one.
        denials: Option<Text>,
        /// The kernel judges no ACLs: every denial is ours.
        own_rules: bool,
        /// After how many seconds a request has everything kept first; 0 where none does.
        commit: u32,
    },
    /// To say whether somebody may do something at a path, and why.
    Access {
        /// The image's path.
        image: Text,
        /// The path in the image.
        path: Text,
        /// What they are to do.
        perms: Perms,
        /// Who it is.
        cred: Cred,
        /// In one line of JSON, for programs.
        json: bool,
    },
}

/// Why the words ask for nothing that can be done.
#[derive(Debug, Drop, ThisError)]
pub enum WordsFault {
    /// The words ask for the help or the version, which is the error's text.
    #[error("{0}")]
    Help(Error),
    /// The words aren't those of any job. The error's text says what is wrong.
    #[error("{0}")]
    BadWords(Error),
    /// The size of the image to be made is none, or out of range.
    #[error("error: invalid value for '--size <SIZE>': 512K to 8G, in bytes or with K, M or G behind\n")]
    BadSize,
    /// The permissions are none.
    #[error("error: invalid value for '<PERM>': r, w and x, as in r, rw or r-x\n")]
    BadPerm,
    /// The user and its groups are none.
    #[error("error: invalid value for '--user <UID:GID>': a user, a colon, and 1 to 17 groups with commas between\n")]
    BadUser,
    /// The capabilities are none.
    #[error("error: invalid value for '--caps <NAMES>': none, or some of chown, dac-override, dac-read-search, fowner and fsetid, in this order with commas between\n")]
    BadCaps,
    /// Memory ran out.
    #[error("error: out of memory\n")]
    OutOfMemory,
}

impl From<AllocError> for WordsFault {
    ghost use Rattle.fs_command.specs.declared.words.WordsFault.TheVariants.{OutOfMemory};

    ghost from_gives = { λ _ fault. fault ≡ OutOfMemory };

    fn from(_error: AllocError) -> WordsFault {
        WordsFault::OutOfMemory
    }
}

impl From<Error> for WordsFault {
    ghost use Rattle.fs_command.specs.Words.{IsSortOf};

    ghost from_gives = { IsSortOf };

    fn from(error: Error) -> WordsFault {
        match error.kind() {
            ErrorKind::DisplayHelp | ErrorKind::DisplayVersion => WordsFault::Help(error),
            ErrorKind::OutOfMemory => WordsFault::OutOfMemory,
            _ => WordsFault::BadWords(error),
        }
    }
}

impl WordsFault {
    /// How the program ends then.
    pub fn status(&self) -> Status
        ensures { result ≡ words_status self.now }
    {
        match self {
            WordsFault::Help(_) => Status::Done,
            WordsFault::BadWords(_)
            | WordsFault::BadSize
            | WordsFault::BadPerm
            | WordsFault::BadUser
            | WordsFault::BadCaps
            | WordsFault::OutOfMemory => Status::BadWords,
        }
    }
}

/// What the words of a command line ask for. The first is the program's name, as `env::args` has it.
pub fn parse_words(alloc: Global, words: &[String]) -> Result<Job, WordsFault>
    // The job is what `clap`'s definition of the command line reads from the words. It refuses words by a kind of error
    // that the definition gives them, for a size out of range, or for want of memory.
    ensures said { MatchResult result (AsksFor (map string_bytes words.now)) (Refuses (map string_bytes words.now)) }
    ensures taken { IfOk result (λ _. fault_of command_line (map string_bytes words.now) ≡ []) }
{
    let matches = program(alloc)?.try_get_matches_from(words)?;
    named_job(alloc, &matches)
}

// The job of the command that the words name.
fn named_job(alloc: Global, matches: &ArgMatches<'_>) -> Result<Job, WordsFault>
    requires { HasValues (subcommand_rows_of matches.now) }
    ensures { MatchResult result (SaysJob (subcommand_rows_of matches.now)) (HasBadValue (subcommand_rows_of matches.now)) }
{
    match matches.subcommand() {
        Some((name, matches)) => command_job(alloc, name, matches),
        None => Ok(Job::Memory),
    }
}

// The job of the command with this name.
fn command_job(alloc: Global, name: &str, matches: &ArgMatches<'_>) -> Result<Job, WordsFault>
    requires { IsWhole name.now (rows_of (found_of matches.now)) }
    ensures { MatchResult result (SaysJob (Some (name.now, rows_of (found_of matches.now))))
        (HasBadValue (Some (name.now, rows_of (found_of matches.now)))) }
{
    match name {
        "mkfs" => if_made(mkfs_job(alloc, matches)),
        "format" => format_job(alloc, matches),
        "pack" => pack_job(alloc, matches),
        "unpack" => if_made(unpack_job(alloc, matches)),
        "run" => if_made(run_job(alloc, matches)),
        "check" => if_made(check_job(alloc, matches)),
        "info" => if_made(info_job(alloc, matches)),
        "upgrade" => if_made(upgrade_job(alloc, matches)),
        "fuse" => if_made(fuse_job(alloc, matches)),
        "access" => access_job(alloc, matches),
        _ => unreachable!(),
    }
}

// The job, if there was memory for it.
fn if_made(job: Result<Job, AllocError>) -> Result<Job, WordsFault>
    ensures { MatchResult result (λ made. job ≡ Ok made) (λ fault. fault ≡ OutOfMemory) }
{
    Ok(job?)
}

// The job of `mkfs`.
fn mkfs_job(alloc: Global, matches: &ArgMatches<'_>) -> Result<Job, AllocError>
    requires image { IsGiven (codes "IMAGE") (rows_of (found_of matches.now)) }
    requires sectors { IsNumberGiven 1024 65536 (codes "sectors") (rows_of (found_of matches.now)) }
    requires inodes { IsNumberGiven 16 4096 (codes "inodes") (rows_of (found_of matches.now)) }
    ensures { IfOk result (SaysMkfs (rows_of (found_of matches.now))) }
{
    Ok(Job::Mkfs {
        image: text_given(alloc, matches, "IMAGE")?,
        sectors: matches.get_one::<u32>("sectors").unwrap(),
        inodes: matches.get_one::<u32>("inodes").unwrap(),
    })
}

// The job of `format`.
fn format_job(alloc: Global, matches: &ArgMatches<'_>) -> Result<Job, WordsFault>
    requires image { IsGiven (codes "IMAGE") (rows_of (found_of matches.now)) }
    requires size { IsGiven (codes "size") (rows_of (found_of matches.now)) }
    requires inodes { IsNumberIfGiven 16 1048576 (codes "inodes") (rows_of (found_of matches.now)) }
    ensures { MatchResult result (SaysFormat (rows_of (found_of matches.now))) (HasBadSize (rows_of (found_of matches.now))) }
{
    let sectors = sectors_given(matches)?;
    let inodes = inodes_given(matches, sectors);
    let image = text_given(alloc, matches, "IMAGE")?;
    Ok(Job::Format {
        image,
        sectors,
        inodes,
    })
}

// The job of `pack`.
fn pack_job(alloc: Global, matches: &ArgMatches<'_>) -> Result<Job, WordsFault>
    requires image { IsGiven (codes "IMAGE") (rows_of (found_of matches.now)) }
    requires from { IsGiven (codes "DIR") (rows_of (found_of matches.now)) }
    requires size { IsGiven (codes "size") (rows_of (found_of matches.now)) }
    requires inodes { IsNumberIfGiven 16 1048576 (codes "inodes") (rows_of (found_of matches.now)) }
    requires user { IsNumberIfGiven 0 4294967295 (codes "uid") (rows_of (found_of matches.now)) }
    requires group { IsNumberIfGiven 0 4294967295 (codes "gid") (rows_of (found_of matches.now)) }
    ensures { MatchResult result (SaysPack (rows_of (found_of matches.now))) (HasBadSize (rows_of (found_of matches.now))) }
{
    let sectors = sectors_given(matches)?;
    let inodes = inodes_given(matches, sectors);
    let user = matches.get_one::<u32>("uid");
    let group = matches.get_one::<u32>("gid");
    let image = text_given(alloc, matches, "IMAGE")?;
    let from = text_given(alloc, matches, "DIR")?;
    Ok(Job::Pack {
        image,
        from,
        sectors,
        inodes,
        user,
        group,
    })
}

// The job of `unpack`.
fn unpack_job(alloc: Global, matches: &ArgMatches<'_>) -> Result<Job, AllocError>
    requires image { IsGiven (codes "IMAGE") (rows_of (found_of matches.now)) }
    requires to { IsGiven (codes "DIR") (rows_of (found_of matches.now)) }
    ensures { IfOk result (SaysUnpack (rows_of (found_of matches.now))) }
{
    Ok(Job::Unpack {
        image: text_given(alloc, matches, "IMAGE")?,
        to: text_given(alloc, matches, "DIR")?,
    })
}

// The job of `run`.
fn run_job(alloc: Global, matches: &ArgMatches<'_>) -> Result<Job, AllocError>
    requires image { IsGiven (codes "IMAGE") (rows_of (found_of matches.now)) }
    ensures { IfOk result (SaysRun (rows_of (found_of matches.now))) }
{
    Ok(Job::Run {
        image: text_given(alloc, matches, "IMAGE")?,
        script: text_if_given(alloc, matches, "SCRIPT")?,
    })
}

// The job of `check`.
fn check_job(alloc: Global, matches: &ArgMatches<'_>) -> Result<Job, AllocError>
    requires image { IsGiven (codes "IMAGE") (rows_of (found_of matches.now)) }
    requires explain { IsFlag (codes "explain") (rows_of (found_of matches.now)) }
    ensures { IfOk result (SaysCheck (rows_of (found_of matches.now))) }
{
    let image = text_given(alloc, matches, "IMAGE")?;
    let explain = flag_given(matches, "explain");
    Ok(Job::Check { image, explain })
}

// The job of `info`.
fn info_job(alloc: Global, matches: &ArgMatches<'_>) -> Result<Job, AllocError>
    requires image { IsGiven (codes "IMAGE") (rows_of (found_of matches.now)) }
    requires json { IsFlag (codes "json") (rows_of (found_of matches.now)) }
    ensures { IfOk result (SaysInfo (rows_of (found_of matches.now))) }
{
    let image = text_given(alloc, matches, "IMAGE")?;
    let json = flag_given(matches, "json");
    Ok(Job::Info { image, json })
}

// The job of `upgrade`.
fn upgrade_job(alloc: Global, matches: &ArgMatches<'_>) -> Result<Job, AllocError>
    requires image { IsGiven (codes "IMAGE") (rows_of (found_of matches.now)) }
    ensures { IfOk result (SaysUpgrade (rows_of (found_of matches.now))) }
{
    let image = text_given(alloc, matches, "IMAGE")?;
    Ok(Job::Upgrade { image })
}

// The job of `fuse`.
fn fuse_job(alloc: Global, matches: &ArgMatches<'_>) -> Result<Job, AllocError>
    requires image { IsGiven (codes "IMAGE") (rows_of (found_of matches.now)) }
    requires own_rules { IsFlag (codes "own-rules") (rows_of (found_of matches.now)) }
    requires commit { IsNumberIfGiven 0 86400 (codes "commit") (rows_of (found_of matches.now)) }
    ensures { IfOk result (SaysFuse (rows_of (found_of matches.now))) }
{
    let image = text_given(alloc, matches, "IMAGE")?;
    let denials = text_if_given(alloc, matches, "denials")?;
    let own_rules = flag_given(matches, "own-rules");
    let commit = commit_given(matches);
    Ok(Job::Fuse {
        image,
        denials,
        own_rules,
        commit,
    })
}

// The job of `access`.
fn access_job(alloc: Global, matches: &ArgMatches<'_>) -> Result<Job, WordsFault>
    requires image { IsGiven (codes "IMAGE") (rows_of (found_of matches.now)) }
    requires path { IsGiven (codes "PATH") (rows_of (found_of matches.now)) }
    requires perm { IsGiven (codes "PERM") (rows_of (found_of matches.now)) }
    requires user { IsGiven (codes "user") (rows_of (found_of matches.now)) }
    requires json { IsFlag (codes "json") (rows_of (found_of matches.now)) }
    ensures { MatchResult result (SaysAccess (rows_of (found_of matches.now))) (HasBadAccess (rows_of (found_of matches.now))) }
{
    let perms = perms_given(matches)?;
    let cred = user_given(alloc, matches)?;
    let json = flag_given(matches, "json");
    let image = text_given(alloc, matches, "IMAGE")?;
    let path = text_given(alloc, matches, "PATH")?;
    Ok(Job::Access {
        image,
        path,
        perms,
        cred,
        json,
    })
}

// The text of an argument that has one.
fn text_given(alloc: Global, matches: &ArgMatches<'_>, name: &str) -> Result<Text, AllocError>
    requires given { IsGiven name.now (rows_of (found_of matches.now)) }
    ensures { IfOk result (λ text. first_of name.now (rows_of (found_of matches.now)) ≡ Some text) }
{
    Text::new(alloc, matches.get_str(name).unwrap())
}

// The text of an argument, if it has one.
fn text_if_given(
    alloc: Global,
    matches: &ArgMatches<'_>,
    name: &str,
) -> Result<Option<Text>, AllocError>
    ensures { IfOk result (λ text. first_of name.now (rows_of (found_of matches.now)) ≡ text) }
{
    match matches.get_str(name) {
        Some(text) => Ok(Some(Text::new(alloc, text)?)),
        None => Ok(None),
    }
}

// Whether a flag is given.
fn flag_given(matches: &ArgMatches<'_>, name: &str) -> bool
    requires flag { IsFlag name.now (rows_of (found_of matches.now)) }
    ensures { is_given name.now (rows_of (found_of matches.now)) ≡ result }
{
    matches.get_flag(name)
}

// How many sectors a new disk has by the size that is given.
fn sectors_given(matches: &ArgMatches<'_>) -> Result<u32, WordsFault>
    requires given { IsGiven (codes "size") (rows_of (found_of matches.now)) }
    ensures { MatchResult result (IsSizeFor (first_of (codes "size") (rows_of (found_of matches.now))))
        (HasBadSize (rows_of (found_of matches.now))) }
{
    let Some(sectors) = sectors_of_size(matches.get_str("size").unwrap()) else {
        return Err(WordsFault::BadSize);
    };
    Ok(sectors)
}

// How many inodes a new disk of so many sectors has: as many as the words say, else as many as are usual.
fn inodes_given(matches: &ArgMatches<'_>, sectors: u32) -> u32
    requires given { IsNumberIfGiven 16 1048576 (codes "inodes") (rows_of (found_of matches.now)) }
    ensures { IsNumberOr (usual_inodes sectors) 16 1048576 (one_of (codes "inodes") (rows_of (found_of matches.now))) result }
{
    matches
        .get_one::<u32>("inodes")
        .unwrap_or(usual_inodes(sectors))
}

// After how many seconds everything is kept: as many as the words say, else 0, where time keeps nothing.
fn commit_given(matches: &ArgMatches<'_>) -> u32
    requires given { IsNumberIfGiven 0 86400 (codes "commit") (rows_of (found_of matches.now)) }
    ensures { IsNumberOr 0 0 86400 (one_of (codes "commit") (rows_of (found_of matches.now))) result }
{
    matches.get_one::<u32>("commit").unwrap_or(0)
}

// The command line.
fn program<'a>(alloc: Global) -> Result<Command<'a>, AllocError>
    ensures { IfOk result (λ command. app_of command ≡ command_line) }
{
    let program = program_with_users(alloc)?;
    let program = with_command(program, info_command(alloc))?;
    let program = with_command(program, upgrade_command(alloc))?;
    let program = with_command(program, fuse_command(alloc))?;
    with_command(program, access_command(alloc))
}

// The program with the commands that make images, and with those that go over what is in one.
fn program_with_users<'a>(alloc: Global) -> Result<Command<'a>, AllocError>
    ensures { IfOk result (λ command. app_of command ≡ with_users) }
{
    let program = program_with_makers(alloc)?;
    let program = with_command(program, unpack_command(alloc))?;
    let program = with_command(program, run_command(alloc))?;
    with_command(program, check_command(alloc))
}

// The program with the commands that make images.
fn program_with_makers<'a>(alloc: Global) -> Result<Command<'a>, AllocError>
    ensures { IfOk result (λ command. app_of command ≡ with_makers) }
{
    let program = program_alone(alloc);
    let program = with_command(program, mkfs_command(alloc))?;
    let program = with_command(program, format_command(alloc))?;
    with_command(program, pack_command(alloc))
}

// The program with one command more, if that could be made.
fn with_command<'a>(
    program: Command<'a>,
    command: Result<Command<'a>, AllocError>,
) -> Result<Command<'a>, AllocError>
    ensures { IfOk result (λ new. IsOkAnd command.entry (λ made. AddsSubcommand program.entry made new)) }
{
    program.subcommand(command?)
}

// The program alone, with no command.
fn program_alone<'a>(alloc: Global) -> Command<'a>
    ensures { app_of result ≡ alone }
{
    Command::new(alloc, "inofs")
        .version(VERSION)
        .about("A file system in an image, with a journal and access control lists")
        .override_usage(USAGE)
        .after_help(STATUSES)
        .disable_help_subcommand(true)
}

// The words of `mkfs`.
fn mkfs_command<'a>(alloc: Global) -> Result<Command<'a>, AllocError>
    ensures { IfOk result (λ command. app_of command ≡ mkfs) }
{
    on_image(
        alloc,
        "mkfs",
        "Make an image of the second layout with an empty file system",
        "The image, which must not exist",
    )?
    .arg(
        number(alloc, "sectors", "N", 1024, 65536)
            .required(true)
            .help("Sectors of 512 bytes, 1024 to 65536"),
    )?
    .arg(
        number(alloc, "inodes", "N", 16, 4096)
            .required(true)
            .help("Inodes, 16 to 4096"),
    )
}

// The words of `format`.
fn format_command<'a>(alloc: Global) -> Result<Command<'a>, AllocError>
    ensures { IfOk result (λ command. app_of command ≡ format) }
{
    let command = on_image(
        alloc,
        "format",
        "Make an image of the third layout with an empty file system",
        "The image, which must not exist",
    )?;
    with_size(alloc, command)
}

// The words of `pack`.
fn pack_command<'a>(alloc: Global) -> Result<Command<'a>, AllocError>
    ensures { IfOk result (λ command. app_of command ≡ pack) }
{
    let command = on_image(
        alloc,
        "pack",
        "Make an image of the third layout with the tree of a directory",
        "The image, which must not exist",
    )?
    .arg(directory(alloc).help(
        "The directory; of its access lists the masks become groups' bits",
    ))?;
    with_size(alloc, command)?
        .arg(number(alloc, "uid", "N", 0, 4294967295).help(
            "The user of all; without it each one's own",
        ))?
        .arg(number(alloc, "gid", "N", 0, 4294967295).help(
            "The group of all; without it each one's own",
        ))
}

// A command with the size of the image that it makes.
fn with_size<'a>(alloc: Global, command: Command<'a>) -> Result<Command<'a>, AllocError>
    ensures { IfOk result (λ new. app_of new ≡ with_size (app_of command.entry)) }
{
    command
        .arg(
            text_option(alloc, "size", "SIZE")
                .required(true)
                .help("Bytes, or with K, M or G: 512K to 8G"),
        )?
        .arg(number(alloc, "inodes", "N", 16, 1048576).help(
            "Inodes, 16 to 1048576; without it one for 32 sectors",
        ))
}

// The words of `unpack`.
fn unpack_command<'a>(alloc: Global) -> Result<Command<'a>, AllocError>
    ensures { IfOk result (λ command. app_of command ≡ unpack) }
{
    on_image(
        alloc,
        "unpack",
        "Copy the tree of an image to a new directory",
        "The image",
    )?
    .arg(directory(alloc).help("The directory, which must not exist"))
}

// The words of `run`.
fn run_command<'a>(alloc: Global) -> Result<Command<'a>, AllocError>
    ensures { IfOk result (λ command. app_of command ≡ run) }
{
    on_image(alloc, "run", "Run a script on an image", "The image")?.arg(Arg::new(
        alloc, "SCRIPT",
    ).help("The script; without it, the standard input"))
}

// The words of `check`.
fn check_command<'a>(alloc: Global) -> Result<Command<'a>, AllocError>
    ensures { IfOk result (λ command. app_of command ≡ check) }
{
    on_image(alloc, "check", "Check an image", "The image")?.arg(flag(alloc, "explain").help(
        "Say what the rule of a finding asks",
    ))
}

// The words of `info`.
fn info_command<'a>(alloc: Global) -> Result<Command<'a>, AllocError>
    ensures { IfOk result (λ command. app_of command ≡ info) }
{
    on_image(
        alloc,
        "info",
        "Say the version, the size, what is free and the limits of an image",
        "The image",
    )?
    .arg(flag(alloc, "json").help("Say it in one line of JSON"))
}

// The words of `upgrade`.
fn upgrade_command<'a>(alloc: Global) -> Result<Command<'a>, AllocError>
    ensures { IfOk result (λ command. app_of command ≡ upgrade) }
{
    on_image(
        alloc,
        "upgrade",
        "Upgrade an image of the first layout to the second",
        "The image",
    )
}

// The words of `fuse`.
fn fuse_command<'a>(alloc: Global) -> Result<Command<'a>, AllocError>
    ensures { IfOk result (λ command. app_of command ≡ fuse) }
{
    on_image(
        alloc,
        "fuse",
        "Serve an image to the kernel's FUSE, on the standard input and output",
        "The image",
    )?
    .arg(text_option(alloc, "denials", "FILE").help(
        "The file to which denials are written, a line each",
    ))?
    .arg(flag(alloc, "own-rules").help("Let the kernel judge no ACLs"))?
    .arg(number(alloc, "commit", "SECONDS", 0, 86400).help(
        "Keep all so often, 1 to 86400; with 0, or without it, only fsync and the unmount do",
    ))
}

// The words of `access`.
fn access_command<'a>(alloc: Global) -> Result<Command<'a>, AllocError>
    ensures { IfOk result (λ command. app_of command ≡ access) }
{
    on_image(
        alloc,
        "access",
        "Say whether somebody may do something at a path of an image, and why",
        "The image",
    )?
    .arg(required(alloc, "PATH").help("The path in the image"))?
    .arg(required(alloc, "PERM").help("What they are to do: r, w, x or some of these"))?
    .arg(
        text_option(alloc, "user", "UID:GID[,GID..]")
            .required(true)
            .help("The user, its group, and up to 16 further ones"),
    )?
    .arg(text_option(alloc, "caps", "NAME[,NAME..]").help(
        "Its capabilities, or none; without it user 0 has all, and others none",
    ))?
    .arg(flag(alloc, "json").help("Say it in one line of JSON"))
}

// A command on an image.
fn on_image<'a>(
    alloc: Global,
    name: &'a str,
    about: &'a str,
    image_help: &'a str,
) -> Result<Command<'a>, AllocError>
    ensures { IfOk result (λ command. app_of command ≡ with_rule (new_app name.entry.now) image) }
{
    Command::new(alloc, name)
        .about(about)
        .arg(image(alloc).help(image_help))
}

// The path of the image.
fn image<'a>(alloc: Global) -> Arg<'a>
    ensures rule { rule_of result ≡ image }
    ensures local { result.global ≡ false }
{
    Arg::new(alloc, "IMAGE").required(true)
}

// The path of the directory.
fn directory<'a>(alloc: Global) -> Arg<'a>
    ensures rule { rule_of result ≡ directory }
    ensures local { result.global ≡ false }
{
    Arg::new(alloc, "DIR").required(true)
}

// A word that has to be given.
fn required<'a>(alloc: Global, name: &'a str) -> Arg<'a>
    ensures rule { rule_of result ≡ required_rule name.entry.now }
    ensures local { result.global ≡ false }
{
    Arg::new(alloc, name).required(true)
}

// A number that may be given, within its bounds.
fn number<'a>(alloc: Global, name: &'a str, value_name: &'a str, least: u64, most: u64) -> Arg<'a>
    ensures rule { rule_of result ≡ number_option name.entry.now least most }
    ensures local { result.global ≡ false }
{
    Arg::new(alloc, name)
        .long(name)
        .value_name(value_name)
        .value_parser(ValueParser::unsigned(least, most))
}

// A text that may be given.
fn text_option<'a>(alloc: Global, name: &'a str, value_name: &'a str) -> Arg<'a>
    ensures rule { rule_of result ≡ text_option name.entry.now }
    ensures local { result.global ≡ false }
{
    Arg::new(alloc, name).long(name).value_name(value_name)
}

// A flag that may be given.
fn flag<'a>(alloc: Global, name: &'a str) -> Arg<'a>
    ensures rule { rule_of result ≡ flag name.entry.now }
    ensures local { result.global ≡ false }
{
    Arg::new(alloc, name).long(name).action(ArgAction::SetTrue)
}
