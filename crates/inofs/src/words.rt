//! Which job the words ask for, and what is printed where they ask for none.

use crate::report::push_other_text;
use bitflags::Flags;
use fs_program::{Job, WordsFault, parse_words};
use std::alloc::{AllocError, Global};
use std::mem;
use std::test::Fail;

// What the words of a line ask for.
fn parsed(alloc: Global, line: &str) -> Result<Result<Job, WordsFault>, AllocError> {
    let mut words = Vec::new(alloc);
    for word in line.split(' ') {
        words.push(String::from_str(alloc, word)?)?;
    }
    let outcome = parse_words(alloc, words.as_slice());
    mem::drop(words);
    Ok(outcome)
}

// What the words of a line ask for, as a text.
fn asked(alloc: Global, line: &str) -> Result<String, AllocError> {
    let outcome = parsed(alloc, line)?;
    let told = match &outcome {
        Ok(job) => told_job(alloc, job),
        Err(fault) => told_fault(alloc, fault),
    };
    mem::drop(outcome);
    told
}

fn told_job(alloc: Global, job: &Job) -> Result<String, AllocError> {
    match job {
        Job::Memory => String::from_str(alloc, "memory"),
        Job::Mkfs {
            image,
            sectors,
            inodes,
        } => format!(in alloc; "mkfs {} {sectors} {inodes}", image.as_str()),
        Job::Format {
            image,
            sectors,
            inodes,
        } => format!(in alloc; "format {} {sectors} {inodes}", image.as_str()),
        Job::Pack { .. } => told_pack(alloc, job),
        Job::Unpack { image, to } => {
            format!(in alloc; "unpack {} {}", image.as_str(), to.as_str())
        }
        Job::Run {
            image,
            script: Some(script),
        } => format!(in alloc; "run {} {}", image.as_str(), script.as_str()),
        Job::Run {
            image,
            script: None,
        } => format!(in alloc; "run {}", image.as_str()),
        Job::Check { image, explain } => { format!(in alloc; "check {} {explain}", image.as_str()) }
        Job::Info { image, json } => format!(in alloc; "info {} {json}", image.as_str()),
        Job::Upgrade { image } => format!(in alloc; "upgrade {}", image.as_str()),
        Job::Fuse {
            image,
            denials: Some(denials),
            own_rules,
            commit,
        } => {
            let (image, denials) = (image.as_str(), denials.as_str());
            format!(in alloc; "fuse {image} {denials} {own_rules} {commit}")
        }
        Job::Fuse {
            image,
            denials: None,
            own_rules,
            commit,
        } => format!(in alloc; "fuse {} {own_rules} {commit}", image.as_str()),
        Job::Access { .. } => told_access(alloc, job),
    }
}

// Of another job nothing is told.
fn told_access(alloc: Global, job: &Job) -> Result<String, AllocError> {
    let Job::Access {
        image,
        path,
        perms,
        cred,
        json,
    } = job
    else {
        return Ok(String::new(alloc));
    };
    let (image, path, perms) = (image.as_str(), path.as_str(), perms.letters());
    let mut told = format!(in alloc;
        "access {image} {path} {perms} {} {}",
        cred.uid(),
        cred.gid()
    )?;
    for group in cred.groups() {
        write!(told, ",{group}")?;
    }
    write!(told, " {} {json}", cred.caps().bits())?;
    Ok(told)
}

// Of another job nothing is told.
fn told_pack(alloc: Global, job: &Job) -> Result<String, AllocError> {
    let Job::Pack {
        image,
        from,
        sectors,
        inodes,
        user,
        group,
    } = job
    else {
        return Ok(String::new(alloc));
    };
    let (image, from) = (image.as_str(), from.as_str());
    format!(in alloc; "pack {image} {from} {sectors} {inodes} {user:?} {group:?}")
}

fn told_fault(alloc: Global, fault: &WordsFault) -> Result<String, AllocError> {
    let word = match fault {
        WordsFault::Help(_) => "help",
        WordsFault::BadWords(_) => "bad",
        WordsFault::BadSize => "size",
        WordsFault::BadPerm => "perm",
        WordsFault::BadUser => "user",
        WordsFault::BadCaps => "caps",
        WordsFault::OutOfMemory => "memory",
    };
    format!(in alloc; "{word} {}", fault.status().code())
}

// ---- what is asked for

// Lines that ask for images and trees, and what they ask for.
static MAKING: [(&str, &str); 13] = [
    ("inofs", "memory"),
    (
        "inofs mkfs a.img --sectors 1024 --inodes 16",
        "mkfs a.img 1024 16",
    ),
    (
        "inofs mkfs --inodes 4096 --sectors 65536 a.img",
        "mkfs a.img 65536 4096",
    ),
    (
        "inofs mkfs --sectors=+02048 a.img --inodes=64",
        "mkfs a.img 2048 64",
    ),
    // The bytes are tested before they are rounded down to sectors.
    ("inofs format a.img --size 512K", "format a.img 1024 32"),
    ("inofs format --size=524799 a.img", "format a.img 1024 32"),
    ("inofs format a.img --size +1000000", "format a.img 1953 60"),
    (
        "inofs format a.img --inodes=+016 --size 2097152",
        "format a.img 4096 16",
    ),
    (
        "inofs format a.img --size 8G",
        "format a.img 16777216 524288",
    ),
    (
        "inofs format a.img --size 1024M --inodes 1048576",
        "format a.img 2097152 1048576",
    ),
    (
        "inofs pack a.img d --size 512K",
        "pack a.img d 1024 32 None None",
    ),
    (
        "inofs pack --gid=0 a.img --uid 4294967295 --inodes 16 --size 2M d",
        "pack a.img d 4096 16 Some(4294967295) Some(0)",
    ),
    ("inofs unpack a.img d", "unpack a.img d"),
];

// Lines that ask for what is done to an image that is there.
static USING: [(&str, &str); 18] = [
    ("inofs run a.img", "run a.img"),
    ("inofs run a.img s", "run a.img s"),
    ("inofs run -- --help s", "run --help s"),
    ("inofs check a.img", "check a.img false"),
    ("inofs check a.img --explain", "check a.img true"),
    ("/usr/bin/inofs check check", "check check false"),
    ("inofs info a.img", "info a.img false"),
    ("inofs info a.img --json", "info a.img true"),
    ("inofs info --json -- --json", "info --json true"),
    ("inofs upgrade a.img", "upgrade a.img"),
    ("inofs fuse a.img", "fuse a.img false 0"),
    ("inofs fuse a.img --own-rules", "fuse a.img true 0"),
    ("inofs fuse --denials d a.img", "fuse a.img d false 0"),
    (
        "inofs fuse a.img --denials=d --own-rules",
        "fuse a.img d true 0",
    ),
    ("inofs fuse a.img --commit 0", "fuse a.img false 0"),
    ("inofs fuse --commit=+05 a.img", "fuse a.img false 5"),
    ("inofs fuse a.img --commit 86400", "fuse a.img false 86400"),
    (
        "inofs fuse --own-rules --commit 1 a.img --denials d",
        "fuse a.img d true 1",
    ),
];

// Lines that ask who may do what: the capabilities are told by the sum of their bits.
static ASKING: [(&str, &str); 10] = [
    (
        "inofs access a.img /f r --user 7:8",
        "access a.img /f r-- 7 8 0 false",
    ),
    (
        "inofs access a.img f rwx --user 0:8",
        "access a.img f rwx 0 8 31 false",
    ),
    (
        "inofs access --json a.img / x --user=7:8,9,4294967295",
        "access a.img / --x 7 8,9,4294967295 0 true",
    ),
    (
        "inofs access a.img /f rx --user 0:0 --caps none",
        "access a.img /f r-x 0 0 0 false",
    ),
    (
        "inofs access a.img /f r-x --caps chown,fsetid --user 7:8 --json",
        "access a.img /f r-x 7 8 17 true",
    ),
    (
        "inofs access --user 7:8 -- a.img /f -w-",
        "access a.img /f -w- 7 8 0 false",
    ),
    (
        "inofs access --user 7:8 -- a.img /f ---",
        "access a.img /f --- 7 8 0 false",
    ),
    (
        "inofs access a.img /f w --user 7:8 --caps dac-override",
        "access a.img /f -w- 7 8 2 false",
    ),
    (
        "inofs access a.img /f rw --user 7:8 --caps dac-read-search,fowner",
        "access a.img /f rw- 7 8 12 false",
    ),
    (
        "inofs access a.img /f wx --user 7:0,1,2,3,4,5,6,7,8,9,10,11,12,13,14,15,16",
        "access a.img /f -wx 7 0,1,2,3,4,5,6,7,8,9,10,11,12,13,14,15,16 0 false",
    ),
];

// Lines that ask for no job: `mkfs`.
static BAD_MKFS: [&str; 16] = [
    "inofs mkfs",
    "inofs mkfs a.img",
    "inofs mkfs a.img --sectors 1024",
    "inofs mkfs a.img --inodes 16",
    "inofs mkfs --sectors 1024 --inodes 16",
    "inofs mkfs a.img --sectors 1023 --inodes 16",
    "inofs mkfs a.img --sectors 65537 --inodes 16",
    "inofs mkfs a.img --sectors 1024 --inodes 15",
    "inofs mkfs a.img --sectors 1024 --inodes 4097",
    "inofs mkfs a.img --sectors x --inodes 16",
    "inofs mkfs a.img --sectors -1024 --inodes 16",
    "inofs mkfs a.img --sectors 99999999999999999999 --inodes 16",
    "inofs mkfs a.img --sectors 1024 --sectors 1024 --inodes 16",
    "inofs mkfs a.img b.img --sectors 1024 --inodes 16",
    "inofs mkfs a.img --sectors 1024 --inodes",
    "inofs mkfs a.img --size 1M",
];

// `format`, `pack` and `unpack`.
static BAD_TREES: [&str; 17] = [
    "inofs format a.img",
    "inofs format --size 1M",
    "inofs format a.img b.img --size 1M",
    "inofs format a.img --size",
    "inofs format a.img --size 1M --size 1M",
    "inofs format a.img --size -1M",
    "inofs format a.img --size 1M --sectors 2048",
    "inofs format a.img --size 1M --inodes 15",
    "inofs format a.img --size 8G --inodes 1048577",
    "inofs format a.img --size x --inodes x",
    "inofs pack a.img --size 1M",
    "inofs pack a.img d",
    "inofs pack a.img d e --size 1M",
    "inofs pack a.img d --size 1M --uid 4294967296",
    "inofs pack a.img d --size 1M --owner 0:0",
    "inofs unpack a.img",
    "inofs unpack a.img d --uid 0",
];

// `run`, `check` and `info`.
static BAD_LOOKS: [&str; 12] = [
    "inofs run",
    "inofs run a.img s t",
    "inofs run a.img --sectors 1024",
    "inofs check",
    "inofs check a.img b.img",
    "inofs check --explain",
    "inofs check a.img --explain=true",
    "inofs info",
    "inofs info a.img b.img",
    "inofs info --json",
    "inofs info a.img --json=true",
    "inofs info a.img --explain",
];

// `access`.
static BAD_QUESTIONS: [&str; 9] = [
    "inofs access",
    "inofs access a.img /f r",
    "inofs access a.img /f --user 7:8",
    "inofs access a.img /f r s --user 7:8",
    "inofs access a.img /f -w- --user 7:8",
    "inofs access a.img /f r --user 7:8 --user 7:8",
    "inofs access a.img /f r --user -1:8",
    "inofs access a.img /f r --user 7:8 --caps",
    "inofs access a.img /f r --user 7:8 --json=true",
];

// Lines with permissions that are none.
static PERMISSIONS: [&str; 6] = [
    "inofs access a.img /f rr --user 7:8",
    "inofs access a.img /f wr --user 7:8",
    "inofs access a.img /f R --user 7:8",
    "inofs access a.img /f r- --user 7:8",
    "inofs access a.img /f rwxr --user 7:8",
    "inofs access a.img /f 4 --user 7",
];

// With users that are none.
static USERS: [&str; 10] = [
    "inofs access a.img /f r --user 7",
    "inofs access a.img /f r --user 7:",
    "inofs access a.img /f r --user :8",
    "inofs access a.img /f r --user 7:8:9",
    "inofs access a.img /f r --user 7:8,",
    "inofs access a.img /f r --user 07:8",
    "inofs access a.img /f r --user 7:4294967296",
    "inofs access a.img /f r --user=",
    "inofs access a.img /f r --user root:8",
    "inofs access a.img /f r --user 7:0,1,2,3,4,5,6,7,8,9,10,11,12,13,14,15,16,17",
];

// With capabilities that are none.
static CAPABILITIES: [&str; 5] = [
    "inofs access a.img /f r --user 7:8 --caps x",
    "inofs access a.img /f r --user 7:8 --caps=",
    "inofs access a.img /f r --user 7:8 --caps chown,chown",
    "inofs access a.img /f r --user 7:8 --caps fsetid,chown",
    "inofs access a.img /f r --user 7:8 --caps none,chown",
];

// All else.
static BAD_OTHERS: [&str; 23] = [
    "inofs upgrade",
    "inofs upgrade a.img b.img",
    "inofs fuse",
    "inofs fuse a.img b.img",
    "inofs fuse a.img --denials",
    "inofs fuse a.img --denials --own-rules",
    "inofs fuse a.img --denials c --denials d",
    "inofs fuse a.img --own-rules --own-rules",
    "inofs fuse a.img --own-rules=true",
    "inofs fuse a.img --own_rules",
    "inofs fuse a.img --commit",
    "inofs fuse a.img --commit 86401",
    "inofs fuse a.img --commit -1",
    "inofs fuse a.img --commit 5s",
    "inofs fuse a.img --commit=",
    "inofs fuse a.img --commit 99999999999999999999",
    "inofs fuse a.img --commit 5 --commit 5",
    "inofs fsck a.img",
    "inofs help",
    "inofs a.img",
    "inofs -- check a.img",
    "inofs --sectors 1024",
    "inofs run --version",
];

// Lines with a size that is none, or out of range.
static SIZES: [&str; 15] = [
    "inofs format a.img --size=",
    "inofs format a.img --size K",
    "inofs format a.img --size 0",
    "inofs format a.img --size 511K",
    "inofs format a.img --size 524287",
    "inofs format a.img --size 8200M",
    "inofs format a.img --size 8589934593",
    "inofs format a.img --size 1m",
    "inofs format a.img --size 1MB",
    "inofs format a.img --size 1.5M",
    "inofs format a.img --size 0x100000",
    "inofs format a.img --size M1",
    "inofs format a.img --size 99999999999999999999",
    "inofs format a.img --size 18014398509481984K",
    "inofs pack a.img d --size 511K",
];

// Lines that ask for help or the version.
static SHOWN: [&str; 14] = [
    "inofs --help",
    "inofs -h",
    "inofs --version",
    "inofs -V",
    "inofs mkfs --help",
    "inofs format --help",
    "inofs pack --help",
    "inofs unpack --help",
    "inofs run a.img -h",
    "inofs check --help",
    "inofs info --help",
    "inofs upgrade --help",
    "inofs fuse --help",
    "inofs access --help",
];

// Adds to the report where a line asks for something other than is wanted.
fn expect(alloc: Global, report: &mut String, line: &str, wanted: &str) -> Result<(), AllocError> {
    let asked = asked(alloc, line)?;
    push_other_text(report, line, asked, wanted)
}

// ---- what is printed

// What is printed at the words of a line, which ask for no job.
fn text(alloc: Global, line: &str) -> Result<String, AllocError> {
    let outcome = parsed(alloc, line)?;
    let text = match &outcome {
        Ok(_) => Ok(String::new(alloc)),
        Err(fault) => format!(in alloc; "{fault}"),
    };
    mem::drop(outcome);
    text
}

pub(crate) const HELP: &str = "A file system in an image, with a journal and access control lists

Usage: inofs
       inofs mkfs IMAGE --sectors N --inodes N
       inofs format IMAGE --size SIZE [--inodes N]
       inofs pack IMAGE DIR --size SIZE [--inodes N] [--uid N] [--gid N]
       inofs unpack IMAGE DIR
       inofs run IMAGE [SCRIPT]
       inofs check [--explain] IMAGE
       inofs info [--json] IMAGE
       inofs upgrade IMAGE
       inofs fuse IMAGE [--denials FILE] [--own-rules] [--commit SECONDS]
       inofs access IMAGE PATH PERM --user UID:GID[,GID..] [--caps NAME[,NAME..]] [--json]

Commands:
  mkfs     Make an image of the second layout with an empty file system
  format   Make an image of the third layout with an empty file system
  pack     Make an image of the third layout with the tree of a directory
  unpack   Copy the tree of an image to a new directory
  run      Run a script on an image
  check    Check an image
  info     Say the version, the size, what is free and the limits of an image
  upgrade  Upgrade an image of the first layout to the second
  fuse     Serve an image to the kernel's FUSE, on the standard input and output
  access   Say whether somebody may do something at a path of an image, and why

Options:
  -h, --help     Print help
  -V, --version  Print version

With no command, runs the script on the standard input on a new disk in memory.

Status: 0 done, 1 a line's fault, a finding or a denial, 2 bad words, 3 every other fault.
";

const FUSE_HELP: &str = "Serve an image to the kernel's FUSE, on the standard input and output

Usage: inofs fuse [OPTIONS] <IMAGE>

Arguments:
  <IMAGE>  The image

Options:
      --denials <FILE>    The file to which denials are written, a line each
      --own-rules         Let the kernel judge no ACLs
      --commit <SECONDS>  Keep all so often, 1 to 86400; with 0, or without it, only fsync and the unmount do
  -h, --help              Print help
";

const FORMAT_HELP: &str = "Make an image of the third layout with an empty file system

Usage: inofs format [OPTIONS] --size <SIZE> <IMAGE>

Arguments:
  <IMAGE>  The image, which must not exist

Options:
      --size <SIZE>  Bytes, or with K, M or G: 512K to 8G
      --inodes <N>   Inodes, 16 to 1048576; without it one for 32 sectors
  -h, --help         Print help
";

const MKFS_HELP: &str = "Make an image of the second layout with an empty file system

Usage: inofs mkfs --sectors <N> --inodes <N> <IMAGE>

Arguments:
  <IMAGE>  The image, which must not exist

Options:
      --sectors <N>  Sectors of 512 bytes, 1024 to 65536
      --inodes <N>   Inodes, 16 to 4096
  -h, --help         Print help
";

// Lines that ask for no job, and what is printed.
static TEXTS: [(&str, &str); 9] = [
    ("inofs --help", HELP),
    ("inofs mkfs --help", MKFS_HELP),
    ("inofs format --help", FORMAT_HELP),
    ("inofs fuse --help", FUSE_HELP),
    ("inofs --version", "inofs 0.1.0, layout 3\n"),
    (
        "inofs mkfs a.img --sectors 1023 --inodes 16",
        "error: invalid value '1023' for '--sectors <N>': 1023 is not in 1024..=65536\n\n\
         For more information, try '--help'.\n",
    ),
    (
        "inofs fuse a.img --commit 86401",
        "error: invalid value '86401' for '--commit <SECONDS>': 86401 is not in 0..=86400\n\n\
         For more information, try '--help'.\n",
    ),
    (
        "inofs format a.img --size 511K",
        "error: invalid value for '--size <SIZE>': 512K to 8G, in bytes or with K, M or G behind\n",
    ),
    (
        "inofs run",
        "error: the following required arguments were not provided:\n  <IMAGE>\n\n\
         Usage: inofs run <IMAGE> [SCRIPT]\n\nFor more information, try '--help'.\n",
    ),
];

// Adds to the report where something other is printed than is wanted.
fn expect_text(
    alloc: Global,
    report: &mut String,
    line: &str,
    wanted: &str,
) -> Result<(), AllocError> {
    let text = text(alloc, line)?;
    push_other_text(report, line, text, wanted)
}

fn expect_jobs(alloc: Global, report: &mut String) -> Result<(), AllocError> {
    for jobs in [MAKING.as_slice(), USING.as_slice(), ASKING.as_slice()] {
        for (line, wanted) in jobs {
            expect(alloc, report, line, wanted)?;
        }
    }
    Ok(())
}

fn expect_each(
    alloc: Global,
    report: &mut String,
    lines: &[&str],
    wanted: &str,
) -> Result<(), AllocError> {
    for line in lines {
        expect(alloc, report, line, wanted)?;
    }
    Ok(())
}

fn expect_texts(alloc: Global, report: &mut String) -> Result<(), AllocError> {
    for (line, wanted) in &TEXTS {
        expect_text(alloc, report, line, wanted)?;
    }
    Ok(())
}

fn expect_all(alloc: Global, report: &mut String) -> Result<(), AllocError> {
    expect_jobs(alloc, report)?;
    for lines in [
        BAD_MKFS.as_slice(),
        BAD_TREES.as_slice(),
        BAD_LOOKS.as_slice(),
        BAD_QUESTIONS.as_slice(),
        BAD_OTHERS.as_slice(),
    ] {
        expect_each(alloc, report, lines, "bad 2")?;
    }
    expect_each(alloc, report, &SIZES, "size 2")?;
    expect_each(alloc, report, &PERMISSIONS, "perm 2")?;
    expect_each(alloc, report, &USERS, "user 2")?;
    expect_each(alloc, report, &CAPABILITIES, "caps 2")?;
    expect_each(alloc, report, &SHOWN, "help 0")?;
    expect_texts(alloc, report)
}

#[test]
fn words_ask_for_jobs_or_are_answered_by_a_text(rt: HostRuntime) -> Result<(), Fail> {
    let alloc = rt.alloc();
    let mut report = String::new(alloc);
    expect_all(alloc, &mut report)?;
    assert!(rt; report.is_empty(), "{report}");
    Ok(())
}
