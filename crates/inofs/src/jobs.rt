//! What the program does for its words, on files of this machine, and the line of each failure.

use crate::asking::ASKED;
use crate::report::push_other_text;
use crate::words::HELP;
use fs_access::AccessFault;
use fs_check::{CheckFault, Finding};
use fs_images::{MkfsFault, UpgradeFault};
use fs_info::InfoFault;
use fs_program::{Failure, MountFault, ProcFiles, RunFault, Watched, perform};
use host_trees::CopyFault;
use std::alloc::{AllocError, Global};
use std::fs::Permissions;
use std::os::unix::fs::{MetadataExt, PermissionsExt, symlink};
use std::path::PathBuf;
use std::test::Fail;
use std::{env, fs, mem, process};

// ---- the files

// What becomes of an image before the program runs.
pub(crate) enum Change {
    Nothing,
    // The byte at this place becomes this one.
    Byte(usize, u8),
    // So many of its first bytes are left.
    Cut(usize),
}

// A folder of this process alone.
fn folder(rt: &HostRuntime) -> Result<PathBuf, Fail> {
    let process = process::id(rt.process());
    let name = format!(in rt.alloc(); "inofs_tests-{process}")?;
    Ok(env::temp_dir(rt)?.join(rt.alloc(), name.as_str())?)
}

// Changes the image `d` of the folder.
fn change_image(rt: &HostRuntime, folder: &str, change: &Change) -> Result<(), Fail> {
    if let Change::Nothing = change {
        return Ok(());
    }
    let path = format!(in rt.alloc(); "{folder}/d")?;
    let mut image = fs::read(rt, path.as_str())?;
    change_bytes(&mut image, change);
    Ok(fs::write(rt, path.as_str(), image.as_slice())?)
}

fn change_bytes(image: &mut Vec<u8>, change: &Change) {
    match change {
        Change::Nothing => {}
        Change::Byte(at, byte) => {
            if let Some(place) = image.get_mut(*at) {
                *place = *byte;
            }
        }
        Change::Cut(len) => image.truncate(*len),
    }
}

// ---- what is seen

// A word; one that begins with `@` is a file in the folder.
fn word_of(alloc: Global, folder: &str, word: &str) -> Result<String, AllocError> {
    match word.strip_prefix('@') {
        Some(name) => format!(in alloc; "{folder}/{name}"),
        None => String::from_str(alloc, word),
    }
}

// The words of a line, after the program's name.
fn words_of(alloc: Global, folder: &str, line: &str) -> Result<Vec<String>, AllocError> {
    let mut words = Vec::new(alloc);
    words.push(String::from_str(alloc, "inofs")?)?;
    for word in line.split_whitespace() {
        words.push(word_of(alloc, folder, word)?)?;
    }
    Ok(words)
}

// A status, and the texts on the standard output and on the standard error.
fn told(alloc: Global, status: u8, out: &str, err: &str) -> Result<String, AllocError> {
    format!(in alloc; "status {status}\n{out}error\n{err}")
}

// What is seen where the program is called by the words of a line, with this on its standard input.
fn seen(rt: &HostRuntime, folder: &str, line: &str, input: &str) -> Result<String, Fail> {
    let alloc = rt.alloc();
    let words = words_of(alloc, folder, line)?;
    let mut out = Vec::new(alloc);
    let mut err = Vec::new(alloc);
    let status = perform(
        rt,
        &words,
        ProcFiles::new(rt),
        &mut Watched::new(input.as_bytes()),
        &mut Watched::new(&mut out),
        &mut err,
    );
    mem::drop(words);
    let out = String::from_utf8_lossy(alloc, &out)?;
    let err = String::from_utf8_lossy(alloc, &err)?;
    Ok(told(alloc, status, out.as_str(), err.as_str())?)
}

// ---- the rows

// What becomes of the image, the words, and what is on the standard input; then what is seen: the status, and the texts on the
// standard output and on the standard error.
pub(crate) type Row = (
    Change,
    &'static str,
    &'static str,
    (u8, &'static str, &'static str),
);

const MKFS: &str = "mkfs @d --sectors 1024 --inodes 64";

const NEW: &str = "clean files 0 dirs 1 links 0 nameless 0 blocks 878 inodes 62 pending no\n";

const NEW_INFO: &str = "version 2
sectors 1024
bytes 524288
inodes 64
free_sectors 878
free_inodes 62
max_name 120
max_directory_names 560
max_links 500
max_file_size 8460288
keeps_times no
pending no
";

const FILLED_JSON: &str =
    "{\"version\":2,\"sectors\":1024,\"bytes\":524288,\"inodes\":64,\"free_sectors\":875,\"free_inodes\":59,\
\"max_name\":120,\"max_directory_names\":560,\"max_links\":500,\"max_file_size\":8460288,\"keeps_times\":false,\"pending\":false}\n";

const FILLED_LARGE_INFO: &str = "version 3
sectors 2048
bytes 1048576
inodes 64
free_sectors 1514
free_inodes 59
max_name 248
max_directory_names 32768
max_links 65000
max_file_size 1082202112
keeps_times yes
pending no
";

// What a check says of a new disk of version 3.
const NEW_LARGE: &str =
    "clean files 0 dirs 1 links 0 nameless 0 blocks 1518 inodes 62 pending no\n";

// A directory, a file with a byte, and a link.
const SCRIPT: &str = "spawn 0 0\n1 mkdir /d 0755\n1 open /f wc 0644\n1 write 0 x\n1 symlink t /l\n";

const REPLIES: &str = "pid 1\nok\nfd 0\nwrote 1\nok\n";

const FILLED: &str = "clean files 1 dirs 2 links 1 nameless 0 blocks 875 inodes 59 pending no\n";

// A block of version 3 has two slots, so that three names take two.
const FILLED_LARGE: &str =
    "clean files 1 dirs 2 links 1 nameless 0 blocks 1514 inodes 59 pending no\n";

// The tree in the folder `t`.
const PACKED: &str = "clean files 1 dirs 2 links 1 nameless 0 blocks 1514 inodes 59 pending no\n";

const LOOKING: &str = "spawn 1 1\n1 stat /b/c\n1 readlink /l\n";

const LOOKED: &str = "pid 1\nino 4 file 0640 links 1 uid 7 gid 8 size 5\ntarget b/c\n";

// The script in the file `s`.
const UNKNOWN: &str = "spawn 0 0\n1 frobnicate\n";

const WITHOUT_INODES: &str = "error: the following required arguments were not provided:
  --inodes <N>

Usage: inofs mkfs --sectors <N> --inodes <N> <IMAGE>

For more information, try '--help'.
";

const BAD_SIZE: &str =
    "error: invalid value for '--size <SIZE>': 512K to 8G, in bytes or with K, M or G behind\n";

const BAD_USER: &str =
    "error: invalid value for '--user <UID:GID>': a user, a colon, and 1 to 17 groups with commas between\n";

const ABSENT_JSON: &str =
    "{\"path\":\"/l\",\"perm\":\"r--\",\"user\":\"7:8\",\"granted\":false,\"error\":\"ENOENT\",\"errno\":2}\n";

const NO_COMMAND: &str = "error: unrecognized subcommand 'fsck'

Usage: inofs
       inofs mkfs IMAGE --sectors N --inodes N
       inofs format IMAGE --size SIZE [--inodes N]
       inofs pack IMAGE DIR --size SIZE [--inodes N] [--uid N] [--gid N]
       inofs unpack IMAGE DIR
       inofs run IMAGE [SCRIPT]
       inofs check [--explain] IMAGE
       inofs info [--json] IMAGE
       inofs upgrade IMAGE
       inofs fuse IMAGE [--denials FILE] [--own-rules] [--commit SECONDS]
       inofs access IMAGE PATH PERM --user UID:GID[,GID..] [--caps NAME[,NAME..]] [--json]

For more information, try '--help'.
";

// What is said of an image without a superblock.
const NO_SUPERBLOCK: &str = "finding 1 0
sector 0: a superblock has to stand here, of a known version, with the image's own number of sectors and numbers in range; none \
does, so nothing else is found; nothing is repaired: take the image from a backup
";

// Of an image of version 2. A row finds what those before it have left, also in the tables before its own.
static NEW_IMAGE: [Row; 12] = [
    // No file is made.
    (
        Change::Nothing,
        "mkfs @d --sectors 1024",
        "",
        (2, "", WITHOUT_INODES),
    ),
    (
        Change::Nothing,
        "check @d",
        "",
        (3, "", "image: cannot open\n"),
    ),
    (
        Change::Nothing,
        MKFS,
        "",
        (0, "made 1024 sectors 64 inodes 878 free\n", ""),
    ),
    (Change::Nothing, MKFS, "", (3, "", "image: exists\n")),
    (Change::Nothing, "check @d", "", (0, NEW, "")),
    (Change::Nothing, "info @d", "", (0, NEW_INFO, "")),
    (Change::Nothing, "upgrade @d", "", (0, "version 2\n", "")),
    (Change::Nothing, "run @d", SCRIPT, (0, REPLIES, "")),
    (
        Change::Nothing,
        "run @d @s",
        SCRIPT,
        (1, "pid 1\nfault 4 UnknownCommand\n", ""),
    ),
    (
        Change::Nothing,
        "run @d @none",
        SCRIPT,
        (3, "", "script: cannot open\n"),
    ),
    (Change::Nothing, "check @d", "", (0, FILLED, "")),
    (Change::Nothing, "info @d --json", "", (0, FILLED_JSON, "")),
];

// Of that image, damaged.
static DAMAGED_IMAGE: [Row; 11] = [
    (
        Change::Byte(512, 0),
        "info @d",
        "",
        (3, "", "info: Damaged 2 1\n"),
    ),
    (
        Change::Byte(512, 0x49),
        "info --json @d",
        "",
        (0, FILLED_JSON, ""),
    ),
    (Change::Byte(0, 0), "check @d", "", (1, "finding 1 0\n", "")),
    (
        Change::Nothing,
        "check --explain @d",
        "",
        (1, NO_SUPERBLOCK, ""),
    ),
    (
        Change::Nothing,
        "run @d",
        SCRIPT,
        (3, "", "mount: NotAFileSystem\n"),
    ),
    (
        Change::Nothing,
        "info @d",
        "",
        (3, "", "info: NotAFileSystem\n"),
    ),
    (
        Change::Nothing,
        "upgrade @d",
        "",
        (3, "", "upgrade: NotAFileSystem\n"),
    ),
    (
        Change::Nothing,
        "fuse @d",
        "",
        (3, "", "mount: NotAFileSystem\n"),
    ),
    // The byte that was there.
    (Change::Byte(0, 0x49), "check @d", "", (0, FILLED, "")),
    (
        Change::Cut(1023 * 512),
        "check @d",
        "",
        (1, "finding 1 0\n", ""),
    ),
    (
        Change::Nothing,
        "run @d",
        SCRIPT,
        (3, "", "mount: NotAFileSystem\n"),
    ),
];

// Of images of version 3.
static LARGE_IMAGE: [Row; 14] = [
    (
        Change::Nothing,
        "format @e --size 1M --inodes 64",
        "",
        (0, "made 2048 sectors 64 inodes 1518 free\n", ""),
    ),
    (Change::Nothing, "check @e", "", (0, NEW_LARGE, "")),
    (Change::Nothing, "upgrade @e", "", (0, "version 3\n", "")),
    (Change::Nothing, "run @e", SCRIPT, (0, REPLIES, "")),
    (Change::Nothing, "check @e", "", (0, FILLED_LARGE, "")),
    (Change::Nothing, "info @e", "", (0, FILLED_LARGE_INFO, "")),
    (
        Change::Nothing,
        "access @e /f w --user 7:8",
        "",
        (
            1,
            "denied: /f needs -w-, and its entry for others doesn't grant it\n",
            "",
        ),
    ),
    (
        Change::Nothing,
        "access @e /d rx --user 7:8",
        "",
        (0, "granted: r-x on /d, by its entry for others\n", ""),
    ),
    (
        Change::Nothing,
        "access @e /l r --user 7:8 --json",
        "",
        (1, ABSENT_JSON, ""),
    ),
    (
        Change::Nothing,
        "access @e /f r --user 7",
        "",
        (2, "", BAD_USER),
    ),
    (
        Change::Nothing,
        "access @none /f r --user 7:8",
        "",
        (3, "", "image: cannot open\n"),
    ),
    (
        Change::Nothing,
        "format @e --size 1M",
        "",
        (3, "", "image: exists\n"),
    ),
    (
        Change::Nothing,
        "format @f --size 512K --inodes 4096",
        "",
        (3, "", "mkfs: TooSmall\n"),
    ),
    (
        Change::Nothing,
        "format @f --size 511K",
        "",
        (2, "", BAD_SIZE),
    ),
];

// Of trees, and without an image.
static TREES: [Row; 10] = [
    (
        Change::Nothing,
        "pack @p @none --size 1M",
        "",
        (3, "", "pack: NoDirectory\n"),
    ),
    (
        Change::Nothing,
        "pack @p @t --size 1M --inodes 64 --uid 7 --gid 8",
        "",
        (0, "", ""),
    ),
    (
        Change::Nothing,
        "pack @p @t --size 1M",
        "",
        (3, "", "image: exists\n"),
    ),
    (Change::Nothing, "check @p", "", (0, PACKED, "")),
    (Change::Nothing, "run @p", LOOKING, (0, LOOKED, "")),
    (Change::Nothing, "unpack @p @u", "", (0, "", "")),
    (
        Change::Nothing,
        "unpack @p @u",
        "",
        (3, "", "unpack: NoDirectory\n"),
    ),
    (Change::Nothing, "", SCRIPT, (0, REPLIES, "")),
    (Change::Nothing, "--help", "", (0, HELP, "")),
    (Change::Nothing, "fsck @d", "", (2, "", NO_COMMAND)),
];

// Adds where a row comes to something other than it says.
fn push_row(rt: &HostRuntime, folder: &str, report: &mut String, row: &Row) -> Result<(), Fail> {
    let (before, line, input, (status, out, err)) = row;
    change_image(rt, folder, before)?;
    let seen = seen(rt, folder, line, input)?;
    let wanted = told(rt.alloc(), *status, out, err)?;
    push_other_text(report, line, seen, wanted.as_str())?;
    Ok(())
}

// Makes the folder `t` with a file in a folder and a link to it.
fn make_tree(rt: &HostRuntime, folder: &str) -> Result<(), Fail> {
    let below = format!(in rt.alloc(); "{folder}/t/b")?;
    fs::create_dir_all(rt, below.as_str())?;
    let file = format!(in rt.alloc(); "{folder}/t/b/c")?;
    fs::write(rt, file.as_str(), b"hello".as_slice())?;
    fs::set_permissions(rt, file.as_str(), Permissions::from_mode(0o640))?;
    let link = format!(in rt.alloc(); "{folder}/t/l")?;
    symlink(rt, "b/c", link.as_str())?;
    Ok(())
}

// What is seen of the tree where it was unpacked, through the link: the file's bytes, its mode, and whether its times are those of
// the first one.
fn unpacked(rt: &HostRuntime, folder: &str) -> Result<String, Fail> {
    let first = format!(in rt.alloc(); "{folder}/t/b/c")?;
    let copy = format!(in rt.alloc(); "{folder}/u/l")?;
    let text = fs::read_to_string(rt, copy.as_str())?;
    let first = fs::metadata(rt, first.as_str())?;
    let copy = fs::metadata(rt, copy.as_str())?;
    let mode = copy.mode() % 512;
    let same = copy.mtime() == first.mtime() && copy.mtime_nsec() == first.mtime_nsec();
    let seen = format!(in rt.alloc(); "{text} {mode} {same}")?;
    mem::drop(text);
    Ok(seen)
}

fn push_rows(rt: &HostRuntime, folder: &str, report: &mut String) -> Result<(), Fail> {
    make_tree(rt, folder)?;
    let script = format!(in rt.alloc(); "{folder}/s")?;
    fs::write(rt, script.as_str(), UNKNOWN.as_bytes())?;
    for rows in [
        NEW_IMAGE.as_slice(),
        DAMAGED_IMAGE.as_slice(),
        LARGE_IMAGE.as_slice(),
        ASKED.as_slice(),
        TREES.as_slice(),
    ] {
        for row in rows {
            push_row(rt, folder, report, row)?;
        }
    }
    push_other_text(report, "unpacked", unpacked(rt, folder)?, "hello 416 true")?;
    Ok(())
}

// Adds what the rows come to in a folder that is there for them alone.
fn push_others(rt: &HostRuntime, report: &mut String) -> Result<(), Fail> {
    let folder = folder(rt)?;
    fs::create_dir(rt, folder.as_str())?;
    let pushed = push_rows(rt, folder.as_str(), report);
    let _ = fs::remove_dir_all(rt, folder.as_str());
    pushed
}

#[test]
fn the_program_does_what_its_words_say(rt: HostRuntime) -> Result<(), Fail> {
    let mut report = String::new(rt.alloc());
    push_others(&rt, &mut report)?;
    assert!(rt; report.is_empty(), "{report}");
    Ok(())
}

// What a mount or an upgrade finds.
const FINDING: Finding = Finding { rule: 6, at: 147 };

// What is printed where a job isn't done.
static FAILURES: [(Failure, &str); 31] = [
    (Failure::Exists, "image: exists"),
    (Failure::NotCreated, "image: cannot create"),
    (Failure::NotOpened, "image: cannot open"),
    (Failure::NoScript, "script: cannot open"),
    (Failure::Mkfs(MkfsFault::BadSize), "mkfs: BadSize"),
    (Failure::Mkfs(MkfsFault::BadInodes), "mkfs: BadInodes"),
    (Failure::Mkfs(MkfsFault::TooSmall), "mkfs: TooSmall"),
    (Failure::Mkfs(MkfsFault::DiskFault), "mkfs: DiskFault"),
    (
        Failure::Mount(MountFault::NotAFileSystem),
        "mount: NotAFileSystem",
    ),
    (
        Failure::Mount(MountFault::Damaged(FINDING)),
        "mount: Damaged 6 147",
    ),
    (Failure::Mount(MountFault::DiskFault), "mount: DiskFault"),
    (
        Failure::Mount(MountFault::OutOfMemory),
        "mount: OutOfMemory",
    ),
    (Failure::Check(CheckFault::DiskFault), "check: DiskFault"),
    (
        Failure::Check(CheckFault::OutOfMemory),
        "check: OutOfMemory",
    ),
    (
        Failure::Info(InfoFault::NotAFileSystem),
        "info: NotAFileSystem",
    ),
    (
        Failure::Info(InfoFault::Damaged(FINDING)),
        "info: Damaged 6 147",
    ),
    (Failure::Info(InfoFault::DiskFault), "info: DiskFault"),
    (
        Failure::Upgrade(UpgradeFault::NotAFileSystem),
        "upgrade: NotAFileSystem",
    ),
    (
        Failure::Upgrade(UpgradeFault::Damaged(FINDING)),
        "upgrade: Damaged 6 147",
    ),
    (
        Failure::Upgrade(UpgradeFault::DiskFault),
        "upgrade: DiskFault",
    ),
    (
        Failure::Upgrade(UpgradeFault::OutOfMemory),
        "upgrade: OutOfMemory",
    ),
    (
        Failure::Access(AccessFault::OutOfMemory),
        "access: OutOfMemory",
    ),
    (Failure::Run(RunFault::ReadFault), "run: ReadFault"),
    (Failure::Run(RunFault::WriteFault), "run: WriteFault"),
    (Failure::Run(RunFault::OutOfMemory), "run: OutOfMemory"),
    (Failure::Run(RunFault::TooMuch), "run: TooMuch"),
    (Failure::Pack(CopyFault::NotSynced), "pack: NotSynced"),
    (Failure::Pack(CopyFault::NoProc), "pack: NoProc"),
    (Failure::Unpack(CopyFault::Changed), "unpack: Changed"),
    (
        Failure::Unpack(CopyFault::OutOfMemory),
        "unpack: OutOfMemory",
    ),
    (Failure::Unmount, "unmount: EIO"),
];

// Adds the failures that have another line.
fn push_failures(alloc: Global, report: &mut String) -> Result<(), AllocError> {
    for (failure, line) in &FAILURES {
        let seen = format!(in alloc; "{failure}")?;
        push_other_text(report, line, seen, line)?;
    }
    Ok(())
}

#[test]
fn each_failure_has_its_line(rt: HostRuntime) -> Result<(), Fail> {
    let mut report = String::new(rt.alloc());
    push_failures(rt.alloc(), &mut report)?;
    assert!(rt; report.is_empty(), "{report}");
    Ok(())
}
