//! Requests that a kernel wrote, and what is no request.

ghost use Rattle.std.specs.Prelude.{◌≤◌};

use crate::tests::hex::bytes_of;
use bitflags::Flags;
use fuse_protocol::{
    AttrChanges, Extent, NewTime, Offer, Operation, Request, RequestFault, parse_request,
};

// What is asked for, the numbers that it has, and its names or other bytes.
#[derive(Clone, Copy)]
struct Said(&'static str, [u64; 4], [&'static str; 2]);

// A request's bytes; its number, node, uid, gid and pid; and what it says.
type Row = (&'static str, [u64; 5], Said);

// Requests of names and of nodes.
static OF_NAMES: [Row; 11] = [
    (
        "2a0000000100000058000000000000000100000000000000e8030000640000006c760000000000007000",
        [88, 1, 1000, 100, 30316],
        Said("lookup", [0, 0, 0, 0], ["p", ""]),
    ),
    (
        "300000000200000064000000000000000200000001000000000000000000000000000000000000000200000000000000",
        [100, 4294967298, 0, 0, 0],
        Said("forget", [0, 0, 0, 0], ["", ""]),
    ),
    (
        "38000000030000006c000000000000000500000001000000e803000064000000737600000000000000000000000000000000000000000000",
        [108, 4294967301, 1000, 100, 30323],
        Said("getattr", [0, 0, 0, 0], ["", ""]),
    ),
    (
        "28000000050000002400000000000000020000000100000000000000000000001375000000000000",
        [36, 4294967298, 0, 0, 29971],
        Said("readlink", [0, 0, 0, 0], ["", ""]),
    ),
    (
        "2d000000060000003e000000000000000100000000000000000000000000000015750000000000006c32006c00",
        [62, 1, 0, 0, 29973],
        Said("symlink", [0, 0, 0, 0], ["l2", "l"]),
    ),
    (
        "3a000000080000002200000000000000010000000000000000000000000000003274000000000000b68100000000000017000000000000006d00",
        [34, 1, 0, 0, 29746],
        Said("mknod", [33206, 23, 0, 0], ["m", ""]),
    ),
    (
        "32000000090000000e00000000000000010000000000000000000000000000006576000000000000c0010000120000007000",
        [14, 1, 0, 0, 30309],
        Said("mkdir", [448, 18, 0, 0], ["p", ""]),
    ),
    (
        "2d0000000a00000084000000000000000100000000000000e90300006500000078760000000000006d696e6500",
        [132, 1, 1001, 101, 30328],
        Said("unlink", [0, 0, 0, 0], ["mine", ""]),
    ),
    (
        "2a0000000b000000900200000000000001000000000000000000000000000000ae750000000000006400",
        [656, 1, 0, 0, 30126],
        Said("rmdir", [0, 0, 0, 0], ["d", ""]),
    ),
    (
        "340000000c0000005800000000000000010000000000000000000000000000007074000000000000010000000000000061006200",
        [88, 1, 0, 0, 29808],
        Said("rename", [1, 0, 0, 0], ["a", "b"]),
    ),
    (
        "320000000d000000820000000000000001000000000000000000000000000000707400000000000002000000010000006c00",
        [130, 1, 0, 0, 29808],
        Said("link", [4294967298, 0, 0, 0], ["l", ""]),
    ),
];

// Of files, and of what stands beside their bytes.
static OF_FILES: [Row; 10] = [
    (
        "300000000e00000064000000000000000500000001000000e80300006400000070760000000000000080000000000000",
        [100, 4294967301, 1000, 100, 30320],
        Said("open", [32768, 0, 0, 0], ["", ""]),
    ),
    (
        "500000000f00000070000000000000000500000001000000e803000064000000737600000000000080000000000000000000000000000000001000000000000000000000000000000080000000000000",
        [112, 4294967301, 1000, 100, 30323],
        Said("read", [128, 0, 4096, 0], ["", ""]),
    ),
    (
        "51000000100000005e00000000000000020000000200000000000000000000008d77000000000000400000000000000000188100000000000100000000000000000000000000000002800000000000007a",
        [94, 8589934594, 0, 0, 30605],
        Said("write", [64, 8460288, 0, 0], ["z", ""]),
    ),
    (
        "28000000110000007e00000000000000010000000000000000000000000000008f77000000000000",
        [126, 1, 0, 0, 30607],
        Said("statfs", [0, 0, 0, 0], ["", ""]),
    ),
    (
        "40000000120000004c00000000000000020000000100000000000000000000000000000000000000400000000000000002800000000000000000000000000000",
        [76, 4294967298, 0, 0, 0],
        Said("release", [64, 0, 0, 0], ["", ""]),
    ),
    (
        "38000000140000002200000000000000020000000100000000000000000000002d7700000000000040000000000000000000000000000000",
        [34, 4294967298, 0, 0, 30509],
        Said("fsync", [64, 0, 0, 0], ["", ""]),
    ),
    (
        "3800000015000000ce0000000000000002000000010000000000000000000000f8750000000000000100000000000000757365722e610062",
        [206, 4294967298, 0, 0, 30200],
        Said("setxattr", [0, 0, 0, 0], ["user.a", "b"]),
    ),
    (
        "4400000016000000d6000000000000000600000001000000e8030000640000009676000000000000000000000000000073656375726974792e6361706162696c69747900",
        [214, 4294967302, 1000, 100, 30358],
        Said("getxattr", [0, 0, 0, 0], ["security.capability", ""]),
    ),
    (
        "30000000170000009e0000000000000002000000010000000000000000000000f5750000000000000000000000000000",
        [158, 4294967298, 0, 0, 30197],
        Said("listxattr", [0, 0, 0, 0], ["", ""]),
    ),
    (
        "4000000018000000c80000000000000002000000010000000000000000000000f87500000000000073797374656d2e706f7369785f61636c5f61636365737300",
        [200, 4294967298, 0, 0, 30200],
        Said("removexattr", [0, 0, 0, 0], ["system.posix_acl_access", ""]),
    ),
];

// Of directories and of all else that is answered. The last is no kernel's: what it asked with READDIR, asked with READDIRPLUS.
static OF_OTHERS: [Row; 10] = [
    (
        "680000001a0000000200000000000000000000000000000000000000000000000000000000000000070000002d00000000000200fbffff73fd0500000000000000000000000000000000000000000000000000000000000000000000000000000000000000000000",
        [2, 0, 0, 0, 0],
        Said("init", [7, 45, 131072, 1946157051], ["", ""]),
    ),
    (
        "300000001b000000b8000000000000000400000001000000e8030000640000007f760000000000000088010000000000",
        [184, 4294967300, 1000, 100, 30335],
        Said("opendir", [0, 0, 0, 0], ["", ""]),
    ),
    (
        "500000001c000000bc000000000000000400000001000000e8030000640000007f7600000000000002000000010000000000000000000000008000000000000000000000000000000088010000000000",
        [188, 4294967300, 1000, 100, 30335],
        Said("readdir", [4294967298, 0, 32768, 0], ["", ""]),
    ),
    (
        "400000001d0000001600000000000000010000000000000000000000000000000000000000000000000000000100000000880100000000000000000000000000",
        [22, 1, 0, 0, 0],
        Said("releasedir", [4294967296, 0, 0, 0], ["", ""]),
    ),
    (
        "380000001e000000380100000000000002000000010000000000000000000000ad7500000000000002000000010000000000000000000000",
        [312, 4294967298, 0, 0, 30125],
        Said("fsyncdir", [0, 0, 0, 0], ["", ""]),
    ),
    (
        "3000000022000000a0000000000000000400000001000000e8030000640000007f760000000000000700000000000000",
        [160, 4294967300, 1000, 100, 30335],
        Said("access", [7, 0, 0, 0], ["", ""]),
    ),
    (
        "3c0000002300000098000000000000000400000001000000e9030000650000007d7600000000000041880000b681000012000000000000006e657700",
        [152, 4294967300, 1001, 101, 30333],
        Said("create", [34881, 33206, 18, 0], ["new", ""]),
    ),
    (
        "500000002a000000740000000000000000000000000000000000000000000000000000000000000002000000000000000300000001000000030000000000000005000000010000000200000000000000",
        [116, 0, 0, 0, 0],
        Said("batch_forget", [0, 0, 0, 0], ["", ""]),
    ),
    (
        "3f0000002d0000008a000000000000000100000000000000e9030000650000007a76000000000000010000000000000001000000000000006d696e65007800",
        [138, 1, 1001, 101, 30330],
        Said("rename", [1, 1, 0, 0], ["mine", "x"]),
    ),
    (
        "500000002c000000be000000000000000400000001000000e8030000640000007f7600000000000002000000010000000000000000000000008000000000000000000000000000000088010000000000",
        [190, 4294967300, 1000, 100, 30335],
        Said("readdirplus", [4294967298, 0, 32768, 0], ["", ""]),
    ),
];

// Of operations that aren't performed. The last is no kernel's: there is no such operation, and it has no body.
static UNKNOWN: [Row; 7] = [
    (
        "40000000190000004a00000000000000020000000100000000000000000000008d770000000000004000000000000000000000000000000021ca48439ae89da2",
        [74, 4294967298, 0, 0, 30605],
        Said("unknown", [0, 0, 0, 0], ["", ""]),
    ),
    (
        "48000000270000001e000000000000000200000001000000000000000000000070740000000000004000000000000000000000000154000070d9c733fe7f00000000000000000000",
        [30, 4294967298, 0, 0, 29808],
        Said("unknown", [0, 0, 0, 0], ["", ""]),
    ),
    (
        "480000002b000000200000000000000002000000010000000000000000000000c4770000000000004000000000000000000000000000000064000000000000000000000000000000",
        [32, 4294967298, 0, 0, 30660],
        Said("unknown", [0, 0, 0, 0], ["", ""]),
    ),
    (
        "400000002e0000002a0000000000000002000000010000000000000000000000c477000000000000400000000000000000000000000000000400000000000000",
        [42, 4294967298, 0, 0, 30660],
        Said("unknown", [0, 0, 0, 0], ["", ""]),
    ),
    (
        "3a00000033000000340000000000000001000000000000000000000000000000c47700000000000002804100ff81000012000000000000002f00",
        [52, 1, 0, 0, 30660],
        Said("unknown", [0, 0, 0, 0], ["", ""]),
    ),
    (
        "4000000034000000200000000000000003000000010000000000000000000000c1730000000000000000000000000000000000000000000000000000ff0f0000",
        [32, 4294967299, 0, 0, 29633],
        Said("unknown", [0, 0, 0, 0], ["", ""]),
    ),
    (
        "28000000001000004d00000000000000000000000000000000000000000000000000000000000000",
        [77, 0, 0, 0, 0],
        Said("unknown", [0, 0, 0, 0], ["", ""]),
    ),
];

// The number, node, uid, gid and pid of a request.
fn header_of(request: &Request<'_>) -> [u64; 5] {
    [
        request.unique,
        request.node,
        request.uid as u64,
        request.gid as u64,
        request.pid as u64,
    ]
}

fn is_told(text: &str, header: [u64; 5], wanted: Said) -> bool {
    let (bytes, count) = bytes_of(text);
    match parse_request(&bytes[..count]) {
        Ok(request) => says(&request, header, wanted),
        Err(_) => false,
    }
}

fn says(request: &Request<'_>, header: [u64; 5], wanted: Said) -> bool {
    let found = header_of(request);
    let numbers = numbers_of(&request.operation);
    let pieces = pieces_of(&request.operation);
    let wanted_pieces = wanted.2;
    found == header
        && word_of(&request.operation) == wanted.0
        && numbers == wanted.1
        && pieces[0] == wanted_pieces[0].as_bytes()
        && pieces[1] == wanted_pieces[1].as_bytes()
}

fn pieces_of<'a>(operation: &Operation<'a>) -> [&'a [u8]; 2] {
    [first_piece(operation), second_piece(operation)]
}

fn first_piece<'a>(operation: &Operation<'a>) -> &'a [u8] {
    match operation {
        Operation::Lookup(name)
        | Operation::Unlink(name)
        | Operation::RmDir(name)
        | Operation::MkNod { name, .. }
        | Operation::MkDir { name, .. }
        | Operation::Create { name, .. }
        | Operation::SymLink { name, .. }
        | Operation::Rename { name, .. }
        | Operation::Link { new_name: name, .. } => name.bytes(),
        Operation::Write { bytes: piece, .. }
        | Operation::SetXAttr { name: piece, .. }
        | Operation::GetXAttr { name: piece, .. }
        | Operation::RemoveXAttr(piece) => piece.bytes(),
        _ => b"",
    }
}

fn second_piece<'a>(operation: &Operation<'a>) -> &'a [u8] {
    match operation {
        Operation::SymLink { target: piece, .. } | Operation::SetXAttr { value: piece, .. } => {
            piece.bytes()
        }
        Operation::Rename { new_name, .. } => new_name.bytes(),
        _ => b"",
    }
}

fn numbers_of(operation: &Operation<'_>) -> [u64; 4] {
    match operation {
        Operation::MkNod { mode, umask, .. } | Operation::MkDir { mode, umask, .. } => [
            *mode as u64,
            *umask as u64,
            0,
            0,
        ],
        Operation::Create {
            flags,
            mode,
            umask,
            ..
        } => [flags.bits() as u64, *mode as u64, *umask as u64, 0],
        Operation::Rename {
            new_directory,
            flags,
            ..
        } => [*new_directory, *flags as u64, 0, 0],
        Operation::Link { node: first, .. }
        | Operation::Release(first)
        | Operation::ReleaseDir(first)
        | Operation::FSync(first) => [*first, 0, 0, 0],
        Operation::GetXAttr { size: first, .. }
        | Operation::ListXAttr(first)
        | Operation::Access(first) => [*first as u64, 0, 0, 0],
        Operation::Open(flags) => [flags.bits() as u64, 0, 0, 0],
        Operation::Write { handle, offset, .. } => [*handle, *offset, 0, 0],
        Operation::Read(extent) | Operation::ReadDir(extent) | Operation::ReadDirPlus(extent) => {
            extent_numbers(extent)
        }
        Operation::Init(offer) => offer_numbers(offer),
        _ => [0; 4],
    }
}

fn extent_numbers(extent: &Extent) -> [u64; 4] {
    [extent.handle, extent.offset, extent.size as u64, 0]
}

fn offer_numbers(offer: &Offer) -> [u64; 4] {
    [
        offer.major as u64,
        offer.minor as u64,
        offer.max_readahead as u64,
        offer.flags.bits() as u64,
    ]
}

fn word_of(operation: &Operation<'_>) -> &'static str {
    match operation {
        Operation::Lookup(_) => "lookup",
        Operation::Forget(_) => "forget",
        Operation::GetAttr => "getattr",
        Operation::SetAttr(_) => "setattr",
        Operation::ReadLink => "readlink",
        Operation::SymLink { .. } => "symlink",
        Operation::MkNod { .. } => "mknod",
        Operation::MkDir { .. } => "mkdir",
        Operation::Unlink(_) => "unlink",
        Operation::RmDir(_) => "rmdir",
        Operation::Rename { .. } => "rename",
        Operation::Link { .. } => "link",
        Operation::Open(_) => "open",
        Operation::Read(_) => "read",
        Operation::Write { .. } => "write",
        Operation::StatFs => "statfs",
        Operation::Release(_) => "release",
        Operation::FSync(_) => "fsync",
        _ => other_word(operation),
    }
}

fn other_word(operation: &Operation<'_>) -> &'static str {
    match operation {
        Operation::SetXAttr { .. } => "setxattr",
        Operation::GetXAttr { .. } => "getxattr",
        Operation::ListXAttr(_) => "listxattr",
        Operation::RemoveXAttr(_) => "removexattr",
        Operation::Init(_) => "init",
        Operation::OpenDir => "opendir",
        Operation::ReadDir(_) => "readdir",
        Operation::ReadDirPlus(_) => "readdirplus",
        Operation::ReleaseDir(_) => "releasedir",
        Operation::FSyncDir => "fsyncdir",
        Operation::Access(_) => "access",
        Operation::Create { .. } => "create",
        Operation::Interrupt => "interrupt",
        Operation::Destroy => "destroy",
        Operation::BatchForget(_) => "batch_forget",
        Operation::SyncFs => "syncfs",
        _ => "unknown",
    }
}

// The first row that is read otherwise.
fn other_row(rows: &[Row]) -> Option<usize> {
    for i in 0..rows.len() {
        let (text, header, said) = rows[i];
        if !is_told(text, header, said) {
            return Some(i);
        }
    }
    None
}

#[test]
fn requests_of_a_kernel(rt: HostRuntime) {
    let wrong = [
        other_row(&OF_NAMES),
        other_row(&OF_FILES),
        other_row(&OF_OTHERS),
        other_row(&UNKNOWN),
    ];
    assert!(rt; wrong == [None; 4], "{wrong:?}");
}

// Seconds and nanoseconds.
type When = (u64, u32);

const NOW: When = (u64::MAX, 0);

fn time_of(time: NewTime) -> When {
    match time {
        NewTime::Now => NOW,
        NewTime::At {
            seconds,
            nanoseconds,
        } => (seconds, nanoseconds),
    }
}

// Mode, uid and gid; size and handle; atime and mtime.
type Changes = ([Option<u32>; 3], [Option<u64>; 2], [Option<When>; 2]);

fn parts_of(changes: &AttrChanges) -> Changes {
    (
        [changes.mode, changes.uid, changes.gid],
        [changes.size, changes.handle],
        [changes.atime.map(time_of), changes.mtime.map(time_of)],
    )
}

fn changes_of(text: &str) -> Option<Changes> {
    let (bytes, count) = bytes_of(text);
    let request = parse_request(&bytes[..count]).ok()?;
    match request.operation {
        Operation::SetAttr(changes) => Some(parts_of(&changes)),
        _ => None,
    }
}

// Requests, and in the same order what each is to change.
static SETATTRS: [&str; 5] = [
    "80000000040000006800000000000000030000000100000000000000000000008d7700000000000048020000000000004100000000000000102700000000000021ca48439ae89da20000000000000000000000000000000000000000000000000000000000000000000000000000000000000000000000000000000000000000",
    "80000000040000000a000000000000000100000000000000000000000000000064760000000000000100000000000000000000000000000000000000000000000000000000000000000000000000000000000000000000000000000000000000000000000000000000000000ff43000000000000000000000000000000000000",
    "80000000040000005600000000000000050000000100000000000000000000006a7600000000000006000000000000000000000000000000000000000000000000000000000000000000000000000000000000000000000000000000000000000000000000000000000000000000000000000000000000002c01000000000000",
    "80000000040000005a0000000000000002000000010000000000000000000000647500000000000030000000000000000000000000000000000000000000000000000000000000000500000000000000060000000000000000000000000000000000000000000000000000000000000000000000000000000000000000000000",
    "80000000040000007a000000000000000600000001000000e8030000640000007576000000000000b001000000000000000000000000000000000000000000000000000000000000d7c9056b00000000d7c9056b0000000000000000000000003b89a4163b89a416000000000000000000000000000000000000000000000000",
];

static CHANGES: [Changes; 5] = [
    ([None, None, None], [Some(10000), Some(65)], [None, None]),
    ([Some(0o41777), None, None], [None, None], [None, None]),
    ([None, Some(0), Some(300)], [None, None], [None, None]),
    (
        [None, None, None],
        [None, None],
        [Some((5, 0)), Some((6, 0))],
    ),
    ([None, None, None], [None, None], [Some(NOW), Some(NOW)]),
];

// The first request of which other changes are read.
fn other_changes() -> Option<usize> {
    let changes = CHANGES;
    for i in 0..changes.len() {
        if changes_of(SETATTRS[i]) != Some(changes[i]) {
            return Some(i);
        }
    }
    None
}

#[test]
fn changes_of_attributes(rt: HostRuntime) {
    let wrong = other_changes();
    assert!(rt; wrong == None, "{wrong:?}");
}

// No refusal, or that of bytes that aren't whole, or the number of a request that isn't of the form.
type Outcome = Result<(), Option<u64>>;

fn outcome_of(text: &str) -> Outcome {
    let (bytes, count) = bytes_of(text);
    outcome(&bytes[..count])
}

fn outcome(bytes: &[u8]) -> Outcome {
    match parse_request(bytes) {
        Ok(_) => Ok(()),
        Err(RequestFault::NotWhole) => Err(None),
        Err(RequestFault::Malformed(unique)) => Err(Some(unique)),
    }
}

// That of request 77, with this opcode and a body of so many zeros, of which so many bytes are missing.
fn outcome_of_zeros(opcode: u8, size: u8, missing: usize) -> Outcome
    requires { missing ≤ 40 }
{
    let mut bytes = [0; 295];
    let count = 40 + size as u16;
    let [low, high] = count.to_le_bytes();
    bytes[0] = low;
    bytes[1] = high;
    bytes[4] = opcode;
    bytes[8] = 77;
    outcome(&bytes[..count as usize - missing])
}

// Opcodes, and how many zero bytes are a body of their form.
static SIZES: [(u8, u8); 29] = [
    (1, 1),
    (3, 16),
    (4, 88),
    (6, 2),
    (8, 17),
    (9, 9),
    (10, 1),
    (11, 1),
    (12, 10),
    (13, 9),
    (14, 8),
    (15, 40),
    (16, 40),
    (18, 24),
    (20, 16),
    (21, 9),
    (22, 9),
    (23, 8),
    (24, 1),
    (26, 16),
    (27, 8),
    (28, 40),
    (29, 24),
    (30, 16),
    (34, 8),
    (35, 17),
    (44, 40),
    (45, 18),
    (50, 8),
];

// What comes of a body of so many zeros, of one with a zero less, and of one of whose bytes the last is missing.
fn outcomes_of_zeros(opcode: u8, size: u8) -> [Outcome; 3] {
    [
        outcome_of_zeros(opcode, size, 0),
        outcome_of_zeros(opcode, size.saturating_sub(1), 0),
        outcome_of_zeros(opcode, size, 1),
    ]
}

// The first opcode of which a body of another size is read.
fn other_size() -> Option<usize> {
    for i in 0..SIZES.len() {
        if outcomes_of_zeros(SIZES[i].0, SIZES[i].1) != [Ok(()), Err(Some(77)), Err(None)] {
            return Some(i);
        }
    }
    None
}

#[test]
fn bodies_that_are_too_short(rt: HostRuntime) {
    let wrong = other_size();
    assert!(rt; wrong == None, "{wrong:?}");
}

static OTHER_FORMS: [(&str, Outcome); 5] = [
    // A name with a slash.
    (
        "2c000000010000001600000000000000010000000000000000000000000000008d77000000000000612f6200",
        Err(Some(22)),
    ),
    // Extensions behind the body, more of them than there are bytes, and none.
    (
        "31000000180000004d00000000000000000000000000000000000000000000000000000001000000610000000000000000",
        Err(Some(77)),
    ),
    (
        "31000000180000004d00000000000000000000000000000000000000000000000000000002000000610000000000000000",
        Err(Some(77)),
    ),
    (
        "31000000180000004d00000000000000000000000000000000000000000000000000000000000000610000000000000000",
        Ok(()),
    ),
    // A byte less than a header has.
    (
        "000000000000000000000000000000000000000000000000000000000000000000000000000000",
        Err(None),
    ),
];

// The first text of which something else is read.
fn other_form() -> Option<usize> {
    for i in 0..OTHER_FORMS.len() {
        if outcome_of(OTHER_FORMS[i].0) != OTHER_FORMS[i].1 {
            return Some(i);
        }
    }
    None
}

#[test]
fn bodies_of_other_forms(rt: HostRuntime) {
    let wrong = other_form();
    assert!(rt; wrong == None, "{wrong:?}");
}
