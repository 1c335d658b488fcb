//! Who may do what, and what the program says of it.
use crate::jobs::{Change, Row};

// By user 1000 but for the first: what the owner's entry, one of a user, the group's, those of groups and the mask refuse; a directory; links.
const GUARDED: &str = "spawn 0 0
1 umask 0000
1 mkdir /w 1777
1 open /x wc 0644
spawn 1000 100
2 umask 0000
2 open /w/owner wc 0077
2 open /w/named wc 0600
2 setacl /w/named access u::rw-,u:1001:---,g::r--,m::r--,o::r--
2 open /w/group wc 0604
2 open /w/groups wc 0600
2 setacl /w/groups access u::rw-,g::---,g:5:r--,g:6:-w-,m::rwx,o::---
2 open /w/mask wc 0600
2 setacl /w/mask access u::rw-,u:1001:rw-,g::r--,m::r--,o::---
2 mkdir /w/d 0700
2 open /w/d/f wc 0666
2 symlink d /w/s
2 symlink loop /w/loop
";

const GUARDED_REPLIES: &str = "pid 1
umask 0022
ok
fd 0
pid 2
umask 0022
fd 0
fd 1
ok
fd 2
fd 3
ok
fd 4
ok
ok
fd 5
ok
ok
";

const MASK_JSON: &str =
    "{\"path\":\"/w/mask\",\"perm\":\"-w-\",\"user\":\"1001:101,7\",\"granted\":false,\"error\":\"EACCES\",\"errno\":13,\
\"step\":2,\"need\":\"perm -w-\",\"rule\":\"mask\",\"component\":\"/w/mask\"}\n";

const LINK_JSON: &str =
    "{\"path\":\"/w/s/f\",\"perm\":\"r--\",\"user\":\"1001:101\",\"granted\":false,\"error\":\"EACCES\",\"errno\":13,\
\"step\":3,\"need\":\"search\",\"rule\":\"other\",\"link\":\"/w/s\"}\n";

const GRANTED_JSON: &str =
    "{\"path\":\"/x\",\"perm\":\"r--\",\"user\":\"7:8\",\"granted\":true,\"rule\":\"other\"}\n";

// Of an image whose objects are refused by another kind of entry each.
pub(crate) static ASKED: [Row; 26] = [
    (
        Change::Nothing,
        "mkfs @q --sectors 1024 --inodes 64",
        "",
        (0, "made 1024 sectors 64 inodes 878 free\n", ""),
    ),
    (Change::Nothing, "run @q", GUARDED, (0, GUARDED_REPLIES, "")),
    (
        Change::Nothing,
        "access @q /w/owner r --user 1000:100",
        "",
        (
            1,
            "denied: /w/owner needs r--, and its owner's entry doesn't grant it\n",
            "",
        ),
    ),
    (
        Change::Nothing,
        "access @q /w/owner rw --user 1001:101",
        "",
        (0, "granted: rw- on /w/owner, by its entry for others\n", ""),
    ),
    (
        Change::Nothing,
        "access @q /w/named r --user 1001:101",
        "",
        (
            1,
            "denied: /w/named needs r--, and its entry for user 1001 doesn't grant it\n",
            "",
        ),
    ),
    (
        Change::Nothing,
        "access @q /w/group r --user 1001:100",
        "",
        (
            1,
            "denied: /w/group needs r--, and its owning group's entry doesn't grant it\n",
            "",
        ),
    ),
    (
        Change::Nothing,
        "access @q /w/groups rw --user 1002:5,6",
        "",
        (
            1,
            "denied: /w/groups needs rw-, and its entry for group 5 doesn't grant it\n",
            "",
        ),
    ),
    (
        Change::Nothing,
        "access @q /w/groups w --user 1002:5,6",
        "",
        (
            0,
            "granted: -w- on /w/groups, by its entry for group 6\n",
            "",
        ),
    ),
    (
        Change::Nothing,
        "access @q /w/mask w --user 1001:101",
        "",
        (
            1,
            "denied: /w/mask needs -w-, and its mask doesn't grant it\n",
            "",
        ),
    ),
    (
        Change::Nothing,
        "access @q /w/mask r --user 1001:101",
        "",
        (
            0,
            "granted: r-- on /w/mask, by its entry for user 1001\n",
            "",
        ),
    ),
    (
        Change::Nothing,
        "access @q /w/mask r --user 1003:101",
        "",
        (
            1,
            "denied: /w/mask needs r--, and its entry for others doesn't grant it\n",
            "",
        ),
    ),
    (
        Change::Nothing,
        "access @q /w/d/f r --user 1001:101",
        "",
        (
            1,
            "denied: /w/d needs search, and its entry for others doesn't grant it\n",
            "",
        ),
    ),
    (
        Change::Nothing,
        "access @q w//d/./f r --user 1001:101",
        "",
        (
            1,
            "denied: /w/d needs search, and its entry for others doesn't grant it\n",
            "",
        ),
    ),
    (
        Change::Nothing,
        "access @q /w/s/f r --user 1001:101",
        "",
        (
            1,
            "denied: what the symbolic link /w/s leads to, 3 lookups from the root, needs search, and its entry for others doesn't grant it\n",
            "",
        ),
    ),
    (
        Change::Nothing,
        "access @q /w/s/f r --user 1000:100",
        "",
        (0, "granted: r-- on /w/s/f, by its owner's entry\n", ""),
    ),
    (
        Change::Nothing,
        "access @q /w/none/f r --user 0:0",
        "",
        (1, "denied: /w/none/f isn't there\n", ""),
    ),
    (
        Change::Nothing,
        "access @q /x/y r --user 0:0",
        "",
        (1, "denied: /x/y asks for a directory where none is\n", ""),
    ),
    (
        Change::Nothing,
        "access @q /w/loop r --user 0:0",
        "",
        (
            1,
            "denied: /w/loop leads through more than 40 symbolic links\n",
            "",
        ),
    ),
    (
        Change::Nothing,
        "access @q /x x --user 0:0",
        "",
        (
            1,
            "denied: /x needs --x, and a file without execute bits doesn't grant it\n",
            "",
        ),
    ),
    (
        Change::Nothing,
        "access @q /x w --user 0:0",
        "",
        (0, "granted: -w- on /x, by the rule cap:dac-override\n", ""),
    ),
    (
        Change::Nothing,
        "access @q /x w --user 0:0 --caps none",
        "",
        (0, "granted: -w- on /x, by its owner's entry\n", ""),
    ),
    (
        Change::Nothing,
        "access @q /w/d/f r --user 7:8 --caps dac-read-search",
        "",
        (
            0,
            "granted: r-- on /w/d/f, by the rule cap:dac-read-search\n",
            "",
        ),
    ),
    (
        Change::Nothing,
        "access @q / w --user 7:8",
        "",
        (
            1,
            "denied: / needs -w-, and its entry for others doesn't grant it\n",
            "",
        ),
    ),
    (
        Change::Nothing,
        "access @q /w/mask w --user 1001:101,7 --json",
        "",
        (1, MASK_JSON, ""),
    ),
    (
        Change::Nothing,
        "access @q /w/s/f r --user 1001:101 --json",
        "",
        (1, LINK_JSON, ""),
    ),
    (
        Change::Nothing,
        "access @q /x r --user 7:8 --json",
        "",
        (0, GRANTED_JSON, ""),
    ),
];
