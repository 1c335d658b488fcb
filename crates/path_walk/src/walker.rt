//! The walk of a path: its components, what it reads of inodes, directories and links, whom it asks for search, and how far it has come.

ghost use Rattle.std.specs.Prelude.{◌≡◌, ◌==◌, ◌≤◌, ◌&&◌, ◌||◌, [], not, length, drop, position, MatchOption, ◌<◌, ℕ, Some, Ok, IfOk, IfErr, IsOk, ◌+◌, ◌^◌, ◌++◌, ◌⊎◌, ◌∷◌, List, true, false, OnOk, MatchResult, None, Err};
ghost use Rattle.fs_model.specs.Parts.{parts_of, start_of, begins_with_slash, ends_with_slash, components_of, is_empty, path_checks};
ghost use Rattle.fs_model.specs.Trails.{is_dot, is_dot_dot, follows_last, named_inode};
ghost use Rattle.path_walk.specs.Components.{IsNext, component_len};
ghost use Rattle.fs_model.specs.Nodes.{names_of_body};
ghost use Rattle.fs_model.specs.Trees.{IsDirectoryAt, Tree};
ghost use Rattle.fs_layout.specs.Images.{inode_at, Holds};
ghost use Rattle.bit_alloc.specs.Inodes.{IsSound};
ghost use Rattle.sector_txn.specs.Sectors.{IsUnchanged};
ghost use Rattle.path_walk.specs.Answers.{FailsToRead, Interrupts, IsAnswered, refused_or, IsCaused};
ghost use Rattle.path_walk.specs.HeldTrees.{HoldsTree, HasAccess, stored_kind, IsThere};
ghost use Rattle.path_walk.specs.SoundInodes.{LeadsOn, HasSoundInodes};
ghost use Rattle.fs_cred.specs.declared.node.Node.{Node as AccessNode};
ghost use Rattle.fs_cred.specs.declared.refusal.Need.TheVariants.{Search};
ghost use Rattle.fs_cred.specs.declared.node.NodeKind.{NodeKind};
ghost use Rattle.fs_cred.specs.Verdicts.{verdict};
ghost use Rattle.fs_model.specs.Demands.{decided, search_only, first_of};
ghost use Rattle.bit_alloc.specs.Faults.{HasCauseOf};
ghost use Rattle.inode_table.specs.Inodes.{IsInodeOf};
ghost use Rattle.fs_cred.specs.declared.refusal.Refusal.{Refusal};
ghost use Rattle.fs_model.specs.declared.walk.Form.{Form};
ghost use Rattle.fs_model.specs.Summaries.{is_link_kind};
ghost use Rattle.fs_model.specs.Rules.{is_directory_kind};
ghost use Rattle.fs_model.specs.Stands.{room_of};
ghost use Rattle.path_walk.specs.Lookups.{lookup_of};
ghost use Rattle.path_walk.specs.Rests.{found_at, last_of_walk};
ghost use Rattle.path_walk.specs.Stages.{names_ahead, last_done, StandsAt, IsNextOf, IsStart, IsBehind, IsStep, IsWay, arrival_of};
ghost use Rattle.fs_model.specs.Limits.{path_limit};
ghost use Rattle.path_walk.specs.Walked.{walk_of};
ghost use Rattle.fs_layout.specs.declared.inode.TheConstants.{MAX_LINK_SIZE};

use crate::paths::check_path;
use block_map::read_at;
use dir_core::lookup;
use fs_cred::{
    Cred, Denial, Errno, Need, Node, NodeKind, Refusal, Verdict, decide, decide_by_mode,
};
use fs_layout::{Geometry, Inode, Kind, MAX_LINK_SIZE, ROOT};
use fs_model::{Form, Found, Last, Name, Path};
use inode_table::{LoadAclFault, load, load_acl};
use posix_acl::Perms;
use sector_txn::Sectors;
use std::alloc::Global;

const SLASH: u8 = b'/';

// Where the next component of a path begins and ends, from `at` on.
fn next_component(path: &[u8], at: usize) -> Option<(usize, usize)>
    requires { at ≤ length path.now }
    ensures { MatchOption result (components_of (drop at path.now) ≡ []) (λ c. IsNext path.now at c.0 c.1) }
{
    let start = at + first_other(&path[at..])?;
    let len = component_len(&path[start..]);
    Some((start, start + len))
}

// The first byte that is no slash.
fn first_other(path: &[u8]) -> Option<usize>
    ensures { result ≡ position (λ b. not (b == 47)) path.now }
{
    path.iter().position(|byte| *byte != SLASH)
}

// How many bytes come before the first slash.
fn component_len(path: &[u8]) -> usize
    ensures { result ≡ component_len path.now }
{
    match first_slash(path) {
        Some(len) => len,
        None => path.len(),
    }
}

fn first_slash(path: &[u8]) -> Option<usize>
    ensures { result ≡ position (λ b. b == 47) path.now }
{
    path.iter().position(|byte| *byte == SLASH)
}

// Whether a path is absolute.
fn begins_with_slash(path: &[u8]) -> bool
    ensures { result ≡ begins_with_slash path.now }
{
    !path.is_empty() && path[0] == SLASH
}

/// Whether a path ends in a slash.
pub fn ends_with_slash(path: &[u8]) -> bool
    ensures { result ≡ ends_with_slash path.now }
{
    !path.is_empty() && path[path.len() - 1] == SLASH
}

// Where a path starts, from a current directory.
fn start_of(path: &[u8], cwd: u32) -> u32
    ensures { result ≡ start_of (parts_of path.now) cwd }
{
    if begins_with_slash(path) { ROOT } else { cwd }
}

// Whether a trail ends in a slash behind a link with this target.
fn slash_behind(slash: bool, is_last: bool, target: &[u8]) -> bool
    ensures { result ≡ (slash || (is_last && ends_with_slash target.now)) }
{
    slash || is_last && ends_with_slash(target)
}

// Whether a component is the directory itself.
fn is_dot(name: &[u8]) -> bool
    ensures { result ≡ is_dot name.now }
{
    matches!(name, [b'.'])
}

// Whether a component is the parent.
fn is_dot_dot(name: &[u8]) -> bool
    ensures { result ≡ is_dot_dot name.now }
{
    matches!(name, [b'.', b'.'])
}

// Whether a link is followed that is the last component of a path.
fn follows_last(form: Form, path: &[u8]) -> bool
    ensures { result ≡ follows_last form (parts_of path.now) }
{
    match form {
        Form::Follow => true,
        Form::NoFollow => ends_with_slash(path),
        Form::Parent => false,
    }
}

/// Reads inode `ino`. EIO: the disk has failed.
pub fn load_inode<S: Sectors>(s: &mut S, geometry: Geometry, ino: u32) -> Result<Inode, Refusal>
    requires sound { IsSound geometry (S.state s.old) }
    requires below { ino < geometry.inodes }
    ensures each { IsAnswered (S.state s.old).disk (S.state s.new).disk (Ok (inode_at geometry (S.state s.old).sectors ino)) result }
    ensures found { IfOk result (λ inode. inode ≡ inode_at geometry (S.state s.old).sectors ino) }
    ensures fault { IfErr result (FailsToRead (S.state s.old).disk (S.state s.new).disk) }
    ensures same { IsUnchanged (S.state s.old) (S.state s.new) }
{
    match load(s, geometry, ino) {
        Ok(inode) => Ok(inode),
        Err(_) => Err(Refusal::Failed(Errno::EIO)),
    }
}

// What a component leads to in directory `ino`, whose inode this is.
fn find<S: Sectors>(
    s: &mut S,
    geometry: Geometry,
    ino: u32,
    inode: &Inode,
    name: &[u8],
) -> Result<Option<u32>, Refusal>
    requires sound { IsSound geometry (S.state s.old) }
    requires below { ino < geometry.inodes }
    requires inode { inode.now ≡ inode_at geometry (S.state s.old).sectors ino }
    requires leads { LeadsOn geometry (S.state s.old).sectors inode.now }
    ensures each { (t : Tree) → HoldsTree geometry (S.state s.old).sectors t → (d : IsDirectoryAt t ino)
        → IsAnswered (S.state s.old).disk (S.state s.new).disk (Ok (named_inode t ino (names_of_body d.node.body) name.now)) result }
    ensures below { IfOk result (λ found. (m : ℕ) → found ≡ Some m → m < geometry.inodes) }
    ensures err { IfErr result (Interrupts (S.state s.old).disk (S.state s.new).disk) }
    ensures same { IsUnchanged (S.state s.old) (S.state s.new) }
{
    if is_dot(name) {
        return Ok(Some(ino));
    }
    if is_dot_dot(name) {
        return Ok(Some(inode.parent));
    }
    match lookup(s, geometry, inode, name) {
        Ok(found) => Ok(found),
        Err(_) => Err(Refusal::Failed(Errno::EIO)),
    }
}

const SEARCH: Perms = Perms {
    read: false,
    write: false,
    execute: true,
};

/// Whether this caller may do all of `want` to a file or a directory of the inode table, by its ACL on the disk, and which
/// rule says so. ENOMEM where an ACL that is more than mode bits finds no memory; mode bits take none.
pub fn permission<S: Sectors>(
    alloc: Global,
    s: &mut S,
    geometry: Geometry,
    cred: &Cred,
    inode: &Inode,
    want: Perms,
) -> Result<Verdict, Refusal>
    requires sound { IsSound geometry (S.state s.old) }
    requires there { IsInodeOf geometry (S.state s.old).sectors inode.now }
    requires has { (node : AccessNode) × HasAccess (S.state s.old).sectors inode.now node }
    ensures each { (node : AccessNode) → HasAccess (S.state s.old).sectors inode.now node
        → IsAnswered (S.state s.old).disk (S.state s.new).disk (Ok (verdict cred.now node want)) result }
    ensures by_mode { inode.now.acl ≡ 0 → IsOk result }
    ensures same { IsUnchanged (S.state s.old) (S.state s.new) }
    ensures cause { HasCauseOf (Refusal.Failed Errno.EIO) (S.state s.old).disk (S.state s.new).disk result }
{
    let kind = node_kind(inode.kind);
    if inode.acl == 0 {
        let verdict = decide_by_mode(cred, kind, inode.uid, inode.gid, inode.mode, want);
        return Ok(verdict);
    }
    let acl = match load_acl(alloc, s, geometry, inode) {
        Ok(acl) => acl,
        Err(LoadAclFault::OutOfMemory) => return Err(Refusal::Failed(Errno::ENOMEM)),
        Err(LoadAclFault::DiskFault) => return Err(Refusal::Failed(Errno::EIO)),
    };
    let node = Node {
        kind,
        owner: inode.uid,
        group: inode.gid,
        acl,
    };
    Ok(decide(cred, &node, want))
}

// As what access is decided on an inode that is no link.
fn node_kind(kind: Kind) -> NodeKind
    ensures { (node : NodeKind) → kind ≡ stored_kind node → result ≡ node }
{
    match kind {
        Kind::Directory => NodeKind::Directory,
        _ => NodeKind::File,
    }
}

/// Asks for search on a directory of the inode table, after `step` lookups of the walk with this number. ENOMEM as
/// [`permission`] answers it.
pub fn search<S: Sectors>(
    alloc: Global,
    s: &mut S,
    geometry: Geometry,
    cred: &Cred,
    inode: &Inode,
    walk: u8,
    step: usize,
) -> Result<(), Refusal>
    requires sound { IsSound geometry (S.state s.old) }
    requires there { IsInodeOf geometry (S.state s.old).sectors inode.now }
    requires has { (node : AccessNode) × HasAccess (S.state s.old).sectors inode.now node }
    ensures each { (node : AccessNode) → HasAccess (S.state s.old).sectors inode.now node
        → IsAnswered (S.state s.old).disk (S.state s.new).disk
        (refused_or (decided walk step Search (verdict cred.now node search_only)) (Ok tt)) result }
    ensures cause { IfErr result (IsCaused (S.state s.old).disk (S.state s.new).disk) }
    ensures same { IsUnchanged (S.state s.old) (S.state s.new) }
{
    let verdict = permission(alloc, s, geometry, cred, inode, SEARCH)?;
    if !verdict.yes {
        return Err(Refusal::Denied(Denial::new(walk, step, Need::Search, verdict.rule)));
    }
    Ok(())
}

/// The most symbolic links that a walk follows: SYMLOOP_MAX of limits.h.
pub const MAX_LINKS: u8 = 40;

/// Where a walk stands, and what is left of its path.
#[derive(Drop)]
struct Walker {
    /// The walk's number in a denial.
    pub number: u8,
    /// What was reached: a directory, if a name is still to be looked up.
    pub here: u32,
    /// The inode of what was reached.
    pub inode: Inode,
    /// The path, with the targets of the links that were followed, from `at` on.
    pub rest: Vec<u8>,
    pub at: usize,
    /// Whether the trail ends in a slash.
    pub slash: bool,
    /// How many more links may be followed.
    pub links: u8,
    /// How many lookups were done.
    pub step: usize,
    /// The last of them: its directory, and its name.
    pub dir_ino: u32,
    pub name: Vec<u8>,
}

fn out_of_memory() -> Refusal
    ensures { result ≡ Refusal.Failed Errno.ENOMEM }
{
    Refusal::Failed(Errno::ENOMEM)
}

// What the last component of a walk is, after so many lookups.
fn last_of(step: usize, name: &[u8]) -> Last
    ensures { result ≡ last_of_walk step name.now }
{
    if step == 0 {
        Last::Top
    } else if is_dot(name) {
        Last::Dot
    } else if is_dot_dot(name) {
        Last::DotDot
    } else {
        Last::Name
    }
}

fn is_directory(kind: Kind) -> bool
    ensures { result ≡ is_directory_kind kind }
{
    matches!(kind, Kind::Directory)
}

// Whether a lookup goes on behind what it found: a link, unless it is the last component and not to be followed.
fn is_followed(kind: Kind, follow: bool, is_last: bool) -> bool
    ensures { result ≡ (is_link_kind kind && (follow || not is_last)) }
{
    matches!(kind, Kind::Link) && (follow || !is_last)
}

// The target of a link, a slash, and the rest of a path.
fn before_rest(alloc: Global, target: &[u8], rest: &[u8]) -> Result<Vec<u8>, Refusal>
    ensures { MatchResult result (λ v. v.items ≡ target.now ++ (47 ∷ rest.now)) (λ e. e ≡ Refusal.Failed Errno.ENOMEM) }
{
    let Ok(mut path) = Vec::from_slice(alloc, target) else {
        return Err(out_of_memory());
    };
    if path.push(b'/').is_err() {
        return Err(out_of_memory());
    }
    if path.extend_from_slice(rest).is_err() {
        return Err(out_of_memory());
    }
    Ok(path)
}

impl Walker {
    // At the start of a path, before its first lookup.
    fn start<S: Sectors>(
        alloc: Global,
        s: &mut S,
        geometry: Geometry,
        cwd: u32,
        path: &Path,
        number: u8,
    ) -> Result<Walker, Refusal>
        requires sound { IsSound geometry (S.state s.old) }
        requires below { cwd < geometry.inodes }
        ensures ok { IfOk result (λ w. IsStart cwd path.now number w) }
        ensures at { IfOk result (StandsAt geometry (S.state s.old).sectors) }
        ensures err { IfErr result (Interrupts (S.state s.old).disk (S.state s.new).disk) }
        ensures same { IsUnchanged (S.state s.old) (S.state s.new) }
    {
        let bytes = path.bytes();
        let here = start_of(bytes, cwd);
        let inode = load_inode(s, geometry, here)?;
        let Ok(rest) = Vec::from_slice(alloc, bytes) else {
            return Err(out_of_memory());
        };
        Ok(Walker {
            number,
            here,
            inode,
            rest,
            at: 0,
            slash: ends_with_slash(bytes),
            links: MAX_LINKS,
            step: 0,
            dir_ino: here,
            name: Vec::new(alloc),
        })
    }

    // Takes the next component, which is to be looked up here. False where there is none.
    fn next(&mut self) -> Result<bool, Refusal>
        requires { self.old.at ≤ length self.old.rest.items }
        ensures { MatchResult result (IsNextOf self.old self.new) (λ e. e ≡ Refusal.Failed Errno.ENOMEM) }
    {
        let Some((start, end)) = next_component(&self.rest, self.at) else {
            return Ok(false);
        };
        self.name.clear();
        if self.name.extend_from_slice(&self.rest[start..end]).is_err() {
            return Err(out_of_memory());
        }
        self.dir_ino = self.here;
        self.at = end;
        Ok(true)
    }

    // Whether no component is left.
    fn is_last(&self) -> bool
        requires { self.now.at ≤ length self.now.rest.items }
        ensures { result ≡ is_empty (names_ahead self.now) }
    {
        next_component(&self.rest, self.at).is_none()
    }

    // Looks the component up, and tells which inode it leads to, if any.
    fn look_up<S: Sectors>(
        &self,
        alloc: Global,
        s: &mut S,
        geometry: Geometry,
        cred: &Cred,
    ) -> Result<Option<u32>, Refusal>
        requires sound { IsSound geometry (S.state s.old) }
        requires at { StandsAt geometry (S.state s.old).sectors self.now }
        requires inodes { HasSoundInodes geometry (S.state s.old).sectors }
        ensures each { (t : Tree) → HoldsTree geometry (S.state s.old).sectors t → IsThere t self.now.here
            → IsAnswered (S.state s.old).disk (S.state s.new).disk
            (lookup_of (room_of geometry) t cred.now self.now.number self.now.step self.now.here self.now.name.items) result }
        ensures below { IfOk result (λ found. (m : ℕ) → found ≡ Some m → m < geometry.inodes) }
        ensures cause { IfErr result (IsCaused (S.state s.old).disk (S.state s.new).disk) }
        ensures same { IsUnchanged (S.state s.old) (S.state s.new) }
    {
        if !is_directory(self.inode.kind) {
            return Err(Refusal::Failed(Errno::ENOTDIR));
        }
        search(
            alloc,
            s,
            geometry,
            cred,
            &self.inode,
            self.number,
            self.step,
        )?;
        let longest = geometry.version.max_name();
        if self.name.len() > longest {
            return Err(Refusal::Failed(Errno::ENAMETOOLONG));
        }
        let found = find(s, geometry, self.here, &self.inode, &self.name)?;
        Ok(found)
    }

    // Goes on behind a link that was found here: its target comes before the rest of the path.
    fn follow<S: Sectors>(
        &mut self,
        alloc: Global,
        s: &mut S,
        geometry: Geometry,
        link: &Inode,
        is_last: bool,
    ) -> Result<(), Refusal>
        requires sound { IsSound geometry (S.state s.old) }
        requires at { StandsAt geometry (S.state s.old).sectors self.old }
        requires inside { self.old.at ≤ length self.old.rest.items }
        requires there { IsInodeOf geometry (S.state s.old).sectors link.now }
        requires link { link.now.kind ≡ Kind.Link }
        ensures behind { OnOk result ((target : List ℕ) × IsBehind target is_last self.old self.new × (length target ≤ 512)
            × ((held : List ℕ) → Holds (S.state s.old).sectors link.now held → target ≡ held)) }
        ensures err { IfErr result (λ e. ((self.old.links ≡ 0) × (e ≡ Refusal.Failed Errno.ELOOP))
            ⊎ Interrupts (S.state s.old).disk (S.state s.new).disk e) }
        ensures at { OnOk result (StandsAt geometry (S.state s.old).sectors self.new) }
        ensures same { IsUnchanged (S.state s.old) (S.state s.new) }
    {
        if self.links == 0 {
            return Err(Refusal::Failed(Errno::ELOOP));
        }
        let target = read_target(alloc, s, geometry, link)?;
        let target = target.bytes();
        self.rest = before_rest(alloc, target, &self.rest[self.at..])?;
        self.at = 0;
        self.links -= 1;
        self.slash = slash_behind(self.slash, is_last, target);
        if !begins_with_slash(target) {
            return Ok(());
        }
        self.inode = load_inode(s, geometry, ROOT)?;
        self.here = ROOT;
        Ok(())
    }

    // Looks the component up that was taken, and goes where it leads. False where it is absent and the last.
    fn step<S: Sectors>(
        &mut self,
        alloc: Global,
        s: &mut S,
        geometry: Geometry,
        cred: &Cred,
        follow: bool,
    ) -> Result<bool, Refusal>
        requires sound { IsSound geometry (S.state s.old) }
        requires at { StandsAt geometry (S.state s.old).sectors self.old }
        requires inside { self.old.at ≤ length self.old.rest.items }
        requires taken { self.old.dir_ino ≡ self.old.here }
        requires steps { self.old.step + 1 < 2 ^ 64 }
        requires inodes { HasSoundInodes geometry (S.state s.old).sectors }
        ensures each { (t : Tree) → HoldsTree geometry (S.state s.old).sectors t → IsThere t self.old.here
            → (form : Form) → IsStep (S.state s.old).disk (S.state s.new).disk
            (room_of geometry) t cred.now form follow self.old self.new result }
        ensures at { OnOk result (StandsAt geometry (S.state s.old).sectors self.new) }
        ensures way { OnOk result (IsWay self.old self.new) }
        ensures cause { IfErr result (IsCaused (S.state s.old).disk (S.state s.new).disk) }
        ensures same { IsUnchanged (S.state s.old) (S.state s.new) }
    {
        let is_last = self.is_last();
        let found = self.look_up(alloc, s, geometry, cred)?;
        self.step += 1;
        let Some(ino) = found else {
            return if is_last {
                Ok(false)
            } else {
                Err(Refusal::Failed(Errno::ENOENT))
            };
        };
        let inode = load_inode(s, geometry, ino)?;
        if is_followed(inode.kind, follow, is_last) {
            self.follow(alloc, s, geometry, &inode, is_last)?;
        } else {
            self.here = ino;
            self.inode = inode;
        }
        Ok(true)
    }

    // What is found where this is the end of the walk.
    fn found(self, ino: Option<u32>) -> Found
        ensures { result ≡ found_at self.step (last_done self) ino self.slash }
    {
        Found {
            last: last_of(self.step, &self.name),
            dir_ino: self.dir_ino,
            name: Name::new(self.name),
            ino,
            slash: self.slash,
            step: self.step,
        }
    }

    // The end of a walk whose components were all found. Behind a slash there has to be a directory, unless the call is for
    // a name.
    fn arrive(self, form: Form) -> Result<Found, Refusal>
        ensures { result ≡ arrival_of form self }
    {
        let is_directory = is_directory(self.inode.kind);
        if !matches!(form, Form::Parent) && self.slash && !is_directory {
            return Err(Refusal::Failed(Errno::ENOTDIR));
        }
        let here = self.here;
        Ok(self.found(Some(here)))
    }
}

/// Walks a path from the directory `cwd`, as this caller: answers the first refusal of its trail, or what it finds.
///
/// `number` is the walk's number in a denial: 1 or 2. The bytes that are still to be walked are kept in memory: of a path of
/// 1,023 bytes and 40 links at most 1,023 + 40 * 513. ENOMEM where they, a name or an ACL find none.
pub fn walk<S: Sectors>(
    alloc: Global,
    s: &mut S,
    geometry: Geometry,
    cred: &Cred,
    cwd: u32,
    path: &Path,
    form: Form,
    number: u8,
) -> Result<Found, Refusal>
    requires sound { IsSound geometry (S.state s.old) }
    requires inodes { HasSoundInodes geometry (S.state s.old).sectors }
    requires start { cwd < geometry.inodes }
    requires short { length path.now ≤ path_limit }
    ensures each { (t : Tree) → HoldsTree geometry (S.state s.old).sectors t → IsThere t cwd
        → IsAnswered (S.state s.old).disk (S.state s.new).disk (walk_of (room_of geometry) t cred.now number form cwd path.now) result }
    ensures same { IsUnchanged (S.state s.old) (S.state s.new) }
    ensures cause { HasCauseOf (Refusal.Failed Errno.EIO) (S.state s.old).disk (S.state s.new).disk result }
{
    let follow = follows_last(form, path.bytes());
    let mut walker = Walker::start(alloc, s, geometry, cwd, path, number)?;
    while walker.next()? {
        if !walker.step(alloc, s, geometry, cred, follow)? {
            return Ok(walker.found(None));
        }
    }
    let found = walker.arrive(form)?;
    Ok(found)
}

/// Checks a path and walks it, as a call with one path does for its caller.
///
/// The checks take no memory and read nothing.
pub fn resolve<S: Sectors>(
    alloc: Global,
    s: &mut S,
    geometry: Geometry,
    cred: &Cred,
    cwd: u32,
    path: &Path,
    form: Form,
) -> Result<Found, Refusal>
    requires sound { IsSound geometry (S.state s.old) }
    requires inodes { HasSoundInodes geometry (S.state s.old).sectors }
    requires start { cwd < geometry.inodes }
    ensures checked { (refusal : Refusal) → first_of (path_checks path.now) ≡ Some refusal → result ≡ Err refusal }
    ensures each { first_of (path_checks path.now) ≡ None
        → (t : Tree) → HoldsTree geometry (S.state s.old).sectors t → IsThere t cwd
        → IsAnswered (S.state s.old).disk (S.state s.new).disk (walk_of (room_of geometry) t cred.now 1 form cwd path.now) result }
    ensures valid { IfOk result (λ found. first_of (path_checks path.now) ≡ None) }
    ensures same { IsUnchanged (S.state s.old) (S.state s.new) }
    ensures cause { HasCauseOf (Refusal.Failed Errno.EIO) (S.state s.old).disk (S.state s.new).disk result }
{
    check_path(path)?;
    walk(alloc, s, geometry, cred, cwd, path, form, 1)
}

/// Reads the target of a symbolic link of the inode table. ENOMEM where it finds no memory.
pub fn read_target<S: Sectors>(
    alloc: Global,
    s: &mut S,
    geometry: Geometry,
    inode: &Inode,
) -> Result<Path, Refusal>
    requires sound { IsSound geometry (S.state s.old) }
    requires there { IsInodeOf geometry (S.state s.old).sectors inode.now }
    requires link { inode.now.kind ≡ Kind.Link }
    ensures each { (target : List ℕ) → Holds (S.state s.old).sectors inode.now target
        → IsAnswered (S.state s.old).disk (S.state s.new).disk (Ok target) result }
    ensures short { IfOk result (λ target. length target ≤ MAX_LINK_SIZE) }
    ensures err { IfErr result (Interrupts (S.state s.old).disk (S.state s.new).disk) }
    ensures same { IsUnchanged (S.state s.old) (S.state s.new) }
    ensures cause { HasCauseOf (Refusal.Failed Errno.EIO) (S.state s.old).disk (S.state s.new).disk result }
{
    let mut bytes = [0; MAX_LINK_SIZE as usize];
    let Ok(count) = read_at(s, inode, 0, &mut bytes) else {
        return Err(Refusal::Failed(Errno::EIO));
    };
    match Path::from_slice(alloc, &bytes[..count]) {
        Ok(target) => Ok(target),
        Err(_) => Err(Refusal::Failed(Errno::ENOMEM)),
    }
}
