//! Files by their titles.
ghost use Rattle.std.specs.Prelude.{◌≡◌, ◌↔◌, map, IfNone, IfOk, IfErr, IfSome, OnOk, IsTrue};
ghost use Rattle.curp_base.specs.Words.{Each};
ghost use Rattle.curp_msg.specs.Script.{IsHeader};
ghost use Rattle.curp_base.specs.Failing.{IfBecause};
ghost use Rattle.curp_collected.specs.Causes.{IsCause};
ghost use Rattle.curp_collected.specs.Files.{AreApart, AreOfHeader, HasNoFile, HasNoTitle, HasTitle, IsFileOf, IsNext, IsOfHeader, IsPossible, IsRead, contents_of, is_below, nearer};

use crate::CollectError;
use curp_base::Failed;
use curp_cmd::{NodeId, NodeKind};
use curp_msg::Header;
use curp_title::{TITLE_LENGTH, Title, title_in};
use std::alloc::Global;

/// A file's bytes, with the title that they begin with.
pub(crate) struct File<'a> {
    pub(crate) title: Title,
    pub(crate) content: &'a [u8],
}

impl<'a> Drop for File<'a> {
    fn drop(self) {
        let File {
            title: _,
            content: _,
        } = self;
    }
}

/// The files of a header's nodes, and the last stamp that is wanted, if there is one.
#[derive(Drop)]
pub(crate) struct Files<'a> {
    pub(crate) alloc: Global,
    pub(crate) header: Header,
    pub(crate) until: Option<u64>,
    pub(crate) each: Vec<File<'a>>,
}

impl<'a> Files<'a> {
    /// The files, whose titles are read and compared.
    pub(crate) fn read(
        alloc: Global,
        contents: &'a [Vec<u8>],
        until: Option<u64>,
    ) -> Result<Files<'a>, Failed<CollectError>>
        ensures read { IfOk result (λ files. AreOfHeader files) }
        ensures contents { IfOk result
            (λ files. contents_of files.each.items ≡ map (λ content. content.items) contents.now) }
        ensures until { IfOk result (λ files. files.until ≡ until) }
        ensures cause { IfErr result (IfBecause (IsCause (map (λ content. content.items) contents.now))) }
    {
        let each = with_titles(alloc, contents)?;
        let header = match header_of(&each) {
            Ok(header) => header,
            Err(why) => return Err(Failed::Because(why)),
        };
        match all_apart(&each) {
            Ok(()) => {}
            Err(why) => return Err(Failed::Because(why)),
        }
        Ok(Files {
            alloc,
            header,
            until,
            each,
        })
    }

    /// The place of a node's file, if there is one.
    pub(crate) fn of_node(&self, node: NodeId) -> Option<usize>
        ensures found { IfSome result (IsFileOf self.now.each.items node) }
        ensures none { IfNone result (HasNoFile self.now.each.items node) }
    {
        place_of(&self.each, node)
    }
}

/// The files with their titles.
fn with_titles<'a>(
    alloc: Global,
    contents: &'a [Vec<u8>],
) -> Result<Vec<File<'a>>, Failed<CollectError>>
    ensures read { IfOk result (λ files. Each IsRead files.items) }
    ensures contents { IfOk result
        (λ files. contents_of files.items ≡ map (λ content. content.items) contents.now) }
    ensures cause { IfErr result (IfBecause (IsCause (map (λ content. content.items) contents.now))) }
{
    let mut files = Vec::new(alloc);
    for content in contents {
        files.reserve(1)?;
        match title_at(content) {
            Some(title) => files.push_reserved(File { title, content }),
            None => return Err(Failed::Because(CollectError::NotAJournal { file: files.len() })),
        }
    }
    Ok(files)
}

/// The title that stands at the start, with a commit byte behind it.
#[tactic(auto, using(crate::proofs::Titles::titled, crate::proofs::Titles::too_short, crate::proofs::Titles::not_titled))]
fn title_at(content: &[u8]) -> Option<Title>
    ensures some { IfSome result (HasTitle content.now) }
    ensures none { IfNone result (HasNoTitle content.now) }
{
    if content.len() <= TITLE_LENGTH {
        return None;
    }
    title_in(&content[..TITLE_LENGTH])
}

/// The header of all files.
fn header_of(files: &[File<'_>]) -> Result<Header, CollectError>
    requires { Each IsRead files.now }
    ensures header { IfOk result IsHeader }
    ensures each { IfOk result (λ header. Each (IsOfHeader header) files.now) }
    ensures cause { IfErr result (IsCause (contents_of files.now)) }
{
    let [first, ..] = files else {
        return Err(CollectError::NoFile);
    };
    let header = first.title.header;
    for file in 0..files.len() {
        let one = &files[file];
        if one.title.header != header {
            return Err(CollectError::OtherHeader { file });
        }
        if !is_possible(&header, one.title.node) {
            return Err(CollectError::NoSuchNode { file });
        }
    }
    Ok(header)
}

/// Whether it is no client, or one that the header has.
fn is_possible(header: &Header, node: NodeId) -> bool
    ensures { IsTrue result ↔ IsPossible header.now node }
{
    node.kind != NodeKind::Client || node.number <= header.clients
}

/// Sees that no two files are of one node.
fn all_apart(files: &[File<'_>]) -> Result<(), CollectError>
    requires { Each IsRead files.now }
    ensures apart { OnOk result (AreApart files.now) }
    ensures cause { IfErr result (IsCause (contents_of files.now)) }
{
    for file in 0..files.len() {
        let one = &files[file];
        if place_of(&files[..file], one.title.node).is_some() {
            return Err(CollectError::Twice { file });
        }
    }
    Ok(())
}

/// The place of the file of that node.
fn place_of(files: &[File<'_>], node: NodeId) -> Option<usize>
    ensures found { IfSome result (IsFileOf files.now node) }
    ensures none { IfNone result (HasNoFile files.now node) }
{
    for file in 0..files.len() {
        let one = &files[file];
        if one.title.node == node {
            return Some(file);
        }
    }
    None
}

/// The least number above this one of a node of that kind that has a file.
pub(crate) fn next_number(files: &[File<'_>], kind: NodeKind, above: u32) -> Option<u32>
    ensures { IsNext files.now kind above result }
{
    let mut next = None;
    for one in files {
        next = nearer(kind, above, one.title.node, next);
    }
    next
}

/// The node's number, where it is one of that kind above this number and below what was found before.
fn nearer(kind: NodeKind, above: u32, node: NodeId, found: Option<u32>) -> Option<u32>
    ensures { result ≡ nearer kind above node found }
{
    if node.kind == kind && above < node.number && is_below(node.number, found) {
        Some(node.number)
    } else {
        found
    }
}

/// Whether it is below the other number, or there is no other.
fn is_below(number: u32, other: Option<u32>) -> bool
    ensures { result ≡ is_below number other }
{
    match other {
        Some(other) => number < other,
        None => true,
    }
}
