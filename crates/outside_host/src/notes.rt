//! What is noted of an answer of the host, which only proofs read: whether it agrees with the content
//! that an object reports, and what that content is after it. Each struct is what one note is read off.
ghost use Rattle.std.specs.Prelude.{◌≡◌, ◌&&◌, [], ◌++◌, drop};
ghost use Rattle.std.specs.FinMap as map;
ghost use Rattle.outside_host.specs.Answers.{lacks, has_length, has_window, begins_with, gives};

use crate::ghosts::{Ghost, Shows};
use crate::worlds::{ReportedBytes, ReportedFiles, ShownFiles, Truthful};
use outside_core::Bytes;

#[derive(Clone, Copy)]
struct Missing<'a> {
    before: &'a Truthful,
    files: &'a ReportedFiles,
    name: &'a str,
}

impl<'a> Shows<bool> for Missing<'a> {
    ghost shown = { λ x. lacks x.name.now x.files.now.value && x.before.now.value };
}

/// The disk answered that there is no file of this name.
pub(crate) fn after_missing(before: &Truthful, files: &ReportedFiles, name: &str) -> Truthful
    ensures { result.value ≡ (lacks name.now files.now.value && before.now.value) }
{
    Ghost::of(&Missing {
        before,
        files,
        name,
    })
}

#[derive(Clone, Copy)]
struct Length<'a> {
    before: &'a Truthful,
    files: &'a ReportedFiles,
    name: &'a str,
    len: u64,
}

impl<'a> Shows<bool> for Length<'a> {
    ghost shown = { λ x. has_length x.name.now x.len x.files.now.value && x.before.now.value };
}

/// The disk answered that the file of this name has this length.
pub(crate) fn after_length(
    before: &Truthful,
    files: &ReportedFiles,
    name: &str,
    len: u64,
) -> Truthful
    ensures { result.value ≡ (has_length name.now len files.now.value && before.now.value) }
{
    Ghost::of(&Length {
        before,
        files,
        name,
        len,
    })
}

#[derive(Clone, Copy)]
struct Window<'a> {
    before: &'a Truthful,
    files: &'a ReportedFiles,
    name: &'a str,
    from: u64,
    out: &'a [u8],
    read: usize,
}

impl<'a> Shows<bool> for Window<'a> {
    ghost shown = { λ x. has_window x.name.now x.from x.out.now x.read x.files.now.value
        && x.before.now.value };
}

/// The disk read the file of this name from an offset on, and this many bytes came into `out`.
pub(crate) fn after_window(
    before: &Truthful,
    files: &ReportedFiles,
    name: &str,
    from: u64,
    out: &[u8],
    read: usize,
) -> Truthful
    ensures { result.value ≡ (has_window name.now from out.now read files.now.value
        && before.now.value) }
{
    Ghost::of(&Window {
        before,
        files,
        name,
        from,
        out,
        read,
    })
}

#[derive(Clone, Copy)]
struct Published<'a> {
    files: &'a ReportedFiles,
    name: &'a str,
    bytes: &'a ReportedBytes,
}

impl<'a> Shows<ShownFiles> for Published<'a> {
    ghost shown = { λ x. map.insert x.files.now.value x.name.now x.bytes.now.value };
}

/// The files after the disk took these bytes as the file of this name.
pub(crate) fn after_publishing(
    files: &ReportedFiles,
    name: &str,
    bytes: &ReportedBytes,
) -> ReportedFiles
    ensures { result.value ≡ map.insert files.now.value name.now bytes.now.value }
{
    Ghost::of(&Published { files, name, bytes })
}

#[derive(Clone, Copy)]
struct NoBytes {}

impl Shows<Bytes> for NoBytes {
    ghost shown = { λ _. [] };
}

/// No byte was taken so far.
pub(crate) fn none_taken() -> ReportedBytes
    ensures { result.value ≡ [] }
{
    Ghost::of(&NoBytes {})
}

#[derive(Clone, Copy)]
struct Taken<'a> {
    bytes: &'a ReportedBytes,
    piece: &'a [u8],
}

impl<'a> Shows<Bytes> for Taken<'a> {
    ghost shown = { λ x. x.bytes.now.value ++ x.piece.now };
}

/// The bytes that were taken after this piece was, too.
pub(crate) fn after_taking(bytes: &ReportedBytes, piece: &[u8]) -> ReportedBytes
    ensures { result.value ≡ bytes.now.value ++ piece.now }
{
    Ghost::of(&Taken { bytes, piece })
}

#[derive(Clone, Copy)]
struct Read<'a> {
    before: &'a Truthful,
    left: &'a ReportedBytes,
    out: &'a [u8],
    read: usize,
}

impl<'a> Shows<bool> for Read<'a> {
    ghost shown = { λ x. gives x.out.now x.read x.left.now.value && x.before.now.value };
}

/// The reader answered with this many bytes, which came into `out`.
pub(crate) fn after_reading(
    before: &Truthful,
    left: &ReportedBytes,
    out: &[u8],
    read: usize,
) -> Truthful
    ensures { result.value ≡ (gives out.now read left.now.value && before.now.value) }
{
    Ghost::of(&Read {
        before,
        left,
        out,
        read,
    })
}

#[derive(Clone, Copy)]
struct Drawn<'a> {
    before: &'a Truthful,
    left: &'a ReportedBytes,
    out: &'a [u8],
}

impl<'a> Shows<bool> for Drawn<'a> {
    ghost shown = { λ x. begins_with x.out.now x.left.now.value && x.before.now.value };
}

/// The host gave these random bytes.
pub(crate) fn after_drawing(before: &Truthful, left: &ReportedBytes, out: &[u8]) -> Truthful
    ensures { result.value ≡ (begins_with out.now left.now.value && before.now.value) }
{
    Ghost::of(&Drawn { before, left, out })
}

#[derive(Clone, Copy)]
struct Given<'a> {
    left: &'a ReportedBytes,
    given: usize,
}

impl<'a> Shows<Bytes> for Given<'a> {
    ghost shown = { λ x. drop x.given x.left.now.value };
}

/// What is left of a stream after it gave this many bytes.
pub(crate) fn rest(left: &ReportedBytes, given: usize) -> ReportedBytes
    ensures { result.value ≡ drop given left.now.value }
{
    Ghost::of(&Given { left, given })
}
