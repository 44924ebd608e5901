//! Documents merged into one.
ghost use Rattle.std.specs.Prelude.{◌≡◌, ◌∷◌, None, Ok, Err, IfOk, map, true};
ghost use Rattle.std.specs.FinMap.{contains_key};
ghost use Rattle.vault_model.specs.Join.{join};
ghost use Rattle.vault_model.specs.Proper.{rises};
ghost use Rattle.vault_model.specs.SeenDoc.{doc_seen};
ghost use Rattle.vault_model.specs.Tree.{IsDoc, LEVELS, db_in, doc_of, lay_doc, shape_of};
ghost use Rattle.merge_checks.specs.MergeChanges.Changes.{node_changes};
ghost use Rattle.merge_checks.specs.MergeChanges.Equality as spec;
ghost use Rattle.merge_checks.specs.MergeChanges.Equality.{same_all, same_meta, same_tomb};
ghost use Rattle.merge_core.specs.Marking.{strays};
ghost use Rattle.merge_core.specs.Refusals.{CanMerge, kind_clashes, least, members, root_clashes};
ghost use Rattle.merge_tables.specs.Databases.{database, databases};
ghost use Rattle.merge_arranging.specs.MergeNodes.Shapes.{shape};
ghost use Rattle.merge_checks.specs.MergeJoin.Marks.{AreKept, AreKnown};
ghost use Rattle.document_merge.specs.Merging.{HandsBack, IsFailOf, IsLaid, IsLaidResult, IsMergeCall, IsMergeResult, IsReport, level_stage, kind_stage, merge_result, path_stage};

use merge_arranging::laying::lay;
use merge_arranging::merge_nodes::shapes::Shape;
use merge_building::laid::laid_doc;
use merge_building::metas::made_meta;
use merge_checks::copies::members_of;
use merge_checks::cycles::cycle_above;
use merge_checks::kinds::kind_clash;
use merge_checks::levels::least_too_deep;
use merge_checks::merge_changes::changes::{
    Change, Sameness, changed_nodes, push_document_changes,
};
use merge_checks::merge_changes::equality::{same_doc, same_meta, same_tombs};
use merge_checks::merge_join::joins::{join_marked, rising_known_ids};
use merge_checks::merge_join::marking::{JoinRefusal, kept_marks};
use merge_checks::roots::root_clash;
use merge_shapes::shapes::shape_of;
use merge_tables::databases::Database;
use merge_tables::tables::Table;
use outside_core::{List, NoMemory};
use std::alloc::Global;
use uuid_core::Uuid;
use vault_model::Doc;

/// Why documents are not merged.
#[derive(Drop)]
pub enum MergeFail {
    /// This id is a root's in one document, and in some document that of a node that is not its
    /// root.
    RootClash(Uuid),
    /// An entry has this id in one document and a group in another.
    KindClash(Uuid),
    /// Latest moves make a cycle of these nodes.
    MoveCycle(List<Uuid>),
    /// This node would be below the last level.
    TooDeep(Uuid),
    /// Memory ran out.
    NoMemory,
}

impl From<NoMemory> for MergeFail {
    ghost use Rattle.document_merge.specs.declared.merging.MergeFail.TheVariants as fail;

    ghost from_gives = { λ _ e. e ≡ fail.NoMemory };

    fn from(_failed: NoMemory) -> MergeFail {
        MergeFail::NoMemory
    }
}

/// A merged document, whether it differs from the target, and what changed.
#[derive(Drop)]
pub struct Merged {
    pub doc: Doc,
    pub changed: bool,
    pub changes: List<Change>,
}

/// The join of some documents laid over the target, whose parts they lend, and what changed of its
/// nodes.
#[derive(Drop)]
pub struct Laid<'a> {
    shape: Shape<'a>,
    changes: List<Change>,
}

/// A refusal, and the target handed back as it was unless memory ran out.
#[derive(Drop)]
pub struct Refused {
    pub why: MergeFail,
    pub target: Option<Doc>,
}

/// What is the same in the target and the document that is laid over it.
fn sameness(target: &Doc, doc: &Doc) -> Sameness
    ensures meta { result.meta ≡ same_meta (doc_seen target.now).meta (doc_seen doc.now).meta }
    ensures tombs { result.tombs
        ≡ same_all same_tomb (doc_seen target.now).tombs (doc_seen doc.now).tombs }
    ensures all { result.all ≡ spec.same_doc (doc_seen target.now) (doc_seen doc.now) }
    ensures same { result.all ≡ true → doc_seen target.now ≡ doc_seen doc.now }
    ensures equal { doc_seen target.now ≡ doc_seen doc.now → result.all ≡ true }
{
    Sameness {
        meta: same_meta(&target.meta, &doc.meta),
        tombs: same_tombs(target.tombs.as_slice(), doc.tombs.as_slice()),
        all: same_doc(target, doc),
    }
}

/// The join of the members laid over the target, which is this shape, with what changed of its
/// nodes.
fn lay_over<'a>(
    alloc: Global,
    _target: &'a Doc,
    _sources: &[Doc],
    before: &Database<'a>,
    joined: &Database<'a>,
    older: &Shape<'a>,
) -> Result<Laid<'a>, NoMemory>
    requires before { database before.now ≡ db_in (doc_seen _target.now) }
    requires joined { database joined.now
        ≡ join (members (doc_seen _target.now) (map doc_seen _sources.now)) }
    requires older { shape older.now ≡ shape_of (doc_seen _target.now) }
    requires entries { older.now.entries ≡ (shape_of (doc_seen _target.now)).entries }
    requires can_merge { CanMerge (doc_seen _target.now) (map doc_seen _sources.now) }
    ensures { IfOk result (IsLaid (doc_seen _target.now) (map doc_seen _sources.now)) }
{
    let changes = changed_nodes(alloc, &older.entries, before, joined)?;
    match lay(alloc, joined, older) {
        Ok(shape) => Ok(Laid { shape, changes }),
        Err(failed) => {
            drop(changes);
            Err(failed)
        }
    }
}

/// The join of the members laid over the target, where no kept node is too deep.
fn lay_joined<'a>(
    alloc: Global,
    target: &'a Doc,
    sources: &[Doc],
    copies: &[Database<'a>],
    joined: &Database<'a>,
) -> Result<Laid<'a>, NoMemory>
    requires copies { databases copies.now
        ≡ members (doc_seen target.now) (map doc_seen sources.now) }
    requires can_merge { CanMerge (doc_seen target.now) (map doc_seen sources.now) }
    requires joined { database joined.now ≡ join (databases copies.now) }
    ensures { IfOk result (IsLaid (doc_seen target.now) (map doc_seen sources.now)) }
{
    let older = shape_of(alloc, target)?;
    let laid = lay_over(alloc, target, sources, &copies[0], joined, &older);
    drop(older);
    laid
}

/// Documents laid together that no refusal is about; the kept nodes are marked.
fn lay_allowed<'a>(
    alloc: Global,
    target: &'a Doc,
    sources: &[Doc],
    copies: &[Database<'a>],
    known: &[Uuid],
    marked: &Table<bool>,
) -> Result<Laid<'a>, NoMemory>
    requires copies { databases copies.now
        ≡ members (doc_seen target.now) (map doc_seen sources.now) }
    requires can_merge { CanMerge (doc_seen target.now) (map doc_seen sources.now) }
    requires known { AreKnown (databases copies.now) known.now }
    requires kept { AreKept (databases copies.now) marked.now }
    ensures { IfOk result (IsLaid (doc_seen target.now) (map doc_seen sources.now)) }
{
    let joined = join_marked(alloc, copies, marked, known)?;
    let laid = lay_joined(alloc, target, sources, copies, &joined);
    drop(joined);
    laid
}

/// Documents laid together whose own nodes all have a path to the root; the kept nodes are marked.
fn lay_marked<'a>(
    alloc: Global,
    target: &'a Doc,
    sources: &[Doc],
    copies: &[Database<'a>],
    known: &[Uuid],
    marked: &Table<bool>,
) -> Result<Laid<'a>, MergeFail>
    requires clear { least (root_clashes (doc_seen target.now ∷ map doc_seen sources.now)) ≡ None }
    requires copies { databases copies.now
        ≡ members (doc_seen target.now) (map doc_seen sources.now) }
    requires kinds { least (kind_clashes (databases copies.now)) ≡ None }
    requires rising { rises (λ u. u) known.now ≡ true }
    requires known { AreKnown (databases copies.now) known.now }
    requires kept { AreKept (databases copies.now) marked.now }
    requires strays { least (strays (databases copies.now)) ≡ None }
    ensures { IsLaidResult (level_stage (doc_seen target.now) (map doc_seen sources.now))
        (doc_seen target.now) (map doc_seen sources.now) result }
{
    let found = least_too_deep(copies, marked, known);
    if let Some(id) = found {
        return Err(MergeFail::TooDeep(id));
    }
    match lay_allowed(alloc, target, sources, copies, known, marked) {
        Ok(laid) => Ok(laid),
        Err(_failed) => Err(MergeFail::NoMemory),
    }
}

/// Why documents are not merged, where their databases are not joined.
fn fail_of(alloc: Global, copies: &[Database], refusal: JoinRefusal) -> MergeFail
    ensures { IsFailOf (databases copies.now) refusal result }
{
    match refusal {
        JoinRefusal::Stray(id) => match cycle_above(alloc, copies, id) {
            Ok(ids) => MergeFail::MoveCycle(ids),
            Err(_failed) => MergeFail::NoMemory,
        },
        JoinRefusal::NoMemory => MergeFail::NoMemory,
    }
}

/// Documents laid together in which each id is of one kind.
fn lay_kinds<'a>(
    alloc: Global,
    target: &'a Doc,
    sources: &[Doc],
    copies: &[Database<'a>],
    known: &[Uuid],
) -> Result<Laid<'a>, MergeFail>
    requires clear { least (root_clashes (doc_seen target.now ∷ map doc_seen sources.now)) ≡ None }
    requires copies { databases copies.now
        ≡ members (doc_seen target.now) (map doc_seen sources.now) }
    requires kinds { least (kind_clashes (databases copies.now)) ≡ None }
    requires rising { rises (λ u. u) known.now ≡ true }
    requires known { AreKnown (databases copies.now) known.now }
    ensures { IsLaidResult (path_stage (doc_seen target.now) (map doc_seen sources.now))
        (doc_seen target.now) (map doc_seen sources.now) result }
{
    match kept_marks(alloc, copies, known) {
        Ok(marked) => lay_marked(alloc, target, sources, copies, known, &marked),
        Err(refusal) => Err(fail_of(alloc, copies, refusal)),
    }
}

/// Documents laid together in which no node but a root has a root's id, with their databases.
fn lay_copies<'a>(
    alloc: Global,
    target: &'a Doc,
    sources: &[Doc],
    copies: &[Database<'a>],
) -> Result<Laid<'a>, MergeFail>
    requires clear { least (root_clashes (doc_seen target.now ∷ map doc_seen sources.now)) ≡ None }
    requires copies { databases copies.now
        ≡ members (doc_seen target.now) (map doc_seen sources.now) }
    ensures { IsLaidResult (kind_stage (doc_seen target.now) (map doc_seen sources.now))
        (doc_seen target.now) (map doc_seen sources.now) result }
{
    let known = rising_known_ids(alloc, copies)?;
    let found = kind_clash(copies, known.as_slice());
    if let Some(id) = found {
        return Err(MergeFail::KindClash(id));
    }
    lay_kinds(alloc, target, sources, copies, known.as_slice())
}

/// Documents laid together in which no node but a root has a root's id.
fn lay_members<'a>(
    alloc: Global,
    target: &'a Doc,
    sources: &'a [Doc],
) -> Result<Laid<'a>, MergeFail>
    requires clear { least (root_clashes (doc_seen target.now ∷ map doc_seen sources.now)) ≡ None }
    ensures { IsLaidResult (kind_stage (doc_seen target.now) (map doc_seen sources.now))
        (doc_seen target.now) (map doc_seen sources.now) result }
{
    let copies = members_of(alloc, target, sources)?;
    let laid = lay_copies(alloc, target, sources, copies.as_slice());
    drop(copies);
    laid
}

/// Documents laid together, or the first refusal.
fn lay_docs<'a>(alloc: Global, target: &'a Doc, sources: &'a [Doc]) -> Result<Laid<'a>, MergeFail>
    ensures { IsLaidResult (merge_result (doc_seen target.now) (map doc_seen sources.now))
        (doc_seen target.now) (map doc_seen sources.now) result }
{
    let found = root_clash(alloc, target, sources)?;
    if let Some(id) = found {
        return Err(MergeFail::RootClash(id));
    }
    lay_members(alloc, target, sources)
}

/// The document of a shape that is one.
fn built(alloc: Global, from: &Shape) -> Result<Doc, NoMemory>
    requires doc { IsDoc (doc_of LEVELS (shape from.now)) }
    requires root { contains_key (shape from.now).groups (shape from.now).root ≡ true }
    ensures { IfOk result (λ d. doc_seen d ≡ doc_of LEVELS (shape from.now)) }
{
    let meta = made_meta(alloc, &from.meta)?;
    laid_doc(alloc, from, meta)
}

/// The document that was laid over the target.
fn laid_over(
    alloc: Global,
    _target: &Doc,
    _sources: &[Doc],
    laid: &Laid<'_>,
) -> Result<Doc, NoMemory>
    requires { IsLaid (doc_seen _target.now) (map doc_seen _sources.now) laid.now }
    ensures { IfOk result (λ d. doc_seen d ≡ lay_doc LEVELS
        (join (members (doc_seen _target.now) (map doc_seen _sources.now)))
        (doc_seen _target.now)) }
{
    built(alloc, &laid.shape)
}

/// The merged document, with the changes of its nodes and of itself.
fn reported(
    target: &Doc,
    _sources: &[Doc],
    doc: Doc,
    changes: List<Change>,
) -> Result<Merged, NoMemory>
    requires { changes ≡ node_changes (shape_of (doc_seen target.now)).entries
        (db_in (doc_seen target.now))
        (join (members (doc_seen target.now) (map doc_seen _sources.now))) }
    ensures doc { IfOk result (λ m. doc_seen m.doc ≡ doc_seen doc) }
    ensures report { IfOk result (IsReport (doc_seen target.now) (map doc_seen _sources.now)) }
{
    let same = sameness(target, &doc);
    let mut changes = changes;
    match push_document_changes(&mut changes, same) {
        Ok(()) => Ok(Merged {
            doc,
            changed: !same.all,
            changes,
        }),
        Err(failed) => {
            drop(doc);
            drop(changes);
            Err(failed)
        }
    }
}

/// The document that was laid over the target, once what it is made of is lent no more.
fn finished(
    alloc: Global,
    target: &Doc,
    sources: &[Doc],
    laid: Laid<'_>,
) -> Result<Merged, MergeFail>
    requires { IsLaid (doc_seen target.now) (map doc_seen sources.now) laid }
    ensures { IsMergeResult (Ok (lay_doc LEVELS
        (join (members (doc_seen target.now) (map doc_seen sources.now))) (doc_seen target.now)))
        (doc_seen target.now) (map doc_seen sources.now) result }
{
    let made = laid_over(alloc, target, sources, &laid);
    let Laid { shape, changes } = laid;
    drop(shape);
    match made {
        Ok(doc) => Ok(reported(target, sources, doc, changes)?),
        Err(_failed) => {
            drop(changes);
            Err(MergeFail::NoMemory)
        }
    }
}

/// Documents merged, all of them lent.
///
/// What the databases of the documents take is given back before the merged document is built.
pub fn merge_lent(alloc: Global, target: &Doc, sources: &[Doc]) -> Result<Merged, MergeFail>
    ensures { IsMergeResult (merge_result (doc_seen target.now) (map doc_seen sources.now))
        (doc_seen target.now) (map doc_seen sources.now) result }
{
    match lay_docs(alloc, target, sources) {
        Ok(laid) => finished(alloc, target, sources, laid),
        Err(why) => Err(why),
    }
}

/// A refusal with the target, or without it where memory ran out.
fn handing_back(why: MergeFail, target: Doc) -> Refused
    ensures why { result.why ≡ why }
    ensures target { HandsBack (doc_seen target) why result.target }
{
    let target = match &why {
        MergeFail::NoMemory => {
            drop(target);
            None
        }
        _ => Some(target),
    };
    Refused { why, target }
}

/// The target merged with some sources: the first refusal, or the target with the join of all laid
/// over it.
pub fn merge(alloc: Global, target: Doc, sources: &[Doc]) -> Result<Merged, Refused>
    ensures { IsMergeCall (merge_result (doc_seen target) (map doc_seen sources.now))
        (doc_seen target) (map doc_seen sources.now) result }
{
    match merge_lent(alloc, &target, sources) {
        Ok(merged) => {
            drop(target);
            Ok(merged)
        }
        Err(why) => Err(handing_back(why, target)),
    }
}
