//! The laws of joining copies of one database. Each function has a law as its contract, for every
//! list, plan or schedule; it does nothing, and takes no memory.

ghost use Rattle.vault_model.specs.Join.{Agreed};
ghost use Rattle.merge_core.specs.Laws.{DocumentsAreSound, JoinsAreSound, LaysSettle};
ghost use Rattle.merge_core.specs.Example.{copies};
ghost use Rattle.merge_core.specs.JoinLaws.{OwnIsAlive, ParentsAreOwn, KeptIsOwn, JoinHoldsOwn, JoinKeepsTombs, JoinsAgree, JoinOfJoins, PlansAgree, DocumentsAgree, KeptVersionsStay, VersionsStay, MergesAgain, SchedulesAgree, SameLearnedSameDb, OneIsAgreed};

/// What every part of an agreed set inherits: an id is own exactly where a member holds it and none
/// has a tombstone of it; the latest parent of an own node is own, so the kept nodes are the own
/// ones; the join holds exactly those, with the latest tombstones; and the joins of several parts
/// agree again, their join being the join of all.
pub fn inherited()
    ensures own_is_alive { OwnIsAlive }
    ensures parents_are_own { ParentsAreOwn }
    ensures kept_is_own { KeptIsOwn }
    ensures join_holds_own { JoinHoldsOwn }
    ensures join_keeps_tombs { JoinKeepsTombs }
    ensures joins_agree { JoinsAgree }
    ensures join_of_joins { JoinOfJoins }
{}

/// Every order and grouping of merges of an agreed set can be carried out and results in one
/// database, the join of the set; and so do the documents that it writes, where no level passes the
/// limit on the way.
pub fn plans()
    ensures values { PlansAgree }
    ensures documents { DocumentsAgree }
{}

/// Each version that a member has of a kept entry is in the join, used at least so late and so
/// often, whether the members agree or not; and so is each version of each entry that a member of an
/// agreed set holds and none has deleted.
pub fn revisions()
    ensures kept { KeptVersionsStay }
    ensures agreed { VersionsStay }
{}

/// A merge of what is already in a settled target leaves the target as it is.
pub fn again()
    ensures { MergesAgain }
{}

/// A document that is laid has the database that was laid, and is settled.
pub fn settled()
    ensures { LaysSettle }
{}

/// Whatever changes and merges are made on several replicas, after every step each replica's
/// database is the join of the databases that it has learned; so replicas that have learned the
/// same have the same.
pub fn schedules()
    ensures learned { SchedulesAgree }
    ensures same { SameLearnedSameDb }
{}

/// What the premises rest on: the database of every document is sound, so is the join of sound
/// databases that can be joined; one sound database alone is agreed, and so are three copies with
/// an edit, a new group, a move and a deletion among them.
pub fn premises()
    ensures documents_are_sound { DocumentsAreSound }
    ensures joins_are_sound { JoinsAreSound }
    ensures one_is_agreed { OneIsAgreed }
    ensures copies_agree { Agreed copies }
{}
