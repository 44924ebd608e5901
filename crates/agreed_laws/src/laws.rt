//! The laws of merging documents. Each function has laws as its contract, for all documents; it
//! does nothing, and takes no memory.

ghost use Rattle.agreed_laws.specs.Levels.{DocumentsFit, FitsIsShallow};
ghost use Rattle.agreed_laws.specs.Merges.{MergedAgain, MergesKeepVersions, MergesSettle, PartsAreMerged, PartsKeepVersions};
ghost use Rattle.agreed_laws.specs.Runs.{RunsAgree, RunsAreSchedules, RunsJoin};

/// The database of a document fits the levels, and no kept node is too deep exactly where the join
/// fits them.
pub fn levels()
    ensures documents { DocumentsFit }
    ensures shallow { FitsIsShallow }
{}

/// What is merged, of agreed documents or not, is a settled document of the join of its members,
/// with every version that a member has of a kept entry.
pub fn merges()
    ensures settle { MergesSettle }
    ensures versions { MergesKeepVersions }
{}

/// Documents whose databases are joins of parts of an agreed set are merged into the join of all
/// the parts, with every version of what none has deleted, and are never refused but where the join
/// does not fit the levels; and where the sources' parts are within those of a settled target, the
/// merge results in the target itself.
pub fn agreed()
    ensures merged { PartsAreMerged }
    ensures versions { PartsKeepVersions }
    ensures again { MergedAgain }
{}

/// Whatever grows and is merged on several replicas, each replica's database is the join of those
/// that it has learned, so that replicas that have learned the same have the same.
pub fn runs()
    ensures schedules { RunsAreSchedules }
    ensures learned { RunsJoin }
    ensures same { RunsAgree }
{}
