//! The laws of histories of calls. Each function has laws as its contract; it does nothing, and
//! takes no memory.

ghost use Rattle.call_histories.specs.FreeHistories.{FreeCallsAgree};
ghost use Rattle.call_histories.specs.HistoryLaws.{CallsAreRuns, CopiesJoin, CopiesSame, MergesGoOn, MergesJoin};

/// Whatever is called on copies of a database, carried out, refused or cut off, and whatever file is
/// copied over another: the files hold the documents of a run that did what the calls did.
pub fn calls_are_runs()
    ensures { CallsAreRuns }
{}

/// What is current of the document in a copy's file is what is current of the join of what the copy
/// has learned, where that is within an agreed set; so copies that have learned the same are alike in
/// what is current.
pub fn copies_agree()
    ensures join { CopiesJoin }
    ensures same { CopiesSame }
{}

/// Where nothing was done but merges and copies, in any order and grouping, a copy's file holds the
/// join of what the copy has learned; and no merge of copies that have learned what is within an
/// agreed set is refused because ids clash or moves make a cycle.
pub fn merges_agree()
    ensures join { MergesJoin }
    ensures go_on { MergesGoOn }
{}

/// Where calls on copies of one database delete nothing for good and move no group, and no id is drawn
/// twice, all that the copies learn is of an agreed set, whatever is merged and copied over meanwhile;
/// so copies that have learned the same are alike in what is current, with no premise on agreement.
pub fn free_calls_agree()
    ensures { FreeCallsAgree }
{}
