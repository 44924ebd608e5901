//! The laws of settled documents. Each function has laws as its contract; it does nothing, and takes
//! no memory.

ghost use Rattle.settled_laws.specs.Imports.{ExportsSettle, SafesSettle, TablesSettle};
ghost use Rattle.settled_laws.specs.Settled.{MergedWithItself, SettledMeans, ShapeIsAll};

/// A document is that of its shape; it is settled exactly where the versions of each of its entries
/// rise, and merged with itself it then stays as it is.
pub fn settled()
    ensures shape { ShapeIsAll }
    ensures means { SettledMeans }
    ensures merged { MergedWithItself }
{}

/// The documents of tables, of files of Password Safe and of exports of Bitwarden are settled.
pub fn imports_settle()
    ensures tables { TablesSettle }
    ensures safes { SafesSettle }
    ensures exports { ExportsSettle }
{}
