//! The versions of an entry.
ghost use Rattle.std.specs.Prelude.{◌≡◌, OnOk, OnErr, map};
ghost use Rattle.std.specs.Option.{option_copied};
ghost use Rattle.std.specs.FinMap as map;
ghost use Rattle.vault_model.specs.Db.{greatest};
ghost use Rattle.vault_model.specs.Join.{stats_join};
ghost use Rattle.vault_model.specs.Unite.{unite};

use crate::rows;
use crate::version_keys::VersionKey;
use outside_core::NoMemory;
use std::alloc::Global;
use std::marker::Model;
use vault_model::Stats;

/// All versions of an entry, which contracts see as the map from their marks to how they were used.
#[derive(Drop)]
pub struct VersionTable<'a> {
    rows: Vec<(VersionKey<'a>, Stats)>,
}

impl<'a> Model for VersionTable<'a> {
    ghost use Rattle.std.specs.Prelude.{T};
    ghost use Rattle.std.specs.FinMap.{from_sorted, is_sorted};
    ghost use Rattle.vault_model.specs.Db.{Versions, mark_cmp};
    ghost use Rattle.merge_tables.specs.Codes.{versions_code};

    ghost Value = { Versions };

    ghost coded = { versions_code };

    ghost view = { λ v. from_sorted v.rows.items };

    ghost invariant = { λ v. T (is_sorted mark_cmp v.rows.items) };
}

/// The later access and the greater use.
pub(crate) fn join_stats(first: Stats, second: Stats) -> Stats
    ensures { result ≡ stats_join first second }
{
    Stats {
        accessed: first.accessed.max(second.accessed),
        usage: first.usage.max(second.usage),
    }
}

impl<'a> VersionTable<'a> {
    /// No versions.
    pub fn new(alloc: Global) -> VersionTable<'a>
        ensures { result ≡ map.empty }
    {
        VersionTable {
            rows: Vec::new(alloc),
        }
    }

    /// How the version of a mark was used.
    fn get(&self, mark: &VersionKey<'a>) -> Option<&Stats>
        ensures { option_copied result ≡ map.get self.now mark.now }
    {
        rows::find(self.rows.as_slice(), mark)
    }

    /// The versions in rising order.
    pub fn rows(&self) -> &[(VersionKey<'a>, Stats)]
        ensures { result.now ≡ map.entries self.now }
    {
        self.rows.as_slice()
    }

    /// Puts a version in the place of any that has its mark. A refusal means that memory ran out,
    /// and changes nothing.
    fn put(&mut self, mark: VersionKey<'a>, stats: Stats) -> Result<(), NoMemory>
        ensures ok { OnOk result (self.new ≡ map.insert self.old mark.entry stats) }
        ensures err { OnErr result (self.new ≡ self.old) }
    {
        rows::put(&mut self.rows, mark, stats)?;
        Ok(())
    }

    /// Adds a version; where there is one of its mark they are made one. A refusal means that
    /// memory ran out, and changes nothing.
    pub fn add(&mut self, mark: VersionKey<'a>, stats: Stats) -> Result<(), NoMemory>
        ensures ok { OnOk result (self.new ≡ unite stats_join
            (map.insert map.empty mark.entry stats) self.old) }
        ensures err { OnErr result (self.new ≡ self.old) }
    {
        let joined = match self.get(&mark) {
            Some(before) => join_stats(stats, *before),
            None => stats,
        };
        self.put(mark, joined)?;
        Ok(())
    }

    /// Adds versions one by one. A refusal means that memory ran out.
    pub fn add_all(&mut self, more: &VersionTable<'a>) -> Result<(), NoMemory>
        ensures { OnOk result (self.new ≡ unite stats_join more.now self.old) }
    {
        for (mark, stats) in more.rows() {
            self.add(mark.again(), *stats)?;
        }
        Ok(())
    }

    /// When the newest version was made, in seconds, and 0 where there is none.
    pub fn newest(&self) -> u64
        ensures { result ≡ greatest (map (λ m. m.modified) (map.keys self.now)) }
    {
        let mut newest = 0;
        for (mark, _) in self.rows() {
            newest = mark.modified().seconds().max(newest);
        }
        newest
    }
}
