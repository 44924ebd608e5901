//! Objects in memory some of whose calls fail, by their numbers. They report all that they hold.
ghost use Rattle.std.specs.Prelude.{◌≡◌, ◌≤◌, Some, [], ◌∷◌, ◌++◌, ◌==◌, IsTrue, false, IfErr, OnOk, OnErr, if◌then◌else◌, true};
ghost use Rattle.std.specs.List.{list_any};
ghost use Rattle.std.specs.Option.{option_copied};
ghost use Rattle.std.specs.FinMap as map;
ghost use Rattle.outside_core.specs.Counts.{Increased, increment};

use crate::sure::{SureFiles, SureSink, SureSource};
use outside_core::{
    Dice, DiceFail, FileFail, FileStore, Sink, SinkFail, Source, SourceFail, increment,
};
use std::alloc::Global;
use std::marker::Model;

/// Which calls of an object are to fail, by their numbers from 0 on, and the count of its faults.
#[derive(Drop)]
struct FailurePlan {
    failing: Vec<u64>,
    calls: u64,
    faults: u64,
}

impl Model for FailurePlan {
    ghost use Rattle.outside_objects.specs.Memory.{Failures};
    ghost use Rattle.outside_objects.specs.MemoryCodes.{failures_code};

    ghost Value = { Failures };

    ghost coded = { failures_code };

    ghost view = { λ p. record { failing = p.failing.items; calls = p.calls; faults = p.faults } };
}

impl FailurePlan {
    ghost use Rattle.outside_objects.specs.Memory.{no_failures};

    /// No call is to fail.
    fn new(alloc: Global) -> FailurePlan
        ensures { result ≡ no_failures }
    {
        FailurePlan {
            failing: Vec::new(alloc),
            calls: 0,
            faults: 0,
        }
    }

    /// Lets the call of this number fail.
    fn fail_at(&mut self, call: u64) -> Result<(), SinkFail>
        ensures ok { OnOk result (self.new ≡ record self.old
            { failing = self.old.failing ++ call ∷ [] }) }
        ensures err { OnErr result (self.new ≡ self.old) }
        ensures memory { IfErr result (λ e. e ≡ SinkFail.NoMemory) }
    {
        self.failing.push(call)?;
        Ok(())
    }

    /// Counts a fault.
    fn count_fault(&mut self)
        ensures counted { self.new ≡ record self.old { faults = increment self.old.faults } }
        ensures later { self.old.faults ≤ self.new.faults }
        ensures rose { Increased self.old.faults self.new.faults }
    {
        self.faults = increment(self.faults);
    }

    /// Counts a call, and a fault where it is one that is to fail. Returns whether it is.
    fn fails(&mut self) -> bool
        ensures planned { result ≡ list_any (λ n. n == self.old.calls) self.old.failing }
        ensures calls { self.new ≡ record self.old {
          calls = increment self.old.calls;
          faults =
              (if result then increment self.old.faults else self.old.faults);
        } }
        ensures later { self.old.faults ≤ self.new.faults }
        ensures rose { IsTrue result → Increased self.old.faults self.new.faults }
        ensures kept { result ≡ false → self.new.faults ≡ self.old.faults }
    {
        let call = self.calls;
        self.calls = increment(call);
        let fails = self.failing.contains(&call);
        if fails {
            self.count_fault();
        }
        fails
    }
}

/// A store of files in memory some of whose calls fail. Its calls are numbered from 0 on, all but
/// `discard`, which cannot fail.
#[derive(Drop)]
pub struct MemoryFiles {
    store: SureFiles,
    plan: FailurePlan,
}

impl Model for MemoryFiles {
    ghost use Rattle.outside_objects.specs.Memory.{FailingStore};
    ghost use Rattle.outside_objects.specs.MemoryCodes.{failing_store_code};

    ghost Value = { FailingStore };

    ghost coded = { failing_store_code };

    ghost view = { λ m. record { store = m.store; failures = m.plan } };
}

impl MemoryFiles {
    ghost use Rattle.outside_objects.specs.Memory.{empty_store, no_failures};

    /// A store without files. No call is to fail.
    pub fn new(alloc: Global) -> MemoryFiles
        ensures store { result.store ≡ empty_store }
        ensures failures { result.failures ≡ no_failures }
    {
        MemoryFiles {
            store: SureFiles::new(alloc),
            plan: FailurePlan::new(alloc),
        }
    }

    /// Puts a file under a name, in the place of any of that name. It is no call that can be made
    /// to fail; a refusal means that memory ran out, and changes nothing.
    pub fn put(&mut self, name: &str, bytes: &[u8]) -> Result<(), FileFail>
        ensures ok { OnOk result (self.new ≡ record self.old {
          store = record self.old.store {
            files = map.insert self.old.store.files name.now
                bytes.now;
          };
        }) }
        ensures err { OnErr result (self.new ≡ self.old) }
        ensures memory { IfErr result (λ e. e ≡ FileFail.NoMemory) }
    {
        self.store.put(name, bytes)
    }

    /// The bytes of the file of a name.
    pub fn bytes(&self, name: &str) -> Option<&[u8]>
        ensures { option_copied result ≡ map.get self.now.store.files name.now }
    {
        self.store.bytes(name)
    }

    /// Lets the call of this number fail. A refusal means that memory ran out, and changes nothing.
    pub fn fail_at(&mut self, call: u64) -> Result<(), SinkFail>
        ensures ok { OnOk result (self.new ≡ record self.old {
          failures = record self.old.failures
              { failing = self.old.failures.failing ++ call ∷ [] };
        }) }
        ensures err { OnErr result (self.new ≡ self.old) }
        ensures memory { IfErr result (λ e. e ≡ SinkFail.NoMemory) }
    {
        self.plan.fail_at(call)
    }
}

impl FileStore for MemoryFiles {
    ghost files = { λ m. Some m.store.files };

    ghost truthful = { λ _. true };

    ghost draft_name = { λ m. m.store.draft_name };

    ghost draft_bytes = { λ m. m.store.draft_bytes };

    ghost faults = { λ m. m.failures.faults };

    ghost absences = { λ m. m.store.absences };

    fn size(&mut self, name: &str) -> Result<u64, FileFail> {
        if self.plan.fails() {
            return Err(FileFail::Failed);
        }
        self.store.size(name)
    }

    fn read_at(&mut self, name: &str, from: u64, out: &mut [u8]) -> Result<usize, FileFail> {
        if self.plan.fails() {
            return Err(FileFail::Failed);
        }
        self.store.read_at(name, from, out)
    }

    fn begin(&mut self, name: &str) -> Result<(), FileFail> {
        if self.plan.fails() {
            self.store.discard();
            return Err(FileFail::Failed);
        }
        self.store.begin(name)
    }

    fn append(&mut self, piece: &[u8]) -> Result<(), FileFail> {
        if self.plan.fails() {
            return Err(FileFail::Failed);
        }
        self.store.append(piece)
    }

    fn publish(&mut self) -> Result<(), FileFail> {
        if self.plan.fails() {
            self.store.discard();
            return Err(FileFail::Failed);
        }
        self.store.publish()
    }

    fn discard(&mut self) {
        self.store.discard();
    }
}

/// A source over bytes in memory some of whose calls fail; those take no byte.
#[derive(Drop)]
pub struct MemorySource {
    source: SureSource,
    plan: FailurePlan,
}

impl Model for MemorySource {
    ghost use Rattle.outside_objects.specs.Memory.{FailingBytes};
    ghost use Rattle.outside_objects.specs.MemoryCodes.{failing_bytes_code};

    ghost Value = { FailingBytes };

    ghost coded = { failing_bytes_code };

    ghost view = { λ m. record { bytes = m.source; failures = m.plan } };
}

impl MemorySource {
    ghost use Rattle.outside_objects.specs.Memory.{no_failures};

    /// A source at its end. No call is to fail.
    pub fn new(alloc: Global) -> MemorySource
        ensures { result ≡ record { bytes = []; failures = no_failures } }
    {
        MemorySource {
            source: SureSource::new(alloc),
            plan: FailurePlan::new(alloc),
        }
    }

    /// Appends bytes to those that are left. A refusal means that memory ran out, and changes
    /// nothing.
    pub fn fill_with(&mut self, bytes: &[u8]) -> Result<(), SinkFail>
        ensures ok { OnOk result (self.new ≡ record self.old
            { bytes = self.old.bytes ++ bytes.now }) }
        ensures err { OnErr result (self.new ≡ self.old) }
        ensures memory { IfErr result (λ e. e ≡ SinkFail.NoMemory) }
    {
        self.source.fill_with(bytes)
    }

    /// Lets the call of this number fail. A refusal means that memory ran out, and changes nothing.
    pub fn fail_at(&mut self, call: u64) -> Result<(), SinkFail>
        ensures ok { OnOk result (self.new ≡ record self.old {
          failures = record self.old.failures
              { failing = self.old.failures.failing ++ call ∷ [] };
        }) }
        ensures err { OnErr result (self.new ≡ self.old) }
        ensures memory { IfErr result (λ e. e ≡ SinkFail.NoMemory) }
    {
        self.plan.fail_at(call)
    }
}

impl Source for MemorySource {
    ghost left = { λ m. Some m.bytes };

    ghost truthful = { λ _. true };

    ghost faults = { λ m. m.failures.faults };

    fn read(&mut self, out: &mut [u8]) -> Result<usize, SourceFail> {
        if self.plan.fails() {
            return Err(SourceFail::Failed);
        }
        self.source.read(out)
    }
}

/// A sink into memory some of whose calls fail; those take no byte.
#[derive(Drop)]
pub struct MemorySink {
    sink: SureSink,
    plan: FailurePlan,
}

impl Model for MemorySink {
    ghost use Rattle.outside_objects.specs.Memory.{FailingBytes};
    ghost use Rattle.outside_objects.specs.MemoryCodes.{failing_bytes_code};

    ghost Value = { FailingBytes };

    ghost coded = { failing_bytes_code };

    ghost view = { λ m. record { bytes = m.sink; failures = m.plan } };
}

impl MemorySink {
    ghost use Rattle.outside_objects.specs.Memory.{no_failures};

    /// A sink that nothing was written to. No call is to fail.
    pub fn new(alloc: Global) -> MemorySink
        ensures { result ≡ record { bytes = []; failures = no_failures } }
    {
        MemorySink {
            sink: SureSink::new(alloc),
            plan: FailurePlan::new(alloc),
        }
    }

    /// The bytes written so far.
    pub fn written(&self) -> &[u8]
        ensures { result.now ≡ self.now.bytes }
    {
        self.sink.written()
    }

    /// Lets the call of this number fail. A refusal means that memory ran out, and changes nothing.
    pub fn fail_at(&mut self, call: u64) -> Result<(), SinkFail>
        ensures ok { OnOk result (self.new ≡ record self.old {
          failures = record self.old.failures
              { failing = self.old.failures.failing ++ call ∷ [] };
        }) }
        ensures err { OnErr result (self.new ≡ self.old) }
        ensures memory { IfErr result (λ e. e ≡ SinkFail.NoMemory) }
    {
        self.plan.fail_at(call)
    }
}

impl Sink for MemorySink {
    ghost written = { λ m. Some m.bytes };

    ghost faults = { λ m. m.failures.faults };

    fn write(&mut self, piece: &[u8]) -> Result<usize, SinkFail> {
        if self.plan.fails() {
            return Err(SinkFail::Failed);
        }
        self.sink.write(piece)
    }
}

/// Dice with a given stream of bytes. A call fails where it is planned to, and where fewer bytes
/// are left than it asks for; a call that fails takes no byte.
#[derive(Drop)]
pub struct MemoryDice {
    stream: SureSource,
    plan: FailurePlan,
}

impl Model for MemoryDice {
    ghost use Rattle.outside_objects.specs.Memory.{FailingBytes};
    ghost use Rattle.outside_objects.specs.MemoryCodes.{failing_bytes_code};

    ghost Value = { FailingBytes };

    ghost coded = { failing_bytes_code };

    ghost view = { λ m. record { bytes = m.stream; failures = m.plan } };
}

impl MemoryDice {
    ghost use Rattle.outside_objects.specs.Memory.{no_failures};

    /// Dice with an empty stream. No call is to fail, as long as it asks for no byte.
    pub fn new(alloc: Global) -> MemoryDice
        ensures { result ≡ record { bytes = []; failures = no_failures } }
    {
        MemoryDice {
            stream: SureSource::new(alloc),
            plan: FailurePlan::new(alloc),
        }
    }

    /// Appends bytes to those that are left. A refusal means that memory ran out, and changes
    /// nothing.
    pub fn fill_with(&mut self, bytes: &[u8]) -> Result<(), SinkFail>
        ensures ok { OnOk result (self.new ≡ record self.old
            { bytes = self.old.bytes ++ bytes.now }) }
        ensures err { OnErr result (self.new ≡ self.old) }
        ensures memory { IfErr result (λ e. e ≡ SinkFail.NoMemory) }
    {
        self.stream.fill_with(bytes)
    }

    /// Lets the call of this number fail. A refusal means that memory ran out, and changes nothing.
    pub fn fail_at(&mut self, call: u64) -> Result<(), SinkFail>
        ensures ok { OnOk result (self.new ≡ record self.old {
          failures = record self.old.failures
              { failing = self.old.failures.failing ++ call ∷ [] };
        }) }
        ensures err { OnErr result (self.new ≡ self.old) }
        ensures memory { IfErr result (λ e. e ≡ SinkFail.NoMemory) }
    {
        self.plan.fail_at(call)
    }
}

impl Dice for MemoryDice {
    ghost stream = { λ m. Some m.bytes };

    ghost truthful = { λ _. true };

    ghost faults = { λ m. m.failures.faults };

    fn fill(&mut self, out: &mut [u8]) -> Result<(), DiceFail> {
        if self.plan.fails() {
            return Err(DiceFail::Failed);
        }
        if self.stream.left().len() < out.len() {
            self.plan.count_fault();
            return Err(DiceFail::Failed);
        }
        self.stream.take_front(out);
        Ok(())
    }
}
