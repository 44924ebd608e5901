//! The laws that each refusal to open a file has its cause in the file's bytes. Each function has
//! laws as its contract; it does nothing, and takes no memory.

ghost use Rattle.cause_laws.specs.Causes.{RefusalsHaveCauses};
ghost use Rattle.cause_laws.specs.Examples.{ExampleRefusal};

/// A file that is refused has the cause of its refusal: the MAC that it keeps is not its header's,
/// a block is damaged or the file ends before its end block does, no padding is right, it does not
/// begin with its start bytes, no stream has its number, or the hash that its document keeps is not
/// its header's; or its header, its inner fields or its text are what their readers refuse, and have
/// the cause of that.
pub fn openings()
    ensures { RefusalsHaveCauses }
{}

/// The law speaks of something: a file of no bytes is refused.
pub fn example_refusal()
    ensures { ExampleRefusal }
{}
