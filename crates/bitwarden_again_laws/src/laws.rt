//! The laws of an export of Bitwarden that is imported again. Each function has a law as its contract;
//! it does nothing, and takes no memory.

ghost use Rattle.bitwarden_again_laws.specs.Again.{ExportsAgree, ExportsReplace};
ghost use Rattle.bitwarden_again_laws.specs.Example.{ExampleIsImported};

/// The documents that an export of Bitwarden gives at any two moments are an agreed set: each of its
/// items has one id whenever it is imported, and is in one group.
pub fn exports_agree()
    ensures { ExportsAgree }
{}

/// What is current of the merge of two of them is what is current of the later one.
pub fn exports_replace()
    ensures { ExportsReplace }
{}

/// An export with one item is imported at two moments, so the laws speak of something.
pub fn example_is_imported()
    ensures { ExampleIsImported }
{}
