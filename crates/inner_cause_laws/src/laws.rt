//! The laws that each refusal of inner fields has its cause in the bytes. Each function has a law as
//! its contract; it does nothing, and takes no memory.

ghost use Rattle.inner_cause_laws.specs.Examples.{ExampleRefusals};
ghost use Rattle.inner_cause_laws.specs.InnerCauses.{InnerRefusalsHaveCauses};

/// A text whose inner fields are refused has the cause of its refusal: after whole fields the text
/// ends within a field; the number of the stream, or its key, is there a second time; that number is
/// not four bytes, or a binary has no byte of flags; or field 0 comes before the number or the key.
pub fn inner_fields()
    ensures { InnerRefusalsHaveCauses }
{}

/// The law speaks of something: a few bytes that are refused, in each of these ways.
pub fn example_refusals()
    ensures { ExampleRefusals }
{}
