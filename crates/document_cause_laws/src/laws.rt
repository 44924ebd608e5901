//! The laws that each refusal of the text of a document has its cause in the text. Each function has
//! laws as its contract; it does nothing, and takes no memory.

ghost use Rattle.document_cause_laws.specs.DocumentCauses.{DocumentRefusalsHaveCauses};
ghost use Rattle.document_cause_laws.specs.Examples.{ExampleDepths, ExampleFaults, ExampleRefusals};

/// A text that is refused has the cause of its refusal: it leaves the grammar of markup, or opens
/// too many elements, at the offset; the element at the offset, of the kind that is due there, says
/// what is not of its form, hides what is no base64, is compressed, lies too deep, is one node too
/// many, has no id or the nil id, or is a second `Root` or root group; an element is missing; two
/// nodes have the id; or an attachment refers to no binary.
pub fn texts()
    ensures { DocumentRefusalsHaveCauses }
{}

/// The law speaks of something: a few texts that are refused.
pub fn example_refusals()
    ensures refusals { ExampleRefusals }
    ensures faults { ExampleFaults }
    ensures depths { ExampleDepths }
{}
