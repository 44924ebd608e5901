//! What holds of the blocks of a file, and of the answers of a block reader whatever the pieces were
//! that it was fed with. Each law is a function whose contract is the law; it computes
//! nothing.

ghost use Rattle.std.specs.Prelude.{◌≡◌, ℕ, ◌<◌, List, [], ◌++◌, length, slice_index, All, Bool, true, Result, Ok, Err, OnOk};
ghost use Rattle.mac_core.specs.Answers.{FeedReturns, Start};
ghost use Rattle.mac_core.specs.Blocks.{IsContent, block, blocks, concat_contents};
ghost use Rattle.mac_core.specs.Contents.{AreContents, contents_of};
ghost use Rattle.mac_core.specs.HashedBlocks.{AreHashed, hashed_contents_of};
ghost use Rattle.mac_core.specs.declared.fail.BlockFail.{BlockFail};

/// The same bytes have one answer, and where it is no refusal one output.
pub fn one_answer()
    ensures answer { (start : Start) (out other bytes : List ℕ) (x y : Result Bool BlockFail)
        → FeedReturns start out bytes x → FeedReturns start other bytes y → x ≡ y }
    ensures output { (start : Start) (out other bytes : List ℕ) (x : Result Bool BlockFail)
        → FeedReturns start out bytes x → FeedReturns start other bytes x → OnOk x (out ≡ other) }
{}

/// A refusal lasts for ever, and so does the end: bytes after it are passed over.
pub fn for_ever()
    ensures refused { (start : Start) (out other bytes more : List ℕ) (fail : BlockFail)
        → FeedReturns start out bytes (Err fail)
        → FeedReturns start other (bytes ++ more) (Err fail) }
    ensures ended { (start : Start) (out bytes more : List ℕ)
        → FeedReturns start out bytes (Ok true) → FeedReturns start out (bytes ++ more) (Ok true) }
{}

/// Right blocks and a right end block are read by any cut: the answer is true, and the output has
/// gained their contents.
pub fn read_back()
    ensures { (start : Start) (contents : List (List ℕ)) (tail out : List ℕ)
        (x : Result Bool BlockFail)
        → All IsContent contents
        → FeedReturns start out
        (blocks start.base 0 contents ++ block start.base (length contents) [] ++ tail) x
        → (x ≡ Ok true) × (out ≡ start.before ++ concat_contents contents) }
{}

/// `contents_of` has the value that is in the blocks, and where the bytes are bytes what it gives
/// is in the blocks. Contents that it gives are those of right blocks, whatever the numbers.
pub fn contents_of_blocks()
    ensures value { (base : List ℕ) (size : ℕ) (bytes : List ℕ) (x : Result (List ℕ) BlockFail)
        → AreContents base size bytes x → contents_of base size bytes ≡ x }
    ensures meaning { (base : List ℕ) (size : ℕ) (bytes : List ℕ)
        → ((i : ℕ) → slice_index bytes i < 256)
        → AreContents base size bytes (contents_of base size bytes) }
    ensures right { (base : List ℕ) (size : ℕ) (bytes content : List ℕ)
        → contents_of base size bytes ≡ Ok content → AreContents base size bytes (Ok content) }
{}

/// `hashed_contents_of` gives the contents of right hashed blocks and a right end block, whatever
/// follows them; and contents that it gives are those of such blocks.
pub fn contents_of_hashed_blocks()
    ensures value { (size : ℕ) (bytes : List ℕ) (contents : List (List ℕ))
        → AreHashed bytes contents
        → hashed_contents_of size bytes ≡ Ok (concat_contents contents) }
    ensures right { (size : ℕ) (bytes content : List ℕ)
        → hashed_contents_of size bytes ≡ Ok content
        → (contents : List (List ℕ))
        × (AreHashed bytes contents × (content ≡ concat_contents contents)) }
{}
