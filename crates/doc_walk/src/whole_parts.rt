//! Steps over values of any type: what is known given back, appended, or put in its place.

ghost use Rattle.std.specs.Prelude.{◌≡◌, ◌∷◌, ◌++◌, [], Ok, Err, Some, MatchResult};
ghost use Rattle.std.specs.Result.{result_map_both};
ghost use Rattle.doc_forms.specs.Refusals.{Returns};

use doc_forms::DocFail;

/// What is known after a step of reading, unless it was refused.
pub fn known_after<T: Drop>(read: Result<(), DocFail>, known: T) -> Result<T, DocFail>
    ensures { result ≡ result_map_both (λ _. known) (λ e. e) read }
{
    match read {
        Ok(()) => Ok(known),
        Err(e) => Err(e),
    }
}

/// What is kept with what was read, unless that was refused.
pub fn kept_with<A: Drop, B: Drop>(kept: A, read: Result<B, DocFail>) -> Result<(A, B), DocFail>
    ensures { MatchResult result (λ both. (both.0 ≡ kept) × (read ≡ Ok both.1))
        (λ e. read ≡ Err e) }
{
    match read {
        Ok(read) => Ok((kept, read)),
        Err(e) => Err(e),
    }
}

/// Appends an item to others.
pub fn append<T: Drop>(list: &mut Vec<T>, item: T) -> Result<(), DocFail>
    ensures { Returns (λ _. list.new.items) result (Ok (list.old.items ++ item ∷ [])) }
{
    match list.push(item) {
        Ok(()) => Ok(()),
        Err(_) => Err(DocFail::NoMemory),
    }
}

/// Puts a value in its place.
pub fn put<T: Drop>(place: &mut Option<T>, value: T)
    ensures { place.new ≡ Some value }
{
    *place = Some(value);
}
