//! Worked cases of the definitions of `vault_model`: the orders of what versions and groups say,
//! the newest version of an entry, and a new database. There is no code here. What each case gives
//! is worked out by hand from what the documents say: the parts count in their order, texts and
//! bytes by their bytes, false below true, nothing below something, lists as dictionaries order
//! words.
#![tactic(auto)]
