//! Texts as they are compared and decoded, as definitions. The code that does it is in `text_core`.
#![tactic(auto)]
