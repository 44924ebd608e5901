//! The definitions that laws on calls are said in: under which conditions a call is carried out, which
//! files agree on what words name, and what histories of calls are. It has no code.
#![tactic(auto)]
