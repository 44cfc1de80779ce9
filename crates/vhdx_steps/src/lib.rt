// The log's work on a file, step by step: definitions of the steps, of what torn and interrupted ones and power failures leave, and laws
// about them, which the crates that replay and close a log share. There is no code.
#![tactic(auto)]
