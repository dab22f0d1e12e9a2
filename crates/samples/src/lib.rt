#![tactic(auto)]

// The samples from the bench: a table in specs/Samples.antt and one theorem over it. No code.
