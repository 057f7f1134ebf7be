// What the contracts promise, as theorems over the definitions that they cite: specs/Starred.antt has the starred bodies of document 01, the
// other files wrong programs that are ruled out. Those named Operations go through the public operations crate by crate, and have what the
// others and the must-fail edits leave. There is no code here.
#![tactic(auto)]
