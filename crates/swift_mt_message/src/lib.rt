// The Rust as definitions, one module of specs/ for each of its files; that document 01's definitions equal it: specs/Equal.antt; and
// that it gives the answers that the Rust gave: specs/Listed.antt. There is no code here.
#![tactic(auto)]
