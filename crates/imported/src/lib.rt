// The theory of a book from a sheet: it is the book that the writer's own calls give, and a book comes back from its
// own sheet. No code.
#![tactic(auto)]
