// What correcting a book does, in the buyer's words: theorems about the definitions that the calls of `correcting` keep to. No code.
#![tactic(auto)]
