// No code: theorems about the graph files that `graphwrite` writes.
#![tactic(auto)]
