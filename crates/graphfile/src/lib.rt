// No code: specs/ says what a written commit-graph file is, and proofs/ what the reader finds in it.
#![tactic(auto)]
