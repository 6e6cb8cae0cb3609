// No code: a store beside its own written graph file always passes the tested opening.
#![tactic(auto)]
