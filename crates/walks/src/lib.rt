// No code: proofs/Said.antt has what each proof by hand cites, that of a thin function over a struct that holds a reference or is lent by `&mut`.
#![tactic(auto)]
