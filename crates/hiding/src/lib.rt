// No code: theorems about what any openings and calls hand out that differ in their hidden tips alone.
#![tactic(auto)]
