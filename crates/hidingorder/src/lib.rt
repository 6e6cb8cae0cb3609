// No code: theorems about the order in which openings and calls that differ in their hidden tips alone hand out what they leave.
#![tactic(auto)]
