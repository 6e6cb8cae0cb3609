// No code: theorems about what openings, calls and reports give over two stores that differ only in feed digits of embargoed commits.
#![tactic(auto)]
