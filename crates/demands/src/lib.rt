// No code: our user's demands as theorems over the one `step` of `rules`, which the promises of the code cite.
#![tactic(auto)]
