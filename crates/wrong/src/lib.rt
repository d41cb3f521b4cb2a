// No code: wrong responders and collectors, each refused by a statement of `demands`.
#![tactic(auto)]
