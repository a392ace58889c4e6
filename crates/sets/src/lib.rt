// No code: proofs/ has sums over sets of guests, and what becomes of them in a step in which some earn and some pay.
#![tactic(auto)]
