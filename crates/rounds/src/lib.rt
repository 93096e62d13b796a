// The rounds of a peel for one k, found over any network and kept in lanes of numbers.
#![tactic(auto)]
