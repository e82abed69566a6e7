// What fetching a page and going a key's way come to in a run: lemmas.
#![tactic(auto)]
