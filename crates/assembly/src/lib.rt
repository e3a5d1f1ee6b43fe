// What a log and a bag of items are assembled to (document 02, W3): definitions, the claim and its laws, no
// code.
#![tactic(auto)]
